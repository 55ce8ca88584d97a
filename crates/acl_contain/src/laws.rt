//! Laws of what lists grant at most, of the most that a list may keep under a bound, and of the questions of a list.

ghost use Rattle.std.specs.Prelude.{◌↔◌, ◌≡◌};
ghost use Rattle.acl_normal.specs.Common.{Ace, all_rights, IsAccepted, IsNormalFormOf, List, SameGrants, full, ℕ};
ghost use Rattle.acl_eval.specs.Grant.{GrantsAtMost};
ghost use Rattle.acl_contain.specs.EveryPath.{AtMostEverywhere, IsGreatestEverywhere};
ghost use Rattle.acl_contain.specs.Questions.{AskEachSet, AskFew, QuestionsSuffice};
ghost use Rattle.acl_contain.specs.Removal.{IsGreatestRemoval, IsRemoval};

/// Containment of grants: a list contains itself, what a contained list contains is contained too, and two lists grant
/// the same if and only if each contains the other; the normal form of a list may replace it on either side.
pub fn containment()
    ensures both_ways { (rights : ℕ) (list other : List Ace) → SameGrants rights list other
        ↔ (GrantsAtMost rights list other × GrantsAtMost rights other list) }
    ensures reflexive { (rights : ℕ) (list : List Ace) → GrantsAtMost rights list list }
    ensures transitive { (rights : ℕ) (list other third : List Ace) → GrantsAtMost rights list other
        → GrantsAtMost rights other third → GrantsAtMost rights list third }
    ensures normal_forms { (list other form other_form : List Ace) → IsNormalFormOf list form
        → IsNormalFormOf other other_form
        → GrantsAtMost all_rights list other ↔ GrantsAtMost all_rights form other_form }
{}

/// What a list keeps if rights are taken out of its ALLOWs until it grants at most what a bound grants: there is one
/// list that keeps most, and every other list that is made so is made of that one by taking out more.
pub fn greatest_removal()
    // Taking rights out of ALLOWs grants nobody more.
    ensures less { (list cut : List Ace) → IsRemoval list cut → GrantsAtMost all_rights cut list }
    // There is a greatest removal, and only one.
    ensures exists { (list bound : List Ace) → IsAccepted full list → IsAccepted full bound
        → (cut : List Ace) × IsGreatestRemoval list bound cut }
    ensures unique { (list bound cut other : List Ace) → IsGreatestRemoval list bound cut
        → IsGreatestRemoval list bound other → other ≡ cut }
    // It is the list itself if and only if the list grants at most what the bound grants.
    ensures unchanged { (list bound cut : List Ace) → IsGreatestRemoval list bound cut
        → (cut ≡ list) ↔ GrantsAtMost all_rights list bound }
    // A bound that grants no less takes no more.
    ensures wider { (list bound wide cut more : List Ace) → GrantsAtMost all_rights bound wide
        → IsGreatestRemoval list bound cut → IsGreatestRemoval list wide more → IsRemoval more cut }
{}

/// What a list keeps if rights are taken out of its ALLOWs until, at every path of creations, it grants at most what a
/// bound grants there: there is one list that keeps most, and every other list that is made so is made of that one by
/// taking out more.
pub fn greatest_removal_everywhere()
    // Taking rights out of ALLOWs grants nobody more at any path.
    ensures less { (list cut : List Ace) → IsRemoval list cut → AtMostEverywhere cut list }
    // There is a greatest removal, and only one.
    ensures exists { (list bound : List Ace) → IsAccepted full list → IsAccepted full bound
        → (cut : List Ace) × IsGreatestEverywhere list bound cut }
    ensures unique { (list bound cut other : List Ace) → IsGreatestEverywhere list bound cut
        → IsGreatestEverywhere list bound other → other ≡ cut }
    // It is the list itself if and only if the list grants at most what the bound grants at every path.
    ensures unchanged { (list bound cut : List Ace) → IsGreatestEverywhere list bound cut
        → (cut ≡ list) ↔ AtMostEverywhere list bound }
    // It is made of what the list keeps under the bound on the object alone, by taking out more.
    ensures less_than_here { (list bound cut more : List Ace) → IsGreatestEverywhere list bound cut
        → IsGreatestRemoval list bound more → IsRemoval more cut }
    // A bound that grants no less at every path takes no more.
    ensures wider { (list bound wide cut more : List Ace) → AtMostEverywhere bound wide
        → IsGreatestEverywhere list bound cut → IsGreatestEverywhere list wide more
        → IsRemoval more cut }
{}

/// What the questions of a list show: a list that mentions no other principals, and answers each question as the list
/// does, grants the same to everybody.
pub fn questions_suffice()
    ensures same { QuestionsSuffice }
    // There is one for each set of at most two mentioned principals that one requester can match, and no other.
    ensures sets { AskEachSet }
    ensures few { AskFew }
{
    acl_normal::laws::small_situations_suffice();
}
