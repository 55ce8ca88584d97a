//! Laws of normal forms.

ghost use Rattle.std.specs.Prelude.{◌↔◌, ◌≡◌};
ghost use Rattle.acl_normal.specs.Common.{Ace, all_rights, false, five_spellings, has_bit, IsIrreducibleList, IsNormal, IsProfile, List, Normalizes, Profile, SameGrants, ℕ};
ghost use Rattle.acl_perm.specs.Situation.{Situation};
ghost use Rattle.acl_nfs4.specs.Spelling.{Fits, Xdr};
ghost use Rattle.acl_eval.specs.Grant.{grants_bit};
ghost use Rattle.acl_normal.specs.FiveForms.{AreSpelledAlike, TellApart};
ghost use Rattle.acl_normal.specs.Laws.{HaveSameKeys, HaveSameOrder, IsForm, IsFormOfAccepted, SpellingsTellApart};
ghost use Rattle.acl_normal.specs.Paths.{SameAtEveryPath, SameAtFive};
ghost use Rattle.acl_normal.specs.SmallSets.{AnswersSuffice, SmallSituationsSuffice};

/// In irreducible lists that grant the same, each principal has the same rights, with the same kinds.
pub fn same_bits()
    ensures { (list other : List Ace) → IsIrreducibleList list → IsIrreducibleList other
        → SameGrants all_rights list other → HaveSameKeys list other }
{}

/// In irreducible lists that grant the same, each two conflicting keys of a right are in the same order.
pub fn same_order()
    ensures { (list other : List Ace) → IsIrreducibleList list → IsIrreducibleList other
        → SameGrants all_rights list other → HaveSameOrder list other }
{}

/// Normal lists that grant the same are equal.
pub fn one_normal_form()
    ensures { (list other : List Ace) → IsNormal list → IsNormal other
        → SameGrants all_rights list other
        → list ≡ other }
{}

/// A list that fits a profile denies every right outside it, so two such lists grant the same rights of the profile if
/// and only if they grant the same rights.
pub fn nothing_outside_a_profile()
    ensures denied { (p : Profile) (list : List Ace) (s : Situation) (bit : ℕ) → Fits p list
        → has_bit p.masks bit ≡ false → grants_bit list s bit ≡ false }
    ensures same { (p : Profile) (list other : List Ace) → IsProfile p → Fits p list → Fits p other
        → SameGrants p.masks list other ↔ SameGrants all_rights list other }
{}

/// The bytes to which two spelled lists normalize are equal if and only if the lists grant the same, under every
/// profile; bytes that spell a normal form normalize to themselves.
pub fn normal_bytes_tell_apart()
    ensures apart { (p : Profile) (a b x y : List ℕ) (source other : List Ace) → IsProfile p
        → Xdr p source a → Xdr p other b → Normalizes p a x → Normalizes p b y
        → (x ≡ y) ↔ SameGrants p.masks source other }
    ensures twice { (p : Profile) (a x y : List ℕ) → IsProfile p
        → Normalizes p a x → Normalizes p x y → x ≡ y }
{
    equal_bytes();
    acl_nfs4::laws::one_spelling();
}

/// Normal lists with the grants of two sources have equal spellings if and only if the sources grant the same, under
/// each profile under which they are accepted.
pub fn equal_bytes()
    ensures spelled { SpellingsTellApart IsForm }
    // So the bytes of the normal forms of two accepted lists show whether these grant the same.
    ensures forms { SpellingsTellApart IsFormOfAccepted }
{}

/// Two lists that agree in each of their small situations grant the same in every situation, and any test of two
/// answers of the lists, for one right or for two, passes in every situation if it passes in each small one.
pub fn small_situations_suffice()
    // Two lists that agree in each of their small situations grant the same in every situation.
    ensures same { SmallSituationsSuffice }
    // Each test of two answers of the lists, for one right or for two, passes in every situation if it passes in each
    // small one.
    ensures any { AnswersSuffice }
{}

/// Lists grant the same at every path of creations if and only if they grant the same at five: the directory itself, a
/// new file, a new directory, and a new file and a new directory in that new directory.
pub fn five_paths_suffice()
    ensures { (rights : ℕ) (list other : List Ace) → SameAtFive rights list other
        ↔ SameAtEveryPath rights list other }
{}

/// For two lists that are accepted under a profile each of these holds if and only if they grant the same at every path
/// of creations: their five normal forms are equal; the spellings of these are equal in pairs; the five spellings one
/// after the other are equal.
pub fn five_forms_tell_apart()
    // Equal forms show it.
    ensures forms { TellApart (λ five other. five ≡ other) }
    // Equal spellings of the forms at each path show it.
    ensures spelled { TellApart AreSpelledAlike }
    // Equal bytes of all five spellings, one after the other, show it.
    ensures joined { TellApart (λ five other. five_spellings five ≡ five_spellings other) }
{}
