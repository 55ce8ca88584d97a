//! Laws of what a list answers where it names special identifiers that nobody knows.
ghost use Rattle.std.specs.Prelude.{◌≡◌, ◌↔◌, ◌++◌, ℕ, List};
ghost use Rattle.acl_perm.specs.Bits.{IsSubset};
ghost use Rattle.acl_perm.specs.Situation.{IsSituation, Situation};
ghost use Rattle.acl_nfs4.specs.UnknownGroups.{HasFreeNames, with_groups};
ghost use Rattle.acl_decide.specs.Memberships.{IsApart, joining};
ghost use Rattle.acl_decide.specs.Unknown.{Assignment, GrantsUnder, answer_under};
ghost use Rattle.acl_nfs4.specs.Ace.{Ace};
ghost use Rattle.acl_eval.specs.Deciding.{deciding_kind};
ghost use Rattle.acl_eval.specs.Grant.{Grant, SameGrants};

/// A list in which groups stand for unknown special identifiers answers for a requester whom an assignment gives the
/// groups of its identifiers as the identifiers do under the assignment, if the groups that the requester has
/// otherwise, and the owning group, have other names.
pub fn groups_answer_as_assigned()
    ensures decided { (suffix : List ℕ) (list : List Ace) (v : Assignment) (s : Situation) (bit : ℕ)
        → HasFreeNames suffix list → IsApart suffix list s
        → deciding_kind (with_groups suffix list) (joining v suffix list s) bit
        ≡ answer_under v list s bit }
    ensures grants { (suffix : List ℕ) (list : List Ace) (v : Assignment) (s : Situation)
        (request : ℕ) → HasFreeNames suffix list → IsApart suffix list s
        → Grant (with_groups suffix list) (joining v suffix list s) request
        ↔ GrantsUnder v list s request }
{}

/// If two lists in which groups stand for unknown special identifiers grant the same, then the lists of these
/// identifiers grant the same under every assignment of matches to them.
pub fn same_grants_under_every_assignment()
    ensures { (rights : ℕ) (suffix : List ℕ) (list other : List Ace)
        → HasFreeNames suffix (list ++ other)
        → SameGrants rights (with_groups suffix list) (with_groups suffix other)
        → (v : Assignment) (s : Situation) → IsApart suffix (list ++ other) s
        → IsSituation (joining v suffix (list ++ other) s) → (request : ℕ) → IsSubset request rights
        → GrantsUnder v list s request ↔ GrantsUnder v other s request }
{}
