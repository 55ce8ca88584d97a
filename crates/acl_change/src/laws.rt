//! Laws of the list after a change of the mode, and of the list for one object.
ghost use Rattle.std.specs.Prelude.{◌≡◌, ◌↔◌, ◌≤◌, ℕ, List, IsFalse, IsTrue, None, Some};
ghost use Rattle.acl_perm.specs.Bits.{has_bit, all_mode_bits};
ghost use Rattle.acl_perm.specs.Situation.{IsName, Situation, matches};
ghost use Rattle.acl_nfs4.specs.Ace.{Ace};
ghost use Rattle.acl_perm.specs.Mode.{group_part};
ghost use Rattle.acl_perm.specs.Principal.{owner};
ghost use Rattle.acl_perm.specs.declared.kind.Kind.{Kind};
ghost use Rattle.acl_eval.specs.Grant.{Grant, GrantsAtMost, SameGrants, grants_bit};
ghost use Rattle.acl_eval.specs.Inheritance.{children};
ghost use Rattle.acl_eval.specs.Bridge.{image};
ghost use Rattle.acl_eval.specs.Column.{column, first_kind};
ghost use Rattle.acl_change.specs.ListChmod.{chmod_list, is_granted_after, mode_rights, named_aces};
ghost use Rattle.acl_eval.specs.ListMode.{mode_of_list};
ghost use Rattle.acl_eval.specs.declared.inherit.ChildKind.{ChildKind};
ghost use Rattle.acl_change.specs.Resolved.{GrantsAtMostFor, SameGrantsFor, first_nameless, resolved_list};
ghost use Rattle.acl_eval.specs.Situation.{named_situation};

/// After a change of the mode, read, write and execute are granted to the owner by the bits of the owner, to anybody
/// else by the first ACE of a name that has the right, within the bits of the group, and without such an ACE by the
/// bits of the group or of others; all other rights are granted as before.
pub fn chmod_grants()
    // Read, write and execute are granted by the mode and by the first ACE of a name.
    ensures by_mode { (mode : ℕ) (list : List Ace) (s : Situation) (bit : ℕ) → mode ≤ all_mode_bits
        → IsTrue (has_bit mode_rights bit)
        → grants_bit (chmod_list mode list) s bit ≡ is_granted_after (matches s) mode list bit }
    // A requester who is not the owner, and whom an ACE names for a right, gets it only if the group has it.
    ensures names { (mode : ℕ) (list : List Ace) (s : Situation) (bit : ℕ) (kind : Kind)
        → mode ≤ all_mode_bits → IsTrue (has_bit mode_rights bit) → IsFalse (matches s owner)
        → first_kind (matches s) (column (named_aces list) bit) ≡ Some kind
        → IsTrue (grants_bit (chmod_list mode list) s bit)
        → IsTrue (has_bit (image (group_part mode)) bit) }
    // All other rights are granted as before.
    ensures as_before { (mode : ℕ) (list : List Ace) (s : Situation) (bit : ℕ)
        → mode ≤ all_mode_bits → IsFalse (has_bit mode_rights bit)
        → grants_bit (chmod_list mode list) s bit ≡ grants_bit list s bit }
{}

/// After a change of the mode, the list has this mode.
pub fn chmod_mode()
    ensures { (mode : ℕ) (list : List Ace) → mode ≤ all_mode_bits
        → mode_of_list (chmod_list mode list) ≡ mode }
{}

/// After a change of the mode, new objects inherit what they inherited before.
pub fn chmod_inheritance()
    ensures { (kind : ChildKind) (mode : ℕ) (list : List Ace)
        → children kind (chmod_list mode list) ≡ children kind list }
{}

/// The list for one object, in which its owner and its owning group stand for `OWNER@` and `GROUP@`, grants each
/// requester of whatever object what the first list grants for that one; so two such lists grant the same, or the first
/// at most what the second grants, if and only if this is so for the object.
pub fn resolved_for_the_object()
    // Whatever object it is asked for, it grants each requester what the list grants for that one object.
    ensures grants { (owner_name owning_group : List ℕ) (list : List Ace) (s : Situation)
        (request : ℕ) → first_nameless owner_name owning_group list ≡ None
        → Grant (resolved_list owner_name owning_group list) s request
        ↔ Grant list (named_situation owner_name owning_group s.user_name s.groups) request }
    // So two such lists grant the same if and only if both lists grant the same for the object.
    ensures same { (owner_name owning_group : List ℕ) (rights : ℕ) (list other : List Ace)
        → IsName owner_name → IsName owning_group
        → first_nameless owner_name owning_group list ≡ None
        → first_nameless owner_name owning_group other ≡ None
        → SameGrants rights (resolved_list owner_name owning_group list)
        (resolved_list owner_name owning_group other)
        ↔ SameGrantsFor owner_name owning_group rights list other }
    // And the first of two such lists grants at most what the second grants if and only if this is so for the object.
    ensures at_most { (owner_name owning_group : List ℕ) (rights : ℕ) (list other : List Ace)
        → IsName owner_name → IsName owning_group
        → first_nameless owner_name owning_group list ≡ None
        → first_nameless owner_name owning_group other ≡ None
        → GrantsAtMost rights (resolved_list owner_name owning_group list)
        (resolved_list owner_name owning_group other)
        ↔ GrantsAtMostFor owner_name owning_group rights list other }
{}
