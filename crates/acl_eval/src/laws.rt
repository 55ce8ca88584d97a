//! Laws of the evaluation, and of the list of a POSIX ACL.
ghost use Rattle.std.specs.Prelude.{◌≡◌, ◌↔◌, ◌^◌, ℕ, List, IsTrue, None, Some, false, not, true};
ghost use Rattle.acl_perm.specs.Bits.{has_bit, IsMask, inherit_only};
ghost use Rattle.acl_perm.specs.Situation.{Situation};
ghost use Rattle.acl_perm.specs.Profile.{Profile};
ghost use Rattle.acl_posix.specs.Check.{ids};
ghost use Rattle.acl_nfs4.specs.Ace.{Ace};
ghost use Rattle.acl_nfs4.specs.Spelling.{IsAccepted};
ghost use Rattle.acl_eval.specs.BridgeLaws.{AnswersAlike, GrantsSingles, KeepsGrants};
ghost use Rattle.acl_eval.specs.BridgeNames.{NamesDiffer, NamesAreValid, OnlyLimitsRefuse};
ghost use Rattle.acl_eval.specs.Deciding.{deciding_kind};
ghost use Rattle.acl_perm.specs.Principal.{owner};
ghost use Rattle.acl_perm.specs.declared.kind.Kind.TheVariants.{Allow};
ghost use Rattle.acl_eval.specs.Grant.{Grant, SameBits, SameColumns, SameGrants, grants_bit};
ghost use Rattle.acl_eval.specs.Inheritance.{child_flags, children, directory_inherit, ends, file_inherit, goes_on, no_propagate_inherit, waiting_flags};
ghost use Rattle.acl_eval.specs.InheritanceLaws.{IsByFlag};
ghost use Rattle.acl_eval.specs.Laws.{HaveSameNames, IsEquivalence};
ghost use Rattle.acl_eval.specs.ListMode.{mode_of_list};
ghost use Rattle.acl_eval.specs.declared.inherit.ChildKind.{ChildKind};
ghost use Rattle.acl_eval.specs.declared.inherit.ChildKind.TheVariants.{Directory, File};
ghost use Rattle.acl_eval.specs.Scan.{scan};
ghost use Rattle.acl_eval.specs.Unnamed.{unnamed};

use acl_perm::Perm;
use acl_posix::{Id, PosixAcl};

/// Granting the same is an equivalence of lists, within each set of rights.
#[tactic(auto, using(crate::proofs::Same::equivalence))]
pub fn same_grants_is_an_equivalence()
    ensures { (rights : ℕ) → IsEquivalence (SameGrants rights) }
{}

/// Two lists grant the same within a set of rights if and only if both grant each bit of it in the same situations, and
/// if and only if their columns of these bits decide alike.
pub fn same_grants_bit_by_bit()
    ensures bits { (rights : ℕ) (list other : List Ace)
        → SameGrants rights list other ↔ SameBits rights list other }
    ensures columns { (rights : ℕ) (list other : List Ace)
        → SameGrants rights list other ↔ SameColumns rights list other }
{}

/// The scan of the list ACE by ACE, in the words of RFC 8881, section 6.2.1, grants a request if and only if each of
/// its bits is granted by itself.
#[tactic(auto, using(crate::proofs::Scans::scan_is))]
pub fn scan_is_bit_by_bit()
    ensures { (list : List Ace) (s : Situation) (request : ℕ) → IsMask request
        → IsTrue (scan list s request) ↔ Grant list s request }
{}

/// A request is granted if and only if an ALLOW decides each of its rights.
pub fn allows_decide_what_is_granted()
    ensures { (list : List Ace) (s : Situation) (request : ℕ) → Grant list s request
        ↔ ((bit : ℕ) → IsTrue (has_bit request bit) → deciding_kind list s bit ≡ Some Allow) }
{}

/// A request for one right is granted if and only if that right is granted by itself, and if and only if the ACE that
/// decides the right is an ALLOW.
pub fn one_right()
    ensures alone { (list : List Ace) (s : Situation) (bit : ℕ)
        → Grant list s (2 ^ bit) ↔ IsTrue (grants_bit list s bit) }
    ensures decided { (list : List Ace) (s : Situation) (bit : ℕ)
        → IsTrue (grants_bit list s bit) ↔ (deciding_kind list s bit ≡ Some Allow) }
{}

/// Neither the order of a requester's groups nor a repeated group changes what a list grants: two requesters who differ
/// only in that are granted the same requests, and an ACE of the same kind decides each right.
pub fn groups_are_a_set()
    ensures requests { (list : List Ace) (s t : Situation) (request : ℕ)
        → HaveSameNames s t → Grant list s request ↔ Grant list t request }
    ensures kinds { (list : List Ace) (s t : Situation) (bit : ℕ)
        → HaveSameNames s t → deciding_kind list t bit ≡ deciding_kind list s bit }
{}

/// The flags of an ACE in a new file: no flag of inheritance, if the ACE has FILE_INHERIT; otherwise the file does not
/// have the ACE.
#[tactic(auto, using(crate::proofs::Children::table))]
pub fn files_inherit()
    ensures inherited { (flags : ℕ) → has_bit flags file_inherit ≡ true
        → child_flags File flags ≡ Some (ends flags) }
    ensures absent { (flags : ℕ)
        → (child_flags File flags ≡ None) ↔ (has_bit flags file_inherit ≡ false) }
{}

/// The flags of an ACE in a new directory, by whether it has NO_PROPAGATE_INHERIT, DIRECTORY_INHERIT and FILE_INHERIT.
#[tactic(auto, using(crate::proofs::Children::table))]
pub fn directories_inherit()
    ensures ended { (flags : ℕ) → has_bit flags no_propagate_inherit ≡ true
        → has_bit flags directory_inherit ≡ true → child_flags Directory flags ≡ Some (ends flags) }
    ensures ended_before { (flags : ℕ) → has_bit flags no_propagate_inherit ≡ true
        → has_bit flags directory_inherit ≡ false → child_flags Directory flags ≡ None }
    ensures inherited { (flags : ℕ) → has_bit flags no_propagate_inherit ≡ false
        → has_bit flags directory_inherit ≡ true
        → child_flags Directory flags ≡ Some (goes_on flags) }
    ensures for_files { (flags : ℕ) → has_bit flags no_propagate_inherit ≡ false
        → has_bit flags directory_inherit ≡ false → has_bit flags file_inherit ≡ true
        → child_flags Directory flags ≡ Some (waiting_flags flags) }
    ensures absent { (flags : ℕ) → has_bit flags no_propagate_inherit ≡ false
        → has_bit flags directory_inherit ≡ false → has_bit flags file_inherit ≡ false
        → child_flags Directory flags ≡ None }
{}

/// The flags of an ACE in a new object, flag by flag: a file does not pass the ACE on, nor does a directory if the ACE
/// has NO_PROPAGATE_INHERIT.
pub fn flag_by_flag()
    ensures files { (flags f : ℕ) → child_flags File flags ≡ Some f → IsByFlag false flags f }
    ensures directories { (flags f : ℕ) → child_flags Directory flags ≡ Some f
        → IsByFlag (not (has_bit flags no_propagate_inherit)) flags f }
{}

/// ACEs of user names and of group names do not change a mode.
pub fn names_have_no_mode()
    ensures { (list : List Ace) → mode_of_list (unnamed list) ≡ mode_of_list list }
{}

/// The child of an accepted list is accepted, under each profile with INHERIT_ONLY.
pub fn children_are_accepted()
    ensures { (p : Profile) (kind : ChildKind) (list : List Ace)
        → IsTrue (has_bit p.flags inherit_only)
        → IsAccepted p list → IsAccepted p (children kind list) }
{}

/// The list of a valid POSIX ACL grants read, write or execute alone if and only if the access check grants it, and
/// grants every set of permissions that the check grants.
pub fn bridge_grants()
    // Both grant one permission or neither does.
    ensures single { GrantsSingles }
    // The list grants together what the check grants together.
    ensures together { KeepsGrants }
{}

/// Different ids have different names in the list, which are decimal ids; each is a valid who and no special
/// identifier.
pub fn bridge_names()
    ensures differ { NamesDiffer }
    // Each name is valid, and none is a special identifier.
    ensures valid { NamesAreValid }
{}

/// The list of a valid ACL is accepted if and only if it is within the limits of length and weight.
pub fn bridge_limits()
    ensures { OnlyLimitsRefuse }
{}

/// Over the list of an ACL, `grants` answers for names as `PosixAcl::check` answers for their ids: the same for read,
/// write and execute each alone, and for any set at least what the check grants.
pub fn bridge_and_check(acl: &PosixAcl, owner: Id, group: Id, user: Id, groups: &[Id], want: Perm)
    ensures { AnswersAlike acl.now
        (record { user = owner.value; group = group.value })
        (record { user = user.value; groups = ids groups.now })
        want.bits }
{
    // Called for its clauses: the entries of an ACL are valid, and the law is about valid entries.
    acl.entries();
}
