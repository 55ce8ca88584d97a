//! The POSIX ACL of an NFSv4 list.
ghost use Rattle.std.specs.Prelude.{◌≡◌, ◌≤◌, ◌↔◌, IfErr, IfOk, IfSome, IsTrue, None};
ghost use Rattle.acl_ids.specs.Ids.{HaveIds, with_ids};
ghost use Rattle.acl_to_posix.specs.ListNames.{AreFewNames, AreNamesOf};
ghost use Rattle.acl_to_posix.specs.LostGrants.{IsExact, IsLossOf, KeepsSingles};
ghost use Rattle.acl_to_posix.specs.PosixOfList.{IsExactIfAny, IsGreatestOfShape, IsMaximal, IsPosixOf, IsToPosixFault};
ghost use Rattle.acl_to_posix.specs.ToPosix.{IsSound, size_of};
ghost use Rattle.acl_to_posix.specs.internal.ShapeBody.{most_names};
ghost use Rattle.acl_to_posix.specs.internal.ListNamesBody.{named_shape};
ghost use Rattle.acl_to_posix.specs.declared.posix_shape.ShapeFault.TheVariants.{Memory};

use crate::list_names::{NamedIds, bounded_names};
use crate::losing::{LostGrant, first_lost};
use crate::posix_shape::{ShapeFault, best_of_columns};
use crate::pruning::pruned;
use crate::tag_column::columns_of;
use acl_ids::first_unknown;
use acl_nfs4::AclView;
use acl_posix::{Names, PosixAcl};
use std::alloc::{AllocError, Global};

/// The POSIX ACL of a list, and what the list grants and the ACL does not.
#[derive(Debug, Drop)]
pub struct ToPosix {
    /// The ACL.
    pub acl: PosixAcl,
    /// A permission that the list grants and the ACL does not, if there is one.
    pub lost: Option<LostGrant>,
}

impl ToPosix {
    /// Returns whether the ACL grants read, write and execute, each alone, exactly where the list does.
    pub fn exact(&self) -> bool
        ensures { IsTrue result ↔ self.now.lost ≡ None }
    {
        self.lost.is_none()
    }
}

/// Returns the POSIX ACL of an NFSv4 list by one rule, which never grants more than the list: read only if the list
/// grants READ_DATA, write only if it grants WRITE_DATA and APPEND_DATA, and execute only if it grants EXECUTE. ACEs
/// with INHERIT_ONLY do not count. The id of a name is that of the table, and otherwise the number whose decimal digits
/// the name is.
///
/// The rule starts with the users and the groups that the list names in ACEs with one of these rights, and takes out
/// those whose entries can go without loss (`laws::entries_decide_loss`), until none can. The ACL has entries for the
/// users and the groups that are left: an entry has a permission if and only if the list grants its rights in every
/// situation in which the access check of acl(5) looks at the entry, whoever owns the file. There is a MASK if and only
/// if a user or a group is left, and it takes nothing away. No rule grants most for every list (`laws::no_greatest`).
///
/// `lost` is a permission that the list grants and the ACL does not, with an object and a requester for which this is
/// so, as `lost_grant` finds it. Without one the ACL is exact: it grants read, write and execute, each alone, exactly
/// where the list does.
///
/// Fails with `NoId` for the first ACE whose user or group has no id, also if the ACE takes no part, then with
/// `TooManyNames` if the list names more than `most` users and groups, and with `Memory` if memory runs out. It stops
/// at the first name above the bound. The time is at most proportional to the number of ACEs times the number of users
/// and groups, plus the cube of the number of users and groups, besides the look-ups of names. Of the users and groups
/// that the list names, at most `most` and one more count for this.
///
/// ```rust
/// let list = parse_text(alloc, b"ALLOW - READ_DATA OWNER@\nALLOW - READ_DATA GROUP@\nDENY - READ_DATA 1000")?;
/// let made = to_posix(alloc, &list.view(), &Names::new(alloc), 256)?;
/// assert!(rt; made.exact() && made.acl.get(Tag::GroupObj) == Some(Perm::READ));
/// ```
pub fn to_posix(
    alloc: Global,
    list: &AclView<'_>,
    names: &Names,
    most: u16,
) -> Result<ToPosix, ShapeFault>
    // Whatever the ACL grants, the list grants.
    ensures sound { IfOk result (λ made. IsSound (with_ids names.now list.now) made.acl) }
    // Which users and groups have entries, and what each entry has.
    ensures rule { IfOk result (λ made. IsPosixOf names.now list.now made.acl) }
    // No sound ACL with entries for the same users and groups grants more.
    ensures greatest { IfOk result (λ made.
        IsGreatestOfShape (with_ids names.now list.now) made.acl) }
    // Nor does one with entries for users and groups that the list names, unless it grants read, write or execute alone
    // less often.
    ensures maximal { IfOk result (λ made. IsMaximal names.now list.now made.acl) }
    // What is lost, the list grants, and the ACL does not.
    ensures lost { IfOk result (λ made.
        IfSome made.lost (IsLossOf (with_ids names.now list.now) made.acl)) }
    // Nothing is lost if and only if both agree about read, write and execute, each alone, in every situation.
    ensures exact { IfOk result (λ made.
        made.lost ≡ None ↔ IsExact (with_ids names.now list.now) made.acl) }
    // Nothing is lost if any POSIX ACL is exact.
    ensures most { IfOk result (λ made. IsExactIfAny (with_ids names.now list.now) made.acl) }
    // An ACL is returned only if the list names at most `most` users and groups.
    ensures few { IfOk result (λ _. AreFewNames most names.now list.now) }
    ensures fault { IfErr result (IsToPosixFault names.now list.now most) }
{
    if let Some(place) = first_unknown(list, names) {
        return Err(ShapeFault::NoId(place));
    }
    let named = bounded_names(alloc, list, names, usize::from(most))?;
    Ok(made_of_names(alloc, list, names, &named)?)
}

// Returns the ACL of a list in which each name has an id, and that names these users and groups, and what is lost.
// Fails only if memory runs out.
fn made_of_names(
    alloc: Global,
    list: &AclView<'_>,
    names: &Names,
    named: &NamedIds,
) -> Result<ToPosix, AllocError>
    requires known { HaveIds names.now list.now }
    requires few { size_of (named_shape named.now) ≤ most_names }
    ensures rule { AreNamesOf names.now list.now (named_shape named.now)
        → IfOk result (λ made. IsPosixOf names.now list.now made.acl) }
    ensures maximal { AreNamesOf names.now list.now (named_shape named.now)
        → IfOk result (λ made. IsMaximal names.now list.now made.acl) }
    ensures most { AreNamesOf names.now list.now (named_shape named.now)
        → IfOk result (λ made. IsExactIfAny (with_ids names.now list.now) made.acl) }
    ensures lost { IfOk result (λ made.
        IfSome made.lost (IsLossOf (with_ids names.now list.now) made.acl)) }
    ensures kept { IfOk result (λ made.
        made.lost ≡ None → KeepsSingles (with_ids names.now list.now) made.acl) }
{
    let columns = columns_of(alloc, list, names)?;
    let rest = pruned(alloc, &columns, &named.shape())?;
    let acl = best_of_columns(alloc, &columns, &rest.shape())?;
    let lost = first_lost(alloc, &columns, &acl)?;
    // Called for its clause: a list has at most 65,536 ACEs.
    list.aces();
    Ok(ToPosix { acl, lost })
}
