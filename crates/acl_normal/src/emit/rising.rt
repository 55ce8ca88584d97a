//! Lists whose keys rise. Such a list is its own normal form, except for flags that do not say whom an ACE names.
ghost use Rattle.std.specs.Prelude.{◌<◌, ◌≡◌};
ghost use Rattle.acl_normal.specs.Common.{ace, aces_with, all_cleared, AreRowNumbers, full, IfOk, IsAccepted, IsRising, IsTrue, left, length};
ghost use Rattle.acl_normal.specs.internal.emit.Rising.{cleared};
ghost use Rattle.acl_normal.specs.internal.Limits.{list_limit};

use crate::emit::emission::key_number;
use crate::normal_form::flags_of;
use acl_nfs4::{AceRef, Acl};
use acl_perm::Mask;
use std::alloc::{AllocError, Global};

/// Returns whether the keys of the ACEs that still have rights rise strictly. `rows` has the row of the principal of
/// each ACE.
pub(crate) fn rises(aces: &[AceRef<'_>], masks: &[Mask], rows: &[usize]) -> bool
    requires few { length aces.now < list_limit }
    requires masks { length masks.now ≡ length aces.now }
    requires rows { AreRowNumbers (aces_with aces.now masks.now) rows.now }
    ensures { IsTrue result → IsRising (left (aces_with aces.now masks.now)) }
{
    let mut bound = 0;
    for (place, ace) in aces.iter().enumerate() {
        let mask = masks[place];
        if mask.bits != 0 {
            let number = key_number(rows[place], ace.kind);
            if number < bound {
                return false;
            }
            bound = number + 1;
        }
    }
    true
}

/// Returns the list of the ACEs that still have rights. Only the flags that say whom an ACE names are kept.
pub(crate) fn cleared(alloc: Global, aces: &[AceRef<'_>], masks: &[Mask]) -> Result<Acl, AllocError>
    requires masks { length masks.now ≡ length aces.now }
    requires accepted { IsAccepted full
        (all_cleared (left (aces_with aces.now masks.now))) }
    ensures { IfOk result (λ list. list
        ≡ all_cleared (left (aces_with aces.now masks.now))) }
{
    let mut list = Acl::new(alloc);
    for (place, ace) in aces.iter().enumerate() {
        let mask = masks[place];
        if mask.bits != 0 {
            // Only the flags that say whom an ACE names stay.
            list.push_accepted(AceRef {
                flags: flags_of(ace.principal()),
                mask,
                ..*ace
            })?;
        }
    }
    Ok(list)
}
