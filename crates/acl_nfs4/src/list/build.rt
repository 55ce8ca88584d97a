//! A list from an array of ACEs.
ghost use Rattle.std.specs.Prelude.{◌≡◌, IfErr, IfOk, map};
ghost use Rattle.acl_nfs4.specs.Ace.{ace};
ghost use Rattle.acl_nfs4.specs.Build.{IsBuildFault, PushesNext};

use crate::ace::AceRef;
use crate::list::acl::Acl;
use crate::list::push_fault::PushFault;
use std::alloc::Global;
use thiserror::Error;

/// Why an array of ACEs is not a list, and which ACE is refused.
#[derive(Clone, Copy, Debug, PartialEq, Eq, Error)]
#[error("{fault} at ACE {place}")]
pub struct BuildFault {
    /// The place of the ACE in the array, from 0.
    pub place: usize,
    /// Why the list does not accept the ACE.
    pub fault: PushFault,
}

impl Acl {
    /// Returns the list of these ACEs (RFC 8881, section 6.2.1), in their order. Fails with the place of the first ACE
    /// that `push` refuses after the ACEs before it, and with its fault. Takes time linear in the bytes of the ACEs.
    pub fn from_aces(alloc: Global, aces: &[AceRef<'_>]) -> Result<Acl, BuildFault>
        ensures ok { IfOk result (λ list. list ≡ map ace aces.now) }
        ensures fault { IfErr result (IsBuildFault (map ace aces.now)) }
    {
        list_of(alloc, aces)
    }
}

fn list_of(alloc: Global, aces: &[AceRef<'_>]) -> Result<Acl, BuildFault>
    ensures ok { IfOk result (λ list. list ≡ map ace aces.now) }
    ensures fault { IfErr result (IsBuildFault (map ace aces.now)) }
{
    let mut list = Acl::new(alloc);
    for item in aces {
        push_next(&mut list, *item)?;
    }
    Ok(list)
}

// Adds an ACE. A fault has the place that the ACE would have.
fn push_next(list: &mut Acl, item: AceRef<'_>) -> Result<(), BuildFault>
    ensures { PushesNext result list.old list.new (ace item.entry) }
{
    match list.push(item) {
        Ok(()) => Ok(()),
        Err(fault) => Err(BuildFault {
            place: list.len(),
            fault,
        }),
    }
}
