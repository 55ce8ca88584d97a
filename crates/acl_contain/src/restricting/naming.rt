//! Which of the principals that a list and its bound mention each ACE names.
ghost use Rattle.std.specs.Prelude.{◌≡◌};
ghost use Rattle.acl_normal.specs.Common.{IfOk, ace, aces_in};
ghost use Rattle.acl_contain.specs.internal.Limits.{IsNaming, bound_of, denial, denials};

use super::named::Named;
use acl_nfs4::AceRef;
use acl_normal::internal::{Column, mentioned};
use acl_perm::{Mask, Principal};
use std::alloc::{AllocError, Global};

impl<'a> Named<'a> {
    pub(crate) fn of(
        alloc: Global,
        aces: &[AceRef<'a>],
        others: &[AceRef<'a>],
    ) -> Result<Named<'a>, AllocError>
        ensures named { IfOk result (IsNaming (aces_in aces.now)) }
        ensures bound { IfOk result (λ named. bound_of named ≡ aces_in others.now) }
    {
        let mentions = mentioned(alloc, aces, others)?;
        let (first, second) = mentions.whoms.as_slice().split_at(aces.len());
        let list = Column {
            aces: denials(alloc, aces)?,
            whoms: copied(alloc, first)?,
        };
        let bound = Column {
            aces: copied(alloc, others)?,
            whoms: copied(alloc, second)?,
        };
        let mut whole = mentions.principals;
        whole.push(Principal::Everyone)?;
        Ok(Named { whole, list, bound })
    }
}

fn copied<X: Copy>(alloc: Global, items: &[X]) -> Result<Vec<X>, AllocError>
    ensures { IfOk result (λ copy. copy.items ≡ items.now) }
{
    let mut copy = Vec::with_capacity(alloc, items.len())?;
    copy.extend_from_slice(items)?;
    Ok(copy)
}

// The ACEs of a list, but that the ALLOWs have no rights.
fn denials<'a>(alloc: Global, aces: &[AceRef<'a>]) -> Result<Vec<AceRef<'a>>, AllocError>
    ensures { IfOk result (λ found. aces_in found.items ≡ denials (aces_in aces.now)) }
{
    let mut found = Vec::with_capacity(alloc, aces.len())?;
    for item in aces {
        found.push(denial(*item))?;
    }
    Ok(found)
}

// The ACE, without rights if it is an ALLOW.
fn denial<'a>(item: AceRef<'a>) -> AceRef<'a>
    ensures { ace result ≡ denial (ace item.entry) }
{
    if item.kind.is_allow() {
        AceRef {
            mask: Mask::NONE,
            ..item
        }
    } else {
        item
    }
}
