//! Whether a list grants a request.
ghost use Rattle.std.specs.Prelude.{◌≡◌, ◌↔◌, IfOk, IsTrue};
ghost use Rattle.acl_eval.specs.Situation.{situation};
ghost use Rattle.acl_eval.specs.Grant.{Grant};
ghost use Rattle.acl_eval.specs.Scan.{scan};
ghost use Rattle.acl_eval.specs.internal.Asked.{asked_situation};

use crate::matching::Matcher;
use crate::situation::{Object, Requester};
use crate::sorted_requester::SortedRequester;
use acl_nfs4::{Aces, AclView};
use acl_perm::{Kind, Mask};
use std::alloc::{AllocError, Global};

/// Returns whether the list grants the request, as `grants` does, for a requester in many groups. If the groups are
/// many and in no order, they are sorted first. Each group of the list is then looked up by binary search. So the time
/// is proportional to the number of ACEs and groups, times the logarithm of the number of groups, whatever the names
/// are. Returns an error if there is no memory for the sorted copy.
///
/// ```rust
/// let list = parse_text(alloc, b"DENY GROUP WRITE_DATA staff\nALLOW - WRITE_DATA EVERYONE@")?;
/// let object = Object::new(b"alice", b"staff").ok_or("a name is empty")?;
/// let bob = Requester::new(b"bob", &[b"users", b"staff"]).ok_or("a name is empty")?;
/// let may_write = grants_for_many_groups(alloc, &list.view(), &object, &bob, Mask::WRITE_DATA)?;
/// assert!(rt; !may_write);
/// ```
pub fn grants_for_many_groups(
    alloc: Global,
    list: &AclView<'_>,
    object: &Object<'_>,
    requester: &Requester<'_>,
    mask: Mask,
) -> Result<bool, AllocError>
    ensures { IfOk result (λ granted. IsTrue granted
        ↔ Grant list.now (situation object.now requester.now) mask.bits) }
{
    let sorted = SortedRequester::new(alloc, *requester, list.len())?;
    Ok(grants(list.aces(), object, &sorted.requester(), mask))
}

/// Returns whether the list grants the requester the whole mask on the object (RFC 8881, section 6.2.1): whether for
/// each right of the mask the first ACE without INHERIT_ONLY that has the right and matches the requester is an ALLOW.
/// A right that no ACE decides is denied. The empty mask is granted. The function reads the list once, stops as soon as
/// the answer is known, and takes no memory.
///
/// The group of an ACE is looked up among the groups of the requester: by binary search if there are many groups and
/// many ACEs and the groups are in the order of their bytes, and otherwise one by one, which takes up to a microsecond
/// for 1,000 groups. So in the worst case the time is proportional to the number of ACEs times the number of groups.
/// `grants_for_many_groups` is faster for many groups, and so is each question about the requester of a
/// `SortedRequester`.
///
/// ```rust
/// let list = parse_text(alloc, b"ALLOW - READ_DATA bob\nDENY - WRITE_DATA bob")?;
/// let object = Object::new(b"alice", b"staff").ok_or("a name is empty")?;
/// let bob = Requester::new(b"bob", &[]).ok_or("a name is empty")?;
/// assert!(rt; grants(list.aces(), &object, &bob, Mask::READ_DATA));
/// assert!(rt; !grants(list.aces(), &object, &bob, Mask::ALL));
/// ```
#[tactic(auto, using(crate::proofs::Scans::scan_is))]
pub fn grants(aces: Aces<'_>, object: &Object<'_>, requester: &Requester<'_>, mask: Mask) -> bool
    ensures { IsTrue result ↔ Grant aces.entry (situation object.now requester.now) mask.bits }
{
    let matcher = Matcher::new(*object, *requester, aces.len());
    scan(aces, &matcher, mask.bits())
}

// Returns whether the rights that are left of a request are granted. They are the bits of a number, as in the clause.
#[tactic(auto, using(crate::proofs::Scans::none_left))]
fn scan(aces: Aces<'_>, matcher: &Matcher<'_>, mut left: u32) -> bool
    ensures { result ≡ scan aces.entry (asked_situation matcher.now) left }
{
    if left == 0 {
        return true;
    }
    for ace in aces {
        let common = left & ace.mask.bits();
        if common != 0 && matcher.applies(&ace) {
            match ace.kind {
                Kind::Deny => return false,
                Kind::Allow if common == left => return true,
                Kind::Allow => left ^= common,
            }
        }
    }
    false
}
