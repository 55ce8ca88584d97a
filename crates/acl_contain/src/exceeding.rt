//! What one list grants and another denies: the first small situation of an excess.
ghost use Rattle.std.specs.Prelude.{◌↔◌, ◌≡◌, IsNone};
ghost use Rattle.acl_normal.specs.Common.{all_rights, IfOk, IfSome, IsOk, true};
ghost use Rattle.acl_eval.specs.Grant.{GrantsAtMost};
ghost use Rattle.acl_normal.specs.Difference.{situation_of};
ghost use Rattle.acl_normal.specs.Excess.{IsFirstExcess};
ghost use Rattle.acl_normal.specs.SmallSets.{TellsApart};

use acl_nfs4::{Acl, AclView};
use acl_normal::Difference;
use acl_normal::internal::{Direction, searched};
use std::alloc::{AllocError, Global};

/// Returns the first of the small situations of two lists in which the first list grants a right and the second list
/// denies it, with the lowest such right there; or `None` if the second list grants whatever the first grants, in every
/// situation (this library's own, over RFC 8881, section 6.2.1). So it answers whether a list grants anybody more than
/// another list does. It takes time and memory as [`acl_normal::compare`] does. Fails if memory runs out.
///
/// ```rust
/// let policy = parse_text(alloc, b"DENY - WRITE_DATA bob\nALLOW - READ_DATA|WRITE_DATA EVERYONE@\n")?;
/// let list = parse_text(alloc, b"ALLOW - READ_DATA|WRITE_DATA EVERYONE@\n")?;
/// let more = excess(alloc, &list, &policy)?.ok_or("the list grants no more")?;
/// assert!(rt; more.user.as_slice() == b"bob".as_slice() && more.bit == Mask::WRITE_DATA);
/// assert!(rt; excess(alloc, &policy, &list)?.is_none());
/// ```
pub fn excess(alloc: Global, first: &Acl, second: &Acl) -> Result<Option<Difference>, AllocError>
    // None if and only if the second list grants whatever the first grants.
    ensures contained { IfOk result (λ r. IsNone r ↔ GrantsAtMost all_rights first.now second.now) }
    // Otherwise the first small situation in which the first list grants a right and the second denies it, and the
    // lowest such right there.
    ensures first { IfOk result (λ r. IfSome r (λ d. IsFirstExcess first.now second.now
        (situation_of d) d.bit.bits)) }
    // Its names are names of an object and a requester, to whom the first list grants that right and the second does
    // not.
    ensures requester { IfOk result (λ r. IfSome r (λ d. TellsApart first.now second.now
        (situation_of d) d.bit.bits true)) }
    ensures grants { IfOk result (λ r. IfSome r (λ d. d.first_grants ≡ true)) }
    // For equal lists memory never runs out.
    ensures equal { first.now ≡ second.now → IsOk result }
{
    if *first == *second {
        return Ok(None);
    }
    excess_of_views(alloc, &first.view(), &second.view())
}

// Answers as `excess` does, for the lists of two views. It copies neither list, and does not look first whether they
// are equal.
fn excess_of_views(
    alloc: Global,
    first: &AclView<'_>,
    second: &AclView<'_>,
) -> Result<Option<Difference>, AllocError>
    ensures contained { IfOk result (λ r. IsNone r ↔ GrantsAtMost all_rights first.now second.now) }
    ensures first { IfOk result (λ r. IfSome r (λ d. IsFirstExcess first.now second.now
        (situation_of d) d.bit.bits)) }
    ensures requester { IfOk result (λ r. IfSome r (λ d. TellsApart first.now second.now
        (situation_of d) d.bit.bits true)) }
    ensures grants { IfOk result (λ r. IfSome r (λ d. d.first_grants ≡ true)) }
{
    searched(alloc, Direction::Over, first, second)
}
