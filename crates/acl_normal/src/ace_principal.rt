//! Whom an ACE names. The last byte of the who is read first, because only the special identifiers end in `@`.
ghost use Rattle.std.specs.Prelude.{◌≡◌};
ghost use Rattle.acl_normal.specs.Common.{ace, principal, principal_of};

use acl_nfs4::AceRef;
use acl_perm::{Key, Principal};

/// Returns the key of the ACE: whom it names, and its kind.
#[inline(always)]
pub(crate) fn key<'a>(item: &AceRef<'a>) -> Key<'a>
    ensures principal { principal result.principal ≡ principal_of (ace item.now) }
    ensures kind { result.kind ≡ item.now.kind }
{
    Key {
        principal: whom(item),
        kind: item.kind,
    }
}

/// Returns whom the ACE names, as `AceRef::principal` does, but compares the who with a special identifier only if it
/// ends in `@`.
#[inline(always)]
#[tactic(auto, using(crate::proofs::Whoms::plain_who))]
pub(crate) fn whom<'a>(item: &AceRef<'a>) -> Principal<'a>
    ensures { principal result ≡ principal_of (ace item.now) }
{
    if item.who.last() == Some(&b'@') {
        item.principal()
    } else if item.flags.is_group() {
        Principal::GroupNamed(item.who)
    } else {
        Principal::User(item.who)
    }
}
