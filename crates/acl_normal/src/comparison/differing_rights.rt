//! The rights on which two lists may differ, found by one walk over both.
ghost use Rattle.std.specs.Prelude.{◌≡◌, ◌≤◌};
ghost use Rattle.acl_normal.specs.Common.{ace, aces_in, AreWhoms, length, List, Principal};
ghost use Rattle.acl_normal.specs.internal.comparison.RightsApart.{AreApart, HasOpenBits, have_same_key};

use super::direction::Direction;
use super::evaluation::rights_of;
use super::placing::Whom;
use acl_nfs4::AceRef;
use acl_perm::{Kind, Mask};

// How many ACEs ahead the principal of an ACE is searched for.
const NEAR: usize = 32;

/// What an ACE says about some rights: whom it names, and whether it allows or denies them.
#[derive(Clone, Copy)]
struct Statement {
    whom: Whom,
    kind: Kind,
    rights: Mask,
}

/// Returns the rights on which two lists may differ: for every other right, both have the same ACEs in the same order.
/// The lists are read together. If their next ACEs have the same key, the rights that only one of these ACEs has are
/// returned. Otherwise one list has an ACE that the other does not have there: its rights are returned, and the next ACE
/// of that list is read. ACEs that have no other right are skipped.
pub(crate) fn rights_apart(
    list: &[AceRef<'_>],
    whoms: &[Whom],
    other: &[AceRef<'_>],
    other_whoms: &[Whom],
) -> Mask
    requires whoms { length whoms.now ≡ length list.now }
    requires other_whoms { length other_whoms.now ≡ length other.now }
    ensures { (whole : List Principal) → AreWhoms whole (aces_in list.now) whoms.now
        → AreWhoms whole (aces_in other.now) other_whoms.now
        → AreApart (aces_in list.now) (aces_in other.now) result.bits }
{
    let mut apart = Mask::NONE;
    let mut here = 0;
    let mut there = 0;
    while here < list.len() && there < other.len() {
        let own = open_statement(&list[here], whoms[here], apart);
        let theirs = open_statement(&other[there], other_whoms[there], apart);
        if own.rights.bits() == 0 {
            here += 1;
        } else if theirs.rights.bits() == 0 {
            there += 1;
        } else if have_same_key(own, theirs) {
            apart = apart.union(Direction::Either.differing(own.rights, theirs.rights));
            here += 1;
            there += 1;
        } else if steps_to(own.whom, &other_whoms[there..])
            < steps_to(theirs.whom, &whoms[here..])
        {
            apart = apart.union(theirs.rights);
            there += 1;
        } else {
            apart = apart.union(own.rights);
            here += 1;
        }
    }
    apart
        .union(rights_of(&list[here..]))
        .union(rights_of(&other[there..]))
}

// Returns how many ACEs come before the next one of a principal, or `NEAR` if that is far. It only chooses which ACE is
// passed: with a bad choice, `rights_apart` returns more rights than needed.
fn steps_to(whom: Whom, ahead: &[Whom]) -> usize
    ensures { result ≤ NEAR }
{
    ahead
        .iter()
        .take(NEAR)
        .position(|next| next.is_same(whom))
        .unwrap_or(NEAR)
}

// Returns whether two ACEs name the same principal, and both allow or both deny.
fn have_same_key(own: Statement, theirs: Statement) -> bool
    ensures { result ≡ have_same_key own theirs }
{
    own.kind == theirs.kind && own.whom.is_same(theirs.whom)
}

// What an ACE says about all rights except those that are apart.
fn open_statement(item: &AceRef<'_>, whom: Whom, apart: Mask) -> Statement
    ensures rights { HasOpenBits (ace item.now) whom apart.bits result.rights.bits }
    ensures whom { result.whom ≡ whom }
    ensures kind { result.kind ≡ item.now.kind }
{
    let rights = match whom {
        Whom::Nobody => Mask::NONE,
        _ => item.mask.difference(apart),
    };
    Statement {
        whom,
        kind: item.kind,
        rights,
    }
}
