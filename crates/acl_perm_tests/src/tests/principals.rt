//! Principals and kinds: their order, which is this library's own (docs/reference/lists.md, "Order and overlap"), when
//! they are equal, and which principals some requester can match together (RFC 8881, section 6.2.1.5).

use super::harness::is_shown;
use acl_perm::*;

// Principals in their order, with their ranks and their names.
static RISING: [(Principal<'static>, u8, &[u8]); 8] = [
    (Principal::Owner, 0, b""),
    (Principal::User(b"a"), 1, b"a"),
    (Principal::User(b"ab"), 1, b"ab"),
    (Principal::User(b"b"), 1, b"b"),
    (Principal::Group, 2, b""),
    (Principal::GroupNamed(b"a"), 3, b"a"),
    (Principal::GroupNamed(b"b"), 3, b"b"),
    (Principal::Everyone, 4, b""),
];

fn are_keys_in_order(
    principal: Principal<'_>,
    i: usize,
    other: Principal<'_>,
    j: usize,
    kind: Kind,
) -> bool {
    let key = Key { principal, kind };
    let allow = Key {
        principal: other,
        kind: Kind::Allow,
    };
    let is_before = i < j || i == j && kind == Kind::Deny;
    let is_same = i == j && kind == Kind::Allow;
    (key < allow) == is_before && (key == allow) == is_same
}

fn are_principals_in_order(
    principal: Principal<'_>,
    i: usize,
    other: Principal<'_>,
    j: usize,
) -> bool {
    principal.cmp(&other) == i.cmp(&j)
        && (principal < other) == (i < j)
        && (principal == other) == (i == j)
}

// Only two different users do not overlap.
#[test]
fn principals_and_keys_are_in_rising_order_and_users_are_apart(rt: HostRuntime) {
    for (i, (principal, rank, _)) in RISING.iter().enumerate() {
        for (j, (other, other_rank, _)) in RISING.iter().enumerate() {
            assert!(rt;
                are_principals_in_order(*principal, i, *other, j),
                "{i} and {j}"
            );
            assert!(rt; are_keys_in_order(*principal, i, *other, j, Kind::Deny));
            assert!(rt; are_keys_in_order(*principal, i, *other, j, Kind::Allow));
            let is_apart = *rank == 1 && *other_rank == 1 && i != j;
            assert!(rt; overlaps(*principal, *other) != is_apart, "{i} and {j}");
        }
    }
}

// Only users have rank 1, and only `EVERYONE@` has rank 4.
#[test]
fn each_principal_has_its_rank_and_its_name(rt: HostRuntime) {
    for (principal, rank, name) in RISING {
        assert!(rt; principal.rank() == rank);
        assert!(rt; principal.is_user() == (rank == 1), "{rank}");
        assert!(rt; principal.is_everyone() == (rank == 4), "{rank}");
        assert!(rt; principal.name() == name, "{rank}");
    }
}

// The numbers and the names of ACE4_ACCESS_ALLOWED_ACE_TYPE and ACE4_ACCESS_DENIED_ACE_TYPE in RFC 8881, section
// 6.2.1.1.
static KINDS: [(Kind, Kind, bool, u32, &str); 2] = [
    (Kind::Allow, Kind::Deny, true, 0, "ALLOW"),
    (Kind::Deny, Kind::Allow, false, 1, "DENY"),
];

#[test]
fn each_kind_has_its_other_kind_its_number_and_its_name(rt: HostRuntime) {
    for (kind, other, is_allow, number, name) in KINDS {
        assert!(rt; kind.other() == other, "{name}");
        assert!(rt; kind.is_allow() == is_allow, "{name}");
        assert!(rt; kind.number() == number, "{name}");
        assert!(rt; is_shown(rt.alloc(), &kind, name), "{name}");
    }
}
