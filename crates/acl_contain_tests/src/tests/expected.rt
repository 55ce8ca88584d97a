//! Whether an answer is the difference that a row of a table expects.

use acl_normal::Difference;

/// A difference: the owner, the owning group, the user, the groups, the right, and whether the first list grants it.
pub type Expected = (
    &'static [u8],
    &'static [u8],
    &'static [u8],
    &'static [&'static [u8]],
    u32,
    bool,
);

/// Returns whether the names are the others, in order.
pub fn same_names(names: &[Vec<u8>], others: &[&[u8]]) -> bool {
    for (name, other) in names.iter().zip(others) {
        if name.as_slice() != *other {
            return false;
        }
    }
    names.len() == others.len()
}

fn is_as_expected(
    d: &Difference,
    (owner, group, user, groups, right, first_grants): Expected,
) -> bool {
    d.owner.as_slice() == owner
        && d.group.as_slice() == group
        && d.user.as_slice() == user
        && same_names(&d.groups, groups)
        && d.bit.bits() == right
        && d.first_grants == first_grants
}

/// Returns whether the answer is the expected one.
pub fn is_expected(answer: &Option<Difference>, expected: Option<Expected>) -> bool {
    match (answer, expected) {
        (None, None) => true,
        (Some(d), Some(expected)) => is_as_expected(d, expected),
        _ => false,
    }
}
