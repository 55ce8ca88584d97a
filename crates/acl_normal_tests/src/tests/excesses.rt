//! Where one list grants more than another: all pairs of short lists over a few principals, for which both searches and
//! `grants` (RFC 8881, section 6.2.1) must say the same.

use super::differences::is_shown_by_grants;
use super::harness::{GROUP, READ_DATA};
use super::small_situations::same_difference;
use acl_lists_for_tests::{ALLOW, AceRow, DENY, built, kept};
use acl_nfs4::{Acl, PushFault};
use acl_normal::internal::{Direction, searched};
use acl_normal::{compare, plain};
use std::alloc::{AllocError, Global};
use std::process::Abort;

// The rows of the short lists.
static FEW: [AceRow; 10] = [
    (ALLOW, 0, READ_DATA, b"OWNER@"),
    (DENY, 0, READ_DATA, b"OWNER@"),
    (ALLOW, 0, READ_DATA, b"a"),
    (DENY, 0, READ_DATA, b"a"),
    (ALLOW, 0, READ_DATA, b"b"),
    (DENY, 0, READ_DATA, b"b"),
    (ALLOW, GROUP, READ_DATA, b"a"),
    (DENY, GROUP, READ_DATA, b"a"),
    (ALLOW, 0, READ_DATA, b"EVERYONE@"),
    (DENY, 0, READ_DATA, b"EVERYONE@"),
];

// At most two of the rows, by a number.
fn short_rows(alloc: Global, number: usize) -> Result<Vec<AceRow>, AllocError> {
    let mut rows = Vec::new(alloc);
    for place in [number / 11, number % 11] {
        if let Some(row) = FEW.get(place) {
            rows.push(*row)?;
        }
    }
    Ok(rows)
}

// The list of the rows with this number.
fn short_list(alloc: Global, number: usize) -> Result<Acl, PushFault> {
    let rows = kept(short_rows(alloc, number))?;
    built(alloc, &rows)
}

// Returns whether there is an excess. The plain search must find the same one, and `grants` must show it.
fn exceeds(rt: &impl Abort, alloc: Global, first: &Acl, second: &Acl) -> Result<bool, AllocError> {
    let found = searched(alloc, Direction::Over, &first.view(), &second.view())?;
    assert!(rt; same_difference(&found, &plain::excess(alloc, first, second)?));
    match &found {
        None => Ok(false),
        Some(d) => {
            assert!(rt; d.first_grants && is_shown_by_grants(first, second, d));
            Ok(true)
        }
    }
}

mod ample {
    use super::*;

    #[test]
    fn the_search_over_a_list_finds_the_same_as_the_plain_search_for_all_short_lists(
        rt: HostRuntime,
    ) -> Result<(), PushFault> {
        let alloc = rt.alloc();
        let mut more = 0u32;
        for number in 0..121 {
            for other in 0..121 {
                let first = short_list(alloc, number)?;
                let second = short_list(alloc, other)?;
                let over = kept(exceeds(&rt, alloc, &first, &second))?;
                let under = kept(exceeds(&rt, alloc, &second, &first))?;
                // Containment both ways is that both grant the same.
                let is_same = kept(compare(alloc, &first, &second))?.is_none();
                assert!(rt; is_same == (!over && !under));
                more = more.saturating_add(u32::from(over));
            }
        }
        assert!(rt; more > 1_000, "{more}");
        Ok(())
    }
}
