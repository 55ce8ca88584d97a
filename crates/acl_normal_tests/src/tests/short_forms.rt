//! The property that all ways to the normal form give equal lists: `normalize`, its way for short lists and its way for
//! long ones, below and above the number of ACEs at which it takes the other way, and the two plain ways, which share
//! nothing or little with it. Each way is compared with the others, over lists that look random, so no expected value
//! is written here.

use super::harness::{Dice, GROUP, READ_DATA, WRITE_DATA};
use acl_lists_for_tests::{ALLOW, AceRow, DENY, built, kept};
use acl_nfs4::{Acl, PushFault};
use acl_normal::internal::{long_form, short_form};
use acl_normal::{normalize, plain};
use std::alloc::{AllocError, Global};

// Whom the ACEs of the lists below name, and with which flags.
static NAMED: [(&[u8], u32); 6] = [
    (b"OWNER@", 0),
    (b"a", 0),
    (b"b", 0),
    (b"GROUP@", 0),
    (b"a", GROUP),
    (b"EVERYONE@", 0),
];

// One of 36 ACEs with one or two rights.
fn chosen(number: usize) -> AceRow {
    let (who, flags) = NAMED[number % 6];
    let kind = if number / 6 % 2 == 0 { DENY } else { ALLOW };
    let mask = match number / 12 % 3 {
        0 => READ_DATA,
        1 => WRITE_DATA,
        _ => READ_DATA | WRITE_DATA,
    };
    (kind, flags, mask, who)
}

fn chosen_rows(alloc: Global, count: usize, dice: &mut Dice) -> Result<Vec<AceRow>, AllocError> {
    let mut rows = Vec::new(alloc);
    for _place in 0..count {
        rows.push(chosen(dice.below(36) as usize))?;
    }
    Ok(rows)
}

fn chosen_list(alloc: Global, count: usize, dice: &mut Dice) -> Result<Acl, PushFault> {
    let rows = kept(chosen_rows(alloc, count, dice))?;
    built(alloc, &rows)
}

fn is_one_form(alloc: Global, list: &Acl) -> Result<bool, AllocError> {
    let form = normalize(alloc, list)?;
    let short = short_form(alloc, &list.view())?;
    let long = long_form(alloc, &list.view())?;
    let plain = plain::normalize(alloc, list)?;
    let by_rows = plain::normalize_by_rows(alloc, list)?;
    Ok(form == short && form == long && form == plain && form == by_rows)
}

mod ample {
    use super::*;

    // 2,400 lists of up to four ACEs, and some of 9, 10 and 11.
    #[test]
    fn both_bodies_give_equal_lists(rt: HostRuntime) -> Result<(), PushFault> {
        let mut dice = Dice { state: 1 };
        for round in 0..2400usize {
            let count = round % 4 + 1;
            let list = chosen_list(rt.alloc(), count, &mut dice)?;
            assert!(rt; kept(is_one_form(rt.alloc(), &list))?);
        }
        for count in 9..12usize {
            for _round in 0..20usize {
                let list = chosen_list(rt.alloc(), count, &mut dice)?;
                assert!(rt; list.len() == count);
                assert!(rt; kept(is_one_form(rt.alloc(), &list))?);
            }
        }
        Ok(())
    }
}
