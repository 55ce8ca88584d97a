//! The property that each table of the other files holds. If an allocation fails, a table stops with `Memory`. A second
//! test holds each table with ample memory.

use super::{list, parse, push, text};
use acl_nfs4::PushFault;
use std::alloc::Global;
use std::process::Abort;

fn tables(rt: &impl Abort, alloc: Global) -> Result<(), PushFault> {
    list::a_copy_is_the_same_list(rt, alloc)?;
    list::a_list_from_a_view_is_what_the_view_shows(rt, alloc)?;
    list::lists_are_ordered_by_their_bytes(rt, alloc)?;
    list::an_ace_is_shown_as_its_line(rt, alloc)?;
    list::a_principal_is_shown_as_its_who(rt, alloc)?;
    push::a_push_is_judged_by_its_who(rt, alloc)?;
    list::a_list_fits_the_profile_of_its_bits(rt, alloc)?;
    parse::the_weight_of_a_list_is_limited(rt, alloc)?;
    text::texts_spell_their_lists(rt, alloc)?;
    text::texts_that_spell_no_list_are_refused(rt, alloc)
}

#[test]
fn each_table_holds_unless_memory_runs_out(rt: HostRuntime) {
    assert!(rt; matches!(tables(&rt, rt.alloc()), Ok(()) | Err(PushFault::Memory)));
}

mod ample {
    use super::*;

    #[test]
    fn each_table_holds_with_ample_memory(rt: HostRuntime) {
        assert!(rt; tables(&rt, rt.alloc()) == Ok(()));
    }
}
