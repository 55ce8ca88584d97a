//! The tables of this crate in ample memory, where a check may not answer that memory ran out, as it may in the file of
//! its subject. That file has the expected values and says where they are from.

use super::{
    asked_questions, equal_lists, excesses, holder_words, implications, needed_rights,
    restrictions, restrictions_everywhere, tidied_lists,
};
use acl_nfs4::PushFault;

#[test]
fn every_row_of_the_tables_holds_if_memory_is_ample(rt: HostRuntime) -> Result<(), PushFault> {
    let alloc = rt.alloc();
    asked_questions::needed_questions(&rt, alloc)?;
    asked_questions::worked_questions(&rt, alloc)?;
    equal_lists::equal_lists(&rt, alloc)?;
    excesses::worked_excesses(&rt, alloc)?;
    holder_words::holder_words(&rt, alloc)?;
    implications::worked_implications(&rt, alloc)?;
    needed_rights::needed_rights(&rt, alloc)?;
    restrictions::worked_restrictions(&rt, alloc)?;
    restrictions_everywhere::worked_restrictions(&rt, alloc)?;
    tidied_lists::tidied_lists(&rt, alloc)
}
