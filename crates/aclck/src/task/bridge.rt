//! `bridge`: the NFSv4 list of a POSIX ACL.
ghost use Rattle.aclck.specs.Common.{RunsCommand};
ghost use Rattle.aclck.specs.commands.Bridge.{bridge};

use crate::answer::{Outcome, RunFault, write_list_answer};
use crate::input::posix::read_file;
use acl_eval::{BridgeFault, bridge};
use acl_perm::{Sink, Source};
use acl_posix::Names;
use std::alloc::Global;

/// Writes the XDR of the NFSv4 list of the access ACL of the file that the input spells (this library's own, over
/// POSIX.1e draft 17, section 23, and RFC 8881, section 6.2.1). The default ACL does not change the list, but if it is
/// invalid, the input is refused. Nothing is written before the list is ready. Fails if the input is refused, if a read
/// or a write fails, or if memory runs out.
pub fn run_bridge<S: Source, K: Sink>(
    alloc: Global,
    source: &mut S,
    sink: &mut K,
    names: &Names,
) -> Result<Outcome, RunFault>
    ensures { RunsCommand bridge names.now
        S.remaining S.failure_count source.old source.new
        K.contents K.failure_count sink.old sink.new result }
{
    let file = read_file(alloc, source, names)?;
    match bridge(alloc, &file.access) {
        Ok(list) => write_list_answer(sink, &list),
        Err(BridgeFault::Limits) => Err(RunFault::Limits),
        Err(BridgeFault::Memory) => Err(RunFault::Memory),
    }
}
