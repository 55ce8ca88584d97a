//! `calc-mask`: the canonical text of a file with its mask calculated.
ghost use Rattle.aclck.specs.Common.{RunsCommand};
ghost use Rattle.aclck.specs.commands.CalcMask.{calc_mask};

use crate::answer::{Outcome, RunFault};
use crate::input::posix::{read_file, write_file};
use acl_perm::{Sink, Source};
use acl_posix::{AclTextForm, Names};
use std::alloc::Global;

/// Writes the canonical text of the file that the input spells, with the mask of its access ACL calculated, and added
/// if there is none (POSIX.1e draft 17, section 23.4); the default ACL stays. Nothing is written before the input is
/// accepted. Fails if the input is refused, if a read or a write fails, or if memory runs out.
pub fn run_calc_mask<S: Source, K: Sink>(
    alloc: Global,
    source: &mut S,
    sink: &mut K,
    names: &Names,
) -> Result<Outcome, RunFault>
    ensures { RunsCommand calc_mask names.now
        S.remaining S.failure_count source.old source.new
        K.contents K.failure_count sink.old sink.new result }
{
    let mut file = read_file(alloc, source, names)?;
    file.access.calc_mask()?;
    write_file(alloc, sink, file, AclTextForm::Canonical)
}
