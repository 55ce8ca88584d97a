//! `show-nfs`: the text of a list.
ghost use Rattle.aclck.specs.Common.{RunsCommand, profile_of};
ghost use Rattle.aclck.specs.commands.ShowNfs.{show_nfs};

use crate::answer::{Outcome, RunFault, write_answer};
use crate::input::xdr::read_list;
use acl_perm::{Profile, Sink, Source};
use std::alloc::Global;

/// Writes the text of the list that the whole input spells (this library's own, over RFC 8881, section 6.2.1). Nothing
/// is written before the input is accepted as a list of the profile. Nothing is read after a refusal. Fails if the
/// input is refused, if a read or a write fails, or if memory runs out.
pub fn run_show_nfs<S: Source, K: Sink>(
    alloc: Global,
    source: &mut S,
    sink: &mut K,
    profile: Profile,
) -> Result<Outcome, RunFault>
    ensures { RunsCommand show_nfs (profile_of profile)
        S.remaining S.failure_count source.old source.new
        K.contents K.failure_count sink.old sink.new result }
{
    let text = read_list(alloc, source, profile)?.to_text(alloc)?;
    write_answer(sink, Outcome::Yes, text.as_slice())
}
