//! `encode`: the bytes that spell the list of a text.
ghost use Rattle.acl_nfs4.specs.AceText.{IsAceText};
ghost use Rattle.std.specs.Prelude.{◌≡◌, ◌⊎◌};
ghost use Rattle.aclck.specs.Common.{IfErr, IfOk, RunsCommand, is_input_fault, profile_of, true};
ghost use Rattle.aclck.specs.commands.Encode.{IsNfsTextFault, encode};

use crate::answer::{Outcome, RunFault, write_list_answer};
use acl_nfs4::{AceTextFault, Acl, parse_text_with};
use acl_perm::{Profile, Sink, Source, read_all};
use std::alloc::Global;

/// Reads the whole input as the text of a list, and writes the bytes that spell the list (RFC 4506 over RFC 8881,
/// section 6.2.1; the text is this library's own). Nothing is written before the input is accepted as the text of a
/// list of the profile. Fails if the input is refused, if a read or a write fails, or if memory runs out.
pub fn run_encode<S: Source, K: Sink>(
    alloc: Global,
    source: &mut S,
    sink: &mut K,
    profile: Profile,
) -> Result<Outcome, RunFault>
    ensures { RunsCommand encode (profile_of profile)
        S.remaining S.failure_count source.old source.new
        K.contents K.failure_count sink.old sink.new result }
{
    let input = read_all(alloc, source)?;
    let list = list_of_text(alloc, input, profile)?;
    write_list_answer(sink, &list)
}

fn list_of_text(alloc: Global, input: Vec<u8>, profile: Profile) -> Result<Acl, RunFault>
    ensures read { IfOk result (λ list. IsAceText (profile_of profile) list input.items) }
    ensures refused { IfErr result (λ e. (e ≡ RunFault.Memory)
        ⊎ ((is_input_fault e ≡ true) × IsNfsTextFault (profile_of profile) input.items e)) }
{
    match parse_text_with(alloc, &input, profile) {
        Ok(list) => Ok(list),
        Err(AceTextFault::Memory) => Err(RunFault::Memory),
        Err(fault) => Err(RunFault::NfsText(fault)),
    }
}
