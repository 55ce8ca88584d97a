//! `mode`: the mode of a list.
ghost use Rattle.std.specs.Prelude.{◌≡◌};
ghost use Rattle.aclck.specs.Common.{RunsCommand, profile_of};
ghost use Rattle.aclck.specs.commands.ListMode.{mode, mode_line, octal_digit};

use crate::answer::{Outcome, RunFault, write_answer};
use crate::input::xdr::read_list;
use acl_eval::mode_of;
use acl_perm::{Mode, Perm, Profile, Sink, Source};
use std::alloc::Global;

/// Writes the mode of the list that the whole input spells (RFC 8881, section 6.3.2), as three octal digits and a line
/// feed. Nothing is written before the input is accepted as a list of the profile. Nothing is read after a refusal.
/// Fails if the input is refused, if a read or a write fails, or if memory runs out.
pub fn run_mode<S: Source, K: Sink>(
    alloc: Global,
    source: &mut S,
    sink: &mut K,
    profile: Profile,
) -> Result<Outcome, RunFault>
    ensures { RunsCommand mode (profile_of profile)
        S.remaining S.failure_count source.old source.new
        K.contents K.failure_count sink.old sink.new result }
{
    let line = mode_line(mode_of(read_list(alloc, source, profile)?.aces()));
    write_answer(sink, Outcome::Yes, &line)
}

// The three octal digits of a mode, and a line feed.
fn mode_line(mode: Mode) -> [u8; 4]
    ensures { result ≡ mode_line mode.bits }
{
    [
        octal_digit(mode.owner()),
        octal_digit(mode.group()),
        octal_digit(mode.others()),
        b'\n',
    ]
}

fn octal_digit(perm: Perm) -> u8
    ensures { result ≡ octal_digit perm.bits }
{
    b'0' + perm.bits()
}
