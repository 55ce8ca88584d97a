//! The result of an engine.
ghost use Rattle.std.specs.Prelude.{◌≡◌};
ghost use Rattle.acl_nfs4.specs.Spelling.{spelling};
ghost use Rattle.aclck.specs.Answer.{origin_of, decision_line, is_yes, run_fault_of};
ghost use Rattle.aclck.specs.internal.Writing.{WritesText};

use acl_nfs4::{AceTextFault, Acl, Fault, InputFault, WriteFault};
use acl_perm::{Sink, put_all};
use acl_posix::TextFault;
use std::alloc::AllocError;
use thiserror::Error;

/// The outcome of a command that ran to its end. Its exit status is 0 for Yes and 1 for No.
#[derive(Clone, Copy, Debug, PartialEq, Eq)]
pub enum Outcome {
    /// The answer is `granted` or `same`, or the command decides nothing and its whole output was written.
    Yes,
    /// The answer is denied or different.
    No,
}

impl Outcome {
    /// Returns Yes for something that is granted, and No for something that is not.
    pub(crate) fn of(is_granted: bool) -> Outcome
        ensures { is_yes result ≡ is_granted }
    {
        if is_granted {
            Outcome::Yes
        } else {
            Outcome::No
        }
    }
}

/// Why a command did not run to its end.
#[derive(Clone, Copy, Debug, PartialEq, Eq, Error)]
pub enum RunFault {
    /// The input is not an accepted NFSv4 list.
    #[error("{0}")]
    Nfs(Fault),
    /// The input is not the text of an accepted NFSv4 list.
    #[error("{0}")]
    NfsText(AceTextFault),
    /// The input is not the text of a POSIX ACL.
    #[error("{0}")]
    Posix(TextFault),
    /// The list that would be written is above a limit.
    #[error("Limits")]
    Limits,
    #[error("read failed")]
    Read,
    #[error("write failed")]
    Write(WriteFault),
    #[error("out of memory")]
    Memory,
}

impl From<InputFault> for RunFault {
    ghost from_gives = { λ fault run. run ≡ run_fault_of fault };

    fn from(fault: InputFault) -> RunFault {
        match fault {
            InputFault::Read => RunFault::Read,
            InputFault::Memory => RunFault::Memory,
        }
    }
}

impl From<WriteFault> for RunFault {
    ghost use Rattle.aclck.specs.declared.answer.RunFault.TheVariants.{Write};

    ghost from_gives = { λ fault run. run ≡ Write fault };

    fn from(fault: WriteFault) -> RunFault {
        RunFault::Write(fault)
    }
}

/// Where a fault comes from.
#[derive(Clone, Copy)]
pub enum Origin {
    /// The input is refused.
    Input,
    /// The source failed.
    Source,
    /// The sink failed, with this fault.
    Sink(WriteFault),
    /// Memory ran out.
    Memory,
}

impl RunFault {
    /// Returns where the fault comes from. The exit status follows from this.
    pub(crate) fn origin(self) -> Origin
        ensures { result ≡ origin_of self }
    {
        match self {
            RunFault::Nfs(_) | RunFault::NfsText(_) | RunFault::Posix(_) | RunFault::Limits =>
                Origin::Input,
            RunFault::Read => Origin::Source,
            RunFault::Write(fault) => Origin::Sink(fault),
            RunFault::Memory => Origin::Memory,
        }
    }
}

impl From<AllocError> for RunFault {
    ghost use Rattle.aclck.specs.declared.answer.RunFault.TheVariants.{Memory};

    ghost from_gives = { λ _ run. run ≡ Memory };

    fn from(_: AllocError) -> RunFault {
        RunFault::Memory
    }
}

/// Returns `granted` or `denied`, with a line feed.
pub(crate) fn decision_line(outcome: Outcome) -> &'static [u8]
    ensures { result.now ≡ decision_line outcome }
{
    match outcome {
        Outcome::Yes => b"granted\n",
        Outcome::No => b"denied\n",
    }
}

/// Writes the whole text of an answer, and returns the outcome. Fails if the sink fails.
pub(crate) fn write_answer<K: Sink>(
    sink: &mut K,
    outcome: Outcome,
    text: &[u8],
) -> Result<Outcome, RunFault>
    ensures { WritesText outcome text.now K.contents K.failure_count sink.old sink.new result }
{
    put_all(sink, text)?;
    Ok(outcome)
}

/// Writes the bytes that spell a list, and returns Yes. Fails if the sink fails.
pub(crate) fn write_list_answer<K: Sink>(sink: &mut K, list: &Acl) -> Result<Outcome, RunFault>
    ensures { WritesText Outcome.Yes (spelling list.now)
        K.contents K.failure_count sink.old sink.new result }
{
    list.encode(sink)?;
    Ok(Outcome::Yes)
}
