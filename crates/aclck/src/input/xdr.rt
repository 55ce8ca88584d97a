//! Lists that an input spells, read as they arrive.
ghost use Rattle.std.specs.Prelude.{◌≡◌, ◌⊎◌, ◌<◌, ◌≤◌, Ok, OnErr, drop, length};
ghost use Rattle.std.specs.Io.KnownBytes.{Consumes, IsAtEnd, Keeps};
ghost use Rattle.acl_nfs4.specs.Spelling.{Xdr};
ghost use Rattle.acl_nfs4.specs.Stream.{FinishesStream};
ghost use Rattle.acl_nfs4.specs.internal.Progress.{IsBytes};
ghost use Rattle.aclck.specs.Common.{[], IfErr, IfOk, OnOk, failures_after, false, profile_of, true};
ghost use Rattle.aclck.specs.ListInput.{piece_len};
ghost use Rattle.aclck.specs.internal.Reading.{EndsNot, HasOffsetOfOneValue, IsReaderFault, FitsOneValue, ReadsInput, ReadsNone, ReadsValue, SpellsTwo, has_pull_failed, later, one_list_input, run_fault, two_list_input};

use crate::answer::RunFault;
use acl_nfs4::{Acl, Fault, Fed, Feed, Reason};
use acl_perm::{Profile, Source};
use std::alloc::Global;
use std::marker::Model;
use thiserror::Error;

/// Why a list was not read.
#[derive(Clone, Copy, Debug, PartialEq, Eq, Error)]
pub(crate) enum ListFault {
    /// The input is not an accepted list of the profile.
    #[error("{0}")]
    Refused(Fault),
    #[error("read failed")]
    Read,
    #[error("out of memory")]
    Memory,
}

impl From<ListFault> for RunFault {
    ghost from_gives = { λ fault run. run ≡ run_fault fault };

    fn from(fault: ListFault) -> RunFault {
        match fault {
            ListFault::Refused(fault) => RunFault::Nfs(fault),
            ListFault::Read => RunFault::Read,
            ListFault::Memory => RunFault::Memory,
        }
    }
}

impl From<Fault> for ListFault {
    ghost from_gives = { λ fault list. IsReaderFault list fault };

    fn from(fault: Fault) -> ListFault {
        if fault.reason == Reason::Memory {
            ListFault::Memory
        } else {
            ListFault::Refused(fault)
        }
    }
}

/// Reads an input that should be one list of the profile and nothing more, by pulls of at most 4,096 bytes. It reads
/// nothing after a refusal, or after a byte that follows the list.
pub(crate) fn read_list<S: Source>(
    alloc: Global,
    source: &mut S,
    profile: Profile,
) -> Result<Acl, RunFault>
    ensures { ReadsInput (one_list_input (profile_of profile)) (Xdr (profile_of profile))
        (S.remaining source.old) (S.remaining source.new)
        (S.failure_count source.old) (S.failure_count source.new) result }
{
    let mut pulled = LastPull::new();
    let Value { list, len } = read_value(alloc, source, &mut pulled, profile)?;
    read_end(source, &mut pulled, len)?;
    Ok(list)
}

/// The lists of an input that spells two, one after the other.
#[derive(Drop)]
pub(crate) struct TwoInputs {
    pub(crate) first: Acl,
    pub(crate) second: Acl,
}

/// Reads an input that should be two lists of the profile, one after the other, and nothing more, as `read_list` does.
/// A fault counts from the start of the input.
pub(crate) fn read_two<S: Source>(
    alloc: Global,
    source: &mut S,
    profile: Profile,
) -> Result<TwoInputs, RunFault>
    ensures { ReadsInput (two_list_input (profile_of profile))
        (SpellsTwo (profile_of profile)) (S.remaining source.old) (S.remaining source.new)
        (S.failure_count source.old) (S.failure_count source.new) result }
{
    let mut pulled = LastPull::new();
    let first = read_value(alloc, source, &mut pulled, profile)?;
    match read_value(alloc, source, &mut pulled, profile) {
        Ok(second) => {
            read_end(source, &mut pulled, first.len + second.len)?;
            Ok(TwoInputs {
                first: first.list,
                second: second.list,
            })
        }
        Err(fault) => Err(RunFault::from(behind(fault, first.len))),
    }
}

// Returns the fault with its place counted from the start of the input, if `len` bytes are before the list that has it.
fn behind(fault: ListFault, len: u64) -> ListFault
    requires fault { HasOffsetOfOneValue fault }
    requires len { FitsOneValue len }
    ensures { result ≡ later fault len }
{
    match fault {
        ListFault::Refused(found) => ListFault::Refused(Fault {
            offset: found.offset + len,
            reason: found.reason,
        }),
        ListFault::Read => ListFault::Read,
        ListFault::Memory => ListFault::Memory,
    }
}

/// A list from the front of an input, and how many bytes of the input spell it.
#[derive(Drop)]
pub(crate) struct Value {
    pub(crate) list: Acl,
    pub(crate) len: u64,
}

/// Reads one list of the profile, from the rest of the last pull on. It does not read what the input has after the
/// list. A fault counts from the list's first byte. After a refusal it reads nothing more.
pub(crate) fn read_value<S: Source>(
    alloc: Global,
    source: &mut S,
    pulled: &mut LastPull,
    profile: Profile,
) -> Result<Value, ListFault>
    ensures value { IfOk result (λ value. ReadsValue (profile_of profile) pulled.old pulled.new
        (S.remaining source.old) (S.remaining source.new) value.list value.len) }
    ensures short { IfOk result (λ value. FitsOneValue value.len) }
    ensures none { IfErr result (λ e. ReadsNone (profile_of profile) pulled.old
        (S.remaining source.old) (S.remaining source.new) e) }
    ensures reads { S.failure_count source.new
        ≡ failures_after (S.failure_count source.old) (has_pull_failed result) }
{
    let mut feed = Feed::with_profile(alloc, profile);
    let mut fed = 0u64;
    loop {
        match feed.feed(pulled.left()) {
            Fed::More => {}
            Fed::Done { taken } => {
                pulled.take(taken);
                return finish(feed, fed + taken as u64);
            }
            Fed::Refused(fault) => return Err(ListFault::from(fault)),
        }
        fed += pulled.left().len() as u64;
        if !pulled.pull(source)? {
            return finish(feed, fed);
        }
    }
}

// Returns the list of a feed that gets no more bytes, with its number of bytes, or the fault of the feed.
fn finish(feed: Feed, len: u64) -> Result<Value, ListFault>
    ensures list { IfOk result (λ value. (value.len ≡ len) × FinishesStream feed (Ok value.list)) }
    ensures fault { IfErr result (λ e. (e ≡ ListFault.Memory)
        ⊎ ((fault : Fault) × (e ≡ ListFault.Refused fault) × FinishesStream feed (Err fault))) }
{
    Ok(Value {
        list: feed.finish()?,
        len,
    })
}

/// Fails unless the input ends after a value of this many bytes. The last pull may have given more.
pub(crate) fn read_end<S: Source>(
    source: &mut S,
    pulled: &mut LastPull,
    len: u64,
) -> Result<(), ListFault>
    ensures end { OnOk result
        ((pulled.old ≡ []) × Consumes (S.remaining source.old) (S.remaining source.new) []
        × IsAtEnd (S.remaining source.new)) }
    ensures not { IfErr result (λ e.
        EndsNot len pulled.old (S.remaining source.old) (S.remaining source.new) e) }
    ensures reads { S.failure_count source.new
        ≡ failures_after (S.failure_count source.old) (has_pull_failed result) }
{
    let fault = ListFault::Refused(Fault {
        offset: len,
        reason: Reason::TrailingBytes,
    });
    if !pulled.left().is_empty() {
        return Err(fault);
    }
    if pulled.pull(source)? {
        Err(fault)
    } else {
        Ok(())
    }
}

// How many bytes a pull asks for at most.
const PIECE: usize = 4096;

/// The bytes of the last pull of an input that belong to no value yet.
#[derive(Drop)]
pub(crate) struct LastPull {
    room: [u8; PIECE],
    start: usize,
    end: usize,
}

impl Model for LastPull {
    ghost use Rattle.std.specs.Prelude.{◌≤◌, ◌-◌, List, ℕ, drop, take};
    ghost use Rattle.aclck.specs.ListInput.{piece_len};

    ghost Value = { List ℕ };

    ghost view = { λ s. take (s.end - s.start) (drop s.start s.room) };

    ghost invariant = { λ s. (s.start ≤ s.end) × (s.end ≤ piece_len) };
}

impl LastPull {
    /// Returns the state before the first pull: no bytes.
    pub(crate) fn new() -> LastPull
        ensures { result ≡ [] }
    {
        LastPull {
            room: [0; PIECE],
            start: 0,
            end: 0,
        }
    }

    /// Returns the bytes that belong to no value yet.
    fn left(&self) -> &[u8]
        ensures is { result.now ≡ self.now }
        ensures short { length self.now ≤ piece_len }
        ensures bytes { IsBytes result.now }
    {
        seen(&self.room[self.start..self.end])
    }

    // Removes `count` bytes, which belong to a value.
    fn take(&mut self, count: usize)
        requires { count ≤ length self.old }
        ensures { self.new ≡ drop count self.old }
    {
        self.start += count;
    }

    // Replaces the rest, which is not needed any more, by the bytes of one more pull. Returns `false` at the end of the
    // input.
    fn pull<S: Source>(&mut self, source: &mut S) -> Result<bool, ListFault>
        ensures given { OnOk result
            (Consumes (S.remaining source.old) (S.remaining source.new) self.new) }
        ensures some { IfOk result (λ came. came ≡ true → 0 < length self.new) }
        ensures end { IfOk result (λ came.
            came ≡ false → (self.new ≡ []) × IsAtEnd (S.remaining source.new)) }
        ensures failed { IfErr result (λ e. e ≡ ListFault.Read) }
        ensures kept { OnErr result (Keeps (S.remaining source.old) (S.remaining source.new)) }
        ensures short { length self.new ≤ piece_len }
        ensures reads { S.failure_count source.new
            ≡ failures_after (S.failure_count source.old) (has_pull_failed result) }
    {
        match source.pull(&mut self.room) {
            Ok(count) => {
                self.start = 0;
                self.end = count;
                Ok(count > 0)
            }
            Err(_) => Err(ListFault::Read),
        }
    }
}

// Returns the given bytes, with a clause that says that they are bytes: their type alone does not say it.
fn seen(bytes: &[u8]) -> &[u8]
    ensures is { result.now ≡ bytes.now }
    ensures bytes { IsBytes result.now }
{
    bytes
}
