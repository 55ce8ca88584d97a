//! What POSIX entries in canonical order grant, and their mode. No call takes memory.
ghost use Rattle.acl_eval.specs.BridgeLaws.{object_for};
ghost use Rattle.aclck_c.specs.CheckPosix.{AreGoodIds, object_asked, requester_asking, requester_with_ids};
ghost use Rattle.acl_posix.specs.RawEntries.{raw_tag_number};
ghost use Rattle.acl_posix.specs.Tag.{tag_of};
ghost use Rattle.aclck_c.specs.Entries.{ChecksEntries, DecideEntries, HaveMode, IsPlaced, IsTagPlaced, no_posix_decision, view_refusal};
ghost use Rattle.aclck_c.specs.Call.{LooksAtEntries};
ghost use Rattle.aclck_c.specs.internal.Failures.{AreViewFailure, of_view};
ghost use Rattle.aclck_c.specs.internal.Deciders.{HasEntry};
ghost use Rattle.std.specs.Prelude.{◌≡◌, IfSome, option_map};
ghost use Rattle.aclck_c.specs.Common.{⊤, IfErr, IfOk, GivesAnswer, IsTruthOf};

use crate::failure::Failure;
use crate::out::{answer_truth, answer_value, truth_number};
use crate::posix::check::{PosixRequest, RawPosixQuestion, are_ids, asked};
use crate::posix::entries::{at_entry, entry_reason};
use crate::reason::Reason;
use crate::refusal::Refusal;
use crate::status::Status;
use acl_perm::Perm;
use acl_posix::{EntriesView, Entry, Part, RawEntry, Tag, ViewFault};

/// Answers whether the entries grant what is asked (acl(5), "ACCESS CHECK ALGORITHM"): `granted` is 1 if they do, and 0
/// if they do not or the call fails. Returns 0 if it is answered; 2 if the entries are refused, with the reason in
/// `fault`; 3 if a number is not an id or not a set of permissions. It takes no memory.
#[unsafe(no_mangle)]
pub extern "C" fn aclck_entries_check(
    entries: &[RawEntry],
    question: &RawPosixQuestion<'_>,
    granted: &mut u32,
    fault: &mut Refusal,
) -> u32
    ensures answer { GivesAnswer (IsTruthOf (ChecksEntries entries.now
        (object_asked question.now) (requester_asking question.now) question.now.want))
        0 granted.new result }
    ensures input { LooksAtEntries entries.now (AreGoodIds question.now)
        fault.old fault.new result }
{
    *granted = 0;
    let Some(request) = asked(question) else {
        return Status::BadArgument.number();
    };
    if !are_ids(question.groups) {
        return Status::BadArgument.number();
    }
    answer_truth(decide(entries, &request, question.groups), granted, fault)
}

// Fails if the entries are refused.
#[tactic(auto, using(crate::proofs::EntriesFailures::view_failure))]
fn decide(entries: &[RawEntry], request: &PosixRequest, groups: &[u32]) -> Result<bool, Failure>
    ensures ok { IfOk result (ChecksEntries entries.now
        (object_for request.now.owner.value request.now.group.value)
        (requester_with_ids request.now.user.value groups.now) request.now.want.bits) }
    ensures err { IfErr result (AreViewFailure entries.now) }
{
    let acl = EntriesView::new(entries)?;
    Ok(acl.check(
        request.owner,
        request.group,
        request.user,
        groups,
        request.want,
    ))
}

/// `struct aclck_posix_decision`: how a request is decided.
#[repr(C)]
#[derive(Clone, Copy, Debug)]
pub struct RawPosixDecision {
    pub place: u64,
    pub granted: u32,
    pub tag: u32,
    pub masked: u32,
}

const NO_DECISION: RawPosixDecision = RawPosixDecision {
    place: 0,
    granted: 0,
    tag: 0,
    masked: 0,
};

/// Answers how the entries decide what is asked (acl(5), "ACCESS CHECK ALGORITHM"): whether it is granted, the place
/// and the tag of the entry that decides, which are 0 if entries of groups match and none of them has all that is
/// asked, and whether only the MASK denies it. All of `decision` is 0 if the call fails. Returns 0 if it is answered; 2
/// if the entries are refused, with the reason in `fault`; 3 if a number is not an id or not a set of permissions. It
/// takes no memory.
#[unsafe(no_mangle)]
pub extern "C" fn aclck_entries_deciding(
    entries: &[RawEntry],
    question: &RawPosixQuestion<'_>,
    decision: &mut RawPosixDecision,
    fault: &mut Refusal,
) -> u32
    ensures answer { GivesAnswer (DecideEntries entries.now
        (object_asked question.now) (requester_asking question.now) question.now.want)
        no_posix_decision decision.new result }
    ensures input { LooksAtEntries entries.now (AreGoodIds question.now)
        fault.old fault.new result }
{
    *decision = NO_DECISION;
    let Some(request) = asked(question) else {
        return Status::BadArgument.number();
    };
    if !are_ids(question.groups) {
        return Status::BadArgument.number();
    }
    answer_value(
        decision_of(entries, &request, question.groups),
        decision,
        fault,
    )
}

// Fails if the entries are refused.
#[tactic(auto, using(crate::proofs::EntriesFailures::view_failure))]
fn decision_of(
    entries: &[RawEntry],
    request: &PosixRequest,
    groups: &[u32],
) -> Result<RawPosixDecision, Failure>
    ensures ok { IfOk result (DecideEntries entries.now
        (object_for request.now.owner.value request.now.group.value)
        (requester_with_ids request.now.user.value groups.now) request.now.want.bits) }
    ensures err { IfErr result (AreViewFailure entries.now) }
{
    let acl = EntriesView::new(entries)?;
    let found = acl.deciding(
        request.owner,
        request.group,
        request.user,
        groups,
        request.want,
    );
    let entry = placed(&acl, found.entry);
    Ok(RawPosixDecision {
        place: entry.place,
        granted: truth_number(found.granted),
        tag: entry.tag,
        masked: truth_number(found.masked),
    })
}

// The place of an entry, and the number of its tag.
#[derive(Clone, Copy)]
struct EntryPlace {
    place: u64,
    tag: u32,
}

const NO_PLACE: EntryPlace = EntryPlace { place: 0, tag: 0 };

// Returns where the entry that decides is, which is one of the entries.
fn placed(acl: &EntriesView<'_>, entry: Option<Tag>) -> EntryPlace
    requires { IfSome (option_map tag_of entry) (HasEntry acl.now) }
    ensures { IsPlaced acl.now (option_map tag_of entry) result.place result.tag }
{
    match entry {
        Some(tag) => place_of(acl, tag),
        None => NO_PLACE,
    }
}

fn place_of(acl: &EntriesView<'_>, tag: Tag) -> EntryPlace
    requires { HasEntry acl.now (tag_of tag) }
    ensures { IsTagPlaced acl.now (tag_of tag) result.place result.tag }
{
    match acl.place(tag) {
        Some(place) => EntryPlace {
            place: place as u64,
            tag: raw_tag_number(tag),
        },
        None => unreachable!(),
    }
}

fn raw_tag_number(tag: Tag) -> u32
    ensures { result ≡ raw_tag_number (tag_of tag) }
{
    let perm = Perm::NONE;
    RawEntry::from_entry(Entry { tag, perm }).tag
}

/// Answers what the mode of the entries is (acl(5), "CORRESPONDENCE BETWEEN ACL ENTRIES AND FILE PERMISSION BITS"): it
/// is in `mode`, which is 0 if the call fails. Returns 0 if it is answered, and 2 if the entries are refused, with the
/// reason in `fault`. It takes no memory.
#[unsafe(no_mangle)]
pub extern "C" fn aclck_entries_mode(
    entries: &[RawEntry],
    mode: &mut u32,
    fault: &mut Refusal,
) -> u32
    ensures answer { GivesAnswer (HaveMode entries.now) 0 mode.new result }
    ensures input { LooksAtEntries entries.now ⊤ fault.old fault.new result }
{
    *mode = 0;
    answer_value(mode_of(entries), mode, fault)
}

// Fails if the entries are refused.
#[tactic(auto, using(crate::proofs::EntriesFailures::view_failure))]
fn mode_of(entries: &[RawEntry]) -> Result<u32, Failure>
    ensures ok { IfOk result (HaveMode entries.now) }
    ensures err { IfErr result (AreViewFailure entries.now) }
{
    let acl = EntriesView::new(entries)?;
    Ok(u32::from(acl.mode().bits))
}

impl From<ViewFault> for Failure {
    ghost from_gives = { λ fault failure. failure ≡ of_view fault };

    fn from(fault: ViewFault) -> Failure {
        Failure::Refused(view_refusal(fault))
    }
}

/// Returns the fault of entries that must be in canonical order, by its numbers for C.
pub(crate) fn view_refusal(fault: ViewFault) -> Refusal
    ensures { result ≡ view_refusal fault }
{
    match fault {
        ViewFault::Entry(place, fault) => at_entry(entry_reason(fault), place),
        ViewFault::Order(place) => at_entry(Reason::Order, place),
        ViewFault::Miss(tag) => Refusal::missing(Part::Access, tag),
    }
}
