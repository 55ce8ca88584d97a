//! What one more piece makes of bytes that are cut short: the list, a fault, or bytes that are still cut short.
ghost use Rattle.std.specs.Prelude.{◌≡◌, ◌<◌, length};
ghost use Rattle.acl_perm.specs.Profile.{profile_of};
ghost use Rattle.acl_nfs4.specs.Stream.{Feeds, IsCutShort, more};
ghost use Rattle.acl_nfs4.specs.internal.Progress.{IsFeed, IsProgress, Judged, state_of};
ghost use Rattle.acl_nfs4.specs.internal.Reading.{offset_limit};

use crate::feed::fed::Fed;
use crate::feed::scan::{Progress, Reach, scan};
use crate::feed::stream::StreamBytes;
use crate::list::aces::word_in;
use crate::xdr::fault::{Fault, Reason};
use crate::xdr::judges;
use acl_perm::Profile;

/// The state of a stream. With `Open` it is cut short, and the fault is the one to report if it ends here.
#[derive(Clone, Copy)]
pub(crate) enum Stage {
    Open(Fault),
    Done,
    Refused(Fault),
}

/// What a feed is after a piece, and the answer to the piece.
#[derive(Clone, Copy)]
pub(crate) struct Step {
    pub stage: Stage,
    pub progress: Progress,
    pub fed: Fed,
}

/// Adds one more piece to bytes that are cut short. It cuts off the bytes after a list, so that a feed that is done
/// holds the list alone.
pub(crate) fn advance(
    text: &mut StreamBytes,
    piece: &[u8],
    from: Progress,
    profile: Profile,
) -> Step
    requires progress { IsProgress (profile_of profile) text.old from }
    requires cut { IsCutShort (profile_of profile) text.old }
    ensures feed { IsFeed (profile_of profile) result.stage result.progress text.new }
    ensures feeds { Feeds (more (profile_of profile) text.old) piece.now result.fed
        (state_of (profile_of profile) result.stage result.progress text.new) }
{
    let before = text.len();
    match text.extend(piece) {
        Err(_) => {
            let fault = Fault::at_front(Reason::Memory);
            Step {
                stage: Stage::Refused(fault),
                progress: from,
                fed: Fed::Refused(fault),
            }
        }
        Ok(()) => {
            let reach = judge(text, from, profile);
            let progress = reach.progress;
            match reach.fault {
                None => {
                    text.cut(progress.used);
                    Step {
                        stage: Stage::Done,
                        progress,
                        fed: Fed::Done {
                            taken: 4 + progress.used - before,
                        },
                    }
                }
                Some(fault) => match fault.reason {
                    Reason::Truncated => Step {
                        stage: Stage::Open(fault),
                        progress,
                        fed: Fed::More,
                    },
                    _ => Step {
                        stage: Stage::Refused(fault),
                        progress,
                        fed: Fed::Refused(fault),
                    },
                },
            }
        }
    }
}

// Judges the bytes after the ACEs that were judged before, so that no whole ACE is judged again at each piece.
fn judge(text: &StreamBytes, from: Progress, profile: Profile) -> Reach
    requires { IsProgress (profile_of profile) text.now from }
    ensures progress { IsProgress (profile_of profile) text.now result.progress }
    ensures judged { Judged (profile_of profile) text.now result.progress result.fault }
    ensures fits { length text.now < offset_limit }
{
    if text.filled < 4 {
        return Reach {
            progress: from,
            fault: Some(Fault::at_front(Reason::Truncated)),
        };
    }
    match judges::count_of(word_in(&text.head, 0)) {
        Err(reason) => Reach {
            progress: from,
            fault: Some(Fault::at_front(reason)),
        },
        Ok(count) => scan(&text.body, count, from, profile),
    }
}
