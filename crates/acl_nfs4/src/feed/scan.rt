//! Judges a body from the place to which it was judged before, so that each whole ACE is judged once.
ghost use Rattle.std.specs.Prelude.{◌+◌, ◌<◌, ◌≤◌, length};
ghost use Rattle.acl_perm.specs.Profile.{profile_of};
ghost use Rattle.acl_nfs4.specs.Spelling.{word_size};
ghost use Rattle.acl_nfs4.specs.internal.Progress.{EndsPart, IsScanned};
ghost use Rattle.acl_nfs4.specs.internal.Reading.{offset_limit};

use crate::xdr::cursor::Cursor;
use crate::xdr::fault::Fault;
use crate::xdr::reading::next_ace;
use acl_perm::Profile;

/// How many ACEs of a body are whole, in how many bytes, and their weight, which is the number of bits of their masks.
#[derive(Clone, Copy)]
pub(crate) struct Progress {
    pub seen: u32,
    pub used: usize,
    pub weight: u32,
}

/// Where the judging ended: the ACEs that are whole, and the fault after them, if there is one.
#[derive(Clone, Copy)]
pub(crate) struct Reach {
    pub progress: Progress,
    pub fault: Option<Fault>,
}

/// Judges the ACEs of a body after those that were judged before, up to the first that is not whole or is refused.
#[inline(always)]
pub(crate) fn scan(body: &[u8], count: u32, from: Progress, profile: Profile) -> Reach
    requires scanned { IsScanned (profile_of profile) body.now from }
    requires seen { from.seen ≤ count }
    requires fits { word_size + length body.now < offset_limit }
    ensures scanned { IsScanned (profile_of profile) body.now result.progress }
    ensures ends { EndsPart (profile_of profile) count body.now result.progress result.fault }
{
    let (_, rest) = body.split_at(from.used);
    let mut cursor = Cursor {
        len: 4 + body.len(),
        rest,
    };
    let mut progress = from;
    while progress.seen < count {
        match next_ace(&mut cursor, progress.weight, profile) {
            Ok(ace) => {
                progress = Progress {
                    seen: progress.seen + 1,
                    used: body.len() - cursor.rest.len(),
                    weight: progress.weight + ace.mask.bits().count_ones(),
                };
            }
            Err(fault) => {
                return Reach {
                    progress,
                    fault: Some(fault),
                };
            }
        }
    }
    Reach {
        progress,
        fault: None,
    }
}
