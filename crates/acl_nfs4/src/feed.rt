//! A list that comes in pieces, however the stream is cut.

pub(crate) mod fed;
pub(crate) mod scan;
pub(crate) mod step;
pub(crate) mod stream;

ghost use Rattle.std.specs.Prelude.{◌≡◌, ℕ, ◌≤◌, ◌++◌, List, [], MatchResult, length};
ghost use Rattle.acl_perm.specs.Profile.{Profile as Allowed, full, profile_of};
ghost use Rattle.acl_nfs4.specs.Stream.{FedExactly, Feeds, FinishesStream, IsSmall, more};
ghost use Rattle.acl_nfs4.specs.Fault.{IsFault};
ghost use Rattle.acl_nfs4.specs.declared.feed.fed.Fed.TheVariants.{Done};
ghost use Rattle.acl_nfs4.specs.declared.xdr.fault.Reason.TheVariants.{Truncated};

use crate::feed::fed::Fed;
use crate::feed::scan::Progress;
use crate::feed::step::{Stage, advance};
use crate::feed::stream::StreamBytes;
use crate::list::acl::Acl;
use crate::xdr::fault::{Fault, Reason};
use acl_perm::Profile;
use std::alloc::Global;
use std::marker::Model;

// How many bytes of a long piece are taken at a time. So a feed never holds more bytes than these after the end of a
// list.
const CHUNK: usize = 4096;

/// A list that arrives in pieces. It holds the whole ACEs so far, and the fields so far of the ACE that is being read.
#[derive(Drop)]
pub struct Feed {
    profile: Profile,
    stage: Stage,
    progress: Progress,
    text: StreamBytes,
}

impl Model for Feed {
    ghost use Rattle.acl_perm.specs.Profile.{profile_of};
    ghost use Rattle.acl_nfs4.specs.Stream.{StreamState};
    ghost use Rattle.acl_nfs4.specs.internal.Progress.{IsFeed, state_of};

    ghost Value = { StreamState };

    ghost view = { λ s. state_of (profile_of s.profile) s.stage s.progress s.text };

    ghost invariant = { λ s. IsFeed (profile_of s.profile) s.stage s.progress s.text };
}

impl Feed {
    /// Returns a feed that has taken no bytes. It takes no memory.
    pub fn new(alloc: Global) -> Feed
        ensures { result ≡ more full [] }
    {
        Feed::with_profile(alloc, Profile::FULL)
    }

    /// Returns a feed that has taken no bytes, for lists with the flags and masks of the profile. It takes no memory.
    pub fn with_profile(alloc: Global, profile: Profile) -> Feed
        ensures { result ≡ more (profile_of profile) [] }
    {
        Feed {
            profile,
            stage: Stage::Open(Fault::at_front(Reason::Truncated)),
            progress: Progress {
                seen: 0,
                used: 0,
                weight: 0,
            },
            text: StreamBytes::new(alloc),
        }
    }

    /// Takes the next piece of the stream: returns `More` if and only if the stream so far is cut short, `Done` if and
    /// only if a beginning of it spells a list, with the number of bytes of this piece that belong to the list, and
    /// otherwise `Refused` with the fault of the stream; all this unless memory runs out. It keeps in memory the bytes
    /// that belong to the list, and requests no memory for a count or a length before the bytes have arrived. After
    /// `Done` and `Refused` nothing changes.
    ///
    /// ```rust
    /// let mut feed = Feed::new(alloc);
    /// assert!(rt; feed.feed(&[0, 0]) == Fed::More);
    /// assert!(rt; feed.feed(&[0, 0, 0xff]) == Fed::Done { taken: 2 });
    /// assert!(rt; feed.finish()?.is_empty());
    /// ```
    #[tactic(auto, using(crate::proofs::feed::Held::taken_within))]
    pub fn feed(&mut self, piece: &[u8]) -> Fed
        ensures feeds { Feeds self.old piece.now result self.new }
        // The answer depends on the stream alone, however it is cut into pieces.
        ensures exactly { (p : Allowed) (s : List ℕ) → self.old ≡ more p s
            → FedExactly p (s ++ piece.now) (length s) result }
        // No more bytes belong to the list than the piece has.
        ensures within { (taken : ℕ) → result ≡ Done taken → taken ≤ length piece.now }
        // At More, the stream so far has few bytes after its whole ACEs.
        ensures held { IsSmall self.new }
    {
        match self.stage {
            Stage::Open(_) => self.take_all(piece),
            _ => self.take(piece),
        }
    }

    /// Returns the list, if the stream ends here, and otherwise that the stream is cut short, or the fault that was
    /// reported. It takes no memory.
    pub fn finish(self) -> Result<Acl, Fault>
        ensures finishes { FinishesStream self result }
        // For a stream that is cut short no list is returned.
        ensures cut { (p : Allowed) (s : List ℕ) → self ≡ more p s → MatchResult result
            (λ _. ⊥) (λ f. (f.reason ≡ Truncated) × IsFault p s f.offset Truncated) }
    {
        match self.stage {
            Stage::Open(fault) => Err(fault),
            Stage::Refused(fault) => Err(fault),
            Stage::Done => Ok(Acl {
                count: self.progress.seen,
                weight: self.progress.weight,
                body: self.text.into_body(),
            }),
        }
    }

    // Takes a piece part by part, and counts the bytes of the parts before the last one.
    fn take_all(&mut self, piece: &[u8]) -> Fed
        ensures { Feeds self.old piece.now result self.new }
    {
        let mut taken = 0usize;
        while piece.len() - taken > CHUNK {
            let (_, rest) = piece.split_at(taken);
            let (chunk, _) = rest.split_at(CHUNK);
            match self.take(chunk) {
                Fed::More => taken += CHUNK,
                fed => return fed.behind(taken),
            }
        }
        let (_, rest) = piece.split_at(taken);
        self.take(rest).behind(taken)
    }

    // Takes a piece whole, and then drops the bytes that do not belong to the list.
    fn take(&mut self, piece: &[u8]) -> Fed
        ensures { Feeds self.old piece.now result self.new }
    {
        match self.stage {
            Stage::Done => Fed::Done { taken: 0 },
            Stage::Refused(fault) => Fed::Refused(fault),
            Stage::Open(_) => {
                let step = advance(&mut self.text, piece, self.progress, self.profile);
                self.stage = step.stage;
                self.progress = step.progress;
                step.fed
            }
        }
    }
}
