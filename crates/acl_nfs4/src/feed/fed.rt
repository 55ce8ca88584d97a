//! The answer to one piece of a stream.
ghost use Rattle.std.specs.Prelude.{◌≡◌, ◌+◌, ◌<◌, ℕ};
ghost use Rattle.acl_nfs4.specs.Stream.{further};
ghost use Rattle.acl_nfs4.specs.internal.Reading.{offset_limit};
ghost use Rattle.acl_nfs4.specs.declared.feed.fed.Fed.TheVariants.{Done};

use crate::xdr::fault::Fault;

/// What the stream is after a piece.
#[derive(Clone, Copy, Debug, PartialEq, Eq)]
pub enum Fed {
    /// The list is not whole yet.
    More,
    /// The list is whole, and this number of bytes of the piece belong to it.
    Done { taken: usize },
    /// The stream has this fault.
    Refused(Fault),
}

impl Fed {
    /// Returns the answer to a longer piece, which has this number of bytes before the piece that was answered: `taken`
    /// counts them too.
    pub(crate) fn behind(self, bytes: usize) -> Fed
        requires { (taken : ℕ) → self ≡ Done taken → bytes + taken < offset_limit }
        ensures { result ≡ further bytes self }
    {
        match self {
            Fed::More => Fed::More,
            Fed::Done { taken } => Fed::Done {
                taken: bytes + taken,
            },
            Fed::Refused(fault) => Fed::Refused(fault),
        }
    }
}
