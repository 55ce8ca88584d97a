//! The first pair of principals at which two lists differ.
ghost use Rattle.std.specs.Prelude.{◌≡◌};
ghost use Rattle.acl_normal.specs.internal.comparison.FirstPair.{is_found_before};

/// The numbers of the first two principals at which two lists differ, on some rights. If there are none, a number is
/// that of all principals.
#[derive(Clone, Copy)]
pub(crate) struct FirstPair {
    /// The first principal that is in a pair for which the lists differ.
    pub(crate) member: usize,
    /// If there is such a pair, the first principal after this one that makes such a pair with it.
    pub(crate) partner: usize,
}

impl FirstPair {
    /// Returns whether this pair comes before another one, in the order of the small sets.
    pub(crate) fn is_before(self, other: FirstPair) -> bool
        ensures { result ≡ is_found_before self other }
    {
        self.member < other.member || (self.member == other.member && self.partner < other.partner)
    }
}
