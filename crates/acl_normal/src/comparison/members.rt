//! Sets of at most two of the mentioned principals, by their numbers.
ghost use Rattle.std.specs.Prelude.{◌≡◌};
ghost use Rattle.acl_normal.specs.Common.{is_matched};

use super::placing::Whom;

/// The numbers of none, one or two of the mentioned principals. Of two, the lesser is first.
#[derive(Clone, Copy)]
pub(crate) enum Members {
    Nobody,
    One(usize),
    Two(usize, usize),
}

impl Members {
    /// Returns whether an ACE names a principal of the set, or everyone.
    pub(crate) fn matches(self, whom: Whom) -> bool
        ensures { result ≡ is_matched self whom }
    {
        match whom {
            Whom::Nobody => false,
            Whom::One(number) => match self {
                Members::Nobody => false,
                Members::One(i) => i == number,
                Members::Two(i, j) => i == number || j == number,
            },
            Whom::Everyone => true,
        }
    }
}
