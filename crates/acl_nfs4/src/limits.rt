//! The limits of a list, tests of them, and for each limit a private function that returns it, so that a clause can give
//! its value.
ghost use Rattle.std.specs.Prelude.{◌≡◌, nat_le, nat_lt};
ghost use Rattle.acl_nfs4.specs.Limits.{longest_who, most_aces, most_weight};

/// The greatest number of ACEs in a list.
pub const MOST_ACES: u32 = 65_536;

/// The greatest number of mask bits that are set, over all ACEs of a list.
pub const MOST_WEIGHT: u32 = 65_536;

/// The greatest number of bytes in a who.
pub const LONGEST_WHO: usize = 1024;

/// Returns whether a list with this number of ACEs can take no more.
#[inline(always)]
pub(crate) fn is_full(count: usize) -> bool
    ensures { result ≡ nat_le most_aces count }
{
    count >= MOST_ACES as usize
}

/// Returns whether this weight is greater than that of any list.
#[inline(always)]
pub fn is_too_heavy(weight: u32) -> bool
    ensures { result ≡ nat_lt most_weight weight }
{
    weight > MOST_WEIGHT
}

fn most_aces() -> u32
    ensures { result ≡ most_aces }
{
    MOST_ACES
}

fn most_weight() -> u32
    ensures { result ≡ most_weight }
{
    MOST_WEIGHT
}

fn longest_who() -> usize
    ensures { result ≡ longest_who }
{
    LONGEST_WHO
}
