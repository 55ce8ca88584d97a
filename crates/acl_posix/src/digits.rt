//! The number that decimal digits spell.
ghost use Rattle.acl_posix.specs.internal.Digits.{AreFirstDigits};

/// The number of the first digits of some bytes, and how many these digits are.
#[derive(Clone, Copy)]
pub(crate) struct FirstDigits {
    pub value: u64,
    pub count: usize,
}

// The number of digits of the greatest id. Ten digits fit in 64 bits.
const MOST_DIGITS: usize = 10;

/// Reads the digits that bytes begin with, but at most ten.
#[inline(always)]
#[tactic(auto, using(crate::proofs::digits::DigitLemmas::ten_digits))]
pub(crate) fn first_digits(bytes: &[u8]) -> FirstDigits
    ensures { AreFirstDigits bytes.now result }
{
    let most = bytes.len().min(MOST_DIGITS);
    let mut value = 0u64;
    let mut count = 0;
    while count < most && bytes[count].is_ascii_digit() {
        value = value * 10 + u64::from(bytes[count] - b'0');
        count += 1;
    }
    FirstDigits { value, count }
}
