//! Values that several commands take: ids and modes, and what a set of rights has of a mask.
ghost use Rattle.std.specs.Prelude.{◌≡◌, ◌≤◌, MatchResult, option_and_then, option_map, true};
ghost use Rattle.std.specs.Char.{is_digit};
ghost use Rattle.std.specs.List.{list_all};
ghost use Rattle.std.specs.Str.Parse.{digits_value};
ghost use Rattle.aclck.specs.Line.{ReadsValues, text_if_any};
ghost use Rattle.aclck.specs.Values.{IsDigitRadix, IsRadix, id_value, is_numeral, mode_value, within};
ghost use Rattle.acl_nfs4.specs.Spelling.{word_limit};

use crate::line::LineFault;
use acl_perm::{Mask, Mode};
use acl_posix::Id;
use std::num::ParseIntError;

const DECIMAL: u32 = 10;

const OCTAL: u32 = 8;

// How many digits a mode has at most.
const MODE_DIGITS: usize = 4;

/// Returns the value of an ID: decimal digits within the limit, with any number of zeros in front.
#[tactic(auto, unfolding(crate::specs::Values::id_value, acl_posix::specs::Fields::id_of))]
pub(crate) fn id_value(word: &str) -> Option<Id>
    ensures { option_map (λ id. id.value) result ≡ id_value word.now }
{
    if !is_numeral(word, DECIMAL) {
        return None;
    }
    Id::new(digits(word, DECIMAL).ok()?)
}

/// Returns the mode that an option's value spells. Fails with `Usage` if there is no value, or it is not a mode.
pub(crate) fn mode_in(word: Option<&str>) -> Result<Mode, LineFault>
    ensures { ReadsValues (λ mode. mode.bits)
        (option_and_then mode_value (text_if_any word.entry)) result }
{
    word.and_then(mode_value).ok_or(LineFault::Usage)
}

// The value of an OCT: one to four octal digits, of at most `0o777`.
#[tactic(auto, unfolding(crate::specs::Values::mode_value))]
fn mode_value(word: &str) -> Option<Mode>
    ensures { option_map (λ mode. mode.bits) result ≡ mode_value word.now }
{
    if !is_numeral(word, OCTAL) || word.len() > MODE_DIGITS {
        return None;
    }
    Mode::new(u16::try_from(digits(word, OCTAL).ok()?).ok()?)
}

/// Returns the mask if all its rights are among `rights`, and otherwise `None`.
pub(crate) fn within(rights: Mask, mask: Mask) -> Option<Mask>
    ensures { option_map (λ m. m.bits) result ≡ within rights.bits mask.bits }
{
    if rights.contains(mask) {
        Some(mask)
    } else {
        None
    }
}

// Returns whether there are digits alone, and at least one.
fn is_numeral(word: &str, radix: u32) -> bool
    requires { IsRadix radix }
    ensures { result ≡ is_numeral radix word.now }
{
    !word.is_empty() && all_digits(word.as_bytes(), radix)
}

fn all_digits(bytes: &[u8], radix: u32) -> bool
    requires { IsRadix radix }
    ensures { result ≡ list_all (λ b. is_digit b radix) bytes.now }
{
    bytes.iter().all(|b| char::from(*b).is_digit(radix))
}

// Returns the number that digits spell. Fails if it does not fit into 32 bits.
fn digits(word: &str, radix: u32) -> Result<u32, ParseIntError>
    requires radix { IsDigitRadix radix }
    requires digits { is_numeral radix word.now ≡ true }
    ensures { MatchResult result (λ n. n ≡ digits_value radix word.now)
        (λ _. word_limit ≤ digits_value radix word.now) }
{
    u32::from_str_radix(word, radix)
}
