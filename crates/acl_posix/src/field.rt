//! What the fields of an entry spell.
ghost use Rattle.std.specs.Prelude.{◌≡◌, ◌==◌, ◌||◌, IsTrue, count_by, option_map};
ghost use Rattle.std.specs.List.{list_all};
ghost use Rattle.std.specs.Str.{bytes_eq};
ghost use Rattle.std.specs.Char.{is_ascii_digit};
ghost use Rattle.acl_posix.specs.Fields.{id_of, is_default, is_permission, permissions_of, word_of};
ghost use Rattle.acl_posix.specs.Names.{is_number};

use crate::digits::{FirstDigits, first_digits};
use crate::id::Id;
use acl_perm::Perm;

/// The word of a tag. A qualifier may follow `User` and `Group`.
#[derive(Clone, Copy, Debug, PartialEq, Eq)]
pub enum TagWord {
    User,
    Group,
    Mask,
    Other,
}

/// Returns the tag word that a field spells, in full or by its first letter, or `None` if it spells none.
#[tactic(auto, unfolding(crate::specs::Fields::word_of))]
pub fn read_word(bytes: &[u8]) -> Option<TagWord>
    ensures { result ≡ word_of bytes.now }
{
    if is_one_of(bytes, b"user", b"u") {
        Some(TagWord::User)
    } else if is_one_of(bytes, b"group", b"g") {
        Some(TagWord::Group)
    } else if is_one_of(bytes, b"mask", b"m") {
        Some(TagWord::Mask)
    } else if is_one_of(bytes, b"other", b"o") {
        Some(TagWord::Other)
    } else {
        None
    }
}

/// Returns whether a field marks an entry of the default ACL.
pub fn is_default(bytes: &[u8]) -> bool
    ensures { result ≡ is_default bytes.now }
{
    is_one_of(bytes, b"default", b"d")
}

fn is_one_of(bytes: &[u8], long: &[u8], short: &[u8]) -> bool
    ensures { result ≡ (bytes_eq bytes.now long.now || bytes_eq bytes.now short.now) }
{
    bytes == long || bytes == short
}

/// Returns the set that a permission field spells, or `None` if the field has another byte than r, w, x and -, or a
/// letter twice.
#[tactic(auto, unfolding(crate::specs::Fields::permissions_of))]
pub fn read_permissions(bytes: &[u8]) -> Option<Perm>
    ensures { option_map (λ perm. perm.bits) result ≡ permissions_of bytes.now }
{
    let read = count(bytes, b'r');
    let write = count(bytes, b'w');
    let execute = count(bytes, b'x');
    if !are_permissions(bytes) || read > 1 || write > 1 || execute > 1 {
        return None;
    }
    Perm::new((4 * read + 2 * write + execute) as u8)
}

fn count(bytes: &[u8], letter: u8) -> usize
    ensures { result ≡ count_by (λ b. b == letter) bytes.now }
{
    bytes.iter().filter(|b| **b == letter).count()
}

fn are_permissions(bytes: &[u8]) -> bool
    ensures { result ≡ list_all is_permission bytes.now }
{
    bytes
        .iter()
        .all(|b| *b == b'r' || *b == b'w' || *b == b'x' || *b == b'-')
}

/// Returns whether there are digits alone, and at least one.
pub fn is_number(bytes: &[u8]) -> bool
    ensures { result ≡ is_number bytes.now }
{
    !bytes.is_empty() && is_all_digits(bytes)
}

fn is_all_digits(bytes: &[u8]) -> bool
    ensures { result ≡ list_all is_ascii_digit bytes.now }
{
    bytes.iter().all(|b| b.is_ascii_digit())
}

/// Returns the id that decimal digits spell, or `None` if the number is above 4294967294.
#[tactic(auto, unfolding(crate::specs::Fields::id_of))]
pub fn read_id(digits: &[u8]) -> Option<Id>
    requires { IsTrue (is_number digits.now) }
    ensures { option_map (λ id. id.value) result ≡ id_of digits.now }
{
    let mut left = digits;
    while let [b'0', rest @ ..] = left {
        left = rest;
    }
    let FirstDigits { value, count } = first_digits(left);
    // A number with more digits than the greatest id is above it.
    if count < left.len() {
        return None;
    }
    Id::from_number(value)
}
