//! The sets that fields name by the names of a table.
ghost use Rattle.std.specs.Prelude.{◌≡◌, ◌==◌, IfSome, find, option_copied};
ghost use Rattle.std.specs.List.{slice_split};
ghost use Rattle.acl_nfs4.specs.BitNames.{bar, bit_in, bits_in, is_name_of, set_named};
ghost use Rattle.acl_nfs4.specs.internal.NameTable.{IsFieldCut, bit_name_of, set_within, bit_names_of};
ghost use Rattle.acl_nfs4.specs.Within.{IsWithin};

use acl_perm::internal::{BitName, place_of};

/// Returns the set that a field names, or `None` if it names no set, or a set that `whole` does not contain. Sets are
/// numbers, since the table may be that of the flags or that of the rights.
#[tactic(auto, unfolding(crate::specs::internal::NameTable::set_within))]
pub(crate) fn set_within(table: &[BitName], field: &[u8], whole: u32) -> Option<u32>
    ensures exact { result ≡ set_within (bit_names_of table.now) whole field.now }
    ensures within { IfSome result (λ set. IsWithin whole set) }
{
    let set = set_in(table, field)?;
    if set & whole == set { Some(set) } else { None }
}

/// Returns the set that a field names: the empty set for `-`, or the union of the bits of names with `|` between them.
#[tactic(auto, unfolding(crate::specs::BitNames::set_named))]
pub(crate) fn set_in(table: &[BitName], field: &[u8]) -> Option<u32>
    ensures { result ≡ set_named (bit_names_of table.now) field.now }
{
    if field == b"-".as_slice() {
        return Some(0);
    }
    bits_in(table, field)
}

// The part of a field before the first `|`, and the part after it.
#[derive(Clone, Copy)]
struct FirstWord<'a> {
    word: &'a [u8],
    after: Option<&'a [u8]>,
}

fn bits_in(table: &[BitName], field: &[u8]) -> Option<u32>
    ensures { result ≡ bits_in (bit_names_of table.now) (slice_split (λ b. b == bar) field.now) }
{
    let mut bits = 0;
    let mut rest = Some(field);
    while let Some(text) = rest {
        let first = cut(text);
        bits |= bit_in(table, first.word)?;
        rest = first.after;
    }
    Some(bits)
}

fn cut(field: &[u8]) -> FirstWord<'_>
    ensures { IsFieldCut field.now result.word.now (option_copied result.after) }
{
    match place_of(field, b'|') {
        Some(place) => FirstWord {
            word: &field[..place],
            after: Some(&field[place + 1..]),
        },
        None => FirstWord {
            word: field,
            after: None,
        },
    }
}

// Returns `None` if no row of the table has the word as a name.
fn bit_in(table: &[BitName], word: &[u8]) -> Option<u32>
    ensures { result ≡ bit_in (bit_names_of table.now) word.now }
{
    Some(row_named(table, word)?.bit)
}

// The first row is found that has the word as its first or its second name.
fn row_named<'a>(table: &'a [BitName], word: &[u8]) -> Option<&'a BitName>
    ensures { option_copied result ≡ find (λ r. is_name_of word.now (bit_name_of r)) table.now }
{
    table.iter().find(|row| is_named(row, word))
}

// Names are compared as bytes, so upper and lower case differ.
fn is_named(row: &BitName, word: &[u8]) -> bool
    ensures { result ≡ is_name_of word.now (bit_name_of row.now) }
{
    word == row.name.as_bytes()
        || match row.second {
            Some(second) => word == second.as_bytes(),
            None => false,
        }
}
