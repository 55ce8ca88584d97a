//! Entries as single numbers, which sort faster than entries do.
ghost use Rattle.std.specs.Prelude.{◌≡◌, ◌↔◌, map, All, IfOk, IsTrue};
ghost use Rattle.std.specs.List.Sorted.{IsNonDecreasing, IsPermutation};
ghost use Rattle.acl_posix.specs.Entries.{IsSorted, pair_of, pairs};
ghost use Rattle.acl_posix.specs.internal.Packed.{packed, unpacked, IsPacked};

use crate::entry::Entry;
use crate::id::Id;
use crate::tag::Tag;
use acl_perm::Perm;
use std::alloc::{AllocError, Global};

// How many sets of permissions there are.
const PERMS: u64 = 8;

// How many numbers can be a qualifier.
const QUALIFIERS: u64 = 4294967296;

/// Returns the entries as numbers, in rising order.
pub(crate) fn sorted_keys(alloc: Global, entries: &[Entry]) -> Result<Vec<u64>, AllocError>
    ensures packed { IfOk result (λ keys. All IsPacked keys.items) }
    ensures permutation { IfOk result (λ keys.
        IsPermutation (pairs entries.now) (map unpacked keys.items)) }
    ensures sorted { IfOk result (λ keys. IsNonDecreasing keys.items) }
{
    let mut keys = Vec::with_capacity(alloc, entries.len())?;
    for entry in entries {
        keys.push(packed(*entry))?;
    }
    keys.sort_unstable();
    Ok(keys)
}

/// Returns whether each tag of the entries is less than the next.
pub(crate) fn rises(keys: &[u64]) -> bool
    requires { All IsPacked keys.now }
    ensures { IsTrue result ↔ IsSorted (map unpacked keys.now) }
{
    keys.is_sorted_by(|a, b| *a / PERMS < *b / PERMS)
}

/// Replaces the entries of the vector by those of the numbers. Fails if memory runs out.
pub(crate) fn put_keys(keys: &[u64], entries: &mut Vec<Entry>) -> Result<(), AllocError>
    requires { All IsPacked keys.now }
    ensures { IfOk result (λ _. pairs entries.new.items ≡ map unpacked keys.now) }
{
    entries.clear();
    for key in keys {
        entries.push(unpacked(*key))?;
    }
    Ok(())
}

/// Returns the entry as a number. The tag comes first, then the qualifier and the permissions, so that numbers have the
/// order of their entries.
#[tactic(auto, unfolding(crate::specs::internal::Packed::packed))]
fn packed(entry: Entry) -> u64
    ensures { result ≡ packed (pair_of entry) }
{
    let tag = u64::from(entry.tag.rank()) * QUALIFIERS + u64::from(entry.tag.qualifier());
    tag * PERMS + u64::from(entry.perm.bits)
}

/// Returns the entry that `packed` made into this number.
#[tactic(auto, unfolding(crate::specs::internal::Packed::unpacked))]
fn unpacked(key: u64) -> Entry
    requires { IsPacked key }
    ensures { pair_of result ≡ unpacked key }
{
    let tag = key / PERMS;
    let value = (tag % QUALIFIERS) as u32;
    let tag = match tag / QUALIFIERS {
        0 => Tag::UserObj,
        1 => Tag::User(Id { value }),
        2 => Tag::GroupObj,
        3 => Tag::Group(Id { value }),
        4 => Tag::Mask,
        _ => Tag::Other,
    };
    let perm = Perm {
        bits: (key % PERMS) as u8,
    };
    Entry { tag, perm }
}
