//! Which of the unknown identifiers of a list are out, that is, match nobody.
ghost use Rattle.std.specs.Prelude.{◌≡◌, ◌<◌, ◌≤◌, All, IfOk, List, Some, false, length, slice_index_or, ℕ};
ghost use Rattle.acl_nfs4.specs.declared.ace.AceRef.{AceRef as AceRefValue};
ghost use Rattle.acl_decide.specs.internal.OutNames.{IsFor, GivesNumberTo, IsUnknownNameIn, GivesNameNumber, is_out, name_number};
ghost use Rattle.acl_decide.specs.internal.RequestBody.{IsOneMore};

use acl_nfs4::AceRef;
use std::alloc::{AllocError, Global};
use std::collections::BTreeMap;

/// The unknown identifiers of the ACEs of a list, each with a number, and which of them are out. A name is looked up
/// when it gets its number. After that, whether it is out is read by the place of its ACE.
#[derive(Drop)]
pub(crate) struct OutNames<'a> {
    /// The number of each name.
    known: BTreeMap<&'a [u8], usize>,
    /// By the place of an ACE, the number of its name, and 0 if its name is known.
    numbers: Vec<usize>,
    /// By the number of a name, whether it is out.
    out: Vec<bool>,
}

impl<'a> OutNames<'a> {
    /// Numbers the unknown identifiers of the ACEs. None of them is out.
    pub(crate) fn none(alloc: Global, aces: &[AceRef<'a>]) -> Result<OutNames<'a>, AllocError>
        requires { All (λ a. 1 ≤ length a.who.now) aces.now }
        ensures numbered { IfOk result (IsFor aces.now) }
        ensures none { IfOk result (λ names. (who : List ℕ) → is_out names who ≡ false) }
    {
        let mut known = BTreeMap::new(alloc);
        let mut numbers = Vec::with_capacity(alloc, aces.len())?;
        for ace in aces {
            numbers.push(number_at(&mut known, ace)?)?;
        }
        let out = vec![in alloc; false; known.len()]?;
        Ok(OutNames {
            known,
            numbers,
            out,
        })
    }

    /// Returns whether the name of the ACE at this place is out.
    pub(crate) fn has(&self, place: usize) -> bool
        requires place { place < length self.now.numbers.items }
        requires number { slice_index_or self.now.numbers.items place 0
            < length self.now.out.items }
        ensures { result
            ≡ slice_index_or self.now.out.items (slice_index_or self.now.numbers.items place 0) false }
    {
        self.out[self.numbers[place]]
    }

    /// Takes the name of an ACE out.
    pub(crate) fn add(&mut self, who: &'a [u8])
        requires { (n : ℕ) → name_number self.old.known who.now ≡ Some n
            → n < length self.old.out.items }
        ensures more { (aces : List AceRefValue) → IsFor aces self.old
            → IsUnknownNameIn aces who.now
            → IsOneMore (is_out self.old) who.now (is_out self.new) }
        ensures kept { (aces : List AceRefValue) → IsFor aces self.old → IsFor aces self.new }
    {
        if let Some(number) = self.known.get(&who) {
            let number = *number;
            self.out[number] = true;
        }
    }
}

// Returns the number of the name of the ACE, if it is unknown, and 0 if not.
fn number_at<'a>(
    known: &mut BTreeMap<&'a [u8], usize>,
    ace: &AceRef<'a>,
) -> Result<usize, AllocError>
    requires { 1 ≤ length ace.now.who.now }
    ensures { IfOk result (λ number. GivesNameNumber known.old ace.now number known.new) }
{
    if ace.is_unknown() {
        number_of(known, ace.who)
    } else {
        Ok(0)
    }
}

// Returns the number of a name, which is a new one if the name is new.
fn number_of<'a>(known: &mut BTreeMap<&'a [u8], usize>, who: &'a [u8]) -> Result<usize, AllocError>
    ensures { IfOk result (λ number. GivesNumberTo known.old who.now number known.new) }
{
    if let Some(number) = known.get(&who) {
        return Ok(*number);
    }
    let number = known.len();
    known.insert(who, number)?;
    Ok(number)
}
