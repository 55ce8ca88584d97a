//! `compare`: whether two lists grant the same, and where they differ.
ghost use Rattle.std.specs.Prelude.{◌≡◌, ◌++◌, unwrap_or};
ghost use Rattle.acl_nfs4.specs.BitNames.{first_name};
ghost use Rattle.acl_nfs4.specs.Rights.{rights};
ghost use Rattle.acl_normal.specs.Difference.{situation_of};
ghost use Rattle.aclck.specs.Common.{[], IfOk, OnOk, RunsCommand, profile_of};
ghost use Rattle.aclck.specs.Answer.{decision};
ghost use Rattle.aclck.specs.commands.Compare.{Compares, compare, compare_line, situation_lines};
ghost use Rattle.aclck.specs.internal.Compared.{compared_text};

use crate::answer::{Outcome, RunFault, write_answer};
use crate::input::xdr::{TwoInputs, read_two};
use acl_nfs4::bit_name;
use acl_normal::{Difference, compare};
use acl_perm::{Mask, Profile, Sink, Source};
use std::alloc::{AllocError, Global};

/// Writes whether the two lists that the whole input spells, one after the other, grant the same (this library's own,
/// over RFC 8881, section 6.2.1): `same`; or the first small situation in which they differ, the lowest right on which
/// they differ there, what both answer, and No. A fault counts from the start of the input. Nothing is written before
/// the input is accepted as lists of the profile. Nothing is read after a refusal. Fails if the input is refused, if a
/// read or a write fails, or if memory runs out.
pub fn run_compare<S: Source, K: Sink>(
    alloc: Global,
    source: &mut S,
    sink: &mut K,
    profile: Profile,
) -> Result<Outcome, RunFault>
    ensures { RunsCommand compare (profile_of profile)
        S.remaining S.failure_count source.old source.new
        K.contents K.failure_count sink.old sink.new result }
{
    let lists = read_two(alloc, source, profile)?;
    let answer = answer_of(alloc, &lists)?;
    write_answer(sink, answer.outcome, &answer.text)
}

// The outcome of a comparison, with its text.
#[derive(Drop)]
struct Comparison {
    outcome: Outcome,
    text: Vec<u8>,
}

fn answer_of(alloc: Global, lists: &TwoInputs) -> Result<Comparison, AllocError>
    ensures { IfOk result (λ answer.
        Compares lists.now.first lists.now.second answer.outcome answer.text.items) }
{
    let difference = compare(alloc, &lists.first, &lists.second)?;
    let text = text_of(alloc, &difference)?;
    let outcome = Outcome::of(difference.is_none());
    Ok(Comparison { outcome, text })
}

// Returns `same` with a line feed, or the lines of the difference: the object and the requester, the right on which the
// lists differ, and what each list answers.
fn text_of(alloc: Global, difference: &Option<Difference>) -> Result<Vec<u8>, AllocError>
    ensures { IfOk result (λ text. text.items ≡ compared_text difference.now) }
{
    let Some(found) = difference else {
        return Vec::from_slice(alloc, b"same\n");
    };
    let mut text = Vec::from_slice(alloc, b"differ\n")?;
    add_situation(&mut text, found)?;
    add_line(&mut text, b"mask", right_name(found.bit))?;
    add_line(&mut text, b"first", decision(found.first_grants))?;
    add_line(&mut text, b"second", decision(!found.first_grants))?;
    Ok(text)
}

// Adds the object and the requester, one line for each name.
fn add_situation(text: &mut Vec<u8>, found: &Difference) -> Result<(), AllocError>
    ensures { OnOk result (text.new.items
        ≡ text.old.items ++ situation_lines (situation_of found.now)) }
{
    add_line(text, b"owner", &found.owner)?;
    add_line(text, b"group", &found.group)?;
    add_line(text, b"user", &found.user)?;
    for group in &found.groups {
        add_line(text, b"member", group)?;
    }
    Ok(())
}

// Adds a word, a space, the value and a line feed.
fn add_line(text: &mut Vec<u8>, word: &[u8], value: &[u8]) -> Result<(), AllocError>
    ensures { OnOk result (text.new.items ≡ text.old.items ++ compare_line word.now value.now) }
{
    text.extend_from_slice(word)?;
    text.push(b' ')?;
    text.extend_from_slice(value)?;
    text.push(b'\n')?;
    Ok(())
}

// Returns the first name of a right. Each right has a name, so the empty text is never returned for a right.
fn right_name(bit: Mask) -> &'static [u8]
    ensures { result.now ≡ unwrap_or (first_name rights bit.bits) [] }
{
    bit_name(bit).unwrap_or("").as_bytes()
}

fn decision(is_granted: bool) -> &'static [u8]
    ensures { result.now ≡ decision is_granted }
{
    if is_granted { b"granted" } else { b"denied" }
}
