//! Runs over devices that fail, or that have nothing left. The run must report the call that the device refuses, and
//! what was written before is a beginning of the text that the row of the command expects.

use super::devices::{Calls, Devices, FINE};
use super::runs::run;
use super::trial::Answer;
use std::alloc::Global;

/// Returns whether the words report a source that fails at these calls as soon as it fails.
pub fn fails_at_read(alloc: Global, words: &[&str], input: &[u8], source: Calls) -> bool {
    let ran = run(alloc, words, input, Devices { source, ..FINE });
    ran.is_failed_read(source.first)
}

/// Returns whether the words report a source that fails at each read in turn, also at the read after the input. Each
/// read gives `step` bytes.
pub fn fails_at_each_read(alloc: Global, words: &[&str], input: &[u8], step: usize) -> bool {
    let reads = input.len() / step.max(1);
    for failing in 0..=reads as u64 {
        if !fails_at_read(
            alloc,
            words,
            input,
            Calls::since(failing.saturating_add(1), step),
        ) {
            return false;
        }
    }
    true
}

/// Returns whether the words report a sink that fails at these calls as soon as it fails, after this was written.
pub fn fails_at_write(
    alloc: Global,
    words: &[&str],
    input: &[u8],
    out: Calls,
    gone: &[u8],
) -> bool {
    let ran = run(alloc, words, input, Devices { out, ..FINE });
    ran.is_failed_write(out.first, gone)
}

/// Returns whether the words report a sink that fails at each write in turn, with a beginning of the text written. Each
/// write takes one byte.
pub fn fails_at_each_write(alloc: Global, words: &[&str], input: &[u8], text: &[u8]) -> bool {
    for writes in 0..text.len() {
        let out = Calls::since((writes as u64).saturating_add(1), 1);
        if !fails_at_write(alloc, words, input, out, &text[..writes]) {
            return false;
        }
    }
    true
}

/// Returns whether the words ask for nothing and read nothing, over a source that fails.
pub fn asks_for_nothing(alloc: Global, words: &[&str], input: &[u8]) -> bool {
    let source = Calls::since(1, 8);
    let ran = run(alloc, words, input, Devices { source, ..FINE });
    ran.gives(Answer::Usage) && ran.reads == 0
}

// Returns whether a refusal is reported over a source that gives single bytes and fails after this many reads, and
// nothing is read after the refusal.
fn refuses_by(alloc: Global, words: &[&str], input: &[u8], reads: u64, fault: &str) -> bool {
    let source = Calls::since(reads.saturating_add(1), 1);
    let ran = run(alloc, words, input, Devices { source, ..FINE });
    ran.gives(Answer::Fault(fault)) && ran.reads == reads && ran.failed_reads == 0
}

// How many of the first bytes of an input are enough to be refused like this.
fn refused_part(alloc: Global, words: &[&str], input: &[u8], fault: &str) -> usize {
    for len in 0..input.len() {
        if run(alloc, words, &input[..len], FINE).gives(Answer::Fault(fault)) {
            return len;
        }
    }
    input.len()
}

/// Returns whether the words refuse an input like this over a source that fails just after the refusal: after the end
/// of a text or of a list that is cut short, and otherwise after the refused field.
pub fn refuses_at_once(alloc: Global, words: &[&str], input: &[u8], fault: &str) -> bool {
    let is_read_whole = !fault.contains(" at byte ") || fault.contains("Truncated");
    let reads = if is_read_whole {
        (input.len() as u64).saturating_add(1)
    } else {
        refused_part(alloc, words, input, fault) as u64
    };
    refuses_by(alloc, words, input, reads, fault)
}
