//! The ways in which a row is tried. The rows have the expected values.

use super::devices::{Calls, Devices, FINE};
use super::failures::{asks_for_nothing, fails_at_each_read, fails_at_each_write, refuses_at_once};
use super::runs::{run, words_of};
use std::alloc::Global;

/// What a line has to give.
#[derive(Clone, Copy)]
pub enum Answer<'a> {
    /// A status below 2, and what is written.
    Text(u8, &'a [u8]),
    /// The fault of the input, as it is reported.
    Fault(&'a str),
    /// The words ask for nothing.
    Usage,
}

/// The devices and the memory of a trial.
#[derive(Clone, Copy)]
pub enum Way {
    /// Over devices that work, with enough memory.
    Ample,
    /// Over devices that work, where running out of memory is an accepted answer to every line.
    Scarce,
    /// Over devices that fail at each call in turn: the reads, also after the input, which give four bytes each, and
    /// the writes, which take one byte each. A refusal is reported over a source that fails just after it.
    Failing,
    /// Over a source that fails at each read in turn, also after the input. Each read gives eight bytes. A text is
    /// judged after it was read to its end, so no fault of a text is reported.
    Unread,
}

/// A way to try rows.
#[derive(Clone, Copy)]
pub struct Trial {
    alloc: Global,
    way: Way,
}

impl Trial {
    pub fn new(alloc: Global, way: Way) -> Trial {
        Trial { alloc, way }
    }

    /// Returns whether a line gives this answer over the input.
    pub fn passes(self, line: &str, input: &[u8], answer: Answer<'_>) -> bool {
        match words_of(self.alloc, line) {
            Ok(words) => self.passes_at(words.as_slice(), input, answer),
            Err(_) => matches!(self.way, Way::Scarce),
        }
    }

    /// Returns whether a line gives this answer over two inputs, one after the other.
    pub fn passes_joined(
        self,
        line: &str,
        first: &[u8],
        second: &[u8],
        answer: Answer<'_>,
    ) -> bool {
        match [first, second].concat(self.alloc) {
            Ok(input) => self.passes(line, &input, answer),
            Err(_) => matches!(self.way, Way::Scarce),
        }
    }

    /// Returns whether words give this answer over the input.
    pub fn passes_at(self, words: &[&str], input: &[u8], answer: Answer<'_>) -> bool {
        match self.way {
            Way::Ample => run(self.alloc, words, input, FINE).gives(answer),
            Way::Scarce => {
                let ran = run(self.alloc, words, input, FINE);
                ran.gives(answer) || ran.is(4, b"", "out of memory")
            }
            Way::Failing => self.fails(words, input, answer),
            Way::Unread => match answer {
                Answer::Usage => asks_for_nothing(self.alloc, words, input),
                _ => fails_at_each_read(self.alloc, words, input, 8),
            },
        }
    }

    fn fails(self, words: &[&str], input: &[u8], answer: Answer<'_>) -> bool {
        match answer {
            Answer::Text(_, text) => {
                fails_at_each_read(self.alloc, words, input, 4)
                    && fails_at_each_write(self.alloc, words, input, text)
            }
            Answer::Fault(fault) => refuses_at_once(self.alloc, words, input, fault),
            Answer::Usage => asks_for_nothing(self.alloc, words, input),
        }
    }
}
