//! Rows of a line of words with inputs, and what is answered. The files of the commands have the rows, and say where
//! their values are from. The proof of a table takes time that grows with the square of its length, so rows are grouped
//! by their line, or by their input.

use super::trial::{Answer, Trial};
use std::process::Abort;

/// A line of words, a status below 2, and inputs with what is written.
pub type Answered = (&'static str, u8, &'static [(&'static [u8], &'static [u8])]);

/// An input, and lines of words with a status below 2 and what is written.
pub type Asked = (&'static [u8], &'static [(&'static str, u8, &'static [u8])]);

/// A line of words, and inputs with the fault that is reported.
pub type Refused = (&'static str, &'static [(&'static [u8], &'static str)]);

/// What a command answers, by its lines and by its inputs, what it refuses, and the lines that ask for nothing.
#[derive(Clone, Copy)]
pub struct Table {
    pub answers: &'static [Answered],
    pub asked: &'static [Asked],
    pub refusals: &'static [Refused],
    pub usage: &'static [&'static str],
    /// The input of the lines that ask for nothing, which they do not read.
    pub unread: &'static [u8],
}

impl Table {
    /// Tests that each row gives what it says, and nothing else.
    pub fn holds<A: Abort>(self, rt: &A, trial: Trial) {
        for (line, status, rows) in self.answers {
            answers_hold(rt, trial, line, *status, rows);
        }
        for (input, lines) in self.asked {
            lines_hold(rt, trial, input, lines);
        }
        for (line, rows) in self.refusals {
            refusals_hold(rt, trial, line, rows);
        }
        usage_holds(rt, trial, self.usage, self.unread);
    }
}

fn answers_hold<A: Abort>(rt: &A, trial: Trial, line: &str, status: u8, rows: &[(&[u8], &[u8])]) {
    for (input, text) in rows {
        assert!(rt;
            trial.passes(line, input, Answer::Text(status, text)),
            "{line}: {input:?}"
        );
    }
}

fn lines_hold<A: Abort>(rt: &A, trial: Trial, input: &[u8], lines: &[(&str, u8, &[u8])]) {
    for (line, status, text) in lines {
        assert!(rt;
            trial.passes(line, input, Answer::Text(*status, text)),
            "{line}: {input:?}"
        );
    }
}

fn refusals_hold<A: Abort>(rt: &A, trial: Trial, line: &str, rows: &[(&[u8], &str)]) {
    for (input, fault) in rows {
        assert!(rt;
            trial.passes(line, input, Answer::Fault(fault)),
            "{line}: {input:?}"
        );
    }
}

fn usage_holds<A: Abort>(rt: &A, trial: Trial, lines: &[&str], input: &[u8]) {
    for line in lines {
        assert!(rt; trial.passes(line, input, Answer::Usage), "{line}");
    }
}
