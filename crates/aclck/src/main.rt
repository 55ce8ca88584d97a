//! Checks, converts and compares access control lists on standard input.
//!
//! `command` runs the command that the words of a line name. `task` has one file per command with its engine, such as
//! `run_normalize`, and `answer` has what an engine returns.
#![tactic(auto)]

pub mod answer;
pub mod command;
mod input;
pub mod laws;
mod line;
pub mod task;
#[cfg(test)]
mod tests;
mod words;

use acl_perm::Counted;
use answer::RunFault;
use command::{CommandFault, command, fail};
use line::LineFault;
use std::process::ExitCode;
use std::{env, io};

fn main(rt: HostRuntime) -> ExitCode {
    let mut source = Counted::new(rt.stdin());
    let mut out = Counted::new(rt.stdout());
    let mut err = Counted::new(rt.stderr());
    let status = match collect_words(&rt) {
        Ok(words) => {
            // `command` takes slices of words, but the system returns owned strings.
            let texts = words.iter().map(|word| word.as_str());
            match texts.collect::<Vec<&str>>(rt.alloc()) {
                Ok(texts) => command(rt.alloc(), &texts, &mut source, &mut out, &mut err),
                Err(_) => fail(&mut err, CommandFault::Run(RunFault::Memory)),
            }
        }
        Err(fault) => fail(&mut err, CommandFault::from(fault)),
    };
    ExitCode::from(status)
}

// Returns the words of the command line without the program's name.
fn collect_words(rt: &HostRuntime) -> Result<Vec<String>, LineFault> {
    match env::args(rt) {
        Ok(args) => Ok(args.skip(1).collect::<Vec<String>>(rt.alloc())?),
        Err(e) if e.kind() == io::ErrorKind::OutOfMemory => Err(LineFault::Memory),
        Err(_) => Err(LineFault::Usage),
    }
}
