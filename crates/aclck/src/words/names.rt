//! Words that name users and groups: `u:NAME=ID` and `g:NAME=ID`.
ghost use Rattle.std.specs.Prelude.{◌≡◌, option_map};
ghost use Rattle.aclck.specs.Line.{ReadsValues, rows_in};
ghost use Rattle.aclck.specs.NameWords.{equals_sign, last_cut, named_id, names_in};
ghost use Rattle.aclck.specs.internal.Adding.{cut_of, line_fault_of, named_of, Adds};

use crate::line::{Argument, LineFault, other_words};
use crate::words::values::id_value;
use acl_posix::{Id, NameFault, Names};
use clap::ArgMatches;
use std::alloc::Global;

/// The arguments of the commands that take names and no other word.
pub(crate) const ARGUMENTS: [Argument; 1] = [Argument::Words];

impl From<NameFault> for LineFault {
    ghost from_gives = { λ fault line. line ≡ line_fault_of fault };

    fn from(fault: NameFault) -> LineFault {
        match fault {
            NameFault::EmptyName | NameFault::DigitsOnly | NameFault::Taken => LineFault::Usage,
            NameFault::Memory => LineFault::Memory,
        }
    }
}

// Whether a name is that of a user or of a group. A table keeps the two apart.
#[derive(Clone, Copy)]
enum Half {
    Users,
    Groups,
}

// What a word `u:NAME=ID` or `g:NAME=ID` spells.
#[derive(Clone, Copy)]
struct NamedId<'a> {
    half: Half,
    name: &'a str,
    id: Id,
}

/// Returns the table of the names that the words outside options spell. Fails with `Usage` if a word spells no name
/// with an id or the table refuses the name, and with `Memory` if memory runs out.
#[tactic(auto, unfolding(crate::specs::NameWords::names_value))]
pub(crate) fn names_in(alloc: Global, matches: &ArgMatches<'_>) -> Result<Names, LineFault>
    ensures { ReadsValues (λ n. n) (names_in (rows_in matches.now)) result }
{
    let words = other_words(matches).unwrap_or(&[]);
    let mut names = Names::new(alloc);
    for word in words {
        add_word(&mut names, word)?;
    }
    Ok(names)
}

// Fails with `Usage` if the word spells no name, or the table refuses it.
fn add_word(names: &mut Names, word: &str) -> Result<(), LineFault>
    ensures { Adds names.old (named_id word.now) names.new result }
{
    let named = named_id(word).ok_or(LineFault::Usage)?;
    match named.half {
        Half::Users => names.add_user(named.name.as_bytes(), named.id)?,
        Half::Groups => names.add_group(named.name.as_bytes(), named.id)?,
    }
    Ok(())
}

// Returns the name that a word spells. A name may have colons and equals signs, because only the first colon and the
// last equals sign separate the parts.
#[tactic(auto, unfolding(crate::specs::NameWords::named_id))]
fn named_id<'a>(word: &'a str) -> Option<NamedId<'a>>
    ensures { option_map named_of result ≡ named_id word.entry.now }
{
    let (front, id) = last_cut(word)?;
    let (half, name) = front.split_once(':')?;
    let half = match half {
        "u" => Half::Users,
        "g" => Half::Groups,
        _ => return None,
    };
    let id = id_value(id)?;
    Some(NamedId { half, name, id })
}

fn last_cut<'a>(word: &'a str) -> Option<(&'a str, &'a str)>
    ensures { option_map cut_of result ≡ last_cut equals_sign word.entry.now }
{
    word.rsplit_once('=')
}
