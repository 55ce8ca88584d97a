//! The value of `--profile`, and the arguments of the commands that take it and no other word.
ghost use Rattle.std.specs.Prelude.{◌≡◌};
ghost use Rattle.aclck.specs.Common.{ReadsValues, profile_of, rows_in};
ghost use Rattle.aclck.specs.ProfileArgument.{profile_in};

use crate::line::{Argument, LineFault, text_of};
use crate::words::options::PROFILE;
use acl_perm::Profile;
use clap::ArgMatches;

/// The arguments of a command that takes `--profile` and no other word.
pub(crate) const ARGUMENTS: [Argument; 1] = [PROFILE];

/// Returns the value of `--profile`, which is the full profile if the option is absent. Fails with `Usage` for a word
/// that names no profile.
#[tactic(auto, unfolding(crate::specs::ProfileArgument::profile_in, crate::specs::ProfileArgument::profile_value))]
pub(crate) fn profile_in(matches: &ArgMatches<'_>) -> Result<Profile, LineFault>
    ensures { ReadsValues profile_of (profile_in (rows_in matches.now)) result }
{
    match text_of(matches, PROFILE) {
        Some("full") => Ok(Profile::FULL),
        Some("narrow") => Ok(Profile::NARROW),
        _ => Err(LineFault::Usage),
    }
}
