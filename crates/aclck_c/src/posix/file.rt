//! The files that texts spell.
ghost use Rattle.aclck_c.specs.Common.{IfErr, IfOk, SpellsFile, IsFileFailure};

use crate::failure::Failure;
use crate::posix::names::{RawName, table_of};
use acl_posix::{PosixFile, parse};
use std::alloc::Global;

/// `struct aclck_posix_text`: the text of POSIX ACLs, and the names that it may use for ids.
#[repr(C)]
#[derive(Clone, Copy, Debug)]
pub struct RawPosixText<'a> {
    pub text: &'a [u8],
    pub names: &'a [RawName<'a>],
}

/// Returns the file that a text spells with its names. Fails if the names make no table, the text is refused, or memory
/// runs out.
#[tactic(auto, using(crate::proofs::FileFailures::names_failure, crate::proofs::FileFailures::text_failure))]
pub(crate) fn file_of(alloc: Global, text: &RawPosixText<'_>) -> Result<PosixFile, Failure>
    ensures ok { IfOk result (SpellsFile text.now) }
    ensures err { IfErr result (IsFileFailure text.now) }
{
    let table = table_of(alloc, text.names)?;
    Ok(parse(alloc, text.text, &table)?)
}
