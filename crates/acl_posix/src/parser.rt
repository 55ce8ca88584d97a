//! The ACLs of a file, read from their text.
ghost use Rattle.std.specs.Prelude.{◌≡◌, IfErr, IfOk, MatchResult};
ghost use Rattle.acl_posix.specs.declared.file.PosixFile.{PosixFile as FileValue};
ghost use Rattle.acl_posix.specs.declared.text_fault.TextFault.{TextFault as FaultValue};
ghost use Rattle.acl_posix.specs.declared.text_fault.TextFault.TheVariants.{Memory};
ghost use Rattle.acl_posix.specs.Entries.{pairs};
ghost use Rattle.acl_posix.specs.Grammar.{IsAclOf, Reads};
ghost use Rattle.acl_posix.specs.internal.Reading.{IsPartFault};
ghost use Rattle.acl_posix.specs.TextFault.{IsTextFaultOrMemory, IsTextFault, IsTextRefusedWith};

use crate::acl::PosixAcl;
use crate::entry::Entry;
use crate::fault::AclFault;
use crate::file::PosixFile;
use crate::names::Names;
use crate::reader::read_text;
use crate::text_fault::{Cause, Part, TextFault};
use std::alloc::Global;

/// Returns the ACLs that a text spells, in the long form, in the short form, or as getfacl prints those of one file
/// (acl(5), "LONG TEXT FORM", "SHORT TEXT FORM"). A text that spells no ACLs is refused: because of its first wrong
/// entry, or otherwise because of the first part that is not a valid ACL. Time n log n in the number of entries, and
/// linear if they are in canonical order; a list of entries for each part.
///
/// ```rust
/// let names = Names::new(alloc);
/// let file = parse(alloc, b"u::rw-,u:7:r--,g::---,m::r--,o::---", &names)?;
/// assert!(rt; file.access.get(Tag::Mask) == Perm::new(4));
/// assert!(rt; file.default.is_none());
/// ```
pub fn parse(alloc: Global, text: &[u8], names: &Names) -> Result<PosixFile, TextFault>
    ensures found { IfOk result (Reads text.now names.now) }
    // If the text spells a file, that file is returned.
    ensures only { (file : FileValue) → Reads text.now names.now file
        → MatchResult result (λ read. read ≡ file) (λ fault. fault ≡ Memory) }
    ensures fault { IfErr result (IsTextFaultOrMemory text.now names.now) }
    // A text with a fault is refused with that fault.
    ensures refused { (wrong : FaultValue) → IsTextFault text.now names.now wrong
        → IsTextRefusedWith result wrong }
{
    parsed(alloc, text, names)
}

fn parsed(alloc: Global, text: &[u8], names: &Names) -> Result<PosixFile, TextFault>
    ensures found { IfOk result (Reads text.now names.now) }
    ensures fault { IfErr result (IsTextFaultOrMemory text.now names.now) }
{
    let lists = read_text(alloc, text, names)?;
    let access = part_of(alloc, Part::Access, lists.access)?;
    // A text without default entries has no default ACL, which is not a fault.
    if lists.default.is_empty() {
        let default = None;
        return Ok(PosixFile { access, default });
    }
    let default = Some(part_of(alloc, Part::Default, lists.default)?);
    Ok(PosixFile { access, default })
}

/// Returns the ACL of these entries. Fails with `Invalid`, the part and the cause if they are not valid, and with
/// `Memory` if memory runs out.
fn part_of(alloc: Global, part: Part, entries: Vec<Entry>) -> Result<PosixAcl, TextFault>
    ensures ok { IfOk result (IsAclOf (pairs entries.items)) }
    ensures err { IfErr result (IsPartFault part (pairs entries.items)) }
{
    match PosixAcl::from_entries(alloc, entries) {
        Ok(acl) => Ok(acl),
        Err(AclFault::Multi(place)) => Err(TextFault::Invalid(part, Cause::Multi(place))),
        Err(AclFault::Duplicate(place)) => Err(TextFault::Invalid(part, Cause::Duplicate(place))),
        Err(AclFault::Miss(tag)) => Err(TextFault::Invalid(part, Cause::Miss(tag))),
        Err(AclFault::Memory) => Err(TextFault::Memory),
    }
}
