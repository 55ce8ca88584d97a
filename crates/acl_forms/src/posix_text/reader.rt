//! POSIX ACLs from their texts in archives.
ghost use Rattle.std.specs.Prelude.{◌≡◌, ◌⊎◌, IfErr, IfOk, MatchResult, map, length};
ghost use Rattle.acl_posix.specs.Entries.{Entries};
ghost use Rattle.acl_posix.specs.declared.file.PosixFile.{PosixFile as FileValue};
ghost use Rattle.acl_posix.specs.Grammar.{IsDefaultOf};
ghost use Rattle.acl_posix.specs.declared.text_fault.Part.TheVariants as parts;
ghost use Rattle.acl_forms.specs.PosixRules.{of_part, placed_pairs, IsDefaultTextFault, IsPlacedFault, IsPosixTextFault, SpellsDefaultText, SpellsPosixText};
ghost use Rattle.acl_forms.specs.ReadFaults.{no_memory_left};
ghost use Rattle.acl_forms.specs.internal.PosixReading.{placed, IsDefaultRefused};
ghost use Rattle.acl_forms.specs.declared.fault.ReadFault.{ReadFault as FaultValue};

use crate::fault::ReadFault;
use crate::posix_text::entry::TextEntry;
use crate::posix_text::form::PosixTextForm;
use crate::posix_text::parts::{acl_of, of_part};
use crate::reading::read_text;
use acl_posix::{Names, Part, PosixAcl, PosixFile};
use std::alloc::Global;

/// Returns the ACLs that a text of `SCHILY.acl.access` spells, the header in which star, bsdtar and GNU tar keep POSIX
/// ACLs: entries `tag:qualifier:permissions` between line feeds and commas, with blanks around fields; a `#` begins a
/// comment up to the end of its line. `default:` before an entry says that it belongs to the default ACL. After the
/// name of a user or a group, an id may follow the permissions; it counts then, and the name is not looked up. All
/// other names are looked up in the table. Some texts that libarchive takes are refused: those in which it passes an
/// entry over, or reads another list than GNU tar does. It takes time in n log n for n entries, and three lists of
/// them.
///
/// The faults are judged in this order. Nul: the text has a zero byte. Comment: a comment has a comma. In each entry,
/// at its first byte, EmptyEntry: it has blanks alone; Fields: it does not have three fields, or four with a qualifier.
/// Then, each at the first byte of its field, Tag; Qualifier: MASK and OTHER have none; Id: the number is above
/// 4294967294; UnknownName: the name is not in the table; Permission: the field is empty, has another byte than r, w, x
/// and -, or a letter twice; Id: the fourth field is no id; IdDiffers: the qualifier is another number. Then, first in
/// the access ACL, at the first byte of the entry, Multi or Duplicate: an earlier entry has its tag and qualifier; or,
/// at the end of the text, Miss of the first absent of USER_OBJ, GROUP_OBJ, OTHER, and of MASK if there is a USER or
/// GROUP entry; and the same in the default ACL, if it has an entry. If memory runs out, the reason is Memory.
///
/// ```rust
/// let text = b"user::rw-,group::r--,other::---,user:bob:rw-:1001,mask::rw-";
/// let file = read_posix_text(alloc, text, &Names::new(alloc))?;
/// let bob = Tag::User(Id { value: 1001 });
/// assert!(rt; file.access.get(bob) == Some(Perm { bits: 6 }));
/// ```
pub fn read_posix_text(alloc: Global, text: &[u8], names: &Names) -> Result<PosixFile, ReadFault>
    ensures found { IfOk result (λ file. SpellsPosixText names.now file text.now) }
    // If the text spells the ACLs of a file, these are returned.
    ensures only { (file : FileValue) → SpellsPosixText names.now file text.now
        → MatchResult result (λ read. read ≡ file) (λ fault. fault ≡ no_memory_left) }
    ensures fault { IfErr result (λ fault. (fault ≡ no_memory_left)
        ⊎ IsPosixTextFault names.now text.now fault) }
    // A text with a fault is refused with that fault.
    ensures refused { (wrong : FaultValue) → IsPosixTextFault names.now text.now wrong
        → MatchResult result (λ _. ⊥) (λ fault. (fault ≡ no_memory_left) ⊎ (fault ≡ wrong)) }
{
    read_file(alloc, text, names)
}

/// Returns the default ACL that a text of `SCHILY.acl.default` spells. It is read as `read_posix_text` reads a text,
/// but each entry belongs to the default ACL, with `default:` before it or without.
///
/// ```rust
/// let text = b"default:user::rw-\ngroup::r--\nd:o::---\n";
/// let acl = read_default_text(alloc, text, &Names::new(alloc))?;
/// assert!(rt; acl.mode().bits == 0o640);
/// ```
pub fn read_default_text(alloc: Global, text: &[u8], names: &Names) -> Result<PosixAcl, ReadFault>
    ensures found { IfOk result (λ acl. SpellsDefaultText names.now acl text.now) }
    // If the text spells a default ACL, that ACL is returned.
    ensures only { (acl : Entries) → SpellsDefaultText names.now acl text.now
        → MatchResult result (λ read. read ≡ acl) (λ fault. fault ≡ no_memory_left) }
    ensures fault { IfErr result (λ fault. (fault ≡ no_memory_left)
        ⊎ IsDefaultTextFault names.now text.now fault) }
    // A text with a fault is refused with that fault.
    ensures refused { (wrong : FaultValue) → IsDefaultTextFault names.now text.now wrong
        → MatchResult result (λ _. ⊥) (λ fault. (fault ≡ no_memory_left) ⊎ (fault ≡ wrong)) }
{
    read_default(alloc, text, names)
}

// Returns the ACLs of a text.
fn read_file(alloc: Global, text: &[u8], names: &Names) -> Result<PosixFile, ReadFault>
    ensures found { IfOk result (λ file. SpellsPosixText names.now file text.now) }
    ensures fault { IfErr result (λ fault. (fault ≡ no_memory_left)
        ⊎ IsPosixTextFault names.now text.now fault) }
{
    let part = Part::Access;
    let read = read_text(alloc.clone()?, text, PosixTextForm { part, names })?;
    let members = of_part(alloc.clone()?, &read, part)?;
    let access = acl_of(alloc.clone()?, &members, text.len())?;
    let default = default_of(alloc, &read, text.len())?;
    Ok(PosixFile { access, default })
}

// Returns the default ACL of the entries of a text of this length, if one of them belongs to it.
fn default_of(alloc: Global, read: &[TextEntry], len: usize) -> Result<Option<PosixAcl>, ReadFault>
    ensures acl { IfOk result
        (IsDefaultOf (placed_pairs (of_part parts.Default (map placed read.now)))) }
    ensures fault { IfErr result (λ fault. (fault ≡ no_memory_left)
        ⊎ IsDefaultRefused (of_part parts.Default (map placed read.now)) len fault) }
{
    let members = of_part(alloc.clone()?, read, Part::Default)?;
    if members.is_empty() {
        return Ok(None);
    }
    Ok(Some(acl_of(alloc, &members, len)?))
}

fn read_default(alloc: Global, text: &[u8], names: &Names) -> Result<PosixAcl, ReadFault>
    ensures found { IfOk result (λ acl. SpellsDefaultText names.now acl text.now) }
    ensures fault { IfErr result (λ fault. (fault ≡ no_memory_left)
        ⊎ IsDefaultTextFault names.now text.now fault) }
{
    let part = Part::Default;
    let read = read_text(alloc.clone()?, text, PosixTextForm { part, names })?;
    acl_of(alloc, &read, text.len())
}
