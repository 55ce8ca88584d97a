//! Lists from the text of NFSv4 lists on FreeBSD, in ZFS and in archives.
ghost use Rattle.std.specs.Prelude.{◌≡◌, ◌⊎◌, IfErr, IfOk, List, MatchResult};
ghost use Rattle.acl_nfs4.specs.Ace.{Ace};
ghost use Rattle.acl_forms.specs.NfsRules.{IsFaultOfNfsText, SpellsNfsText};
ghost use Rattle.acl_forms.specs.ReadFaults.{no_memory_left};
ghost use Rattle.acl_forms.specs.declared.fault.ReadFault.{ReadFault as FaultValue};

use crate::ace_text::AceText;
use crate::fault::ReadFault;
use crate::reading::read_text;
use crate::who_field::WhoField;
use acl_nfs4::Acl;
use std::alloc::Global;

/// Returns the list that a text of NFSv4 entries spells, as FreeBSD's setfacl and libarchive read it: entries
/// `principal:permissions:flags:type` between line feeds and commas, where a `#` begins a comment up to the end of its
/// line. The principal is `owner@`, `group@`, `everyone@`, `user:NAME` or `group:NAME`; after the type of the latter
/// two an id may follow. `source` says whether the user or the group is the name or that id. Permissions and flags are
/// letters in any order, and `-` for none. Blanks around a field do not count. A text that spells no list is refused
/// for its first fault, with the place of its first byte. Some texts that libarchive takes are refused: those of which
/// it leaves out an entry or an id, and those that other readers read differently. Time linear in the text, and one
/// growing list.
///
/// The faults are judged in this order. Nul: the text has a zero byte. In each line, Comment: a comment has a comma.
/// In each entry of a line that is not blank, EmptyEntry: the entry is blank; TooManyAces; Tag: the principal is none
/// of the five; Fields: there are too few fields or too many; Mask, Flag: the first letter that is no permission or no
/// flag; AuditOrAlarm or AceType; Id: the name is digits alone, but not the decimal digits of an id, such as `007`; Id:
/// the id is not digits alone, or above 4294967294; IdDiffers: the name is the digits of another id; SpecialWho: the
/// name is a special identifier; TooHeavy; and the faults of the who. If memory runs out, the reason is Memory.
///
/// ```rust
/// let text = b"owner@:rw-p----------:-------:allow,user:bob:r::deny:1001";
/// let list = read_nfs_text(alloc, text, WhoField::Id)?;
/// assert!(rt; list.len() == 2);
/// assert!(rt; list.weight() == 4);
/// ```
#[tactic(auto, using(crate::proofs::TextLemmas::text_found, crate::proofs::TextLemmas::text_refused))]
pub fn read_nfs_text(alloc: Global, text: &[u8], source: WhoField) -> Result<Acl, ReadFault>
    ensures found { IfOk result (λ list. SpellsNfsText source list text.now) }
    // If the text spells a list, that list is returned.
    ensures only { (list : List Ace) → SpellsNfsText source list text.now
        → MatchResult result (λ read. read ≡ list) (λ fault. fault ≡ no_memory_left) }
    ensures fault { IfErr result (λ fault. (fault ≡ no_memory_left)
        ⊎ IsFaultOfNfsText source text.now fault) }
    // A text with a fault is refused with that fault.
    ensures refused { (wrong : FaultValue) → IsFaultOfNfsText source text.now wrong
        → MatchResult result (λ _. ⊥) (λ fault. (fault ≡ no_memory_left) ⊎ (fault ≡ wrong)) }
{
    read_text(alloc, text, AceText::Nfs(source))
}
