//! Lists from the text of nfs4-acl-tools.
ghost use Rattle.std.specs.Prelude.{◌≡◌, ◌⊎◌, IfErr, IfOk, List, MatchResult};
ghost use Rattle.acl_nfs4.specs.Ace.{Ace};
ghost use Rattle.acl_forms.specs.ToolsRules.{IsToolsFault, SpellsTools};
ghost use Rattle.acl_forms.specs.ReadFaults.{no_memory_left};
ghost use Rattle.acl_forms.specs.declared.fault.ReadFault.{ReadFault as FaultValue};

use crate::ace_text::AceText;
use crate::fault::ReadFault;
use crate::object::ObjectKind;
use crate::reading::read_text;
use acl_nfs4::Acl;
use std::alloc::Global;

/// Returns the list that a text of nfs4-acl-tools spells, as nfs4_setfacl reads it from a file: entries
/// `type:flags:principal:permissions` between line feeds, commas, tabs and carriage returns; a `#` begins a comment up
/// to the end of its line. A text that spells no list is refused for its first fault, with the place of its first byte.
/// Some texts that the tool takes are refused: those in which it leaves something out, and those that it reads
/// differently on the command line. Time linear in the text, and one growing list.
///
/// The faults are judged in this order. Nul: the text has a zero byte. In each line, TooLong: a line with a comment
/// has more than 409 bytes, of which the tool would read the last ones as an entry; Comment: a comment has a comma, a
/// tab or a carriage return. In each entry, Fields, TooManyAces, AuditOrAlarm or AceType, then the first letter that is
/// no flag (Flag) or has no meaning on files (NotDirectory), the same for the permissions (Mask, NotDirectory),
/// TooHeavy, and the faults of the who. At the end, Empty: there is no entry. If memory runs out, the reason is Memory.
///
/// ```rust
/// let text = b"A::OWNER@:rw\nD:g:staff:w# not today\n";
/// let list = read_tools(alloc, text, ObjectKind::File)?;
/// assert!(rt; list.len() == 2);
/// assert!(rt; list.weight() == 3);
/// ```
#[tactic(auto, using(crate::proofs::TextLemmas::text_found, crate::proofs::TextLemmas::text_refused))]
pub fn read_tools(alloc: Global, text: &[u8], object: ObjectKind) -> Result<Acl, ReadFault>
    ensures found { IfOk result (λ list. SpellsTools object list text.now) }
    // If the text spells a list, that list is returned.
    ensures only { (list : List Ace) → SpellsTools object list text.now
        → MatchResult result (λ read. read ≡ list) (λ fault. fault ≡ no_memory_left) }
    ensures fault { IfErr result (λ fault. (fault ≡ no_memory_left)
        ⊎ IsToolsFault object text.now fault) }
    // A text with a fault is refused with that fault.
    ensures refused { (wrong : FaultValue) → IsToolsFault object text.now wrong
        → MatchResult result (λ _. ⊥) (λ fault. (fault ≡ no_memory_left) ⊎ (fault ≡ wrong)) }
{
    read_text(alloc, text, AceText::Tools(object))
}
