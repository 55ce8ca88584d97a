//! Lists without the ACEs that access does not read, of values that have such ACEs.
ghost use Rattle.std.specs.Prelude.{[], ◌≡◌, ◌⊎◌, ℕ, IfErr, IfOk, List};
ghost use Rattle.acl_nfs4.specs.Ace.{Ace};
ghost use Rattle.acl_forms.specs.Forms.{SpellsForm};
ghost use Rattle.acl_forms.specs.Part.{IsReadAsPart, RefusesPart};
ghost use Rattle.acl_forms.specs.PartForms.{IsPartFaultAt, SpellsPartOf};
ghost use Rattle.acl_forms.specs.ReadFaults.{no_memory_left};
ghost use Rattle.acl_forms.specs.declared.fault.ReadFault.{ReadFault};
ghost use Rattle.acl_forms.specs.declared.part.left_out.LeftOut.{LeftOut};

pub(crate) mod any_ace;
pub(crate) mod any_entry;
pub(crate) mod left_out;
pub(crate) mod texts;
pub(crate) mod words;

use crate::ace_text::AceText;
use crate::acl_flags::AclFlags;
use crate::fault::ReadFault;
use crate::form::Form;
use crate::part::left_out::LeftOut;
use crate::part::texts::read_text_part;
use crate::part::words::{Layout, read_words};
use acl_nfs4::Acl;
use std::alloc::Global;

/// What access can read of a value that may have AUDIT and ALARM ACEs, and special identifiers that nobody knows.
#[derive(Debug, Drop)]
pub struct ReadablePart {
    /// The flags of the list.
    pub flags: AclFlags,
    /// The ACEs that are kept, in order.
    pub list: Acl,
    /// The ACEs that are left out, in order. If there is none, the list is the whole one.
    pub left_out: Vec<LeftOut>,
}

/// Returns the flags, the ACEs that access can read, and where the other ACEs are, of all of the bytes in the form, as
/// `read` reads them. AUDIT and ALARM ACEs are left out, and ALLOW ACEs of a special identifier other than `OWNER@`,
/// `GROUP@` and `EVERYONE@`: in nfsacl41i of another number than 1, 2 and 3, and in the other forms of another who that
/// ends in `@`, such as `AUTHENTICATED@`. What `read` accepts is read as a whole list. Fails as `read` does: also for
/// what an ACE that is left out has wrong, and with SpecialWho for a DENY of such a special identifier, without which
/// more might be granted. The limits of a list count all ACEs. The place of an ACE of a text is that of its entry. Time
/// linear in the bytes, and two growing lists.
///
/// ```rust
/// let bytes = b"\0\0\0\0\0\0\0\x01\0\0\0\0\0\0\0\0\0\0\0\x01\0\0\0\x04NOW@";
/// let part = read_part(alloc, Form::NfsAcl41, bytes)?;
/// assert!(rt; part.list.is_empty());
/// assert!(rt; part.left_out.len() == 1);
/// ```
pub fn read_part(alloc: Global, form: Form, bytes: &[u8]) -> Result<ReadablePart, ReadFault>
    ensures found { IfOk result (λ part.
        SpellsPartOf form part.flags.bits part.list part.left_out.items bytes.now) }
    // If the bytes spell flags and ACEs, their part is returned.
    ensures only { (set : ℕ) (list : List Ace) (out : List LeftOut)
        → SpellsPartOf form set list out bytes.now → IsReadAsPart result set list out }
    // A whole list is returned whole.
    ensures whole { (set : ℕ) (list : List Ace) → SpellsForm form set list bytes.now
        → IsReadAsPart result set list [] }
    ensures fault { IfErr result (λ fault. (fault ≡ no_memory_left)
        ⊎ IsPartFaultAt form bytes.now fault) }
    // Bytes with a fault are refused with that fault.
    ensures refused { (wrong : ReadFault) → IsPartFaultAt form bytes.now wrong
        → RefusesPart result wrong }
{
    match form {
        Form::NfsTools(object) => read_text_part(alloc, bytes, AceText::Tools(object)),
        Form::NfsText(source, _) => read_text_part(alloc, bytes, AceText::Nfs(source)),
        Form::NfsAcl41 => read_words(alloc, bytes, Layout::ByName),
        Form::NfsAcl41Ids => read_words(alloc, bytes, Layout::ByNumber),
    }
}
