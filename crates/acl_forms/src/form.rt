//! One call that reads and one that writes any of the forms.
ghost use Rattle.std.specs.Prelude.{◌≡◌, ◌⊎◌, ℕ, IfErr, List};
ghost use Rattle.acl_nfs4.specs.Ace.{Ace};
ghost use Rattle.acl_forms.specs.FormWrites.{WritesIfHeld};
ghost use Rattle.acl_forms.specs.Forms.{IsFormFaultAt, SpellsForm, form_bytes, form_fault, is_text};
ghost use Rattle.acl_forms.specs.ReadFaults.{no_memory_left};
ghost use Rattle.acl_forms.specs.Words.{IfForm, ReadsForm, RefusesForm};
ghost use Rattle.acl_forms.specs.declared.fault.ReadFault.{ReadFault};

use crate::acl_flags::AclFlags;
use crate::acl41::{read_acl41, write_acl41};
use crate::acl41_ids::read_acl41_ids;
use crate::acl41_ids_writer::{acl41_ids_fault, write_acl41_ids};
use crate::fault::{FormFault, FormReason, ReadFault};
use crate::form_write::FormWriteFault;
use crate::nfs_text::{nfs_text_fault, read_nfs_text, write_nfs_text};
use crate::object::ObjectKind;
use crate::style::Style;
use crate::tools::{read_tools, tools_fault, write_tools};
use crate::who_field::WhoField;
use acl_nfs4::{Acl, AclView, Sink};
use std::alloc::Global;

// A text has no place for flags of the list.
const FLAGS_IN_TEXT: FormFault = FormFault {
    place: 0,
    reason: FormReason::AclFlags,
};

/// A form in which a system keeps or prints a list.
#[derive(Clone, Copy, Debug, PartialEq, Eq)]
pub enum Form {
    /// The text of nfs4-acl-tools, of a list of this object. It has no place for flags of the list.
    NfsTools(ObjectKind),
    /// The text of FreeBSD, ZFS and archives. The field says whether the names or the ids of a text are read, and the
    /// style how a list is written. It has no place for flags of the list.
    NfsText(WhoField, Style),
    /// nfsacl41, the value of the attribute dacl: flags and a list.
    NfsAcl41,
    /// nfsacl41i, as Samba keeps it: flags and a list whose users and groups are ids.
    NfsAcl41Ids,
}

impl Form {
    // Returns whether a value of the form is a text.
    fn is_text(self) -> bool
        ensures { result ≡ is_text self }
    {
        matches!(self, Form::NfsTools(_) | Form::NfsText(_, _))
    }
}

/// Returns the flags and the list that all of the bytes spell in the form, as `read_tools`, `read_nfs_text`,
/// `read_acl41` or `read_acl41_ids` reads them, and fails as that call does. A text has no flags, and is read with
/// `AclFlags::NONE`. The style of a text does not matter.
///
/// ```rust
/// let text = b"A::OWNER@:rw\n";
/// let (flags, list) = read(alloc, Form::NfsTools(ObjectKind::File), text)?;
/// assert!(rt; flags == AclFlags::NONE);
/// assert!(rt; list.weight() == 2);
/// ```
pub fn read(alloc: Global, form: Form, bytes: &[u8]) -> Result<(AclFlags, Acl), ReadFault>
    ensures found { IfForm result (λ flags list. SpellsForm form flags list bytes.now) }
    // If the bytes spell flags and a list, these are returned.
    ensures only { (flags : ℕ) (list : List Ace) → SpellsForm form flags list bytes.now
        → ReadsForm result flags list }
    ensures fault { IfErr result (λ fault. (fault ≡ no_memory_left)
        ⊎ IsFormFaultAt form bytes.now fault) }
    // Bytes with a fault are refused with that fault.
    ensures refused { (wrong : ReadFault) → IsFormFaultAt form bytes.now wrong
        → RefusesForm result wrong }
{
    match form {
        Form::NfsTools(object) => Ok((AclFlags::NONE, read_tools(alloc, bytes, object)?)),
        Form::NfsText(source, _) => Ok((AclFlags::NONE, read_nfs_text(alloc, bytes, source)?)),
        Form::NfsAcl41 => read_acl41(alloc, bytes),
        Form::NfsAcl41Ids => read_acl41_ids(alloc, bytes),
    }
}

/// Returns why the form cannot hold the flags and the list, or `None` if it can: AclFlags at place 0 for flags of a
/// text, and then what `tools_fault`, `nfs_text_fault` or `acl41_ids_fault` returns. nfsacl41 holds all flags and
/// lists. Time linear in the list.
///
/// ```rust
/// let list = parse_text(alloc, b"ALLOW - READ_DATA alice")?;
/// let fault = fits(Form::NfsAcl41Ids, &list.view(), AclFlags::NONE);
/// assert!(rt; fault == Some(FormFault { place: 0, reason: FormReason::NoId }));
/// ```
pub fn fits(form: Form, list: &AclView<'_>, flags: AclFlags) -> Option<FormFault>
    ensures { result ≡ form_fault form flags.bits list.now }
{
    if form.is_text() && flags.bits() != 0 {
        return Some(FLAGS_IN_TEXT);
    }
    match form {
        Form::NfsTools(object) => tools_fault(list, object),
        Form::NfsText(_, _) => nfs_text_fault(list),
        Form::NfsAcl41 => None,
        Form::NfsAcl41Ids => acl41_ids_fault(list),
    }
}

/// Writes flags and a list in the form, if `fits` returns `None`, as `write_tools`, `write_nfs_text`, `write_acl41` or
/// `write_acl41_ids` writes them. It ends at the first write that fails: then `written` bytes went out. It takes no
/// memory, and time linear in the bytes.
///
/// ```rust
/// let list = parse_text(alloc, b"ALLOW - READ_DATA bob")?;
/// let mut text = Counted::new(Vec::new(alloc));
/// write(Form::NfsTools(ObjectKind::File), AclFlags::NONE, &list.view(), &mut text)?;
/// assert!(rt; text.into_inner().as_slice() == b"A::bob:r\n".as_slice());
/// ```
pub fn write<K: Sink>(
    form: Form,
    flags: AclFlags,
    list: &AclView<'_>,
    sink: &mut K,
) -> Result<(), FormWriteFault>
    ensures { WritesIfHeld K.contents K.failure_count sink.old sink.new
        (form_fault form flags.bits list.now) (form_bytes form flags.bits list.now) result }
{
    if form.is_text() && flags.bits() != 0 {
        return Err(FormWriteFault::Form(FLAGS_IN_TEXT));
    }
    match form {
        Form::NfsTools(object) => write_tools(list, object, sink),
        Form::NfsText(_, style) => write_nfs_text(list, style, sink),
        Form::NfsAcl41 => Ok(write_acl41(flags, list, sink)?),
        Form::NfsAcl41Ids => write_acl41_ids(flags, list, sink),
    }
}
