//! Writes the text of nfs4-acl-tools, if it can hold the list.
ghost use Rattle.std.specs.Prelude.{◌≡◌, ◌+◌, ◌<◌, ◌≤◌, ◌++◌, ◌==◌, length, map, None};
ghost use Rattle.std.specs.List.{list_any};
ghost use Rattle.arrayvec.specs.ArrayVec.{array_vec_len};
ghost use Rattle.acl_nfs4.specs.Ace.{ace};
ghost use Rattle.acl_nfs4.specs.Limits.{longest_who, most_aces};
ghost use Rattle.acl_forms.specs.internal.FaultSearch.{tools_fault_from};
ghost use Rattle.acl_forms.specs.FormWrites.{WritesIfHeld};
ghost use Rattle.acl_forms.specs.ToolsWritten.{as_written, is_for_directories, is_separator, kind_letter, letters_of, tools_ace_fault, tools_entry_text, tools_fault, tools_line, tools_text};
ghost use Rattle.acl_forms.specs.internal.TextWriting.{text_line_room};

use crate::fault::{FormFault, FormReason};
use crate::form_write::FormWriteFault;
use crate::letters::{FLAG_LETTERS, single_letters};
use crate::object::ObjectKind;
use crate::tools::entry::with_group;
use crate::writing::{
    AceTextForm, EntryLine, RETENTION, add, add_letters, put_entries, shares_flag, shares_right,
};
use acl_nfs4::{AceRef, Aces, AclView, Flags, Kind, Mask};
use acl_perm::Sink;
use arrayvec::ArrayVec;

const INHERITANCE: Flags = Flags {
    bits: Flags::FILE_INHERIT.bits
        | Flags::DIRECTORY_INHERIT.bits
        | Flags::NO_PROPAGATE_INHERIT.bits
        | Flags::INHERIT_ONLY.bits,
};

// The tool can read a who of this many bytes.
const LONGEST_WHO: usize = 385;

// The tool can read a text of this many bytes.
const LONGEST_TEXT: usize = 65_535;

/// Writes a list as nfs4_getfacl prints it, without the line before it, if `tools_fault` returns `None`: a line for
/// each ACE, with IDENTIFIER_GROUP always on `GROUP@`. It ends at the first put that fails: then `written` bytes went
/// out. It takes no memory, and time linear in the text.
///
/// ```rust
/// let list = read_tools(alloc, b"A:fd:alice:wr", ObjectKind::Directory)?;
/// let mut text = Counted::new(Vec::new(alloc));
/// write_tools(&list.view(), ObjectKind::Directory, &mut text)?;
/// assert!(rt; text.into_inner().as_slice() == b"A:fd:alice:rw\n".as_slice());
/// ```
pub fn write_tools<S: Sink>(
    list: &AclView<'_>,
    object: ObjectKind,
    sink: &mut S,
) -> Result<(), FormWriteFault>
    ensures written { WritesIfHeld S.contents S.failure_count sink.old sink.new
        (tools_fault object list.now) (tools_text list.now) result }
{
    if let Some(fault) = tools_fault(list, object) {
        return Err(FormWriteFault::Form(fault));
    }
    put_entries(sink, list.aces(), AceTextForm::Tools)?;
    Ok(())
}

/// Returns why the text of nfs4-acl-tools cannot hold a list of this object, or `None` if it can: the first ACE that it
/// cannot hold, and the first reason in this order. Inherited: the ACE has INHERITED, which the tools dropped before
/// version 0.4. Retention: it has one of the two rights of retention. Separator: its who has a comma, a colon or a `#`.
/// NotDirectory: the object is a file, and the ACE has a flag of inheritance or DELETE_CHILD. TooLong: its who has more
/// than 385 bytes, or the text up to it has more than 65,535. Empty: the list has no ACE. Time linear in the list.
///
/// ```rust
/// let text = b"ALLOW - WRITE_RETENTION bob\n";
/// let list = parse_text(alloc, text)?;
/// let fault = tools_fault(&list.view(), ObjectKind::File);
/// assert!(rt; fault == Some(FormFault { place: 0, reason: FormReason::Retention }));
/// ```
pub fn tools_fault(list: &AclView<'_>, object: ObjectKind) -> Option<FormFault>
    ensures { result ≡ tools_fault object list.now }
{
    if list.is_empty() {
        return Some(FormFault {
            place: 0,
            reason: FormReason::Empty,
        });
    }
    first_fault(list.aces(), object)
}

// Returns the first ACE that the form cannot hold.
fn first_fault(aces: Aces<'_>, object: ObjectKind) -> Option<FormFault>
    requires { length aces ≤ most_aces }
    ensures { result ≡ tools_fault_from object 0 0 aces.entry }
{
    let mut line = ArrayVec::new();
    let mut place = 0;
    let mut done = 0;
    for ace in aces {
        if let Some(reason) = ace_fault(ace, object) {
            return Some(FormFault { place, reason });
        }
        fill(&mut line, ace);
        done += line.len();
        if done > LONGEST_TEXT {
            return Some(FormFault {
                place,
                reason: FormReason::TooLong,
            });
        }
        place += 1;
    }
    None
}

// Returns the first reason for which the form cannot hold an ACE.
fn ace_fault(item: AceRef<'_>, object: ObjectKind) -> Option<FormReason>
    ensures { result ≡ tools_ace_fault object (ace item.entry) }
{
    if shares_flag(item.flags, Flags::INHERITED) {
        Some(FormReason::Inherited)
    } else if shares_right(item.mask, RETENTION) {
        Some(FormReason::Retention)
    } else if has_separator(item.who) {
        Some(FormReason::Separator)
    } else if object == ObjectKind::File && is_for_directories(item) {
        Some(FormReason::NotDirectory)
    } else if item.who.len() > LONGEST_WHO {
        Some(FormReason::TooLong)
    } else {
        None
    }
}

// Returns whether an ACE has a flag of inheritance, or DELETE_CHILD, which have no meaning on files.
fn is_for_directories(item: AceRef<'_>) -> bool
    ensures { result ≡ is_for_directories (ace item.entry) }
{
    shares_flag(item.flags, INHERITANCE) || shares_right(item.mask, Mask::DELETE_CHILD)
}

/// Returns whether a who has a byte that separates fields or entries, or begins a comment.
pub(crate) fn has_separator(who: &[u8]) -> bool
    ensures { result ≡ list_any is_separator who.now }
{
    who.iter().any(|b| is_separator(*b))
}

/// Returns whether a byte separates fields or entries, or begins a comment.
pub(crate) fn is_separator(b: u8) -> bool
    ensures { result ≡ is_separator b }
{
    b == b',' || b == b':' || b == b'#'
}

fn fill(line: &mut EntryLine, item: AceRef<'_>)
    requires { length item.who.now ≤ longest_who }
    ensures text { line.new.items ≡ tools_line (ace item.entry) }
    ensures short { array_vec_len line.new ≤ text_line_room }
{
    line.clear();
    add_entry(line, item);
    line.push(b'\n');
}

#[tactic(auto, unfolding(crate::specs::ToolsWritten::tools_entry_text))]
pub(crate) fn add_entry(line: &mut EntryLine, item: AceRef<'_>)
    requires room { array_vec_len line.old ≤ 1 }
    requires short { length item.who.now ≤ longest_who }
    ensures text { line.new.items ≡ line.old.items ++ tools_entry_text (ace item.entry) }
    ensures len { array_vec_len line.new < text_line_room }
{
    line.push(kind_letter(item.kind));
    line.push(b':');
    let flags = with_group(item.who, item.flags);
    add_letters(line, &FLAG_LETTERS, flags.bits() as u32);
    line.push(b':');
    add(line, item.who);
    line.push(b':');
    add_letters(line, single_letters(), item.mask.bits());
}

fn kind_letter(kind: Kind) -> u8
    ensures { result ≡ kind_letter kind }
{
    match kind {
        Kind::Allow => b'A',
        Kind::Deny => b'D',
    }
}
