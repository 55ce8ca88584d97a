//! Writes the text of NFSv4 lists on FreeBSD, in ZFS and in archives, if it can hold the list.
ghost use Rattle.std.specs.Prelude.{◌≡◌, ◌+◌, ◌<◌, ◌≤◌, ◌++◌, length, option_map, IfSome};
ghost use Rattle.std.specs.Str.{bytes_eq};
ghost use Rattle.arrayvec.specs.ArrayVec.{array_vec_len};
ghost use Rattle.acl_perm.specs.Lines.{trimmed};
ghost use Rattle.acl_nfs4.specs.Ace.{ace};
ghost use Rattle.acl_nfs4.specs.Limits.{longest_who, most_aces};
ghost use Rattle.acl_forms.specs.Acl41Ids.{id_of_digits};
ghost use Rattle.acl_forms.specs.FormWrites.{WritesIfHeld};
ghost use Rattle.acl_forms.specs.Letters.{nfs_flag_letters, nfs_right_letters};
ghost use Rattle.acl_forms.specs.NfsWritten.{account_word, id_after, is_cut_who, is_id_cut, is_other_id, kind_word, nfs_ace_fault, nfs_entry_text, nfs_text, nfs_text_fault, principal_text, special_word};
ghost use Rattle.acl_forms.specs.ToolsWritten.{letters_of};
ghost use Rattle.acl_forms.specs.internal.TextWriting.{id_room, longest_special_word, longest_word, text_line_room};

use crate::acl41_ids_writer::id_in_digits;
use crate::fault::{FormFault, FormReason};
use crate::form_write::FormWriteFault;
use crate::letters::{nfs_flag_letters, nfs_right_letters};
use crate::nfs_text::id::is_odd_number;
use crate::style::{LetterStyle, Style};
use crate::tools::writer::has_separator;
use crate::writing::{
    AceTextForm, EntryLine, GREATEST_KEPT_ID, RETENTION, add, add_styled, put_entries, shares_flag,
    shares_right,
};
use acl_nfs4::internal::{EVERYONE_NAME, GROUP_NAME, OWNER_NAME};
use acl_nfs4::{AceRef, Aces, AclView, Flags, Kind};
use acl_perm::Sink;
use acl_perm::internal::trimmed;

/// Writes a list as libarchive prints it with ids and in this style, if `nfs_text_fault` returns `None`. Where no comma
/// separates the entries, there is a line feed after the last one too. A who that is the digits of an id is written as
/// the name and as the id, and IDENTIFIER_GROUP of a special identifier is not written. It ends at the first put that
/// fails: then `written` bytes went out. It takes no memory, and time linear in the text.
///
/// ```rust
/// let text = b"owner@:r-w:f:allow,user:1001:::deny";
/// let list = read_nfs_text(alloc, text, WhoField::Name)?;
/// let mut text = Counted::new(Vec::new(alloc));
/// write_nfs_text(&list.view(), Style::ARCHIVE, &mut text)?;
/// let expected = b"owner@:rw:f:allow,user:1001:::deny:1001";
/// assert!(rt; text.into_inner().as_slice() == expected.as_slice());
/// ```
pub fn write_nfs_text<S: Sink>(
    list: &AclView<'_>,
    style: Style,
    sink: &mut S,
) -> Result<(), FormWriteFault>
    ensures written { WritesIfHeld S.contents S.failure_count sink.old sink.new
        (nfs_text_fault list.now) (nfs_text style list.now) result }
{
    if let Some(fault) = nfs_text_fault(list) {
        return Err(FormWriteFault::Form(fault));
    }
    put_entries(sink, list.aces(), AceTextForm::Nfs(style))?;
    Ok(())
}

/// Returns why the text of FreeBSD and libarchive cannot hold a list, or `None` if it can: the first ACE that it cannot
/// hold, and the first reason in this order. Retention: the ACE has one of the two rights of retention. Separator: its
/// who has a comma, a colon or a `#`, or a blank at one of its ends. Id: its who is digits alone, which libarchive takes
/// for an id, but not the decimal digits of an id up to 2147483647, which it keeps. Time linear in the list.
///
/// ```rust
/// let list = parse_text(alloc, b"ALLOW - READ_DATA a,b\n")?;
/// let fault = nfs_text_fault(&list.view());
/// assert!(rt; fault == Some(FormFault { place: 0, reason: FormReason::Separator }));
/// ```
pub fn nfs_text_fault(list: &AclView<'_>) -> Option<FormFault>
    ensures { result ≡ nfs_text_fault list.now }
{
    first_fault(list.aces())
}

// Returns the first ACE that the form cannot hold.
#[tactic(auto, using(crate::proofs::FormLemmas::fault_from_start))]
fn first_fault(aces: Aces<'_>) -> Option<FormFault>
    requires { length aces ≤ most_aces }
    ensures { result ≡ nfs_text_fault aces.entry }
{
    let mut place = 0;
    for ace in aces {
        if let Some(reason) = ace_fault(ace) {
            return Some(FormFault { place, reason });
        }
        place += 1;
    }
    None
}

// Returns the first reason for which the form cannot hold an ACE.
fn ace_fault(item: AceRef<'_>) -> Option<FormReason>
    ensures { result ≡ nfs_ace_fault (ace item.entry) }
{
    if shares_right(item.mask, RETENTION) {
        Some(FormReason::Retention)
    } else if is_cut_who(item.who) {
        Some(FormReason::Separator)
    } else if is_other_id(item.who) {
        Some(FormReason::Id)
    } else {
        None
    }
}

// Returns whether a who would not be read again.
fn is_cut_who(who: &[u8]) -> bool
    ensures { result ≡ is_cut_who who.now }
{
    has_separator(who) || trimmed(who) != who
}

// Returns whether a who is digits that libarchive reads as another id.
fn is_other_id(who: &[u8]) -> bool
    ensures { result ≡ is_other_id who.now }
{
    is_odd_number(who) || has_id_cut(who)
}

// Returns whether a who is the digits of an id that libarchive does not keep.
fn has_id_cut(who: &[u8]) -> bool
    ensures { result ≡ is_id_cut (id_of_digits who.now) }
{
    match id_in_digits(who) {
        Some(id) => id.value() > GREATEST_KEPT_ID,
        None => false,
    }
}

#[tactic(auto, unfolding(crate::specs::NfsWritten::nfs_entry_text))]
pub(crate) fn add_entry(line: &mut EntryLine, item: AceRef<'_>, letters: LetterStyle)
    requires room { array_vec_len line.old ≤ 1 }
    requires short { length item.who.now ≤ longest_who }
    ensures text { line.new.items ≡ line.old.items ++ nfs_entry_text letters (ace item.entry) }
    ensures len { array_vec_len line.new < text_line_room }
{
    add_principal(line, item);
    line.push(b':');
    add_styled(line, nfs_right_letters(), item.mask.bits(), letters);
    line.push(b':');
    add_styled(line, nfs_flag_letters(), item.flags.bits() as u32, letters);
    line.push(b':');
    add(line, kind_word(item.kind));
    add_id(line, item.who);
}

fn add_principal(line: &mut EntryLine, item: AceRef<'_>)
    requires room { array_vec_len line.old ≤ 1 }
    requires short { length item.who.now ≤ longest_who }
    ensures text { line.new.items
        ≡ line.old.items ++ principal_text (ace item.entry) (special_word item.entry.who.now) }
    ensures len { array_vec_len line.new
        ≤ array_vec_len line.old + length item.entry.who.now + longest_special_word }
{
    match special_word(item.who) {
        Some(word) => add(line, word),
        None => {
            add(line, account_word(item.flags));
            line.push(b':');
            add(line, item.who);
        }
    }
}

fn add_id(line: &mut EntryLine, who: &[u8])
    requires { array_vec_len line.old + id_room ≤ text_line_room }
    ensures text { line.new.items ≡ line.old.items ++ id_after who.now (id_of_digits who.now) }
    ensures len { array_vec_len line.new ≤ array_vec_len line.old + id_room }
{
    match id_in_digits(who) {
        Some(_) => {
            line.push(b':');
            add(line, who);
        }
        None => {}
    }
}

fn special_word(who: &[u8]) -> Option<&'static [u8]>
    ensures value { option_map (λ word. word.now) result ≡ special_word who.now }
    ensures short { IfSome result (λ word. length word.now ≤ longest_special_word) }
{
    if who == OWNER_NAME.as_bytes() {
        Some(b"owner@")
    } else if who == GROUP_NAME.as_bytes() {
        Some(b"group@")
    } else if who == EVERYONE_NAME.as_bytes() {
        Some(b"everyone@")
    } else {
        None
    }
}

// Returns the word before a name.
fn account_word(flags: Flags) -> &'static [u8]
    ensures value { result.now ≡ account_word flags.bits }
    ensures short { length result.now ≤ longest_word }
{
    if shares_flag(flags, Flags::IDENTIFIER_GROUP) {
        b"group"
    } else {
        b"user"
    }
}

fn kind_word(kind: Kind) -> &'static [u8]
    ensures value { result.now ≡ kind_word kind }
    ensures short { length result.now ≤ longest_word }
{
    match kind {
        Kind::Allow => b"allow",
        Kind::Deny => b"deny",
    }
}
