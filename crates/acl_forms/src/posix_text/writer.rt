//! Writes POSIX ACLs as their texts in archives, if these can hold the ACLs.
ghost use Rattle.std.specs.Prelude.{◌≡◌, ◌+◌, ◌*◌, ◌≤◌, ◌<◌, ◌++◌, ◌∷◌, ◌==◌, ◌||◌, [], IfOk, OnErr, OnOk, None, length, not, option_map};
ghost use Rattle.std.specs.FinMap as set;
ghost use Rattle.std.specs.List.{flat_map, list_any};
ghost use Rattle.arrayvec.specs.ArrayVec.{array_vec_len};
ghost use Rattle.acl_perm.specs.Devices.{one_more};
ghost use Rattle.acl_perm.specs.Pieces.{WritesFrom};
ghost use Rattle.acl_perm.specs.Shown.{perm_text};
ghost use Rattle.acl_posix.specs.Entries.{pair_of, pairs};
ghost use Rattle.acl_posix.specs.Tag.{tag_of};
ghost use Rattle.acl_posix.specs.internal.Digits.{most_digits};
ghost use Rattle.acl_posix.specs.Texts.{long_word, qualifier_text};
ghost use Rattle.acl_forms.specs.FormWrites.{WritesIfHeld};
ghost use Rattle.acl_forms.specs.PosixNames.{tag_name};
ghost use Rattle.acl_forms.specs.FirstFault.{first_fault};
ghost use Rattle.acl_forms.specs.PosixWritten.{comma_before, entries_text, posix_entry_fault, id_field, id_reason_of, is_cut_name, is_name_separator, longest_name, name_reason, named_reason, pieces_if, posix_piece, posix_text, posix_text_fault, styled, three_fields, written_qualifier};
ghost use Rattle.acl_forms.specs.internal.AttributeEntries.{most_entries};
ghost use Rattle.acl_forms.specs.internal.PosixWriting.{chosen, named_room, piece_if, IsShortName};
ghost use Rattle.acl_forms.specs.internal.TextWriting.{id_room, longest_word, perm_letters, text_line_room};

use crate::fault::{FormFault, FormReason};
use crate::form_write::FormWriteFault;
use crate::posix_text::names::IdNames;
use crate::posix_text::style::TarStyle;
use crate::tools::writer::is_separator;
use crate::writing::{EntryLine, GREATEST_KEPT_ID, add};
use acl_perm::internal::{put_next, trimmed};
use acl_perm::{Perm, Sink, WriteFault};
use acl_posix::internal::letter;
use acl_posix::{Entry, PosixAcl, Tag};
use arrayvec::ArrayVec;
use itoa::Buffer;

// The longest name that is written.
const LONGEST_NAME: usize = 1024;

/// Which entries a pass over an ACL writes.
#[derive(Clone, Copy)]
pub(crate) enum Pass {
    All,
    Base,
    Others,
}

/// Writes an ACL as the value of `SCHILY.acl.access` or `SCHILY.acl.default` in this style, if `posix_text_fault`
/// returns `None`. It ends at the first put that fails: then `written` bytes went out. It takes no memory.
///
/// ```rust
/// let text = b"user::rw-,group::r--,other::---,user:bob:rw-:1001,mask::rw-";
/// let acl = read_posix_text(alloc, text, &Names::new(alloc))?.access;
/// let mut names = IdNames::new(alloc);
/// names.add_user(Id { value: 1001 }, b"bob")?;
/// let mut written = Counted::new(Vec::new(alloc));
/// write_posix_text(&acl, &names, TarStyle::Star, &mut written)?;
/// assert!(rt; written.into_inner().as_slice() == text.as_slice());
/// ```
pub fn write_posix_text<K: Sink>(
    acl: &PosixAcl,
    names: &IdNames,
    style: TarStyle,
    sink: &mut K,
) -> Result<(), FormWriteFault>
    ensures written { WritesIfHeld K.contents K.failure_count sink.old sink.new
        (posix_text_fault names.now style acl.now) (posix_text names.now style acl.now) result }
{
    if let Some(fault) = posix_text_fault(acl, names, style) {
        return Err(FormWriteFault::Form(fault));
    }
    put_text(acl.entries(), names, style, sink)?;
    Ok(())
}

/// Returns why a text in this style cannot hold an ACL with these names, or `None` if it can: the first entry in
/// canonical order that it cannot hold, and the first reason in this order. Separator: its name has a comma, a colon, a
/// `#`, a line feed or a zero byte, or a blank at an end. TooLong: its name has more than 1,024 bytes. Id: the style is
/// that of star, and the id is above 2147483647, which libarchive does not keep. It takes no memory; for each entry,
/// time logarithmic in the names.
pub fn posix_text_fault(acl: &PosixAcl, names: &IdNames, style: TarStyle) -> Option<FormFault>
    ensures { result ≡ posix_text_fault names.now style acl.now }
{
    first_fault(acl.entries(), names, style)
}

// Returns the first entry that the text cannot hold.
#[tactic(auto, using(crate::proofs::FormLemmas::fault_from_start))]
fn first_fault(entries: &[Entry], names: &IdNames, style: TarStyle) -> Option<FormFault>
    ensures { result ≡ first_fault (posix_entry_fault names.now style) (pairs entries.now) }
{
    for (place, entry) in entries.iter().enumerate() {
        if let Some(reason) = entry_reason(entry.tag, names, style) {
            return Some(FormFault { place, reason });
        }
    }
    None
}

// Returns the first reason for which the text cannot hold an entry.
fn entry_reason(tag: Tag, names: &IdNames, style: TarStyle) -> Option<FormReason>
    ensures { result ≡ named_reason style (tag_of tag) (tag_name names.now (tag_of tag)) }
{
    match names.of_tag(tag) {
        None => id_reason(tag, style),
        Some(name) => match name_reason(name) {
            None => id_reason(tag, style),
            Some(reason) => Some(reason),
        },
    }
}

fn id_reason(tag: Tag, style: TarStyle) -> Option<FormReason>
    ensures { result ≡ id_reason_of style (tag_of tag) }
{
    match (style, tag) {
        (TarStyle::Star, Tag::User(id) | Tag::Group(id)) if id.value() > GREATEST_KEPT_ID => Some(
            FormReason::Id,
        ),
        _ => None,
    }
}

fn name_reason(name: &[u8]) -> Option<FormReason>
    ensures { result ≡ name_reason name.now }
{
    if is_cut_name(name) {
        Some(FormReason::Separator)
    } else if name.len() > LONGEST_NAME {
        Some(FormReason::TooLong)
    } else {
        None
    }
}

// Returns whether a name would not be read again.
fn is_cut_name(name: &[u8]) -> bool
    ensures { result ≡ is_cut_name name.now }
{
    has_name_separator(name) || trimmed(name) != name
}

fn has_name_separator(name: &[u8]) -> bool
    ensures { result ≡ list_any is_name_separator name.now }
{
    name.iter().any(|b| is_name_separator(*b))
}

fn is_name_separator(b: u8) -> bool
    ensures { result ≡ is_name_separator b }
{
    is_separator(b) || b == b'\n' || b == 0
}

// Writes the text of entries, and returns how many bytes are out then.
fn put_text<K: Sink>(
    entries: &[Entry],
    names: &IdNames,
    style: TarStyle,
    sink: &mut K,
) -> Result<u64, WriteFault>
    requires few { length entries.now ≤ most_entries }
    requires held { first_fault (posix_entry_fault names.now style) (pairs entries.now) ≡ None }
    ensures written { WritesFrom (K.contents sink.old) (K.contents sink.new) 0
        (entries_text names.now style (pairs entries.now)) result }
    ensures none_failed { OnOk result (K.failure_count sink.new ≡ K.failure_count sink.old) }
    ensures failed { OnErr result (K.failure_count sink.new ≡ one_more (K.failure_count sink.old)) }
{
    match style {
        TarStyle::Gnu => put_pass(sink, 0, entries, names, style, Pass::All),
        TarStyle::Star => {
            let done = put_pass(sink, 0, entries, names, style, Pass::Base)?;
            put_pass(sink, done, entries, names, style, Pass::Others)
        }
    }
}

// Writes the entries of a pass after the first bytes, and returns how many bytes are out then.
fn put_pass<K: Sink>(
    sink: &mut K,
    start: u64,
    entries: &[Entry],
    names: &IdNames,
    style: TarStyle,
    pass: Pass,
) -> Result<u64, WriteFault>
    requires few { length entries.now ≤ most_entries }
    requires start { start ≤ text_line_room * most_entries }
    requires held { first_fault (posix_entry_fault names.now style) (pairs entries.now) ≡ None }
    ensures written { WritesFrom (K.contents sink.old) (K.contents sink.new) start
        (pieces_if names.now style (chosen pass) (pairs entries.now)) result }
    ensures none_failed { OnOk result (K.failure_count sink.new ≡ K.failure_count sink.old) }
    ensures failed { OnErr result (K.failure_count sink.new ≡ one_more (K.failure_count sink.old)) }
    ensures count { IfOk result (λ done. done ≤ start + text_line_room * length entries.now) }
{
    let mut line = ArrayVec::new();
    let mut done = start;
    for entry in entries {
        fill(&mut line, *entry, names, style, pass);
        done = put_next(sink, done, &line)?;
    }
    Ok(done)
}

// Fills the buffer with the piece of an entry, or with nothing if the pass leaves the entry out.
fn fill(line: &mut EntryLine, entry: Entry, names: &IdNames, style: TarStyle, pass: Pass)
    requires { IsShortName (tag_name names.now (tag_of entry.tag)) }
    ensures text { line.new.items ≡ piece_if names.now style (chosen pass) (pair_of entry) }
    ensures short { array_vec_len line.new ≤ text_line_room }
{
    line.clear();
    if is_chosen(pass, entry.tag) {
        add_piece(line, entry, names, style);
    }
}

fn is_chosen(pass: Pass, tag: Tag) -> bool
    ensures { result ≡ chosen pass (tag_of tag) }
{
    let is_base = matches!(tag, Tag::UserObj | Tag::GroupObj | Tag::Other);
    match pass {
        Pass::All => true,
        Pass::Base => is_base,
        Pass::Others => !is_base,
    }
}

#[tactic(auto, unfolding(crate::specs::PosixWritten::posix_piece))]
fn add_piece(line: &mut EntryLine, entry: Entry, names: &IdNames, style: TarStyle)
    requires empty { line.old.items ≡ [] }
    requires short { IsShortName (tag_name names.now (tag_of entry.tag)) }
    ensures text { line.new.items ≡ posix_piece names.now style (pair_of entry) }
    ensures short { array_vec_len line.new ≤ text_line_room }
{
    let name = names.of_tag(entry.tag);
    match style {
        TarStyle::Star => {
            add(line, comma_before(entry.tag));
            add_fields(line, entry, name);
            add_id(line, entry.tag, name);
        }
        TarStyle::Gnu => {
            add_fields(line, entry, name);
            line.push(b'\n');
        }
    }
}

fn comma_before(tag: Tag) -> &'static [u8]
    ensures value { result.now ≡ comma_before (tag_of tag) }
    ensures short { length result.now ≤ 1 }
{
    match tag {
        Tag::UserObj => b"",
        _ => b",",
    }
}

// Adds the word, the qualifier and the permissions of an entry.
fn add_fields(line: &mut EntryLine, entry: Entry, name: Option<&[u8]>)
    requires room { array_vec_len line.old ≤ 1 }
    requires short { IsShortName (option_map (λ name. name.now) name) }
    ensures text { line.new.items ≡ line.old.items ++ three_fields (pair_of entry)
        (option_map (λ name. name.now) name.entry) }
    ensures len { array_vec_len line.new ≤ array_vec_len line.old + named_room }
{
    add(line, long_word(entry.tag));
    line.push(b':');
    match name {
        Some(name) => add(line, name),
        None => add_number(line, entry.tag),
    }
    line.push(b':');
    add_perm(line, entry.perm);
}

// Adds the id after the permissions, if the qualifier is a name.
fn add_id(line: &mut EntryLine, tag: Tag, name: Option<&[u8]>)
    requires room { array_vec_len line.old + id_room ≤ text_line_room }
    ensures text { line.new.items ≡ line.old.items ++ id_field (tag_of tag)
        (option_map (λ name. name.now) name.entry) }
    ensures len { array_vec_len line.new ≤ array_vec_len line.old + id_room }
{
    match name {
        Some(_) => {
            line.push(b':');
            add_number(line, tag);
        }
        None => {}
    }
}

// Adds the decimal id of a tag, if it has one.
fn add_number(line: &mut EntryLine, tag: Tag)
    requires room { array_vec_len line.old + most_digits ≤ text_line_room }
    ensures text { line.new.items ≡ line.old.items ++ qualifier_text (tag_of tag) }
    ensures len { array_vec_len line.new ≤ array_vec_len line.old + most_digits }
{
    match tag {
        Tag::User(id) | Tag::Group(id) => {
            let mut digits = Buffer::new();
            add(line, digits.format(id.value()).as_bytes());
        }
        Tag::UserObj | Tag::GroupObj | Tag::Mask | Tag::Other => {}
    }
}

// Adds the three letters of permissions.
fn add_perm(line: &mut EntryLine, perm: Perm)
    requires room { array_vec_len line.old + perm_letters ≤ text_line_room }
    ensures text { line.new.items ≡ line.old.items ++ perm_text perm.bits }
    ensures len { array_vec_len line.new ≤ array_vec_len line.old + perm_letters }
{
    add(
        line,
        &[
            letter(perm, 4, b'r'),
            letter(perm, 2, b'w'),
            letter(perm, 1, b'x'),
        ],
    );
}

fn long_word(tag: Tag) -> &'static [u8]
    ensures value { result.now ≡ long_word (tag_of tag) }
    ensures short { length result.now ≤ longest_word }
{
    match tag {
        Tag::UserObj | Tag::User(_) => b"user",
        Tag::GroupObj | Tag::Group(_) => b"group",
        Tag::Mask => b"mask",
        Tag::Other => b"other",
    }
}
