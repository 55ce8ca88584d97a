//! The text of one entry. It is put together from its end: each part is put in front of the parts after it.
ghost use Rattle.std.specs.Prelude.{◌≡◌, ◌+◌, ◌≤◌, ◌++◌, ◌∷◌, [], ◌==◌, drop};
ghost use Rattle.acl_perm.specs.Ascii.{colon};
ghost use Rattle.acl_perm.specs.Shown.{letter, perm_text};
ghost use Rattle.acl_posix.specs.Entries.{pair_of};
ghost use Rattle.acl_posix.specs.Tag.{tag_of};
ghost use Rattle.acl_posix.specs.Texts.{qualifier_text};
ghost use Rattle.acl_posix.specs.internal.Writing.{ending, ending_room, entry_out, form_word, entry_lead, lead_room, line_room, perm_room, qualifier_room, word_room, IsPut};

use crate::entry::Entry;
use crate::form::AclTextForm;
use crate::tag::Tag;
use crate::text_fault::Part;
use acl_perm::Perm;
use itoa::write_digits;

/// The bytes of a line: room for the longest text of an entry.
pub(crate) const LINE: usize = 64;

/// Puts the text of an entry, with all that belongs to it, at the end of a line, and returns where the text begins.
#[tactic(auto, unfolding(crate::specs::internal::Writing::entry_out))]
pub(crate) fn put_entry(
    line: &mut [u8; LINE],
    form: AclTextForm,
    part: Part,
    is_first: bool,
    entry: Entry,
    effective: Perm,
) -> usize
    ensures within { result ≤ line_room }
    ensures text { drop result line.new
        ≡ entry_out form part is_first effective.bits (pair_of entry) }
{
    let end = put_ending(line, form, effective, entry.perm);
    let end = put_perm(line, end, entry.perm);
    let end = put_qualifier(line, end, entry.tag);
    let end = put_word(line, end, form, entry.tag);
    put_lead(line, end, form, part, is_first)
}

// Puts the bytes after an entry: in the shown form with a comment, if the effective permissions are not those of the
// entry.
fn put_ending(line: &mut [u8; LINE], form: AclTextForm, effective: Perm, perm: Perm) -> usize
    ensures text { IsPut (ending form effective.bits perm.bits) line.old line.new line_room result }
    ensures short { line_room ≤ result + ending_room }
{
    match form {
        AclTextForm::Canonical => put(line, LINE, *b"\n"),
        AclTextForm::Shown => {
            let end = put(line, LINE, *b"\n");
            if effective.bits == perm.bits {
                return end;
            }
            let end = put_perm(line, end, effective);
            put(line, end, *b"\t#effective")
        }
        AclTextForm::Short => LINE,
    }
}

fn put_perm(line: &mut [u8; LINE], end: usize, perm: Perm) -> usize
    requires room { perm_room ≤ end }
    requires inside { end ≤ line_room }
    ensures { IsPut (colon ∷ perm_text perm.bits) line.old line.new end result }
{
    let read = letter(perm, 4, b'r');
    let write = letter(perm, 2, b'w');
    let execute = letter(perm, 1, b'x');
    put(line, end, [b':', read, write, execute])
}

/// Returns the letter of a permission if the set has it, and `-` otherwise.
pub fn letter(perm: Perm, bit: u8, shown: u8) -> u8
    ensures { result ≡ letter perm.bits bit shown }
{
    if perm.bits & bit == bit { shown } else { b'-' }
}

// Puts the id in decimal, if the tag has one.
#[tactic(auto, using(crate::proofs::digits::DigitLemmas::id_short))]
fn put_qualifier(line: &mut [u8; LINE], end: usize, tag: Tag) -> usize
    requires room { qualifier_room ≤ end }
    requires inside { end ≤ line_room }
    ensures text { IsPut (qualifier_text (tag_of tag)) line.old line.new end result }
    ensures short { end ≤ result + qualifier_room }
{
    match tag {
        Tag::User(id) | Tag::Group(id) => write_digits(u64::from(id.value), line, end),
        Tag::UserObj | Tag::GroupObj | Tag::Mask | Tag::Other => end,
    }
}

fn put_word(line: &mut [u8; LINE], end: usize, form: AclTextForm, tag: Tag) -> usize
    requires room { word_room ≤ end }
    requires inside { end ≤ line_room }
    ensures text { IsPut (form_word form (tag_of tag) ++ colon ∷ []) line.old line.new end result }
    ensures short { end ≤ result + word_room }
{
    match (form, tag) {
        (AclTextForm::Canonical | AclTextForm::Shown, Tag::UserObj | Tag::User(_)) => put(
            line, end, *b"user:",
        ),
        (AclTextForm::Canonical | AclTextForm::Shown, Tag::GroupObj | Tag::Group(_)) => put(
            line, end, *b"group:",
        ),
        (AclTextForm::Canonical | AclTextForm::Shown, Tag::Mask) => put(line, end, *b"mask:"),
        (AclTextForm::Canonical | AclTextForm::Shown, Tag::Other) => put(line, end, *b"other:"),
        (AclTextForm::Short, Tag::UserObj | Tag::User(_)) => put(line, end, *b"u:"),
        (AclTextForm::Short, Tag::GroupObj | Tag::Group(_)) => put(line, end, *b"g:"),
        (AclTextForm::Short, Tag::Mask) => put(line, end, *b"m:"),
        (AclTextForm::Short, Tag::Other) => put(line, end, *b"o:"),
    }
}

// Puts the bytes before an entry.
fn put_lead(
    line: &mut [u8; LINE],
    end: usize,
    form: AclTextForm,
    part: Part,
    is_first: bool,
) -> usize
    requires room { lead_room ≤ end }
    requires inside { end ≤ line_room }
    ensures { IsPut (entry_lead form part is_first) line.old line.new end result }
{
    match (form, part, is_first) {
        (AclTextForm::Canonical | AclTextForm::Shown, Part::Access, _) => end,
        (AclTextForm::Canonical | AclTextForm::Shown, Part::Default, _) => put(
            line,
            end,
            *b"default:",
        ),
        (AclTextForm::Short, Part::Access, true) => end,
        (AclTextForm::Short, Part::Access, false) => put(line, end, *b","),
        (AclTextForm::Short, Part::Default, true) => put(line, end, *b"d:"),
        (AclTextForm::Short, Part::Default, false) => put(line, end, *b",d:"),
    }
}

// Puts bytes in front of those from `end` on, and returns where they begin.
#[inline(always)]
fn put<const N: usize>(line: &mut [u8; LINE], end: usize, bytes: [u8; N]) -> usize
    requires room { N ≤ end }
    requires inside { end ≤ line_room }
    ensures { IsPut bytes.entry line.old line.new end result }
{
    let start = end - N;
    line[start..end].copy_from_slice(&bytes);
    start
}
