//! Writes the text of a list to a sink, line by line without memory, or into memory.
ghost use Rattle.std.specs.Prelude.{◌≡◌, ◌+◌, ◌*◌, ◌≤◌, ◌++◌, ◌↔◌, IfOk, OnErr, OnOk, List, length, true};
ghost use Rattle.std.specs.List.{join_with_byte, list_all};
ghost use Rattle.arrayvec.specs.ArrayVec.{array_vec_len};
ghost use Rattle.acl_perm.specs.Devices.{one_more};
ghost use Rattle.acl_perm.specs.Pieces.{Writes, WritesFrom};
ghost use Rattle.acl_perm.specs.Profile.{full};
ghost use Rattle.acl_nfs4.specs.Ace.{Ace, ace};
ghost use Rattle.acl_nfs4.specs.AceText.{IsAceText, ace_line, ace_text};
ghost use Rattle.acl_nfs4.specs.BitNames.{bar, names_of, set_text};
ghost use Rattle.acl_nfs4.specs.Limits.{longest_who, most_aces};
ghost use Rattle.acl_nfs4.specs.internal.NameTable.{bar_before, bit_names_of, is_rising, is_short_row, ace_line_room, row_room};

use crate::ace::AceRef;
use crate::list::aces::Aces;
use crate::list::acl::Acl;
use crate::names::flag_names::FLAGS;
use crate::xdr::view::AclView;
use acl_perm::internal::{BitName, RIGHTS, kind_name, put_next};
use acl_perm::{Counted, Sink, WriteFault};
use arrayvec::ArrayVec;
use std::alloc::{AllocError, Global};

/// Room for a line: a kind, all flags, all rights, the longest who, and the bytes between them.
pub type Line = ArrayVec<u8, LINE_ROOM>;

pub const LINE_ROOM: usize = 1600;

impl Acl {
    /// Returns the text of the list, which `write_text` writes, in time linear in the text. Fails only if memory runs
    /// out.
    pub fn to_text(&self, alloc: Global) -> Result<Vec<u8>, AllocError>
        ensures { IfOk result (λ text. text.items ≡ ace_text self.now) }
    {
        let mut text = Counted::new(Vec::new(alloc));
        match self.write_text(&mut text) {
            Ok(()) => Ok(text.into_inner()),
            Err(_) => Err(AllocError),
        }
    }

    /// Writes the text of the list, which reads back as this list and as no other: one line per ACE, with the names of
    /// its flags and rights in ascending order of their bits. It ends at the first put that fails: then `written` bytes
    /// went out. It tries nothing again. It takes no memory, and time linear in the text.
    pub fn write_text<S: Sink>(&self, sink: &mut S) -> Result<(), WriteFault>
        ensures written { Writes S.contents S.failure_count sink.old sink.new
            (ace_text self.now) result }
        // The text that is written spells this list and no other.
        ensures again { (other : List Ace) → IsAceText full other (ace_text self.now)
            ↔ (other ≡ self.now) }
    {
        self.view().write_text(sink)
    }
}

impl<'a> AclView<'a> {
    /// Writes the text of the list, which reads back as this list and as no other: one line per ACE, with the names of
    /// its flags and rights in ascending order of their bits. It ends at the first put that fails: then `written` bytes
    /// went out. It tries nothing again. It takes no memory, and time linear in the text.
    pub fn write_text<S: Sink>(&self, sink: &mut S) -> Result<(), WriteFault>
        ensures written { Writes S.contents S.failure_count sink.old sink.new
            (ace_text self.now) result }
        ensures again { (other : List Ace) → IsAceText full other (ace_text self.now)
            ↔ (other ≡ self.now) }
    {
        put_lines(sink, self.aces())?;
        Ok(())
    }
}

// Writes the lines of the ACEs, and returns how many bytes are out then.
fn put_lines<S: Sink>(sink: &mut S, aces: Aces<'_>) -> Result<u64, WriteFault>
    requires { length aces ≤ most_aces }
    ensures written { WritesFrom (S.contents sink.old) (S.contents sink.new) 0
        (ace_text aces.entry) result }
    ensures none_failed { OnOk result (S.failure_count sink.new ≡ S.failure_count sink.old) }
    ensures failed { OnErr result (S.failure_count sink.new ≡ one_more (S.failure_count sink.old)) }
{
    let mut line = ArrayVec::new();
    let mut done = 0;
    for ace in aces {
        fill(&mut line, ace);
        done = put_next(sink, done, &line)?;
    }
    Ok(done)
}

#[tactic(auto, unfolding(crate::specs::AceText::ace_line))]
fn fill(line: &mut Line, item: AceRef<'_>)
    requires { length item.who.now ≤ longest_who }
    ensures text { line.new.items ≡ ace_line (ace item.entry) }
    ensures short { array_vec_len line.new ≤ ace_line_room }
{
    line.clear();
    add(line, kind_name(item.kind).as_bytes());
    line.push(b' ');
    add_set(line, &FLAGS, item.flags.bits() as u32);
    line.push(b' ');
    add_set(line, &RIGHTS, item.mask.bits());
    line.push(b' ');
    add(line, item.who);
    line.push(b'\n');
}

/// Adds the names of a set with `|` between them, or `-` for the empty set. The set is a number, since the table may be
/// that of the flags or that of the rights.
#[tactic(auto, unfolding(crate::specs::BitNames::set_text))]
pub(crate) fn add_set(line: &mut Line, table: &[BitName], set: u32)
    requires short { list_all is_short_row table.now ≡ true }
    requires rising { is_rising table.now ≡ true }
    requires room { array_vec_len line.old + row_room * length table.now + 1 ≤ ace_line_room }
    ensures text { line.new.items ≡ line.old.items ++ set_text (bit_names_of table.now) set }
    ensures len { array_vec_len line.new
        ≤ array_vec_len line.old + row_room * length table.now + 1 }
{
    if set == 0 {
        line.push(b'-');
    } else {
        add_names(line, table, set);
    }
}

// Adds the names of a set that is not empty, with `|` between them.
fn add_names(line: &mut Line, table: &[BitName], set: u32)
    requires short { list_all is_short_row table.now ≡ true }
    requires rising { is_rising table.now ≡ true }
    requires room { array_vec_len line.old + row_room * length table.now ≤ ace_line_room }
    ensures text { line.new.items ≡ line.old.items ++ join_with_byte bar
        (names_of (bit_names_of table.now) set) }
    ensures len { array_vec_len line.new ≤ array_vec_len line.old + row_room * length table.now }
{
    let mut is_first = true;
    for row in table {
        // The bits of the later rows are greater.
        if row.bit > set {
            break;
        }
        if set & row.bit == row.bit {
            add_name(line, row.name.as_bytes(), is_first);
            is_first = false;
        }
    }
}

// Adds a name, with a `|` before it unless it is the first.
fn add_name(line: &mut Line, name: &[u8], is_first: bool)
    requires { array_vec_len line.old + length name.now + 1 ≤ ace_line_room }
    ensures text { line.new.items ≡ line.old.items ++ bar_before is_first ++ name.now }
    ensures len { array_vec_len line.new ≤ array_vec_len line.old + length name.now + 1 }
{
    if !is_first {
        line.push(b'|');
    }
    add(line, name);
}

fn add(line: &mut Line, bytes: &[u8])
    requires { array_vec_len line.old + length bytes.now ≤ ace_line_room }
    ensures { line.new.items ≡ line.old.items ++ bytes.now }
{
    // The line has room for the bytes, so none are refused.
    let _ = line.try_extend_from_slice(bytes);
}
