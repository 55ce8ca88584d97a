//! The form of text whose entries are those of POSIX ACLs.
ghost use Rattle.std.specs.Prelude.{◌≡◌, ◌++◌, ◌∷◌, [], OnOk, map};
ghost use Rattle.acl_forms.specs.PosixRules.{posix_rules};
ghost use Rattle.acl_forms.specs.PosixText.{PlacedEntry};
ghost use Rattle.acl_forms.specs.internal.PosixReading.{placed};

use crate::fault::ReadFault;
use crate::posix_text::entry::{TextEntry, read_entry};
use crate::text_form::TextForm;
use acl_perm::internal::{Piece, is_all_blank};
use acl_posix::{Names, Part};
use std::alloc::{AllocError, Global};

/// The text of POSIX ACLs in archives: the part of entries without a mark, and the names of users and groups.
#[derive(Clone, Copy)]
pub(crate) struct PosixTextForm<'a> {
    pub part: Part,
    pub names: &'a Names,
}

impl<'a> TextForm for PosixTextForm<'a> {
    type List = Vec<TextEntry>;

    ghost Item = { PlacedEntry };

    ghost Holds = { λ list all. map placed list.items ≡ all };

    ghost rules = { λ form. posix_rules form.part form.names.now };

    fn new_list(self, alloc: Global) -> Vec<TextEntry> {
        Vec::new(alloc)
    }

    fn len_of(self, list: &Vec<TextEntry>) -> usize {
        list.len()
    }

    fn ends_entry(self, b: u8) -> bool {
        b == b','
    }

    fn is_cut_short(self, _len: usize) -> bool {
        false
    }

    fn is_line_skipped(self, line: &[u8]) -> bool {
        is_all_blank(line)
    }

    fn is_part_skipped(self, _part: &[u8]) -> bool {
        false
    }

    fn least(self) -> usize {
        0
    }

    fn add_entry(self, list: &mut Vec<TextEntry>, entry: Piece<'_>) -> Result<(), ReadFault> {
        let read = read_entry(entry, self.part, self.names)?;
        push(list, read)?;
        Ok(())
    }
}

fn push(list: &mut Vec<TextEntry>, read: TextEntry) -> Result<(), AllocError>
    ensures { OnOk result (list.new.items ≡ list.old.items ++ read ∷ []) }
{
    list.push(read)?;
    Ok(())
}
