//! The forms of text whose entries are ACEs.
ghost use Rattle.std.specs.Prelude.{◌≡◌};
ghost use Rattle.acl_nfs4.specs.Ace.{Ace};
ghost use Rattle.acl_forms.specs.internal.TextReading.{ace_rules};

use crate::fault::ReadFault;
use crate::nfs_text::entry::add_nfs_entry;
use crate::object::ObjectKind;
use crate::text_form::TextForm;
use crate::tools::entry::add_tools_entry;
use crate::who_field::WhoField;
use acl_nfs4::Acl;
use acl_perm::internal::{Piece, is_all_blank};
use std::alloc::Global;

// The tools of NFS read a line by parts of one byte more, and cut a comment in the first part alone.
const LONGEST_LINE: usize = 409;

/// A form of text whose entries are ACEs.
#[derive(Clone, Copy)]
pub(crate) enum AceText {
    /// The text of nfs4-acl-tools.
    Tools(ObjectKind),
    /// The text of FreeBSD, ZFS and libarchive.
    Nfs(WhoField),
}

impl TextForm for AceText {
    type List = Acl;

    ghost Item = { Ace };

    ghost Holds = { λ list all. list ≡ all };

    ghost rules = { ace_rules };

    fn new_list(self, alloc: Global) -> Acl {
        Acl::new(alloc)
    }

    fn len_of(self, list: &Acl) -> usize {
        list.len()
    }

    fn ends_entry(self, b: u8) -> bool {
        match self {
            AceText::Tools(_) => b == b',' || b == b'\t' || b == b'\r',
            AceText::Nfs(_) => b == b',',
        }
    }

    fn is_cut_short(self, len: usize) -> bool {
        match self {
            AceText::Tools(_) => len > LONGEST_LINE,
            AceText::Nfs(_) => false,
        }
    }

    fn is_line_skipped(self, line: &[u8]) -> bool {
        match self {
            AceText::Tools(_) => false,
            AceText::Nfs(_) => is_all_blank(line),
        }
    }

    fn is_part_skipped(self, part: &[u8]) -> bool {
        match self {
            AceText::Tools(_) => part.is_empty(),
            AceText::Nfs(_) => false,
        }
    }

    fn least(self) -> usize {
        match self {
            AceText::Tools(_) => 1,
            AceText::Nfs(_) => 0,
        }
    }

    fn add_entry(self, list: &mut Acl, entry: Piece<'_>) -> Result<(), ReadFault> {
        match self {
            AceText::Tools(object) => add_tools_entry(list, entry, object),
            AceText::Nfs(source) => add_nfs_entry(list, entry, source),
        }
    }
}
