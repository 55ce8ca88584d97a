//! The part of a list of ACEs of any type that a text spells.
ghost use Rattle.std.specs.Prelude.{[], ◌∷◌, ◌++◌, ◌≤◌, IfOk, List, OnOk};
ghost use Rattle.acl_perm.specs.Lines.{span_of, ColumnsFit};
ghost use Rattle.acl_nfs4.specs.Limits.{most_weight};
ghost use Rattle.acl_nfs4.specs.internal.Reading.{Gives};
ghost use Rattle.acl_forms.specs.Part.{PlacedAce};
ghost use Rattle.acl_forms.specs.PartTexts.{placed_ace};
ghost use Rattle.acl_forms.specs.internal.AnyAces.{IsPartReadAs, IsWithinLimits, any_ace_of};
ghost use Rattle.acl_forms.specs.internal.AnyTexts.{HoldsPart, any_entry_of, any_text_rules, without_flags};
ghost use Rattle.acl_forms.specs.internal.TextReading.{text_read};

use crate::ace_text::AceText;
use crate::acl_flags::AclFlags;
use crate::fault::ReadFault;
use crate::nfs_text::entry::any_nfs_ace;
use crate::part::ReadablePart;
use crate::part::any_ace::{AnyAceRef, add};
use crate::part::left_out::LeftOut;
use crate::reading::read_text;
use crate::text_form::TextForm;
use crate::tools::entry::any_tools_ace;
use acl_nfs4::Acl;
use acl_perm::internal::Piece;
use std::alloc::{AllocError, Global};

/// What is kept of the ACEs that are read so far, and what is left out. Both count for the limits.
#[derive(Drop)]
pub(crate) struct TextPart {
    pub list: Acl,
    pub left_out: Vec<LeftOut>,
    pub count: usize,
    pub weight: u32,
}

/// A form of text whose entries are ACEs of any type.
#[derive(Clone, Copy)]
pub(crate) struct AnyAceText {
    pub form: AceText,
}

/// Returns the part of what a text spells, or its first fault.
pub(crate) fn read_text_part(
    alloc: Global,
    text: &[u8],
    form: AceText,
) -> Result<ReadablePart, ReadFault>
    ensures { IsPartReadAs result (without_flags (text_read (any_text_rules form) text.now)) }
{
    let read = read_text(alloc, text, AnyAceText { form })?;
    Ok(ReadablePart {
        flags: AclFlags::NONE,
        list: read.list,
        left_out: read.left_out,
    })
}

impl TextForm for AnyAceText {
    type List = TextPart;

    ghost Item = { PlacedAce };

    ghost Holds = { HoldsPart };

    ghost rules = { λ any. any_text_rules any.form };

    fn new_list(self, alloc: Global) -> TextPart {
        TextPart {
            list: Acl::new(alloc),
            left_out: Vec::new(alloc),
            count: 0,
            weight: 0,
        }
    }

    fn len_of(self, list: &TextPart) -> usize {
        list.count
    }

    fn ends_entry(self, b: u8) -> bool {
        self.form.ends_entry(b)
    }

    fn is_cut_short(self, len: usize) -> bool {
        self.form.is_cut_short(len)
    }

    fn is_line_skipped(self, line: &[u8]) -> bool {
        self.form.is_line_skipped(line)
    }

    fn is_part_skipped(self, part: &[u8]) -> bool {
        self.form.is_part_skipped(part)
    }

    fn least(self) -> usize {
        self.form.least()
    }

    fn add_entry(self, list: &mut TextPart, entry: Piece<'_>) -> Result<(), ReadFault> {
        let item = ace_at(entry, self.form, list.count, list.weight)?;
        add_ace(list, item, entry.column)?;
        Ok(())
    }
}

// Returns the ACE that an entry spells, after this many ACEs of this weight.
fn ace_at(
    entry: Piece<'_>,
    form: AceText,
    count: usize,
    weight: u32,
) -> Result<AnyAceRef<'_>, ReadFault>
    requires fits { ColumnsFit entry }
    requires weight { weight ≤ most_weight }
    ensures exact { Gives any_ace_of result (any_entry_of form count weight (span_of entry.entry)) }
    ensures within { IfOk result (IsWithinLimits count weight) }
{
    match form {
        AceText::Tools(object) => any_tools_ace(entry, object, count, weight),
        AceText::Nfs(source) => any_nfs_ace(entry, source, count, weight),
    }
}

// Adds an ACE, whose entry begins at this place.
fn add_ace(part: &mut TextPart, item: AnyAceRef<'_>, offset: usize) -> Result<(), AllocError>
    requires held { (whole : List PlacedAce) × HoldsPart part.old whole }
    requires within { IsWithinLimits part.old.count part.old.weight item }
    ensures { (whole : List PlacedAce) → HoldsPart part.old whole
        → OnOk result
        (HoldsPart part.new (whole ++ placed_ace offset (any_ace_of item.entry) ∷ [])) }
{
    add(
        &mut part.list,
        &mut part.left_out,
        item,
        part.count,
        offset as u64,
    )?;
    part.count += 1;
    part.weight += item.mask.bits().count_ones();
    Ok(())
}
