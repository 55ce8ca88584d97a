//! What each form of text says of its lines and of its entries.
ghost use Rattle.std.specs.Prelude.{◌≡◌, List, [], length};
ghost use Rattle.acl_perm.specs.Lines.{span_of, ColumnsFit};
ghost use Rattle.acl_forms.specs.Texts.{TextRules};
ghost use Rattle.acl_forms.specs.internal.TextReading.{AddsOne};

use crate::fault::ReadFault;
use acl_perm::internal::Piece;
use std::alloc::Global;

/// A form of text, whose lines have entries.
pub(crate) trait TextForm: Copy {
    type List: Drop;

    // What an entry spells.
    ghost Item: { Type 0 };

    // A list holds what these entries spell.
    ghost Holds: { Self.List → List Item → Type 0 };

    // The rules of the form.
    ghost rules: { Self → TextRules Item };

    fn new_list(self, alloc: Global) -> Self::List
        ensures { Holds result [] };

    fn len_of(self, list: &Self::List) -> usize
        ensures { (all : List Item) → Holds list.now all → result ≡ length all };

    /// Returns whether the byte ends an entry within its line.
    fn ends_entry(self, b: u8) -> bool
        ensures { result ≡ (rules self).ends_entry b };

    /// Returns whether readers would take the end of a line of this length, if it has a comment, for an entry.
    fn is_cut_short(self, len: usize) -> bool
        ensures { result ≡ (rules self).is_cut_short len };

    /// Returns whether a line, without its comment, has no entry.
    fn is_line_skipped(self, line: &[u8]) -> bool
        ensures { result ≡ (rules self).is_line_skipped line.now };

    fn is_part_skipped(self, part: &[u8]) -> bool
        ensures { result ≡ (rules self).is_part_skipped part.now };

    /// Returns how many entries a text must have.
    fn least(self) -> usize
        ensures { result ≡ (rules self).least };

    /// Adds what an entry spells to a list.
    fn add_entry(self, list: &mut Self::List, entry: Piece<'_>) -> Result<(), ReadFault>
        requires fits { ColumnsFit entry }
        requires held { (all : List Item) × Holds list.old all }
        ensures { (all : List Item) → Holds list.old all
            → AddsOne ((rules self).entry all (span_of entry.entry)) all (Holds list.new) result };
}
