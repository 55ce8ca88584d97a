//! Laws of the mode, the mask, what two ACLs grant, the attributes and the texts, over sets of entries alone.

ghost use Rattle.std.specs.Prelude.{◌≡◌, ◌↔◌, ℕ, IsTrue, List};
ghost use Rattle.acl_posix.specs.declared.fault.AclFault.{AclFault};
ghost use Rattle.acl_posix.specs.declared.file.PosixFile.{PosixFile};
ghost use Rattle.acl_posix.specs.declared.text_fault.Cause.{Cause};
ghost use Rattle.acl_posix.specs.declared.text_fault.TextFault.{TextFault};
ghost use Rattle.acl_posix.specs.Entries.{Entries};
ghost use Rattle.acl_posix.specs.Excess.{AnswerAlike, GrantsNothingMore};
ghost use Rattle.acl_posix.specs.Grammar.{Reads};
ghost use Rattle.acl_posix.specs.Laws.{AttributeReadsBack, MaskLeavesAll, MaskStays, ModeIsSet};
ghost use Rattle.acl_posix.specs.Names.{Table};
ghost use Rattle.acl_posix.specs.Tag.{Tag};
ghost use Rattle.acl_posix.specs.TextFault.{IsTextFault, acl_fault};
ghost use Rattle.acl_posix.specs.TextLaws.{IsAtEntry, IsInText, ReadsBack, TextTellsApart};
ghost use Rattle.acl_posix.specs.Texts.{canonical_text, short_text, shown_text};
ghost use Rattle.acl_posix.specs.Valid.{IsFaultOf, IsValidList, is_refusal};

/// After the mode of a list is set, the list has this mode.
#[tactic(auto, using(crate::proofs::sorted::ModeAndMask::mode_set))]
pub fn mode_is_set()
    ensures { ModeIsSet }
{}

/// After the mask is calculated, each entry grants all of its own permissions.
#[tactic(auto, using(crate::proofs::sorted::ModeAndMask::effective_own))]
pub fn mask_leaves_all()
    ensures { MaskLeavesAll }
{}

/// Calculating the mask twice gives the same as calculating it once.
#[tactic(auto, using(crate::proofs::sorted::ModeAndMask::mask_again))]
pub fn mask_stays()
    ensures { MaskStays }
{}

/// An ACL grants nothing more than itself; if it grants nothing more than a second ACL, and the second nothing more
/// than a third, then it grants nothing more than the third; neither of two ACLs grants more than the other if and only
/// if they answer every request alike.
pub fn nothing_more_is_an_order()
    ensures itself { (a : Entries) → GrantsNothingMore a a }
    ensures chain { (a b c : Entries) → GrantsNothingMore a b → GrantsNothingMore b c
        → GrantsNothingMore a c }
    ensures both_ways { (a b : Entries)
        → (GrantsNothingMore a b × GrantsNothingMore b a) ↔ AnswerAlike a b }
{}

/// The extended attribute that is written for an ACL reads back as that ACL.
pub fn attribute_reads_back()
    ensures { AttributeReadsBack }
{}

/// The canonical text of a file reads back as that file and as no other, with every table of names.
pub fn canonical_text_reads_back()
    ensures { ReadsBack canonical_text }
{}

/// The shown text of a file reads back as that file and as no other, with every table of names.
pub fn shown_text_reads_back()
    ensures { ReadsBack shown_text }
{}

/// The short text of a file reads back as that file and as no other, with every table of names.
pub fn short_text_reads_back()
    ensures { ReadsBack short_text }
{}

/// Two files have the same canonical text if and only if their sets of entries are equal, and both or neither has a
/// default ACL.
pub fn canonical_text_tells_apart()
    ensures { TextTellsApart canonical_text }
{}

/// A list of entries has at most one fault, and a valid list has none. `Memory` is not a fault of the list.
pub fn one_fault()
    ensures one { (entries : List (Tag × ℕ)) (f g : AclFault) → IsTrue (is_refusal f)
        → IsTrue (is_refusal g) → IsFaultOf entries f → IsFaultOf entries g → f ≡ g }
    ensures none { (entries : List (Tag × ℕ)) (f : AclFault) → IsValidList entries
        → IsTrue (is_refusal f) → IsFaultOf entries f → ⊥ }
{}

/// With one table of names, a text spells at most one file, has at most one fault, and does not do both.
pub fn one_text_fault()
    ensures file { (text : List ℕ) (names : Table) (a b : PosixFile) → Reads text names a
        → Reads text names b → a ≡ b }
    ensures one { (text : List ℕ) (names : Table) (f g : TextFault) → IsTextFault text names f
        → IsTextFault text names g → f ≡ g }
    ensures none { (text : List ℕ) (names : Table) (file : PosixFile) (f : TextFault)
        → Reads text names file → IsTextFault text names f → ⊥ }
{}

/// A fault of a text is at a line of the text, at the column of a byte of this line or of the byte after the line. A
/// fault of entries that are not a valid ACL is at one of these entries, unless an entry is absent.
pub fn faults_are_in_the_text()
    ensures text { (text : List ℕ) (names : Table) (fault : TextFault)
        → IsTextFault text names fault → IsInText text names fault }
    ensures entries { (entries : List (Tag × ℕ)) (why : Cause) → IsFaultOf entries (acl_fault why)
        → IsAtEntry entries why }
{}
