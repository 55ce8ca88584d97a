//! Laws of the texts of POSIX ACLs in archives.
ghost use Rattle.std.specs.Prelude.{◌≡◌, ℕ, List, None};
ghost use Rattle.acl_posix.specs.Entries.{Entries};
ghost use Rattle.acl_posix.specs.Names.{Table};
ghost use Rattle.acl_posix.specs.Texts.{IsAcl};
ghost use Rattle.acl_posix.specs.declared.file.PosixFile.{PosixFile};
ghost use Rattle.acl_forms.specs.PosixNames.{HasNamesOfIds, NamesOfIds};
ghost use Rattle.acl_forms.specs.PosixRules.{IsDefaultTextFault, IsPosixTextFault, SpellsDefaultText, SpellsPosixText};
ghost use Rattle.acl_forms.specs.PosixWritten.{posix_text, posix_text_fault};
ghost use Rattle.acl_forms.specs.declared.fault.ReadFault.{ReadFault};
ghost use Rattle.acl_forms.specs.declared.posix_text.style.TarStyle.TheVariants.{Gnu, Star};

/// A text spells the ACLs of at most one file and has at most one fault, and not both.
pub fn one_posix_text()
    ensures file { (names : Table) (text : List ℕ) (one two : PosixFile)
        → SpellsPosixText names one text → SpellsPosixText names two text → one ≡ two }
    ensures fault { (names : Table) (text : List ℕ) (one two : ReadFault)
        → IsPosixTextFault names text one → IsPosixTextFault names text two → one ≡ two }
    ensures either { (names : Table) (text : List ℕ) (file : PosixFile) (fault : ReadFault)
        → SpellsPosixText names file text → IsPosixTextFault names text fault → ⊥ }
{}

/// A text spells at most one default ACL and has at most one fault, and not both.
pub fn one_default_text()
    ensures acl { (names : Table) (text : List ℕ) (one two : Entries)
        → SpellsDefaultText names one text → SpellsDefaultText names two text → one ≡ two }
    ensures fault { (names : Table) (text : List ℕ) (one two : ReadFault)
        → IsDefaultTextFault names text one → IsDefaultTextFault names text two → one ≡ two }
    ensures either { (names : Table) (text : List ℕ) (acl : Entries) (fault : ReadFault)
        → SpellsDefaultText names acl text → IsDefaultTextFault names text fault → ⊥ }
{}

/// The text that is written of an ACL that it can hold spells the ACL, in `SCHILY.acl.access` and in
/// `SCHILY.acl.default`: that of star with each table of names, because it has the ids, and that of GNU tar with each
/// table that has the names that are written, with their ids.
pub fn written_posix_text_reads_back()
    ensures star { (names : NamesOfIds) (table : Table) (acl : Entries) → IsAcl acl
        → posix_text_fault names Star acl ≡ None
        → SpellsPosixText table (record { access = acl; default = None })
        (posix_text names Star acl) }
    ensures star_default { (names : NamesOfIds) (table : Table) (acl : Entries) → IsAcl acl
        → posix_text_fault names Star acl ≡ None
        → SpellsDefaultText table acl (posix_text names Star acl) }
    ensures gnu { (names : NamesOfIds) (table : Table) (acl : Entries) → HasNamesOfIds table names
        → IsAcl acl → posix_text_fault names Gnu acl ≡ None
        → SpellsPosixText table (record { access = acl; default = None })
        (posix_text names Gnu acl) }
    ensures gnu_default { (names : NamesOfIds) (table : Table) (acl : Entries)
        → HasNamesOfIds table names → IsAcl acl
        → posix_text_fault names Gnu acl ≡ None
        → SpellsDefaultText table acl (posix_text names Gnu acl) }
{}
