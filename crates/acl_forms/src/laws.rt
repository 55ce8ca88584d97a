//! Laws of the bytes and of the texts of lists in forms.

ghost use Rattle.std.specs.Prelude.{◌≡◌, ◌↔◌, ℕ, List, None, map};
ghost use Rattle.acl_perm.specs.Profile.{full};
ghost use Rattle.acl_nfs4.specs.Ace.{Ace};
ghost use Rattle.acl_nfs4.specs.Spelling.{IsAccepted};
ghost use Rattle.acl_nfs4.specs.Who.{principal_of};
ghost use Rattle.acl_forms.specs.Acl41.{IsAcl41, acl41_bytes};
ghost use Rattle.acl_forms.specs.Acl41Ids.{EachHasId, IsAcl41Ids, acl41_ids_bytes};
ghost use Rattle.acl_forms.specs.AclFlags.{IsAclFlags};
ghost use Rattle.acl_forms.specs.NfsRules.{IsFaultOfNfsText, SpellsNfsText};
ghost use Rattle.acl_forms.specs.NfsWritten.{as_nfs_written, nfs_text, nfs_text_fault, IsSameButSpecialGroup};
ghost use Rattle.acl_forms.specs.ToolsRules.{IsToolsFault, SpellsTools};
ghost use Rattle.acl_forms.specs.ToolsWritten.{as_written, tools_fault, tools_text, IsSameButGroup};
ghost use Rattle.acl_forms.specs.declared.fault.ReadFault.{ReadFault};
ghost use Rattle.acl_forms.specs.declared.object.ObjectKind.{ObjectKind};
ghost use Rattle.acl_forms.specs.declared.style.Style.{Style};
ghost use Rattle.acl_forms.specs.declared.who_field.WhoField.{WhoField};

/// The bytes that are written of flags and a list spell them, and no other bytes do; bytes spell at most one list.
#[tactic(auto, using(crate::proofs::Acl41Lemmas::bytes_of))]
pub fn one_acl41()
    ensures bytes { (flags : ℕ) (list : List Ace) (bytes : List ℕ) → IsAclFlags flags
        → IsAccepted full list
        → IsAcl41 flags list bytes ↔ (bytes ≡ acl41_bytes flags list) }
    ensures list { (flags set : ℕ) (list other : List Ace) (bytes : List ℕ)
        → IsAcl41 flags list bytes
        → IsAcl41 set other bytes → (flags ≡ set) × (list ≡ other) }
{}

/// The bytes that are written of flags and a list with ids spell them, and no other bytes do; bytes spell at most one
/// list.
pub fn one_acl41_ids()
    ensures bytes { (flags : ℕ) (list : List Ace) (bytes : List ℕ) → IsAclFlags flags
        → IsAccepted full list → EachHasId list
        → IsAcl41Ids flags list bytes ↔ (bytes ≡ acl41_ids_bytes flags list) }
    ensures list { (flags set : ℕ) (list other : List Ace) (bytes : List ℕ)
        → IsAcl41Ids flags list bytes
        → IsAcl41Ids set other bytes → (flags ≡ set) × (list ≡ other) }
{}

/// A text of nfs4-acl-tools spells at most one list and has at most one fault, and not both.
pub fn one_tools_text()
    ensures list { (object : ObjectKind) (text : List ℕ) (one two : List Ace)
        → SpellsTools object one text → SpellsTools object two text → one ≡ two }
    ensures fault { (object : ObjectKind) (text : List ℕ) (one two : ReadFault)
        → IsToolsFault object text one → IsToolsFault object text two → one ≡ two }
    ensures either { (object : ObjectKind) (text : List ℕ) (list : List Ace) (fault : ReadFault)
        → SpellsTools object list text → IsToolsFault object text fault → ⊥ }
{}

/// The text of a list that the form can hold spells the list as it is written, and no other list.
pub fn tools_text_reads_back()
    ensures { (object : ObjectKind) (list other : List Ace) → IsAccepted full list
        → tools_fault object list ≡ None
        → SpellsTools object other (tools_text list) ↔ (other ≡ map as_written list) }
{}

/// An ACE as it is written differs from the ACE at most in IDENTIFIER_GROUP on `GROUP@`, and names the same principal.
pub fn tools_text_names_the_same()
    ensures same { (a : Ace) → IsSameButGroup a (as_written a) }
    ensures principal { (a b : Ace) → IsSameButGroup a b → principal_of a ≡ principal_of b }
{}

/// A text of FreeBSD or of an archive spells at most one list and has at most one fault, and not both.
pub fn one_nfs_text()
    ensures list { (source : WhoField) (text : List ℕ) (one two : List Ace)
        → SpellsNfsText source one text → SpellsNfsText source two text → one ≡ two }
    ensures fault { (source : WhoField) (text : List ℕ) (one two : ReadFault)
        → IsFaultOfNfsText source text one → IsFaultOfNfsText source text two → one ≡ two }
    ensures either { (source : WhoField) (text : List ℕ) (list : List Ace) (fault : ReadFault)
        → SpellsNfsText source list text → IsFaultOfNfsText source text fault → ⊥ }
{}

/// The text of a list that the form can hold spells the list as it is written, and no other list, in each style, by the
/// names and by the ids.
pub fn nfs_text_reads_back()
    ensures { (source : WhoField) (style : Style) (list other : List Ace) → IsAccepted full list
        → nfs_text_fault list ≡ None
        → SpellsNfsText source other (nfs_text style list) ↔ (other ≡ map as_nfs_written list) }
{}

/// An ACE as it is written differs from the ACE at most in IDENTIFIER_GROUP of a special identifier, and names the same
/// principal.
pub fn nfs_text_names_the_same()
    ensures same { (a : Ace) → IsSameButSpecialGroup a (as_nfs_written a) }
    ensures principal { (a b : Ace) → IsSameButSpecialGroup a b → principal_of a ≡ principal_of b }
{}
