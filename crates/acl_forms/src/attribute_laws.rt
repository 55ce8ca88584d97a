//! Laws of the extended attributes in which Linux keeps POSIX ACLs.
ghost use Rattle.std.specs.Prelude.{◌≡◌, ℕ, List};
ghost use Rattle.acl_posix.specs.Attribute.{attribute_bytes};
ghost use Rattle.acl_posix.specs.Entries.{Entries};
ghost use Rattle.acl_posix.specs.Texts.{IsAcl};
ghost use Rattle.acl_forms.specs.Attributes.{IsAttributeFault, SpellsAttribute};
ghost use Rattle.acl_forms.specs.declared.fault.ReadFault.{ReadFault};

/// The bytes that are written of an ACL spell it; bytes spell at most one ACL and have at most one fault, and not both.
pub fn one_attribute()
    ensures written { (acl : Entries) → IsAcl acl → SpellsAttribute acl (attribute_bytes acl) }
    ensures list { (one two : Entries) (bytes : List ℕ) → SpellsAttribute one bytes
        → SpellsAttribute two bytes → one ≡ two }
    ensures fault { (bytes : List ℕ) (one two : ReadFault) → IsAttributeFault bytes one
        → IsAttributeFault bytes two → one ≡ two }
    ensures either { (acl : Entries) (bytes : List ℕ) (fault : ReadFault)
        → SpellsAttribute acl bytes → IsAttributeFault bytes fault → ⊥ }
{}
