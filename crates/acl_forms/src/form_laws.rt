//! Laws of every form.
ghost use Rattle.std.specs.Prelude.{◌≡◌, ◌↔◌, ℕ, List, None};
ghost use Rattle.acl_perm.specs.Profile.{full};
ghost use Rattle.acl_nfs4.specs.Ace.{Ace};
ghost use Rattle.acl_nfs4.specs.Spelling.{IsAccepted};
ghost use Rattle.acl_forms.specs.AclFlags.{IsAclFlags};
ghost use Rattle.acl_forms.specs.Forms.{SpellsForm, form_bytes, form_fault, form_list};
ghost use Rattle.acl_forms.specs.declared.form.Form.{Form};

/// The value of flags and a list that the form can hold spells these flags and the list as it is written, and nothing
/// else.
pub fn written_value_reads_back()
    ensures { (form : Form) (flags set : ℕ) (list other : List Ace) → IsAclFlags flags
        → IsAccepted full list → form_fault form flags list ≡ None
        → SpellsForm form set other (form_bytes form flags list)
        ↔ ((set ≡ flags) × (other ≡ form_list form list)) }
{}
