//! Laws of SIDs, and of the NFSv4 list of a security descriptor.
ghost use Rattle.std.specs.Prelude.{◌≡◌, ◌↔◌, ℕ, IsFalse, IsTrue, List, map};
ghost use Rattle.acl_perm.specs.Bits.{IsSubset};
ghost use Rattle.acl_perm.specs.Situation.{Situation};
ghost use Rattle.acl_eval.specs.Grant.{Grant};
ghost use Rattle.acl_eval.specs.Situation.{named_situation};
ghost use Rattle.std.specs.List.{AllByRecursion};
ghost use Rattle.acl_nt.specs.Descriptor.{Descriptor};
ghost use Rattle.acl_nt.specs.NtCheck.{everyone_sid, file_rights, is_sid_in, nt_check, owner_rights};
ghost use Rattle.acl_nt.specs.NtList.{BelongsTo, HasOneUser, HasSids, nt_list, token_user};
ghost use Rattle.acl_nt.specs.Sid.{IsSid, Sid};
ghost use Rattle.acl_nt.specs.SidName.{sid_name};
ghost use Rattle.acl_nt.specs.Spells.{SpellsDescriptorPart};
ghost use Rattle.acl_nt.specs.ValueCheck.{value_check};
ghost use Rattle.acl_nt.specs.declared.ace.OtherAce.{OtherAce};
ghost use Rattle.acl_nt.specs.declared.form.NtForm.{NtForm};

/// The access check grants exactly what the list of the descriptor grants, for each descriptor and each request of
/// rights of files, to each requester whose token has S-1-1-0 and has not S-1-3-4, which is only a placeholder.
pub fn nt_check_is_grant()
    ensures { (users token : List Sid) (d : Descriptor) (s : Situation) (request : ℕ) → HasSids d
        → IsTrue (is_sid_in everyone_sid token) → IsFalse (is_sid_in owner_rights token)
        → BelongsTo users token s → IsSubset request file_rights
        → IsTrue (nt_check d token request) ↔ Grant (nt_list users d) s request }
{}

/// A part of a descriptor grants no more than the whole DACL of its value, to any token, whatever rights the object and
/// conditional ALLOWs that are left out grant to this token. If they grant none, it grants the same.
pub fn part_grants_no_more()
    ensures at_most { (form : NtForm) (bytes : List ℕ) (part : Descriptor) (out : List OtherAce)
        → SpellsDescriptorPart form part out bytes → (token : List Sid) (given : ℕ → ℕ) (request : ℕ)
        → IsTrue (nt_check part token request) → IsTrue (value_check form bytes token given request) }
    ensures same { (form : NtForm) (bytes : List ℕ) (part : Descriptor) (out : List OtherAce)
        → SpellsDescriptorPart form part out bytes → (token : List Sid) (request : ℕ)
        → value_check form bytes token (λ _. 0) request ≡ nt_check part token request }
{}

/// A requester whose groups have the names of the SIDs of a token, and whose user name is that of the user in it,
/// belongs to the token, for an object of any owner and owning group.
pub fn token_belongs()
    ensures { (users token : List Sid) (owner group : List ℕ) → AllByRecursion IsSid token
        → HasOneUser users token → BelongsTo users token
        (named_situation owner group (token_user users token) (map sid_name token)) }
{}

/// Two SIDs with one name are equal.
#[tactic(auto, using(crate::proofs::SidNames::one_name))]
pub fn sid_name_one_to_one()
    ensures { (one two : Sid) → IsSid one → IsSid two → sid_name one ≡ sid_name two → one ≡ two }
{}
