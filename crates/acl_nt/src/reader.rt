//! Reads the descriptor of a value.
ghost use Rattle.std.specs.Prelude.{◌≡◌, ◌⊎◌, ◌+◌, IfErr, IfOk, List, MatchResult};
ghost use Rattle.acl_nt.specs.Conditions.{ReadsUnder};
ghost use Rattle.acl_nt.specs.Descriptor.{Descriptor, descriptor};
ghost use Rattle.acl_nt.specs.DescriptorAt.{descriptor_at, left_out_at};
ghost use Rattle.acl_nt.specs.Faults.{nt_memory_fault};
ghost use Rattle.acl_nt.specs.Ntacl.{base_of};
ghost use Rattle.acl_nt.specs.Numbers.{dword_at};
ghost use Rattle.acl_nt.specs.Spells.{IsFirstNtFault, IsFirstPartFault, SpellsDescriptor, SpellsDescriptorPart, conditions};
ghost use Rattle.acl_nt.specs.internal.Parts.{parts};
ghost use Rattle.acl_nt.specs.declared.ace.OtherAce.{OtherAce};
ghost use Rattle.acl_nt.specs.declared.fault.NtFault.{NtFault as FaultValue};
ghost use Rattle.acl_nt.specs.declared.role.Role.TheVariants.{Deciding, DecidingPart};

use crate::descriptor::{NtDescriptor, NtPart};
use crate::descriptor_reader::read_descriptor;
use crate::fault::NtFault;
use crate::form::NtForm;
use crate::frame::base;
use crate::role::Role;
use std::alloc::Global;

/// Returns the descriptor that a value spells (MS-DTYP, section 2.4.6). Its parts may come in any order, with gaps
/// between them, and may share bytes; bytes may follow the last one. The DACL may have ALLOW and DENY ACEs alone
/// (sections 2.4.4.2 and 2.4.4.4). In `NtForm::Ntacl` the offsets count from the start of the value.
///
/// Fails with the first fault in this order: of what is before the descriptor, field by field, Truncated, Version,
/// Pointer or Description; of the header, Truncated, Revision, NotSelfRelative, NoDacl, and Offset of the owner, the
/// group, the SACL and the DACL; then of the owner, the group, the SACL and the DACL themselves. A SID (section 2.4.2)
/// has Truncated, SidRevision, SidCount, and Truncated of its sub-authorities; an ACL (section 2.4.5) Truncated,
/// AclRevision, AclSbz, AclSize, AceCount, AclSbz; each of its ACEs (section 2.4.4) Truncated, AceType, AceFlags,
/// AceSize, Generic, and the faults of its SID. If memory runs out, the reason is Memory. It takes time that is linear
/// in the number of bytes.
pub fn read_nt(alloc: Global, form: NtForm, bytes: &[u8]) -> Result<NtDescriptor, NtFault>
    ensures found { IfOk result (λ d. SpellsDescriptor form (descriptor d) bytes.now) }
    // If the bytes spell a descriptor, that descriptor is returned.
    ensures only { (d : Descriptor) → SpellsDescriptor form d bytes.now
        → MatchResult result (λ read. descriptor read ≡ d) (λ fault. fault ≡ nt_memory_fault) }
    ensures fault { IfErr result (λ fault. (fault ≡ nt_memory_fault)
        ⊎ IsFirstNtFault form bytes.now fault) }
    // Bytes with a fault are refused with that fault.
    ensures refused { (wrong : FaultValue) → IsFirstNtFault form bytes.now wrong
        → MatchResult result (λ _. ⊥) (λ fault. (fault ≡ nt_memory_fault) ⊎ (fault ≡ wrong)) }
{
    read_whole(alloc, form, bytes)
}

/// Returns the descriptor that a value spells, without the ACEs of its DACL that neither allow nor deny without a
/// condition or an object type, and those ACEs: the types of a SACL (2, 3, 7, 8, 13 to 20), object ALLOW (5), and
/// conditional ALLOW (9, 11). Reads what `read_nt` reads in the same way. Fails as `read_nt` does, also for what an ACE
/// that is left out has wrong, and with AceType for any other type, as object DENY (6) and conditional DENY (10, 12).
/// It takes time that is linear in the number of bytes.
///
/// The descriptor grants no more than the whole DACL of the value, to anybody, whatever rights the ALLOWs that are left
/// out grant (`laws::part_grants_no_more`). It can grant less. An ACE of OWNER RIGHTS (S-1-3-4), of whatever type,
/// takes READ_CONTROL and WRITE_DAC from the owner, unless it has INHERIT_ONLY. So no such ACE is left out: one of a
/// type that would be left out is refused with AceType, after the faults of its SID.
pub fn read_nt_part(alloc: Global, form: NtForm, bytes: &[u8]) -> Result<NtPart, NtFault>
    ensures found { IfOk result (λ part.
        SpellsDescriptorPart form (descriptor part.descriptor) part.left_out.items bytes.now) }
    // If the bytes spell a descriptor, its part is returned.
    ensures only { (d : Descriptor) (out : List OtherAce) → SpellsDescriptorPart form d out bytes.now
        → MatchResult result
        (λ part. (descriptor part.descriptor ≡ d) × (part.left_out.items ≡ out))
        (λ fault. fault ≡ nt_memory_fault) }
    ensures fault { IfErr result (λ fault. (fault ≡ nt_memory_fault)
        ⊎ IsFirstPartFault form bytes.now fault) }
    // Bytes with a fault are refused with that fault.
    ensures refused { (wrong : FaultValue) → IsFirstPartFault form bytes.now wrong
        → MatchResult result (λ _. ⊥) (λ fault. (fault ≡ nt_memory_fault) ⊎ (fault ≡ wrong)) }
{
    read_as(alloc, Role::DecidingPart, form, bytes)
}

// Returns the whole descriptor that a value spells, or its first fault.
fn read_whole(alloc: Global, form: NtForm, bytes: &[u8]) -> Result<NtDescriptor, NtFault>
    ensures { ReadsUnder descriptor result (conditions Deciding form bytes.now)
        (descriptor_at Deciding bytes.now (base_of form bytes.now)) }
{
    let part = read_as(alloc, Role::Deciding, form, bytes)?;
    Ok(part.descriptor)
}

// Returns what is read of the descriptor of a value, or its first fault.
fn read_as(alloc: Global, role: Role, form: NtForm, bytes: &[u8]) -> Result<NtPart, NtFault>
    ensures { ReadsUnder parts result (conditions role form bytes.now) (
      descriptor_at role bytes.now (base_of form bytes.now),
      left_out_at role bytes.now (dword_at bytes.now (base_of form bytes.now + 16)),
    ) }
{
    let base = base(form, bytes)?;
    read_descriptor(alloc, role, bytes, base)
}
