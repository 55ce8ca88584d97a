//! Each kind of fault has a case for memory that runs out, so `?` passes an `AllocError` on. `AclFault` also takes the
//! error of a `push`, because callers make the entries of a list in a vector.
ghost use Rattle.std.specs.Prelude.{◌≡◌};
ghost use Rattle.acl_posix.specs.declared.fault.AclFault.TheVariants as acl;
ghost use Rattle.acl_posix.specs.declared.attribute_fault.AttributeFault.TheVariants as attribute;
ghost use Rattle.acl_posix.specs.internal.AttributeSteps.{of_entries};
ghost use Rattle.acl_posix.specs.declared.raw_entry.EntriesFault.TheVariants as list;
ghost use Rattle.acl_posix.specs.declared.names.NameFault.TheVariants as name;
ghost use Rattle.acl_posix.specs.declared.text_fault.TextFault.TheVariants as text;

use crate::attribute_fault::AttributeFault;
use crate::fault::AclFault;
use crate::names::NameFault;
use crate::raw_entry::EntriesFault;
use crate::text_fault::TextFault;
use std::alloc::{AllocError, AllocFailed};

impl From<AllocError> for AclFault {
    ghost from_gives = { λ _ fault. fault ≡ acl.Memory };

    fn from(_error: AllocError) -> AclFault {
        AclFault::Memory
    }
}

impl<T: Drop> From<AllocFailed<T>> for AclFault {
    ghost from_gives = { λ _ fault. fault ≡ acl.Memory };

    fn from(_error: AllocFailed<T>) -> AclFault {
        AclFault::Memory
    }
}

impl From<AclFault> for EntriesFault {
    ghost from_gives = { λ fault list_fault. list_fault ≡ list.Acl fault };

    fn from(fault: AclFault) -> EntriesFault {
        EntriesFault::Acl(fault)
    }
}

impl From<AllocError> for EntriesFault {
    ghost from_gives = { λ _ fault. fault ≡ list.Acl acl.Memory };

    fn from(_error: AllocError) -> EntriesFault {
        EntriesFault::Acl(AclFault::Memory)
    }
}

impl<T: Drop> From<AllocFailed<T>> for EntriesFault {
    ghost from_gives = { λ _ fault. fault ≡ list.Acl acl.Memory };

    fn from(_error: AllocFailed<T>) -> EntriesFault {
        EntriesFault::Acl(AclFault::Memory)
    }
}

impl From<EntriesFault> for AttributeFault {
    ghost from_gives = { λ fault found. found ≡ of_entries fault };

    fn from(fault: EntriesFault) -> AttributeFault {
        match fault {
            EntriesFault::Entry(place, fault) => AttributeFault::Entry(place, fault),
            EntriesFault::Acl(fault) => AttributeFault::Acl(fault),
        }
    }
}

impl From<AclFault> for AttributeFault {
    ghost from_gives = { λ fault found. found ≡ attribute.Acl fault };

    fn from(fault: AclFault) -> AttributeFault {
        AttributeFault::Acl(fault)
    }
}

impl From<AllocError> for AttributeFault {
    ghost from_gives = { λ _ fault. fault ≡ attribute.Acl acl.Memory };

    fn from(_error: AllocError) -> AttributeFault {
        AttributeFault::Acl(AclFault::Memory)
    }
}

impl From<AllocError> for NameFault {
    ghost from_gives = { λ _ fault. fault ≡ name.Memory };

    fn from(_error: AllocError) -> NameFault {
        NameFault::Memory
    }
}

impl From<AllocError> for TextFault {
    ghost from_gives = { λ _ fault. fault ≡ text.Memory };

    fn from(_error: AllocError) -> TextFault {
        TextFault::Memory
    }
}
