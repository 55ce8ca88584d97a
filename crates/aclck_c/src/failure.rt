//! The failures of calls: each has a status, and a refused input also has a fault.
ghost use Rattle.std.specs.Prelude.{◌≡◌};
ghost use Rattle.aclck_c.specs.internal.Endings.{ReportsFailure};
ghost use Rattle.aclck_c.specs.internal.Failures.{of_list_fault, of_refusal, out_of_memory};
ghost use Rattle.aclck_c.specs.internal.Numbers.{number_of_status};

use crate::refusal::Refusal;
use crate::status::Status;
use acl_nfs4::Fault;
use std::alloc::AllocError;

/// Why a call does not return its result.
#[derive(Clone, Copy)]
pub(crate) enum Failure {
    /// A name is empty, or a number or an option has no meaning.
    BadArgument,
    /// The list or the text is refused.
    Refused(Refusal),
    /// Memory ran out.
    Memory,
}

impl From<Fault> for Failure {
    ghost from_gives = { λ fault failure. failure ≡ of_list_fault fault };

    fn from(fault: Fault) -> Failure {
        Failure::Refused(Refusal::in_list(fault))
    }
}

impl From<AllocError> for Failure {
    ghost from_gives = { λ _ failure. failure ≡ out_of_memory };

    fn from(_: AllocError) -> Failure {
        Failure::Memory
    }
}

impl Failure {
    /// Returns the failure of a text: it is refused, or, if there is no refusal, memory ran out.
    pub(crate) fn of_refusal(refusal: Option<Refusal>) -> Failure
        ensures { result ≡ of_refusal refusal }
    {
        match refusal {
            Some(refusal) => Failure::Refused(refusal),
            None => Failure::Memory,
        }
    }

    /// Returns the status of the failure. If the input is refused, `fault` gets the reason; otherwise it stays as it
    /// was.
    pub(crate) fn report(self, fault: &mut Refusal) -> Status
        ensures { ReportsFailure self fault.old fault.new (number_of_status result) }
    {
        match self {
            Failure::BadArgument => Status::BadArgument,
            Failure::Refused(refusal) => {
                *fault = refusal;
                Status::Refused
            }
            Failure::Memory => Status::Memory,
        }
    }
}
