//! Why a list is not written in a form.
ghost use Rattle.std.specs.Prelude.{◌≡◌};

use crate::fault::FormFault;
use acl_perm::WriteFault;
use thiserror::Error;

/// Why a list is not written in a form.
#[derive(Clone, Copy, Debug, PartialEq, Eq, Error)]
pub enum FormWriteFault {
    /// The form cannot hold the list. Nothing is written.
    #[error("{0}")]
    Form(FormFault),
    /// A write failed.
    #[error("{0}")]
    Write(WriteFault),
}

impl From<WriteFault> for FormWriteFault {
    ghost use Rattle.acl_forms.specs.declared.form_write.FormWriteFault.TheVariants.{Write};

    ghost from_gives = { λ write fault. fault ≡ Write write };

    fn from(write: WriteFault) -> FormWriteFault {
        FormWriteFault::Write(write)
    }
}
