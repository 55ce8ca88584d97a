//! What a call returns.
ghost use Rattle.std.specs.Prelude.{◌≡◌};
ghost use Rattle.aclck_c.specs.internal.Numbers.{number_of_status};

/// `enum aclck_status` of `aclck.h`. Every status but `Done` means that the call failed.
#[derive(Clone, Copy)]
pub(crate) enum Status {
    /// The answer is written.
    Done = 0,
    /// The list or the text is refused.
    Refused = 2,
    /// A name is empty, or a number or an option has no meaning.
    BadArgument = 3,
    /// Memory ran out.
    Memory = 4,
    /// The buffer is too short.
    Short = 5,
}

impl Status {
    /// Returns the number of the status in `enum aclck_status`.
    pub(crate) fn number(self) -> u32
        ensures { result ≡ number_of_status self }
    {
        self as u32
    }
}
