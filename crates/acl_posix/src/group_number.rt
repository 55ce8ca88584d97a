//! The groups of a requester.
ghost use Rattle.std.specs.Prelude.{◌≡◌, ℕ};

use crate::id::Id;

/// A group of a requester: an id, or a number, which may be no id and then matches no entry.
pub(crate) trait GroupNumber: Copy {
    // The number of the group.
    ghost number: { Self → ℕ };

    fn number(self) -> u32
        ensures { result ≡ number self };
}

impl GroupNumber for Id {
    ghost number = { λ id. id.value };

    fn number(self) -> u32 {
        self.value
    }
}

impl GroupNumber for u32 {
    ghost number = { λ number. number };

    fn number(self) -> u32 {
        self
    }
}
