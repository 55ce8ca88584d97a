//! Ids of users and groups.
ghost use Rattle.std.specs.Prelude.{◌≡◌, IfSome, IsSome, ◌↔◌};
ghost use Rattle.acl_posix.specs.Id.{IsId};

/// The greatest id. The number above it is not an id.
const GREATEST: u32 = u32::MAX - 1;

/// The id of a user or a group, from 0 to 4294967294: the qualifier of a USER or GROUP entry (acl(5), "ACL ENTRIES").
#[derive(Clone, Copy, Debug, PartialEq, Eq, PartialOrd, Ord, Hash)]
pub struct Id {
    /// The number of the id.
    pub value: u32,
    ghost within: { IsId value },
}

impl Id {
    /// Returns the id of this number, or `None` for 4294967295, which is not an id. It takes constant time.
    pub fn new(value: u32) -> Option<Id>
        ensures within { IsSome result ↔ IsId value }
        ensures value { IfSome result (λ id. id.value ≡ value) }
    {
        Id::from_number(u64::from(value))
    }

    /// Returns the id of a number that was read, or `None` if the number is above the greatest id.
    pub(crate) fn from_number(number: u64) -> Option<Id>
        ensures within { IsSome result ↔ IsId number }
        ensures value { IfSome result (λ id. id.value ≡ number) }
    {
        if number <= u64::from(GREATEST) {
            let value = number as u32;
            Some(Id { value })
        } else {
            None
        }
    }

    /// Returns the number of the id. It takes constant time.
    pub fn value(self) -> u32
        ensures value { result ≡ self.value }
        ensures within { IsId result }
    {
        self.value
    }
}
