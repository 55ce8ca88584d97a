//! The reasons of `enum aclck_reason` of `aclck.h`: their numbers, and their names, as the program prints them.
ghost use Rattle.std.specs.Prelude.{◌≡◌, ◌==◌, find, option_copied, option_map};
ghost use Rattle.aclck_c.specs.Refusal.{reason_number};
ghost use Rattle.aclck_c.specs.Words.{reason_name, reasons};
ghost use Rattle.aclck_c.specs.internal.Numbers.{number_of_reason};
ghost use Rattle.aclck_c.specs.internal.Reasons.{reasons_of};

use acl_nfs4::Reason as ListReason;

/// Why an input is refused.
#[derive(Clone, Copy)]
pub(crate) enum Reason {
    Truncated = 1,
    TooManyAces = 2,
    AuditOrAlarm = 3,
    AceType = 4,
    FlagBits = 5,
    MaskBits = 6,
    TooHeavy = 7,
    WhoLength = 8,
    WhoUtf8 = 9,
    WhoControl = 10,
    SpecialWho = 11,
    Padding = 12,
    TrailingBytes = 13,
    Read = 14,
    Memory = 15,
    Fields = 16,
    Flag = 17,
    Mask = 18,
    Tag = 19,
    Qualifier = 20,
    Id = 21,
    UnknownName = 22,
    Permission = 23,
    EmptyEntry = 24,
    Multi = 25,
    Duplicate = 26,
    Miss = 27,
    Limits = 28,
    Size = 29,
    Version = 30,
    Order = 31,
    Merged = 32,
    AclFlagBits = 33,
    IflagBits = 34,
    NotDirectory = 35,
    Empty = 36,
    IdDiffers = 37,
    Comment = 38,
    Nul = 39,
    TooLong = 40,
    NoId = 41,
    Inherited = 42,
    Retention = 43,
    Separator = 44,
    AclFlags = 45,
    TooMany = 46,
}

impl Reason {
    /// Returns the number of the reason in `enum aclck_reason`.
    pub(crate) fn number(self) -> u32
        ensures { result ≡ number_of_reason self }
    {
        self as u32
    }
}

impl From<ListReason> for Reason {
    ghost from_gives = { λ why reason. number_of_reason reason ≡ reason_number why };

    fn from(why: ListReason) -> Reason {
        match why {
            ListReason::Truncated => Reason::Truncated,
            ListReason::TooManyAces => Reason::TooManyAces,
            ListReason::AuditOrAlarm => Reason::AuditOrAlarm,
            ListReason::AceType => Reason::AceType,
            ListReason::FlagBits => Reason::FlagBits,
            ListReason::MaskBits => Reason::MaskBits,
            ListReason::TooHeavy => Reason::TooHeavy,
            ListReason::WhoLength => Reason::WhoLength,
            ListReason::WhoUtf8 => Reason::WhoUtf8,
            ListReason::WhoControl => Reason::WhoControl,
            ListReason::SpecialWho => Reason::SpecialWho,
            ListReason::Padding => Reason::Padding,
            ListReason::TrailingBytes => Reason::TrailingBytes,
            ListReason::Read => Reason::Read,
            ListReason::Memory => Reason::Memory,
        }
    }
}

// A reason and its name.
#[derive(Clone, Copy)]
struct ReasonRow {
    reason: Reason,
    name: &'static [u8],
}

macro_rules! row {
    ($reason:ident, $name:literal) => {
        ReasonRow {
            reason: Reason::$reason,
            name: $name,
        }
    };
}

// The reasons in ascending order of their numbers.
static REASONS: [ReasonRow; 46] = [
    row!(Truncated, b"Truncated"),
    row!(TooManyAces, b"TooManyAces"),
    row!(AuditOrAlarm, b"AuditOrAlarm"),
    row!(AceType, b"AceType"),
    row!(FlagBits, b"FlagBits"),
    row!(MaskBits, b"MaskBits"),
    row!(TooHeavy, b"TooHeavy"),
    row!(WhoLength, b"WhoLength"),
    row!(WhoUtf8, b"WhoUtf8"),
    row!(WhoControl, b"WhoControl"),
    row!(SpecialWho, b"SpecialWho"),
    row!(Padding, b"Padding"),
    row!(TrailingBytes, b"TrailingBytes"),
    row!(Read, b"Read"),
    row!(Memory, b"Memory"),
    row!(Fields, b"Fields"),
    row!(Flag, b"Flag"),
    row!(Mask, b"Mask"),
    row!(Tag, b"Tag"),
    row!(Qualifier, b"Qualifier"),
    row!(Id, b"Id"),
    row!(UnknownName, b"UnknownName"),
    row!(Permission, b"Permission"),
    row!(EmptyEntry, b"EmptyEntry"),
    row!(Multi, b"Multi"),
    row!(Duplicate, b"Duplicate"),
    row!(Miss, b"Miss"),
    row!(Limits, b"Limits"),
    row!(Size, b"Size"),
    row!(Version, b"Version"),
    row!(Order, b"Order"),
    row!(Merged, b"Merged"),
    row!(AclFlagBits, b"AclFlagBits"),
    row!(IflagBits, b"IflagBits"),
    row!(NotDirectory, b"NotDirectory"),
    row!(Empty, b"Empty"),
    row!(IdDiffers, b"IdDiffers"),
    row!(Comment, b"Comment"),
    row!(Nul, b"Nul"),
    row!(TooLong, b"TooLong"),
    row!(NoId, b"NoId"),
    row!(Inherited, b"Inherited"),
    row!(Retention, b"Retention"),
    row!(Separator, b"Separator"),
    row!(AclFlags, b"AclFlags"),
    row!(TooMany, b"TooMany"),
];

/// Returns the name of the reason with this number, or `None` if there is no such reason.
pub(crate) fn reason_name(number: u32) -> Option<&'static [u8]>
    ensures { option_map (λ name. name.now) result ≡ reason_name number }
{
    match row_of(reasons(), number) {
        Some(row) => Some(row.name),
        None => None,
    }
}

// Returns the table, so that a clause can give its rows.
fn reasons() -> &'static [ReasonRow]
    ensures { reasons_of result.now ≡ reasons }
{
    &REASONS
}

fn row_of(rows: &[ReasonRow], number: u32) -> Option<&ReasonRow>
    ensures { option_copied result ≡ find (λ row. number == number_of_reason row.reason) rows.now }
{
    rows.iter().find(|row| number == row.reason.number())
}
