//! Why a value in a form is not a list, and why a form cannot hold a list.
ghost use Rattle.std.specs.Prelude.{◌≡◌};
ghost use Rattle.acl_forms.specs.ReadFaults.{read_fault_at};

use acl_nfs4::Reason;
use acl_posix::Tag;
use thiserror::Error;

/// What is wrong with a field of a value, or with the value as a whole.
#[derive(Clone, Copy, Debug, PartialEq, Eq, Error)]
pub enum ReadReason {
    /// The field is one that the decoder of nfsace4<> refuses, or an ACE has what no list may have.
    #[error("{0}")]
    List(Reason),
    /// A flag of the list is not a flag of the standard.
    #[error("AclFlagBits")]
    AclFlagBits,
    /// A flag that says what kind of who follows is not a flag of the form.
    #[error("IflagBits")]
    IflagBits,
    /// The id is above 4294967294, or is not digits alone; or the name is digits alone, but not the decimal digits of an
    /// id.
    #[error("Id")]
    Id,
    /// The version is not that of the form.
    #[error("Version")]
    Version,
    /// The field is not a tag.
    #[error("Tag")]
    Tag,
    /// The field is not a set of permissions.
    #[error("Permission")]
    Permission,
    /// The entry has a qualifier, and may have none.
    #[error("Qualifier")]
    Qualifier,
    /// The entry comes before the entry before it in canonical order.
    #[error("Order")]
    Order,
    /// The entry has the tag of an earlier entry.
    #[error("Multi")]
    Multi,
    /// The user or group entry has the tag and the id of an earlier entry.
    #[error("Duplicate")]
    Duplicate,
    /// An entry with this tag is required, and is absent.
    #[error("Miss {}", .0.name())]
    Miss(Tag),
    /// The entry does not have as many fields as it must have.
    #[error("Fields")]
    Fields,
    /// The letter is not a flag.
    #[error("Flag")]
    Flag,
    /// The letter is not a right.
    #[error("Mask")]
    Mask,
    /// The letter has a meaning on directories alone.
    #[error("NotDirectory")]
    NotDirectory,
    /// The text has no entry, and must have one.
    #[error("Empty")]
    Empty,
    /// There are only blanks here, in place of an entry.
    #[error("EmptyEntry")]
    EmptyEntry,
    /// The id is not that of the name.
    #[error("IdDiffers")]
    IdDiffers,
    /// The name has no id in the table.
    #[error("UnknownName")]
    UnknownName,
    /// A separator stands in a comment, where readers of the form differ.
    #[error("Comment")]
    Comment,
    /// The text has a zero byte.
    #[error("Nul")]
    Nul,
    /// The line with a comment is longer than the tool reads at once.
    #[error("TooLong")]
    TooLong,
}

/// The first field that is refused, with the place of its first byte.
#[derive(Clone, Copy, Debug, PartialEq, Eq, Error)]
#[error("{reason} at byte {offset}")]
pub struct ReadFault {
    /// The place of the field's first byte. The value's first byte is at 0.
    pub offset: u64,
    /// What is wrong with the field.
    pub reason: ReadReason,
}

impl ReadFault {
    /// Makes a fault at a place of a text.
    pub(crate) fn new(offset: usize, reason: ReadReason) -> ReadFault
        ensures { result ≡ read_fault_at offset reason }
    {
        ReadFault {
            offset: offset as u64,
            reason,
        }
    }
}

/// Why a form cannot hold a list.
#[derive(Clone, Copy, Debug, PartialEq, Eq, Error)]
pub enum FormReason {
    /// The who has no id.
    #[error("NoId")]
    NoId,
    /// The ACE has the flag INHERITED, for which the form has no place.
    #[error("Inherited")]
    Inherited,
    /// The ACE has WRITE_RETENTION or WRITE_RETENTION_HOLD, for which the form has no place.
    #[error("Retention")]
    Retention,
    /// The who has a byte that separates fields.
    #[error("Separator")]
    Separator,
    /// The ACE has a flag or a right of directories alone, and the object is a file.
    #[error("NotDirectory")]
    NotDirectory,
    /// The who, or the text up to here, is too long for the tool.
    #[error("TooLong")]
    TooLong,
    /// The list has no ACE, and the form must have one.
    #[error("Empty")]
    Empty,
    /// The who is digits that readers of the form read as another id.
    #[error("Id")]
    Id,
    /// There are flags of the list, for which the form has no place.
    #[error("AclFlags")]
    AclFlags,
}

/// The first ACE or entry that a form cannot hold, and why.
#[derive(Clone, Copy, Debug, PartialEq, Eq, Error)]
#[error("{reason} at entry {place}")]
pub struct FormFault {
    /// The number of the ACE or of the entry, from 0.
    pub place: usize,
    /// Why the form cannot hold it.
    pub reason: FormReason,
}
