//! The forms of values that have a descriptor.

/// A form of values that have a descriptor.
#[derive(Clone, Copy, Debug, PartialEq, Eq)]
pub enum NtForm {
    /// A self-relative descriptor (MS-DTYP, section 2.4.6): the value of an attribute such as
    /// `system.cifs_acl` or `system.ntfs_acl`.
    Descriptor,
    /// The attribute `security.NTACL` of Samba, versions 1 to 4. Whether Samba still uses the value is not judged: it
    /// also compares hashes, and over SMB the list of the file system decides too.
    Ntacl,
}
