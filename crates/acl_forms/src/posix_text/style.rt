//! Whose text of a POSIX ACL is written.

/// The program whose text of a POSIX ACL is written.
#[derive(Clone, Copy, Debug, PartialEq, Eq)]
pub enum TarStyle {
    /// The text of star and bsdtar: entries with commas between them, the three base entries first, and an id after the
    /// permissions where the qualifier is a name.
    Star,
    /// The text of GNU tar: a line for each entry, in canonical order.
    Gnu,
}
