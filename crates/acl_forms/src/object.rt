//! What a list is of.

/// What a list is of. The tools of NFS read and write a list differently for the two.
#[derive(Clone, Copy, Debug, PartialEq, Eq)]
pub enum ObjectKind {
    /// The list is of a file, or of anything else that is no directory.
    File,
    /// The list is of a directory.
    Directory,
}
