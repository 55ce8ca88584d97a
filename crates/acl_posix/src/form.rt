//! The forms of a text.

/// A form of the text of ACLs: which words it has, and what separates its entries.
#[derive(Clone, Copy, Debug, PartialEq, Eq)]
pub enum AclTextForm {
    /// Each entry on a line of its own, in canonical order, with the default ACL after the access ACL.
    Canonical,
    /// The canonical text, with a comment after each entry that the mask limits: its effective permissions.
    Shown,
    /// The entries in canonical order with commas between them, and no line feed.
    Short,
}
