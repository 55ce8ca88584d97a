//! Which field of an entry names its user or group.

/// Which field of an entry names its user or group, if it has a name and an id.
#[derive(Clone, Copy, Debug, PartialEq, Eq)]
pub enum WhoField {
    /// The name. An id after it is only judged.
    Name,
    /// The id, as its decimal digits. An entry without an id is about its name.
    Id,
}
