//! The styles in which the text of FreeBSD and of archives is written.
ghost use Rattle.std.specs.Prelude.{◌≡◌, ◌≤◌, length};
ghost use Rattle.acl_forms.specs.internal.TextWriting.{after_each, between};

/// What separates the entries of a text.
#[derive(Clone, Copy, Debug, PartialEq, Eq)]
pub enum EntrySeparator {
    /// A line feed is after each entry.
    LineFeeds,
    /// A comma is between two entries.
    Commas,
}

/// How the letters of permissions and of flags are written.
#[derive(Clone, Copy, Debug, PartialEq, Eq)]
pub enum LetterStyle {
    /// Only the letters that an ACE has.
    Compact,
    /// A place for each letter, with a hyphen for each that the ACE does not have.
    Full,
}

/// The style in which a text is written. Each style is read as the same list.
#[derive(Clone, Copy, Debug, PartialEq, Eq)]
pub struct Style {
    /// What separates the entries.
    pub separator: EntrySeparator,
    /// How their letters are written.
    pub letters: LetterStyle,
}

impl Style {
    /// The style of the attribute `SCHILY.acl.ace` in the archives of bsdtar.
    pub const ARCHIVE: Style = Style {
        separator: EntrySeparator::Commas,
        letters: LetterStyle::Compact,
    };
}

impl EntrySeparator {
    /// Returns the bytes between two entries.
    pub(crate) fn between(self) -> &'static [u8]
        ensures value { result.now ≡ between self }
        ensures short { length result.now ≤ 1 }
    {
        match self {
            EntrySeparator::LineFeeds => b"",
            EntrySeparator::Commas => b",",
        }
    }

    /// Returns the bytes after each entry.
    pub(crate) fn after_each(self) -> &'static [u8]
        ensures value { result.now ≡ after_each self }
        ensures short { length result.now ≤ 1 }
    {
        match self {
            EntrySeparator::LineFeeds => b"\n",
            EntrySeparator::Commas => b"",
        }
    }
}
