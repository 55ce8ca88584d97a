//! Lines of a text, and parts of a line with their columns.
ghost use Rattle.std.specs.Prelude.{◌≡◌, ◌≤◌, length, position, not};
ghost use Rattle.acl_perm.specs.Lines.{
  before_mark,
  blanks_before,
  is_all_blank,
  is_blank,
  span_of,
  start_of,
  trimmed,
  ColumnsFit,
  IsCut,
  IsLineCut,
};

use crate::place::place_of;

/// Some bytes of a line, and the column of the first of them. Columns count from 1.
#[derive(Clone, Copy)]
pub struct Piece<'a> {
    pub column: usize,
    pub bytes: &'a [u8],
}

impl<'a> Piece<'a> {
    /// Makes a piece of the whole line, which begins at column 1.
    pub fn whole(line: &'a [u8]) -> Piece<'a>
        ensures value { span_of result ≡ record { column = 1; bytes = line.now } }
        ensures fits { ColumnsFit result }
    {
        Piece {
            column: 1,
            bytes: line,
        }
    }

    /// Returns the part before the first separator, and the part after it if there is a separator.
    pub fn cut(self, separator: u8) -> (Piece<'a>, Option<Piece<'a>>)
        requires { ColumnsFit self }
        ensures parts { IsCut separator (span_of self.entry) result }
    {
        match place_of(self.bytes, separator) {
            None => (self, None),
            Some(place) => {
                let first = Piece {
                    column: self.column,
                    bytes: &self.bytes[..place],
                };
                let rest = Piece {
                    column: self.column + place + 1,
                    bytes: &self.bytes[place + 1..],
                };
                (first, Some(rest))
            }
        }
    }

    /// Returns the column of the first byte that is not a blank, or of the byte after the piece if there is none.
    pub fn start(self) -> usize
        requires { ColumnsFit self }
        ensures { result ≡ start_of (span_of self.entry) }
    {
        self.column + blanks_before(self.bytes)
    }
}

/// Returns the first line without its line feed, and the text after the line feed.
pub fn cut_line(text: &[u8]) -> (&[u8], Option<&[u8]>)
    ensures parts { IsLineCut text.now result }
{
    match place_of(text, b'\n') {
        None => (text, None),
        Some(place) => (&text[..place], Some(&text[place + 1..])),
    }
}

/// Returns whether all bytes are blanks, also if there are no bytes.
pub fn is_all_blank(bytes: &[u8]) -> bool
    ensures { result ≡ is_all_blank bytes.now }
{
    bytes.iter().all(|b| is_blank(*b))
}

/// Returns the bytes without the blanks at both ends.
pub fn trimmed(bytes: &[u8]) -> &[u8]
    ensures { result.now ≡ trimmed bytes.now }
{
    let mut rest = &bytes[blanks_before(bytes)..];
    while let [front @ .., last] = rest {
        if !is_blank(*last) {
            break;
        }
        rest = front;
    }
    rest
}

fn blanks_before(bytes: &[u8]) -> usize
    ensures value { result ≡ blanks_before bytes.now }
    ensures within { result ≤ length bytes.now }
{
    match first_other(bytes) {
        Some(place) => place,
        None => bytes.len(),
    }
}

fn first_other(bytes: &[u8]) -> Option<usize>
    ensures { result ≡ position (λ b. not (is_blank b)) bytes.now }
{
    bytes.iter().position(|b| !is_blank(*b))
}

fn is_blank(b: u8) -> bool
    ensures { result ≡ is_blank b }
{
    b == b' ' || b == b'\t'
}

/// Returns the bytes before the first mark, or all of them if there is no mark.
pub fn before_mark(bytes: &[u8], mark: u8) -> &[u8]
    ensures { result.now ≡ before_mark mark bytes.now }
{
    match place_of(bytes, mark) {
        Some(place) => &bytes[..place],
        None => bytes,
    }
}
