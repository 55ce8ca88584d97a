//! The rest of the bytes that are read, from which the offset follows.
ghost use Rattle.std.specs.Prelude.{◌≤◌, length};

/// The rest of the bytes, and how many bytes there were.
#[derive(Clone, Copy)]
pub struct Cursor<'a> {
    pub len: usize,
    pub rest: &'a [u8],
    ghost within: { length rest.now ≤ len },
}
