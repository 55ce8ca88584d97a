//! Reads the numbers at a place of a value.
ghost use Rattle.std.specs.Prelude.{◌≡◌, ◌+◌, ◌≤◌, length};
ghost use Rattle.acl_nt.specs.Numbers.{half_at, dword_at};

use byteorder::{ByteOrder, LittleEndian};

pub(crate) fn half(bytes: &[u8], at: usize) -> u16
    requires { at + 2 ≤ length bytes.now }
    ensures { result ≡ half_at bytes.now at }
{
    LittleEndian::read_u16(&bytes[at..])
}

pub(crate) fn word(bytes: &[u8], at: usize) -> u32
    requires { at + 4 ≤ length bytes.now }
    ensures { result ≡ dword_at bytes.now at }
{
    LittleEndian::read_u32(&bytes[at..])
}
