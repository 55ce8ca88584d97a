//! The name of a SID.
ghost use Rattle.std.specs.Prelude.{◌≡◌, ◌++◌, ◌^◌, ◌<◌, IfOk, OnOk, codes};
ghost use Rattle.byteorder.specs.Endian.{big_bytes};
ghost use Rattle.hex.specs.Hex.{encode_lower};
ghost use Rattle.std.specs.List.{flat_map};
ghost use Rattle.acl_nt.specs.Sid.{sid};
ghost use Rattle.acl_nt.specs.SidName.{authority_name, sid_name, word_name};

use crate::sid::Sid;
use byteorder::{BigEndian, ByteOrder};
use hex::encode;
use itoa::Buffer;
use std::alloc::{AllocError, Global};

impl Sid {
    /// Returns the name of the SID, as `S-1-5-32-544` (MS-DTYP, section 2.4.2.1). The authority is in decimal digits if
    /// it is below 4294967296, and otherwise `0x` and twelve small hexadecimal digits. No other SID has this name.
    /// Fails if memory runs out.
    pub fn name(&self, alloc: Global) -> Result<Vec<u8>, AllocError>
        ensures { IfOk result (λ name. name.items ≡ sid_name (sid self.now)) }
    {
        let mut name = Vec::from_slice(alloc, b"S-1-")?;
        push_authority(&mut name, alloc, self.authority)?;
        push_words(&mut name, self.words.as_slice())?;
        Ok(name)
    }
}

// Adds the name of an authority.
fn push_authority(name: &mut Vec<u8>, alloc: Global, authority: u64) -> Result<(), AllocError>
    requires { authority < 2 ^ 48 }
    ensures { OnOk result (name.new.items ≡ name.old.items ++ authority_name authority) }
{
    if authority < 0x1_0000_0000 {
        let mut digits = Buffer::new();
        return name.extend_from_slice(digits.format(authority).as_bytes());
    }
    push_hex(name, alloc, authority)
}

// Adds the name of an authority in hexadecimal digits.
fn push_hex(name: &mut Vec<u8>, alloc: Global, authority: u64) -> Result<(), AllocError>
    requires { authority < 2 ^ 48 }
    ensures { OnOk result (name.new.items ≡ name.old.items ++ (codes "0x" ++ encode_lower (big_bytes 6 authority))) }
{
    let mut bytes = [0; 6];
    BigEndian::write_u48(&mut bytes, authority);
    let digits = encode(alloc, bytes.as_slice())?;
    name.extend_from_slice(b"0x")?;
    name.extend_from_slice(digits.as_bytes())
}

// Adds the names of sub-authorities.
fn push_words(name: &mut Vec<u8>, words: &[u32]) -> Result<(), AllocError>
    ensures { OnOk result (name.new.items ≡ name.old.items ++ flat_map word_name words.now) }
{
    for word in words {
        let mut digits = Buffer::new();
        name.push(b'-')?;
        name.extend_from_slice(digits.format(*word).as_bytes())?;
    }
    Ok(())
}
