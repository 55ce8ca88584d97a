//! Security identifiers.
ghost use Rattle.std.specs.Prelude.{◌<◌, ◌^◌};

use arrayvec::ArrayVec;

/// A security identifier (MS-DTYP, section 2.4.2): whom an ACE names, or an owner or a group.
#[derive(Debug, PartialEq, Eq, Drop)]
pub struct Sid {
    /// The authority, which has six bytes.
    pub authority: u64,
    /// The sub-authorities in order, at most 15.
    pub words: ArrayVec<u32, 15>,
    ghost fits: { authority < 2 ^ 48 },
}
