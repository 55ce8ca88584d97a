//! Security descriptors.
use crate::ace::{NtAce, OtherAce};
use crate::sid::Sid;

/// The list that decides (MS-DTYP, section 2.4.6, DACL).
#[derive(Debug, Drop)]
pub enum Dacl {
    /// There is no list, and everything is granted to everybody.
    Null,
    /// The ACEs in order. If there are none, nothing is granted but the owner's own rights.
    List(Vec<NtAce>),
}

/// A security descriptor with a DACL (MS-DTYP, section 2.4.6).
#[derive(Debug, Drop)]
pub struct NtDescriptor {
    /// The control bits.
    pub control: u16,
    /// The owner, if there is one.
    pub owner: Option<Sid>,
    /// The group, if there is one.
    pub group: Option<Sid>,
    /// The list that decides.
    pub dacl: Dacl,
    /// The ACEs of the SACL in order, if there is one. They grant nothing. On Windows, labels (17), policies (19) and
    /// filters (21) among them can take rights away.
    pub sacl: Option<Vec<OtherAce>>,
}

/// What is read of a descriptor whose DACL may have ACEs of other types than ALLOW and DENY.
#[derive(Debug, Drop)]
pub struct NtPart {
    /// The descriptor without the ACEs that are left out.
    pub descriptor: NtDescriptor,
    /// The ACEs of the DACL that are left out, in order. If there is none, the descriptor is the whole one.
    pub left_out: Vec<OtherAce>,
}
