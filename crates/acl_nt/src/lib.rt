//! NT security descriptors, as Windows and Samba keep them.
#![tactic(auto)]

mod ace;
mod ace_reader;
mod acl_reader;
mod descriptor;
mod descriptor_reader;
mod fault;
mod form;
mod frame;
pub mod laws;
mod mapping;
mod numbers;
mod reader;
mod role;
mod sid;
mod sid_name;
mod sid_reader;

pub use ace::{NtAce, OtherAce};
pub use acl_perm::Kind;
pub use descriptor::{Dacl, NtDescriptor, NtPart};
pub use fault::{NtFault, NtReason};
pub use form::NtForm;
pub use mapping::{NtListFault, nt_list};
pub use reader::{read_nt, read_nt_part};
pub use sid::Sid;
