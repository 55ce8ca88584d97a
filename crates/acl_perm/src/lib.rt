//! What all access control lists here are made of, and sources and sinks of bytes that count their failures.
#![tactic(auto)]

mod bit;
mod bit_names;
mod constants;
mod counted;
mod devices;
mod flags;
mod fused;
pub mod internal;
mod key;
mod kind;
pub mod laws;
mod lines;
mod mask;
mod mode;
mod perm;
mod pieces;
mod place;
mod principal;
mod profile;
mod right;
mod right_names;
mod rights;
mod whole;

pub use counted::Counted;
pub use devices::{Sink, Source};
pub use flags::Flags;
pub use fused::Fused;
pub use key::Key;
pub use kind::Kind;
pub use mask::Mask;
pub use mode::Mode;
pub use perm::Perm;
pub use principal::{Principal, overlaps};
pub use profile::Profile;
pub use right::Right;
pub use rights::Rights;
pub use whole::{InputFault, WriteFault, put_all, read_all};
