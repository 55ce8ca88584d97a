//! NFSv4 access control lists, as XDR bytes and as text.
#![tactic(auto)]

mod ace;
mod feed;
pub mod internal;
pub mod laws;
mod limits;
mod list;
mod names;
mod plain_ascii;
mod text;
mod who;
mod xdr;

pub use ace::AceRef;
pub use acl_perm::{
    Counted, Flags, Fused, InputFault, Kind, Mask, Principal, Profile, Sink, Source, WriteFault,
};
pub use feed::Feed;
pub use feed::fed::Fed;
pub use limits::{LONGEST_WHO, MOST_ACES, MOST_WEIGHT};
pub use list::aces::Aces;
pub use list::acl::Acl;
pub use list::build::BuildFault;
pub use list::push_fault::PushFault;
pub use list::renaming::{RenameFault, Renaming};
pub use names::rights::{bit_name, read_mask};
pub use text::fault::AceTextFault;
pub use text::reader::{parse_text, parse_text_with};
pub use text::shown::{FlagNames, PrincipalName, RightNames};
pub use xdr::access_part::AccessPart;
pub use xdr::ace_at::{AceAt, ace_at};
pub use xdr::decoder::{decode, decode_with};
pub use xdr::fault::{Fault, Reason};
pub use xdr::unknown_groups::GroupsFault;
pub use xdr::view::AclView;
