//! The library for C: one call for each question, over bytes that are not copied (`include/aclck.h`).
#![tactic(auto)]

mod failure;
pub mod laws;
mod mask_text;
mod nfs4;
mod options;
mod out;
mod posix;
mod reason;
mod refusal;
mod status;
#[cfg(test)]
mod tests;
mod version;
mod words;

pub use mask_text::aclck_mask_text;
pub use nfs4::ace::RawAce;
pub use nfs4::build::aclck_build;
pub use nfs4::check::aclck_check;
pub use nfs4::check_many::aclck_check_many;
pub use nfs4::chmod::aclck_chmod;
pub use nfs4::compare::{RawDifference, aclck_compare};
pub use nfs4::decide::{RawDecided, aclck_decide};
pub use nfs4::deciding::{RawDecision, aclck_deciding};
pub use nfs4::encode::aclck_encode;
pub use nfs4::everywhere::aclck_restricted_everywhere;
pub use nfs4::excess::aclck_excess;
pub use nfs4::form_part::{RawLeftOut, RawPart, aclck_read_part};
pub use nfs4::forms::{aclck_read_form, aclck_write_form};
pub use nfs4::granted::aclck_granted;
pub use nfs4::ids::{RawIdObject, RawIdRequester, RawNames, aclck_decide_ids, aclck_prepare_ids};
pub use nfs4::implies::{RawImplication, aclck_implies};
pub use nfs4::mode::aclck_mode;
pub use nfs4::needed::aclck_needed;
pub use nfs4::next::aclck_next;
pub use nfs4::prepared::{aclck_decide_prepared, aclck_prepare};
pub use nfs4::prepared_many::aclck_decide_prepared_many;
pub use nfs4::questions::aclck_questions;
pub use nfs4::renamed::{RawRenaming, RawRenamings, aclck_renamed};
pub use nfs4::request::{RawObject, RawQuestion, RawRequester};
pub use nfs4::resolved::aclck_resolved;
pub use nfs4::restricted::{RawBound, aclck_restricted};
pub use nfs4::same::aclck_same;
pub use nfs4::texts::{
    aclck_child, aclck_holders, aclck_normalize, aclck_normalize_inherit, aclck_show, aclck_table,
};
pub use nfs4::to_posix::{RawPosixLoss, aclck_to_posix};
pub use nfs4::unknown::{RawPossible, aclck_decide_unknown};
pub use nfs4::with_groups::{RawSuffix, aclck_with_groups};
pub use posix::check::{RawPosixQuestion, aclck_posix_check};
pub use posix::creation::RawCreation;
pub use posix::entries_check::{
    RawPosixDecision, aclck_entries_check, aclck_entries_deciding, aclck_entries_mode,
};
pub use posix::entries_excess::{RawPosixDifference, aclck_entries_excess};
pub use posix::entries_made::{
    aclck_entries_bridge, aclck_entries_calc_mask, aclck_entries_chmod, aclck_entries_create,
    aclck_entries_from_attribute, aclck_entries_sorted, aclck_entries_to_attribute,
};
pub use posix::file::RawPosixText;
pub use posix::forms::aclck_entries_from_form;
pub use posix::names::RawName;
pub use posix::texts::{
    aclck_posix_bridge, aclck_posix_calc_mask, aclck_posix_chmod, aclck_posix_create,
    aclck_posix_show,
};
pub use posix::written::aclck_entries_to_form;
pub use refusal::Refusal;
pub use version::aclck_version;
pub use words::{aclck_read_mask, aclck_reason_text};
