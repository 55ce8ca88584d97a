//! Lists in the forms in which systems keep and print them.
#![tactic(auto)]

mod ace_text;
mod acl41;
mod acl41_ids;
mod acl41_ids_writer;
mod acl_flags;
pub mod attribute_laws;
mod attributes;
mod attributes_writer;
mod fault;
mod form;
pub mod form_laws;
mod form_write;
pub mod laws;
mod letters;
mod nfs_text;
mod object;
mod part;
mod posix_text;
pub mod posix_text_laws;
mod reading;
mod style;
mod text_form;
mod tools;
mod who_field;
mod words;
mod writing;

pub use acl_flags::AclFlags;
pub use acl41::{read_acl41, write_acl41};
pub use acl41_ids::read_acl41_ids;
pub use acl41_ids_writer::{acl41_ids_fault, write_acl41_ids};
pub use attributes::read_attribute;
pub use attributes_writer::write_attribute;
pub use fault::{FormFault, FormReason, ReadFault, ReadReason};
pub use form::{Form, fits, read, write};
pub use form_write::FormWriteFault;
pub use nfs_text::{nfs_text_fault, read_nfs_text, write_nfs_text};
pub use object::ObjectKind;
pub use part::left_out::{LeftOut, LeftOutReason};
pub use part::{ReadablePart, read_part};
pub use posix_text::{
    IdNames, TarStyle, posix_text_fault, read_default_text, read_posix_text, write_posix_text,
};
pub use style::{EntrySeparator, LetterStyle, Style};
pub use tools::{read_tools, tools_fault, write_tools};
pub use who_field::WhoField;
