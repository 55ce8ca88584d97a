//! What the crates of this repository share. It is no promise to other users, and may change or go without notice.

pub use crate::limits::is_too_heavy;
pub use crate::text::shown::rights_text;
pub use crate::who::{
    EVERYONE_NAME, GROUP_NAME, OWNER_NAME, is_account, is_no_who_len, is_special_who,
    is_unknown_special,
};
pub use crate::xdr::access_part::{any_who_of, type_of};
pub use crate::xdr::cursor::Cursor;
pub use crate::xdr::judges::{
    count_of, flags_of, kind_of, mask_of, pad_len, padding_of, who_len_of,
};
