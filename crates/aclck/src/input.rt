//! Inputs: lists as XDR, which are read as they arrive, and files as POSIX texts.

pub(crate) mod posix;
pub(crate) mod xdr;
