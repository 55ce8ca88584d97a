//! Lists as text: one line per ACE.

pub(crate) mod fault;
pub(crate) mod line;
pub(crate) mod reader;
pub(crate) mod shown;
mod writer;
