//! The order of a normal form: one least free key after the other.

pub(crate) mod emission;
pub(crate) mod queues;
pub(crate) mod ready;
pub(crate) mod rising;
pub(crate) mod short;
