//! The names of the flags in texts.

use acl_perm::Flags;
use acl_perm::internal::BitName;

/// The flags in ascending order of their bits (RFC 8881, section 6.2.1.4.1), with the short names of this library.
pub(crate) static FLAGS: [BitName; 8] = [
    BitName {
        bit: Flags::FILE_INHERIT.bits as u32,
        name: "FILE",
        second: None,
    },
    BitName {
        bit: Flags::DIRECTORY_INHERIT.bits as u32,
        name: "DIR",
        second: None,
    },
    BitName {
        bit: Flags::NO_PROPAGATE_INHERIT.bits as u32,
        name: "NOPROP",
        second: None,
    },
    BitName {
        bit: Flags::INHERIT_ONLY.bits as u32,
        name: "INHERITONLY",
        second: None,
    },
    BitName {
        bit: Flags::SUCCESSFUL_ACCESS.bits as u32,
        name: "SUCCESS",
        second: None,
    },
    BitName {
        bit: Flags::FAILED_ACCESS.bits as u32,
        name: "FAILED",
        second: None,
    },
    BitName {
        bit: Flags::IDENTIFIER_GROUP.bits as u32,
        name: "GROUP",
        second: None,
    },
    BitName {
        bit: Flags::INHERITED.bits as u32,
        name: "INHERITED",
        second: None,
    },
];
