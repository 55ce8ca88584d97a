//! Lists that the tests of several commands read, each with its text. The bytes are those of RFC 8881, section 6.2.1,
//! as XDR (RFC 4506).

/// No ACE.
pub const EMPTY: &[u8] = b"\0\0\0\0";

/// ALLOW - READ_DATA EVERYONE@.
pub const READ_OF_ALL: &[u8; 32] = b"\0\0\0\x01\0\0\0\0\0\0\0\0\0\0\0\x01\0\0\0\x09EVERYONE@\0\0\0";

/// ALLOW - READ_DATA alice.
pub const READ_OF_ALICE: &[u8; 28] = b"\0\0\0\x01\0\0\0\0\0\0\0\0\0\0\0\x01\0\0\0\x05alice\0\0\0";

/// ALLOW - READ_DATA OWNER@.
pub const READ_OF_THE_OWNER: &[u8] = b"\0\0\0\x01\0\0\0\0\0\0\0\0\0\0\0\x01\0\0\0\x06OWNER@\0\0";

/// ALLOW - READ_DATA GROUP@.
pub const READ_OF_THE_GROUP: &[u8] = b"\0\0\0\x01\0\0\0\0\0\0\0\0\0\0\0\x01\0\0\0\x06GROUP@\0\0";

/// ALLOW GROUP READ_DATA GROUP@.
pub const GROUP_FLAGGED: &[u8] = b"\0\0\0\x01\0\0\0\0\0\0\0@\0\0\0\x01\0\0\0\x06GROUP@\0\0";

/// DENY - - OWNER@.
pub const NO_RIGHTS: &[u8] = b"\0\0\0\x01\0\0\0\x01\0\0\0\0\0\0\0\0\0\0\0\x06OWNER@\0\0";

/// ALLOW - WRITE_RETENTION bob.
pub const RETENTION_OF_BOB: &[u8] = b"\0\0\0\x01\0\0\0\0\0\0\0\0\0\0\x02\0\0\0\0\x03bob\0";

/// ALLOW - READ_DATA EVERYONE@, and a byte after it.
pub const WITH_A_BYTE: &[u8] = b"\0\0\0\x01\0\0\0\0\0\0\0\0\0\0\0\x01\0\0\0\x09EVERYONE@\0\0\0\0";

/// DENY - READ_DATA bob, ALLOW - READ_DATA alice.
pub const WITHOUT_BOB: &[u8] = b"\0\0\0\x02\
    \0\0\0\x01\0\0\0\0\0\0\0\x01\0\0\0\x03bob\0\
    \0\0\0\0\0\0\0\0\0\0\0\x01\0\0\0\x05alice\0\0\0";

/// ALLOW - READ_DATA alice, DENY - READ_DATA bob.
pub const BEHIND_ALICE: &[u8] = b"\0\0\0\x02\
    \0\0\0\0\0\0\0\0\0\0\0\x01\0\0\0\x05alice\0\0\0\
    \0\0\0\x01\0\0\0\0\0\0\0\x01\0\0\0\x03bob\0";

/// ALLOW - READ_DATA OWNER@, DENY - WRITE_DATA bob, ALLOW - WRITE_DATA OWNER@.
pub const OWNER_BOB_OWNER: &[u8] = b"\0\0\0\x03\
    \0\0\0\0\0\0\0\0\0\0\0\x01\0\0\0\x06OWNER@\0\0\
    \0\0\0\x01\0\0\0\0\0\0\0\x02\0\0\0\x03bob\0\
    \0\0\0\0\0\0\0\0\0\0\0\x02\0\0\0\x06OWNER@\0\0";

/// DENY - WRITE_DATA bob, ALLOW - READ_DATA|WRITE_DATA OWNER@.
pub const BOB_AND_OWNER: &[u8] = b"\0\0\0\x02\
    \0\0\0\x01\0\0\0\0\0\0\0\x02\0\0\0\x03bob\0\
    \0\0\0\0\0\0\0\0\0\0\0\x03\0\0\0\x06OWNER@\0\0";

/// ALLOW - READ_DATA ops, DENY GROUP READ_DATA ops.
pub const OPS_FIRST: &[u8] = b"\0\0\0\x02\
    \0\0\0\0\0\0\0\0\0\0\0\x01\0\0\0\x03ops\0\
    \0\0\0\x01\0\0\0@\0\0\0\x01\0\0\0\x03ops\0";

/// DENY GROUP READ_DATA ops, ALLOW - READ_DATA ops.
pub const OPS_LAST: &[u8] = b"\0\0\0\x02\
    \0\0\0\x01\0\0\0@\0\0\0\x01\0\0\0\x03ops\0\
    \0\0\0\0\0\0\0\0\0\0\0\x01\0\0\0\x03ops\0";

/// DENY GROUP READ_DATA staff, ALLOW - READ_DATA|EXECUTE amy, ALLOW - EXECUTE EVERYONE@.
pub const AMY_AND_ALL: &[u8] = b"\0\0\0\x03\
    \0\0\0\x01\0\0\0@\0\0\0\x01\0\0\0\x05staff\0\0\0\
    \0\0\0\0\0\0\0\0\0\0\0!\0\0\0\x03amy\0\
    \0\0\0\0\0\0\0\0\0\0\0\x20\0\0\0\x09EVERYONE@\0\0\0";

/// ALLOW FILE|INHERITONLY READ_DATA amy, ALLOW - READ_DATA amy.
pub const AMY_INHERITED: &[u8] = b"\0\0\0\x02\
    \0\0\0\0\0\0\0\x09\0\0\0\x01\0\0\0\x03amy\0\
    \0\0\0\0\0\0\0\0\0\0\0\x01\0\0\0\x03amy\0";

/// ALLOW DIR|GROUP READ_DATA|WRITE_DATA and a group with blanks at both ends.
pub const BLANKS: &[u8] = b"\0\0\0\x01\0\0\0\0\0\0\0\x42\0\0\0\x03\0\0\0\x0b two words \0";

/// ALLOW INHERITED READ_DATA bob.
pub const INHERITED_OF_BOB: &[u8] = b"\0\0\0\x01\0\0\0\0\0\0\0\x80\0\0\0\x01\0\0\0\x03bob\0";
