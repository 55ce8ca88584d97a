//! Tests by worked ACLs and by brute force. What an ACL grants is acl(5), "ACCESS CHECK ALGORITHM".

mod examples;
mod removals;
mod restrictions;
