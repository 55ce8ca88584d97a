//! Which bytes are valid as a who, wherever an ACE comes from.
ghost use Rattle.std.specs.Prelude.{◌≡◌, ◌≤◌, ◌++◌, length, false, true};
ghost use Rattle.std.specs.List.{list_all};
ghost use Rattle.acl_nfs4.specs.AccessPart.{IsAnyWho};
ghost use Rattle.acl_nfs4.specs.internal.PartReading.{is_good_suffix};
ghost use Rattle.acl_nfs4.specs.internal.Reading.{Judges, text_fault};
ghost use Rattle.acl_nfs4.specs.Renamed.{is_account};
ghost use Rattle.acl_nfs4.specs.Who.{is_plain, is_special, is_unknown_special, is_no_who_len, who_fault};

use crate::limits::LONGEST_WHO;
use crate::plain_ascii::is_plain_ascii;

/// The special identifier of the owner (RFC 8881, section 6.2.1.5).
pub const OWNER_NAME: &str = "OWNER@";

/// The special identifier of the owning group.
pub const GROUP_NAME: &str = "GROUP@";

/// The special identifier of everyone.
pub const EVERYONE_NAME: &str = "EVERYONE@";

/// Why bytes are not valid as a who, in the order in which this is judged. It has no error traits, since no caller of the
/// crate sees it: each public call turns it into its own fault.
#[derive(Clone, Copy)]
pub(crate) enum WhoFault {
    Length,
    Utf8,
    Control,
    Special,
}

/// Refuses bytes that are not valid as a who.
pub(crate) fn judge(who: &[u8]) -> Result<(), WhoFault>
    ensures { Judges result (who_fault who.now) }
{
    if is_no_who_len(who.len()) {
        return Err(WhoFault::Length);
    }
    judge_text(who)
}

/// Returns whether bytes are valid as a who and no special identifier, so that they are the name of a user or a group.
pub fn is_account(name: &[u8]) -> bool
    ensures { result ≡ is_account name.now }
{
    judge(name).is_ok() && !is_special_who(name)
}

/// Returns whether an unknown special identifier followed by this suffix is the name of a user or a group.
#[tactic(auto, using(crate::proofs::xdr::SuffixedNames::account_after))]
pub(crate) fn is_account_after(name: &[u8], suffix: &[u8]) -> bool
    requires any { IsAnyWho name.now }
    requires unknown { is_unknown_special name.now ≡ true }
    ensures { result ≡ is_account (name.now ++ suffix.now) }
{
    suffix.len() <= LONGEST_WHO - name.len() && is_text_suffix(suffix)
}

// Returns whether bytes may follow a name: they have no fault of their encoding, and the last of them is not `@`.
fn is_text_suffix(suffix: &[u8]) -> bool
    ensures { result ≡ is_good_suffix suffix.now }
{
    !suffix.is_empty() && judge_any_text(suffix).is_ok() && suffix[suffix.len() - 1] != b'@'
}

/// Returns whether no who has this many bytes.
#[inline(always)]
pub fn is_no_who_len(len: usize) -> bool
    ensures { result ≡ is_no_who_len len }
{
    len == 0 || len > LONGEST_WHO
}

/// Refuses bytes of this length that are not valid as a who.
#[tactic(auto, using(crate::proofs::plain_ascii::PlainText::plain_ascii))]
#[inline(always)]
pub(crate) fn judge_text(who: &[u8]) -> Result<(), WhoFault>
    requires { is_no_who_len (length who.now) ≡ false }
    ensures { Judges result (who_fault who.now) }
{
    // Most names are plain ASCII. This test looks at many bytes at once.
    if !is_plain_ascii(who) {
        judge_bytes(who)?;
    }
    if is_unknown_special(who) {
        return Err(WhoFault::Special);
    }
    Ok(())
}

/// Refuses bytes that are not UTF-8, or that have a control byte, whatever the name is.
#[tactic(auto, using(crate::proofs::plain_ascii::PlainText::plain_ascii))]
#[inline(always)]
pub(crate) fn judge_any_text(who: &[u8]) -> Result<(), WhoFault>
    ensures { Judges result (text_fault who.now) }
{
    if is_plain_ascii(who) {
        return Ok(());
    }
    judge_bytes(who)
}

// Refuses bytes that are not UTF-8, or that have a control byte.
#[tactic(auto, using(crate::proofs::plain_ascii::PlainText::text_tests))]
#[inline(never)]
fn judge_bytes(who: &[u8]) -> Result<(), WhoFault>
    ensures { Judges result (text_fault who.now) }
{
    if str::from_utf8(who).is_err() {
        return Err(WhoFault::Utf8);
    }
    if !is_plain_text(who) {
        return Err(WhoFault::Control);
    }
    Ok(())
}

fn is_plain_text(bytes: &[u8]) -> bool
    ensures { result ≡ list_all is_plain bytes.now }
{
    bytes.iter().all(|byte| *byte >= 0x20 && *byte != 0x7f)
}

/// Returns whether a who ends in `@` and is none of the three special identifiers.
#[inline(always)]
pub fn is_unknown_special(who: &[u8]) -> bool
    requires { 1 ≤ length who.now }
    ensures { result ≡ is_unknown_special who.now }
{
    who[who.len() - 1] == b'@' && !is_special_who(who)
}

/// Returns whether a who is one of the three special identifiers.
#[inline(never)]
pub fn is_special_who(who: &[u8]) -> bool
    ensures { result ≡ is_special who.now }
{
    who == OWNER_NAME.as_bytes() || who == GROUP_NAME.as_bytes() || who == EVERYONE_NAME.as_bytes()
}
