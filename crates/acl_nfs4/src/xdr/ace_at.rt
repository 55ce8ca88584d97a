//! One ACE of a list, at its offset. So a caller who keeps no view can go through a list one ACE after the other.
ghost use Rattle.std.specs.Prelude.{[], ◌≡◌, ◌∷◌, ◌++◌, ℕ, IfErr, IfOk, IfSome, IsNone, List, drop, length};
ghost use Rattle.acl_perm.specs.Profile.{profile_of};
ghost use Rattle.acl_nfs4.specs.Ace.{Ace, ace};
ghost use Rattle.acl_nfs4.specs.AceAt.{GivesAce, GivesNoAce, IsAceFault, IsAceFrom, ace_offset, offset_after};
ghost use Rattle.acl_nfs4.specs.Fault.{HasWholeFault};
ghost use Rattle.acl_nfs4.specs.Spelling.{Xdr};
ghost use Rattle.acl_nfs4.specs.internal.AceFrom.{ReadsFrom, place_from};
ghost use Rattle.acl_nfs4.specs.internal.Cursor.{place};

use crate::ace::AceRef;
use crate::xdr::cursor::Cursor;
use crate::xdr::fault::Fault;
use crate::xdr::reading::next_ace;
use crate::xdr::view::AclView;
use acl_perm::Profile;

/// An ACE of a list, and the offset of the byte after it.
#[derive(Clone, Copy, Debug)]
pub struct AceAt<'a> {
    pub ace: AceRef<'a>,
    pub end: usize,
}

/// Returns the ACE at an offset of the bytes that spell a list, with the offset of the next ACE, or `None` at the end
/// of the bytes. Offset 0 stands for the first ACE. There all of the bytes are judged, as `AclView::parse_whole_with`
/// does. At another offset only the ACE there is judged, so an offset that no call returned gives some ACE or a fault.
/// It takes no memory.
///
/// ```rust
/// let bytes = b"\0\0\0\x01\0\0\0\0\0\0\0\0\0\0\0\x01\0\0\0\x06OWNER@\0\0";
/// if let Some(first) = ace_at(bytes, 0, Profile::FULL)? {
///     assert!(rt; first.ace.who == b"OWNER@".as_slice() && first.end == 28);
///     assert!(rt; ace_at(bytes, first.end, Profile::FULL)?.is_none());
/// }
/// ```
pub fn ace_at(bytes: &[u8], offset: usize, profile: Profile) -> Result<Option<AceAt<'_>>, Fault>
    // At the offset of an ACE of the list that the bytes spell, that ACE is returned.
    ensures of_list { (front back : List Ace) (a : Ace)
        → Xdr (profile_of profile) (front ++ a ∷ back) bytes.now
        → ace_offset offset ≡ offset_after front
        → GivesAce a (offset_after (front ++ a ∷ [])) result }
    // After the last ACE of that list, `None` is returned.
    ensures end { (list : List Ace) → Xdr (profile_of profile) list bytes.now
        → ace_offset offset ≡ offset_after list → GivesNoAce result }
    ensures found { IfOk result (λ x. IfSome x (λ a.
        IsAceFrom (profile_of profile) bytes.now (ace_offset offset) a.end (ace a.ace))) }
    ensures none { IfOk result (λ x. IsNone x → ace_offset offset ≡ length bytes.now) }
    // At offset 0, all of the bytes spell a list.
    ensures whole { IfOk result (λ _. offset ≡ 0
        → (list : List Ace) × Xdr (profile_of profile) list bytes.now) }
    ensures fault { IfErr result (IsAceFault (profile_of profile) bytes.now offset) }
{
    if offset == 0 {
        return first_ace(bytes, profile);
    }
    ace_from(bytes, offset, profile)
}

// Judges all of the bytes, and returns the first ACE.
fn first_ace(bytes: &[u8], profile: Profile) -> Result<Option<AceAt<'_>>, Fault>
    ensures read { IfOk result (λ _. ReadsFrom (profile_of profile) bytes.now 4 result) }
    ensures whole { IfOk result (λ _. (list : List Ace)
        × Xdr (profile_of profile) list bytes.now) }
    ensures fault { IfErr result (HasWholeFault (profile_of profile) bytes.now) }
{
    AclView::parse_whole_with(bytes, profile)?;
    ace_from(bytes, 4, profile)
}

// Returns the ACE at an offset, or `None` at the end of the bytes.
fn ace_from(bytes: &[u8], offset: usize, profile: Profile) -> Result<Option<AceAt<'_>>, Fault>
    ensures { ReadsFrom (profile_of profile) bytes.now offset result }
{
    if offset == bytes.len() {
        return Ok(None);
    }
    let mut cursor = cursor_at(bytes, offset);
    let ace = next_ace(&mut cursor, 0, profile)?;
    Ok(Some(AceAt {
        ace,
        end: cursor.len - cursor.rest.len(),
    }))
}

// Returns the cursor at an offset. After the end of the bytes, nothing is left to read.
fn cursor_at(bytes: &[u8], offset: usize) -> Cursor<'_>
    ensures { place result ≡ place_from offset bytes.now }
{
    if offset > bytes.len() {
        return Cursor {
            len: offset,
            rest: &[],
        };
    }
    let (_, rest) = bytes.split_at(offset);
    Cursor {
        len: bytes.len(),
        rest,
    }
}
