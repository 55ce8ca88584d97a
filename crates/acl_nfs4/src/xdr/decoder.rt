//! Reads a list from a source and takes no byte after the list.
ghost use Rattle.std.specs.Prelude.{◌≡◌, ◌≤◌, ◌⊎◌, ◌++◌, ℕ, List, Some, IfErr, IfOk, OnOk, length};
ghost use Rattle.std.specs.Io.KnownBytes.{Consumes, IsAtEnd};
ghost use Rattle.acl_perm.specs.Devices.{one_more};
ghost use Rattle.acl_perm.specs.Profile.{full, profile_of};
ghost use Rattle.acl_nfs4.specs.Ace.{Ace};
ghost use Rattle.acl_nfs4.specs.Spelling.{IsAccepted, Xdr, spelling, word_size};
ghost use Rattle.acl_nfs4.specs.Fault.{IsFault};
ghost use Rattle.acl_nfs4.specs.Limits.{most_aces};
ghost use Rattle.acl_nfs4.specs.internal.Pulling.{DrawsCount};
ghost use Rattle.acl_nfs4.specs.declared.xdr.fault.Reason.{Reason};
ghost use Rattle.acl_nfs4.specs.declared.xdr.fault.Reason.TheVariants.{Read};
ghost use Rattle.acl_nfs4.specs.Stream.{Decodes, FaultsOrFails, IsOrFails};

use crate::list::acl::Acl;
use crate::xdr::fault::Fault;
use crate::xdr::judges;
use crate::xdr::pulling::{LONGEST_ACE, NextAce, pull_ace, word};
use crate::xdr::reading::placed;
use acl_perm::{Profile, Source};
use std::alloc::Global;

/// Reads the list at the front of a source (RFC 8881, section 6.2.1, in the layout of RFC 4506), and no byte after it.
/// A pull asks for no more bytes than the field that is being read lacks. No memory is requested for a count or a
/// length before the bytes have arrived. It ends at the first pull that fails, with the place of the field that was
/// being read, and tries nothing again. After a refusal, the bytes to the end of the refused field have been taken.
///
/// ```rust
/// let mut source = Counted::new(b"\0\0\0\0 and more".as_slice());
/// let list = decode(alloc, &mut source)?;
/// assert!(rt; list.is_empty());
/// ```
pub fn decode<S: Source>(alloc: Global, source: &mut S) -> Result<Acl, Fault>
    // The bytes that were taken are the value, or what the fault says.
    ensures given { (given : List ℕ)
        × Consumes (S.remaining source.old) (S.remaining source.new) given
        × Decodes full given (IsAtEnd (S.remaining source.new)) result }
    // A list at the front is found.
    ensures only { (list : List Ace) (text rest : List ℕ) → Xdr full list text
        → S.remaining source.old ≡ Some (text ++ rest) → IsOrFails result list }
    // An encoded list is read again, whatever follows it.
    ensures again { (list : List Ace) (rest : List ℕ) → IsAccepted full list
        → S.remaining source.old ≡ Some (spelling list ++ rest) → IsOrFails result list }
    // An input with a fault is refused with that fault.
    ensures refused { (input : List ℕ) (o : ℕ) (r : Reason) → S.remaining source.old ≡ Some input
        → IsFault full input o r → FaultsOrFails result (record { offset = o; reason = r }) }
    ensures none_failed { OnOk result (S.failure_count source.new ≡ S.failure_count source.old) }
    // Read is returned if and only if a pull failed.
    ensures read { IfErr result (λ f. f.reason ≡ Read
        → S.failure_count source.new ≡ one_more (S.failure_count source.old)) }
    ensures unread { IfErr result (λ f. (f.reason ≡ Read)
        ⊎ (S.failure_count source.new ≡ S.failure_count source.old)) }
{
    decode_with(alloc, source, Profile::FULL)
}

/// Reads the list at the front of a source, as `decode` does, if the profile has its flags and masks. A bit of another
/// flag or right is FlagBits or MaskBits.
pub fn decode_with<S: Source>(alloc: Global, source: &mut S, profile: Profile) -> Result<Acl, Fault>
    ensures given { (given : List ℕ)
        × Consumes (S.remaining source.old) (S.remaining source.new) given
        × Decodes (profile_of profile) given (IsAtEnd (S.remaining source.new)) result }
    ensures only { (list : List Ace) (text rest : List ℕ) → Xdr (profile_of profile) list text
        → S.remaining source.old ≡ Some (text ++ rest) → IsOrFails result list }
    ensures again { (list : List Ace) (rest : List ℕ) → IsAccepted (profile_of profile) list
        → S.remaining source.old ≡ Some (spelling list ++ rest) → IsOrFails result list }
    ensures refused { (input : List ℕ) (o : ℕ) (r : Reason) → S.remaining source.old ≡ Some input
        → IsFault (profile_of profile) input o r
        → FaultsOrFails result (record { offset = o; reason = r }) }
    ensures none_failed { OnOk result (S.failure_count source.new ≡ S.failure_count source.old) }
    ensures read { IfErr result (λ f. f.reason ≡ Read
        → S.failure_count source.new ≡ one_more (S.failure_count source.old)) }
    ensures unread { IfErr result (λ f. (f.reason ≡ Read)
        ⊎ (S.failure_count source.new ≡ S.failure_count source.old)) }
{
    read_value(alloc, source, profile)
}

fn read_value<S: Source>(alloc: Global, source: &mut S, profile: Profile) -> Result<Acl, Fault>
    ensures given { (given : List ℕ)
        × Consumes (S.remaining source.old) (S.remaining source.new) given
        × Decodes (profile_of profile) given (IsAtEnd (S.remaining source.new)) result }
    ensures none_failed { OnOk result (S.failure_count source.new ≡ S.failure_count source.old) }
    ensures read { IfErr result (λ f. f.reason ≡ Read
        → S.failure_count source.new ≡ one_more (S.failure_count source.old)) }
    ensures unread { IfErr result (λ f. (f.reason ≡ Read)
        ⊎ (S.failure_count source.new ≡ S.failure_count source.old)) }
{
    let mut room = [0u8; LONGEST_ACE];
    let count = pull_count(source, &mut room)?;
    let mut body = Vec::new(alloc);
    let mut weight = 0;
    for _ in 0..count {
        let next = NextAce {
            offset: 4 + body.len(),
            weight,
            profile,
        };
        let ace = pull_ace(source, &mut room, next)?;
        body.extend_from_slice(&room[..ace.len])?;
        weight += ace.weight;
    }
    Ok(Acl {
        count,
        weight,
        body,
    })
}

// Reads the number of ACEs. A number that is too great is refused here, before anything is read after it.
fn pull_count<S: Source>(source: &mut S, room: &mut [u8]) -> Result<u32, Fault>
    requires { word_size ≤ length room.old }
    ensures drawn { (piece : List ℕ)
        × Consumes (S.remaining source.old) (S.remaining source.new) piece
        × DrawsCount piece (S.remaining source.new) (S.failure_count source.old)
        (S.failure_count source.new) result }
    ensures small { IfOk result (λ n. n ≤ most_aces) }
    ensures none_failed { OnOk result (S.failure_count source.new ≡ S.failure_count source.old) }
    ensures read { IfErr result (λ f. f.reason ≡ Read
        → S.failure_count source.new ≡ one_more (S.failure_count source.old)) }
    ensures unread { IfErr result (λ f. (f.reason ≡ Read)
        ⊎ (S.failure_count source.new ≡ S.failure_count source.old)) }
{
    let number = word(source, room, 0, 0)?;
    placed(0, judges::count_of(number))
}
