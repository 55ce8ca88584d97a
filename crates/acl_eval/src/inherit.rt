//! What a new object inherits from the list of its directory.
ghost use Rattle.std.specs.Prelude.{◌≡◌, IfOk, IsTrue, map, option_map};
ghost use Rattle.acl_perm.specs.Bits.{has_bit, inherit_only};
ghost use Rattle.acl_perm.specs.Profile.{Profile};
ghost use Rattle.acl_nfs4.specs.Ace.{ace};
ghost use Rattle.acl_nfs4.specs.Spelling.{Fits};
ghost use Rattle.acl_eval.specs.Inheritance.{child_flags, children, flagged, inherited_children};
ghost use Rattle.acl_eval.specs.declared.inherit.ChildKind.TheVariants.{Directory, File};

use acl_nfs4::{AceRef, Acl, AclView, Flags};
use std::alloc::{AllocError, Global};

/// The kind of a new object. It decides which ACEs the object inherits.
#[derive(Clone, Copy, Debug, PartialEq, Eq)]
pub enum ChildKind {
    /// Anything but a directory.
    File,
    /// A directory.
    Directory,
}

/// Returns the list that a new object gets from `parent`, the list of the directory in which it is created (this
/// library's own, in the manner of RFC 8881, section 6.4). It has the ACEs of the parent that are inherited, in order
/// and unchanged except for the flags of inheritance. Time is linear in the bytes of the parent. Fails only if memory
/// runs out.
///
/// ```rust
/// let parent = parse_text(alloc, b"ALLOW FILE READ_DATA bob\nDENY - WRITE_DATA bob")?;
/// let list = child(alloc, &parent, ChildKind::File)?;
/// assert!(rt; list == parse_text(alloc, b"ALLOW - READ_DATA bob")?);
/// ```
pub fn child(alloc: Global, parent: &Acl, kind: ChildKind) -> Result<Acl, AllocError>
    ensures ok { IfOk result (λ list. list ≡ children kind parent.now) }
    // If the parent fits a profile with INHERIT_ONLY, the child fits it.
    ensures fits { IfOk result (λ list. (p : Profile) → IsTrue (has_bit p.flags inherit_only)
        → Fits p parent.now → Fits p list) }
{
    child_of_view(alloc, &parent.view(), kind)
}

/// Returns the list that `child` returns, for a parent whose list is still in its XDR bytes, without a copy of the
/// parent. Returns `AllocError` only if memory runs out.
pub fn child_of_view(
    alloc: Global,
    parent: &AclView<'_>,
    kind: ChildKind,
) -> Result<Acl, AllocError>
    ensures ok { IfOk result (λ list. list ≡ children kind parent.now) }
    ensures fits { IfOk result (λ list. (p : Profile) → IsTrue (has_bit p.flags inherit_only)
        → Fits p parent.now → Fits p list) }
{
    child_with(alloc, parent, kind, Flags::NONE)
}

/// Returns the list that `child_of_view` returns, with INHERITED set on each ACE, as a server does that offers
/// automatic inheritance (RFC 8881, section 6.4.3.2): a later change of the directory's list then replaces these ACEs.
/// Returns `AllocError` only if memory runs out.
///
/// ```rust
/// let parent = parse_text(alloc, b"ALLOW FILE READ_DATA bob\nDENY - WRITE_DATA bob")?;
/// let list = inherited_child(alloc, &parent.view(), ChildKind::File)?;
/// assert!(rt; list == parse_text(alloc, b"ALLOW INHERITED READ_DATA bob")?);
/// ```
pub fn inherited_child(
    alloc: Global,
    parent: &AclView<'_>,
    kind: ChildKind,
) -> Result<Acl, AllocError>
    ensures { IfOk result (λ list. list ≡ inherited_children kind parent.now) }
{
    child_with(alloc, parent, kind, Flags::INHERITED)
}

// Returns the list of a new object, with more flags on each ACE.
#[tactic(auto)]
fn child_with(
    alloc: Global,
    parent: &AclView<'_>,
    kind: ChildKind,
    more: Flags,
) -> Result<Acl, AllocError>
    ensures { IfOk result (λ list. list ≡ map (flagged more.bits) (children kind parent.now)) }
{
    let mut list = Acl::new(alloc);
    for ace in parent.aces() {
        if let Some(flags) = inherited(kind, ace.flags) {
            list.push_accepted(AceRef {
                flags: flags | more,
                ..ace
            })?;
        }
    }
    Ok(list)
}

// The flags that an ACE keeps if the child does not pass it on: those that are not about inheritance.
const KEPT_AT_THE_END: Flags = Flags {
    bits: Flags::SUCCESSFUL_ACCESS.bits | Flags::FAILED_ACCESS.bits | Flags::IDENTIFIER_GROUP.bits,
};

// The flags that an ACE keeps if the child passes it on: also those that say which objects get it.
const KEPT_ON_THE_WAY: Flags = Flags {
    bits: KEPT_AT_THE_END.bits
        | Flags::FILE_INHERIT.bits
        | Flags::DIRECTORY_INHERIT.bits
        | Flags::NO_PROPAGATE_INHERIT.bits,
};

// Returns the flags that an ACE has in the child, or `None` if the child does not get the ACE.
fn inherited(kind: ChildKind, flags: Flags) -> Option<Flags>
    ensures { option_map (λ f. f.bits) result ≡ child_flags kind flags.bits }
{
    match kind {
        ChildKind::File => inherited_by_a_file(flags),
        ChildKind::Directory => inherited_by_a_directory(flags),
    }
}

#[tactic(auto, using(crate::proofs::Bits::single_bits))]
fn inherited_by_a_file(flags: Flags) -> Option<Flags>
    ensures { option_map (λ f. f.bits) result ≡ child_flags File flags.bits }
{
    if flags.contains(Flags::FILE_INHERIT) {
        Some(flags & KEPT_AT_THE_END)
    } else {
        None
    }
}

// The directory does not pass on an ACE with NO_PROPAGATE_INHERIT. An ACE that is for files alone is passed on to the
// files in the directory, and takes no part on the directory.
#[tactic(auto, using(crate::proofs::Bits::single_bits))]
fn inherited_by_a_directory(flags: Flags) -> Option<Flags>
    ensures { option_map (λ f. f.bits) result ≡ child_flags Directory flags.bits }
{
    let ends = flags.contains(Flags::NO_PROPAGATE_INHERIT);
    if flags.contains(Flags::DIRECTORY_INHERIT) {
        let kept = if ends {
            KEPT_AT_THE_END
        } else {
            KEPT_ON_THE_WAY
        };
        Some(flags & kept)
    } else if ends {
        None
    } else if flags.contains(Flags::FILE_INHERIT) {
        Some((flags & KEPT_ON_THE_WAY) | Flags::INHERIT_ONLY)
    } else {
        None
    }
}
