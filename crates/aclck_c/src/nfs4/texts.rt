//! Calls that write a text or bytes made from the list that the bytes `acl` spell. Each returns 0 if its result is at
//! the front of `out`; 2 if the bytes are refused, with the reason in `fault`; 3 if an option has no meaning; 4 if
//! memory ran out; 5 if `out` is too short. At 0 and 5 `needed` is the number of bytes of the result.
ghost use Rattle.std.specs.Option.{is_some};
ghost use Rattle.std.specs.Prelude.{◌≡◌, ◌↔◌};
ghost use Rattle.acl_nfs4.specs.AceText.{ace_text};
ghost use Rattle.acl_nfs4.specs.BitNames.{first_name};
ghost use Rattle.acl_nfs4.specs.Programs.{MakesText};
ghost use Rattle.acl_nfs4.specs.Rights.{rights};
ghost use Rattle.acl_nfs4.specs.Spelling.{spelling};
ghost use Rattle.acl_normal.specs.FiveForms.{five_spellings};
ghost use Rattle.acl_normal.specs.NormalForm.{Normalizes};
ghost use Rattle.acl_normal.specs.Programs.{NormalizesAtPaths, Tabulates};
ghost use Rattle.aclck_c.specs.Holders.{NamesHolders};
ghost use Rattle.aclck_c.specs.Lists.{MakesChild, created_bytes};
ghost use Rattle.aclck_c.specs.Table.{IsGoodTable, IsRightOf, is_right_of};
ghost use Rattle.aclck_c.specs.Common.{IfErr, IfOk, IfSome, IsSome, profile_of, WritesOfList, profile_from, IsListFailure, IsCreationOption, IsProfileOption};

use crate::failure::Failure;
use crate::nfs4::reading::list_of;
use crate::nfs4::request::RawQuestion;
use crate::options::{ChildOptions, child_options_from, profile_from};
use crate::out::answer;
use crate::refusal::Refusal;
use crate::status::Status;
use acl_contain::holders;
use acl_eval::{child_of_view, inherited_child};
use acl_nfs4::{Acl, AclView, bit_name};
use acl_normal::{FiveForms, normalize_inherit, normalize_view, table_text};
use acl_perm::{Counted, Mask, Profile};
use std::alloc::{AllocError, Global};

/// Writes the bytes of the list that a new object gets in a directory with the list (RFC 8881, section 6.2.1.4.1). The
/// new object is a directory if `options` have DIRECTORY, and otherwise a file. If they have MARK_INHERITED, each ACE
/// has INHERITED (section 6.4.3.2). It also returns 3 if they have MARK_INHERITED and NARROW.
#[unsafe(no_mangle)]
pub extern "C" fn aclck_child(
    alloc: Global,
    acl: &[u8],
    options: u32,
    out: &mut [u8],
    needed: &mut usize,
    fault: &mut Refusal,
) -> u32
    ensures { WritesOfList (profile_from options) acl.now (IsCreationOption options)
        (MakesChild options acl.now)
        out.old out.new needed.old needed.new fault.old fault.new result }
{
    let Some(creation) = child_options_from(options) else {
        return Status::BadArgument.number();
    };
    answer(child_of(alloc, acl, creation), out, needed, fault)
}

fn child_of(alloc: Global, acl: &[u8], creation: ChildOptions) -> Result<Vec<u8>, Failure>
    ensures ok { IfOk result (λ text.
        MakesText (profile_of creation.profile)
        (created_bytes creation.kind creation.is_marked) acl.now text.items) }
    ensures err { IfErr result (IsListFailure (profile_of creation.profile) acl.now 0) }
{
    let parent = AclView::parse_whole_with(acl, creation.profile)?;
    let list = created(alloc, &parent, creation)?;
    Ok(list.to_bytes(alloc)?)
}

fn created(alloc: Global, parent: &AclView<'_>, creation: ChildOptions) -> Result<Acl, AllocError>
    ensures { IfOk result (λ list.
        spelling list ≡ created_bytes creation.kind creation.is_marked parent.now) }
{
    if creation.is_marked {
        inherited_child(alloc, parent, creation.kind)
    } else {
        child_of_view(alloc, parent, creation.kind)
    }
}

/// Writes the text of the list, one line per ACE.
#[unsafe(no_mangle)]
pub extern "C" fn aclck_show(
    alloc: Global,
    acl: &[u8],
    options: u32,
    out: &mut [u8],
    needed: &mut usize,
    fault: &mut Refusal,
) -> u32
    ensures { WritesOfList (profile_from options) acl.now (IsProfileOption options)
        (MakesText (profile_from options) ace_text acl.now)
        out.old out.new needed.old needed.new fault.old fault.new result }
{
    let Some(profile) = profile_from(options) else {
        return Status::BadArgument.number();
    };
    answer(shown(alloc, acl, profile), out, needed, fault)
}

fn shown(alloc: Global, acl: &[u8], profile: Profile) -> Result<Vec<u8>, Failure>
    ensures ok { IfOk result (λ text.
        MakesText (profile_of profile) ace_text acl.now text.items) }
    ensures err { IfErr result (IsListFailure (profile_of profile) acl.now 0) }
{
    let list = list_of(alloc, acl, profile)?;
    Ok(list.to_text(alloc)?)
}

/// Writes the bytes that spell the normal form of the list (this library's own, over RFC 8881, section 6.2.1).
#[unsafe(no_mangle)]
pub extern "C" fn aclck_normalize(
    alloc: Global,
    acl: &[u8],
    options: u32,
    out: &mut [u8],
    needed: &mut usize,
    fault: &mut Refusal,
) -> u32
    ensures { WritesOfList (profile_from options) acl.now (IsProfileOption options)
        (Normalizes (profile_from options) acl.now)
        out.old out.new needed.old needed.new fault.old fault.new result }
{
    let Some(profile) = profile_from(options) else {
        return Status::BadArgument.number();
    };
    answer(normal_form(alloc, acl, profile), out, needed, fault)
}

fn normal_form(alloc: Global, acl: &[u8], profile: Profile) -> Result<Vec<u8>, Failure>
    ensures ok { IfOk result (λ text. Normalizes (profile_of profile) acl.now text.items) }
    ensures err { IfErr result (IsListFailure (profile_of profile) acl.now 0) }
{
    let list = AclView::parse_whole_with(acl, profile)?;
    let form = normalize_view(alloc, &list)?;
    Ok(form.to_bytes(alloc)?)
}

/// Writes the bytes that spell the five normal forms of the list of a directory, one after the other: of the list
/// itself, of a new file, of a new directory, and of a new file and a new directory in that new directory (this
/// library's own, over RFC 8881, section 6.2.1).
#[unsafe(no_mangle)]
pub extern "C" fn aclck_normalize_inherit(
    alloc: Global,
    acl: &[u8],
    options: u32,
    out: &mut [u8],
    needed: &mut usize,
    fault: &mut Refusal,
) -> u32
    ensures { WritesOfList (profile_from options) acl.now (IsProfileOption options)
        (NormalizesAtPaths (profile_from options) acl.now)
        out.old out.new needed.old needed.new fault.old fault.new result }
{
    let Some(profile) = profile_from(options) else {
        return Status::BadArgument.number();
    };
    answer(five_forms(alloc, acl, profile), out, needed, fault)
}

fn five_forms(alloc: Global, acl: &[u8], profile: Profile) -> Result<Vec<u8>, Failure>
    ensures ok { IfOk result (λ text. NormalizesAtPaths (profile_of profile) acl.now text.items) }
    ensures err { IfErr result (IsListFailure (profile_of profile) acl.now 0) }
{
    let list = list_of(alloc, acl, profile)?;
    let forms = normalize_inherit(alloc, &list)?;
    Ok(spelled_forms(alloc, &forms)?)
}

// A write into memory fails only if memory runs out.
fn spelled_forms(alloc: Global, forms: &FiveForms) -> Result<Vec<u8>, AllocError>
    ensures { IfOk result (λ text. text.items ≡ five_spellings forms.now) }
{
    let mut text = Counted::new(Vec::new(alloc));
    match forms.encode(&mut text) {
        Ok(()) => Ok(text.into_inner()),
        Err(_) => Err(AllocError),
    }
}

/// Writes the rows of the one right that is asked: one line for each ACE of the normal form of the list that has the
/// right, with its place in the given list (this library's own, over RFC 8881, section 6.2.1). It also returns 3 if not
/// exactly one right of the profile is asked.
#[unsafe(no_mangle)]
pub extern "C" fn aclck_table(
    alloc: Global,
    acl: &[u8],
    question: &RawQuestion,
    out: &mut [u8],
    needed: &mut usize,
    fault: &mut Refusal,
) -> u32
    ensures { WritesOfList (profile_from question.now.options) acl.now (IsGoodTable question.now)
        (Tabulates (profile_from question.now.options) question.now.mask acl.now)
        out.old out.new needed.old needed.new fault.old fault.new result }
{
    let Some(profile) = profile_from(question.options) else {
        return Status::BadArgument.number();
    };
    let Some(bit) = right_of(question.mask, profile) else {
        return Status::BadArgument.number();
    };
    answer(tabulated(alloc, acl, bit, profile), out, needed, fault)
}

// Returns the mask, or `None` if it is not exactly one right of the profile.
fn right_of(right: u32, profile: Profile) -> Option<Mask>
    ensures known { IsSome result ↔ IsRightOf (profile_of profile) right }
    ensures value { IfSome result (λ mask. mask.bits ≡ right) }
{
    let mask = Mask::new(right)?;
    if is_right_of(profile, mask) {
        Some(mask)
    } else {
        None
    }
}

fn is_right_of(profile: Profile, mask: Mask) -> bool
    ensures { result ≡ is_right_of (profile_of profile) mask.bits }
{
    is_named(mask) && profile.masks.contains(mask)
}

// Returns whether the mask has exactly one right: only such a mask is in the table of names.
fn is_named(mask: Mask) -> bool
    ensures { result ≡ is_some (first_name rights mask.bits) }
{
    bit_name(mask).is_some()
}

fn tabulated(alloc: Global, acl: &[u8], bit: Mask, profile: Profile) -> Result<Vec<u8>, Failure>
    ensures ok { IfOk result (λ text. Tabulates (profile_of profile) bit.bits acl.now text.items) }
    ensures err { IfErr result (IsListFailure (profile_of profile) acl.now 0) }
{
    let list = list_of(alloc, acl, profile)?;
    Ok(table_text(alloc, &list, bit)?)
}

/// Writes in words who has the one right that is asked: one line for each row of the table of the right, from the last
/// row to the first (this library's own, over RFC 8881, section 6.2.1). Of the lines that are about a requester, the
/// last one decides. It also returns 3 if not exactly one right of the profile is asked.
#[unsafe(no_mangle)]
pub extern "C" fn aclck_holders(
    alloc: Global,
    acl: &[u8],
    question: &RawQuestion,
    out: &mut [u8],
    needed: &mut usize,
    fault: &mut Refusal,
) -> u32
    ensures { WritesOfList (profile_from question.now.options) acl.now (IsGoodTable question.now)
        (NamesHolders (profile_from question.now.options) question.now.mask acl.now)
        out.old out.new needed.old needed.new fault.old fault.new result }
{
    let Some(profile) = profile_from(question.options) else {
        return Status::BadArgument.number();
    };
    let Some(bit) = right_of(question.mask, profile) else {
        return Status::BadArgument.number();
    };
    answer(holders_in(alloc, acl, bit, profile), out, needed, fault)
}

fn holders_in(alloc: Global, acl: &[u8], bit: Mask, profile: Profile) -> Result<Vec<u8>, Failure>
    ensures ok { IfOk result
        (λ text. NamesHolders (profile_of profile) bit.bits acl.now text.items) }
    ensures err { IfErr result (IsListFailure (profile_of profile) acl.now 0) }
{
    let list = list_of(alloc, acl, profile)?;
    Ok(holders(alloc, &list, bit)?)
}
