//! The questions that show all that a list grants.
ghost use Rattle.std.specs.Prelude.{◌++◌, ◌+◌, ◌<◌, ◌^◌, ◌≡◌, ◌≤◌, ◌∷◌, All, IfErr};
ghost use Rattle.acl_normal.specs.Common.{[], IfOk, OnFalse, OnOk, OnTrue, length, map, option_map, principal, principals};
ghost use Rattle.acl_perm.specs.Situation.{IsSituation};
ghost use Rattle.acl_normal.specs.SmallSets.{partners, small_sets};
ghost use Rattle.acl_normal.specs.SmallSituations.{first_user, group_names, is_among, longest, small_situation};
ghost use Rattle.acl_contain.specs.Questions.{asked_in, HasAtMost, IsQuestionsFault, questions_of};

use acl_nfs4::Acl;
use acl_normal::internal::{collect, mentioned};
use acl_perm::{Principal, overlaps};
use std::alloc::{AllocError, Global};
use thiserror::Error;

/// An object and a requester, of whom each right is asked. The names `o..`, `g..` and `u..` that are longer than each
/// name of the list stand for an owner, a group and a user whom the list does not name.
#[derive(Debug, Drop)]
pub struct Question {
    /// The object's owner.
    pub owner: Vec<u8>,
    /// The object's owning group.
    pub group: Vec<u8>,
    /// The user who requests.
    pub user: Vec<u8>,
    /// The groups of that user.
    pub groups: Vec<Vec<u8>>,
}

/// Why the questions of a list are not returned: there are too many, or memory ran out.
#[derive(Clone, Copy, Debug, PartialEq, Eq, Error)]
pub enum QuestionsFault {
    /// The list has more questions than the caller takes.
    #[error("TooMany")]
    TooMany,
    /// Memory ran out.
    #[error("out of memory")]
    Memory,
}

impl From<AllocError> for QuestionsFault {
    ghost use Rattle.std.specs.Prelude.{◌≡◌};
    ghost use Rattle.acl_contain.specs.declared.asking.QuestionsFault.TheVariants.{Memory};

    ghost from_gives = { λ fault own. own ≡ Memory };

    fn from(_fault: AllocError) -> QuestionsFault {
        QuestionsFault::Memory
    }
}

/// Returns the questions of a list, if there are at most `most`: one in which none of the principals that the list
/// mentions matches, one for each of them, and one for each two of them that one requester can match, in the order of
/// its small situations (this library's own, over RFC 8881, section 6.2.1). Another list that mentions no other
/// principals, and grants the same rights in each question, grants the same to everybody
/// ([`crate::laws::questions_suffice`]). A list that mentions `n` principals has at most `1 + n + n(n-1)/2` questions.
/// Fails with `TooMany` if there are more than `most`, before memory for a question is requested, and with `Memory` if
/// memory runs out. It takes time that grows with the square of `n`.
///
/// ```rust
/// let list = parse_text(alloc, b"ALLOW - READ_DATA amy\nALLOW GROUP READ_DATA staff\n")?;
/// let asked = questions(alloc, &list, 100)?;
/// assert!(rt; asked.len() == 4 && asked[1].user.as_slice() == b"amy".as_slice());
/// ```
pub fn questions(alloc: Global, list: &Acl, most: usize) -> Result<Vec<Question>, QuestionsFault>
    // All of them, in their order, and at most as many as are taken.
    ensures questions { IfOk result (λ asked. map asked_in asked.items ≡ questions_of list.now) }
    ensures bound { OnOk result (HasAtMost most list.now) }
    // Their names are names of an object and a requester.
    ensures requester { IfOk result (λ asked. All (λ q. IsSituation (asked_in q)) asked.items) }
    // TooMany is returned only if there are more.
    ensures fault { IfErr result (IsQuestionsFault most list.now) }
{
    let aces = collect(alloc, &list.view())?;
    let mentions = mentioned(alloc, &aces, &[])?;
    if has_more_sets(&mentions.principals, most) {
        return Err(QuestionsFault::TooMany);
    }
    Ok(questions_about(alloc, &mentions.principals)?)
}

// Returns whether the principals have more small sets than are taken.
fn has_more_sets(whole: &[Principal<'_>], most: usize) -> bool
    ensures more { OnTrue result (most < length (small_sets (principals whole.now))) }
    ensures within { OnFalse result (length (small_sets (principals whole.now)) ≤ most) }
{
    if most <= whole.len() {
        return true;
    }
    let mut left = most - whole.len() - 1;
    for (i, p) in whole.iter().enumerate() {
        let (_, rest) = whole.split_at(i + 1);
        let pairs = count_partners(*p, rest);
        if left < pairs {
            return true;
        }
        left -= pairs;
    }
    false
}

// How many of the others one requester can match with a principal.
fn count_partners(p: Principal<'_>, others: &[Principal<'_>]) -> usize
    ensures { result ≡ length (partners (principal p.entry) (principals others.now)) }
{
    let mut count = 0;
    for q in others {
        count += count_pair(p, *q);
    }
    count
}

// One if one requester can match both principals, and else none.
fn count_pair(p: Principal<'_>, other: Principal<'_>) -> usize
    ensures value { result ≡ length (partners (principal p.entry) (principal other.entry ∷ [])) }
    ensures few { result ≤ 1 }
{
    if overlaps(p, other) { 1 } else { 0 }
}

// The questions of some principals.
fn questions_about(alloc: Global, whole: &[Principal<'_>]) -> Result<Vec<Question>, AllocError>
    ensures { IfOk result (λ asked. map asked_in asked.items
        ≡ map (small_situation (longest (principals whole.now) + 1))
        (small_sets (principals whole.now))) }
{
    let strange = longest(whole) + 1;
    let mut asked = Vec::new(alloc);
    add_question(alloc, &mut asked, &[], strange)?;
    for p in whole {
        add_question(alloc, &mut asked, &[*p], strange)?;
    }
    for (i, p) in whole.iter().enumerate() {
        let (_, rest) = whole.split_at(i + 1);
        add_pairs(alloc, &mut asked, *p, rest, strange)?;
    }
    Ok(asked)
}

// Adds the questions of a principal and each of the others that one requester can match with it.
fn add_pairs(
    alloc: Global,
    asked: &mut Vec<Question>,
    p: Principal<'_>,
    others: &[Principal<'_>],
    strange: usize,
) -> Result<(), AllocError>
    ensures { OnOk result (map asked_in asked.new.items ≡ map asked_in asked.old.items
        ++ map (small_situation strange) (partners (principal p.entry) (principals others.now))) }
{
    for q in others {
        add_pair(alloc, asked, p, *q, strange)?;
    }
    Ok(())
}

// Adds the question of two principals if one requester can match both.
fn add_pair(
    alloc: Global,
    asked: &mut Vec<Question>,
    p: Principal<'_>,
    q: Principal<'_>,
    strange: usize,
) -> Result<(), AllocError>
    ensures { OnOk result (map asked_in asked.new.items ≡ map asked_in asked.old.items
        ++ map (small_situation strange) (partners (principal p.entry) (principal q.entry ∷ []))) }
{
    if overlaps(p, q) {
        add_question(alloc, asked, &[p, q], strange)?;
    }
    Ok(())
}

// Adds the question in which, of the principals with names shorter than the strange ones, just those of a set match.
fn add_question(
    alloc: Global,
    asked: &mut Vec<Question>,
    set: &[Principal<'_>],
    strange: usize,
) -> Result<(), AllocError>
    ensures { OnOk result (map asked_in asked.new.items ≡ map asked_in asked.old.items
        ++ small_situation strange (principals set.now) ∷ []) }
{
    let owner = owner_in(alloc, set, strange)?;
    let group = owning_group_in(alloc, set, strange)?;
    let user = user_in(alloc, set, strange)?;
    let groups = groups_in(alloc, set, strange)?;
    asked.push(Question {
        owner,
        group,
        user,
        groups,
    })?;
    Ok(())
}

// The user, if the owner is in the set, or a strange owner.
fn owner_in(alloc: Global, set: &[Principal<'_>], strange: usize) -> Result<Vec<u8>, AllocError>
    ensures { IfOk result (λ v. v.items
        ≡ (small_situation strange (principals set.now)).owner_name) }
{
    if has(set, Principal::Owner) {
        user_in(alloc, set, strange)
    } else {
        vec![in alloc; b'o'; strange]
    }
}

// The first user of a set, or a strange one.
fn user_in(alloc: Global, set: &[Principal<'_>], strange: usize) -> Result<Vec<u8>, AllocError>
    ensures { IfOk result (λ v. v.items
        ≡ (small_situation strange (principals set.now)).user_name) }
{
    for p in set {
        if let Some(name) = user_name(*p) {
            return Vec::from_slice(alloc, name);
        }
    }
    vec![in alloc; b'u'; strange]
}

// The name of a user.
fn user_name<'a>(p: Principal<'a>) -> Option<&'a [u8]>
    ensures { option_map (λ name. name.now) result ≡ first_user (principal p.entry ∷ []) }
{
    match p {
        Principal::User(name) => Some(name),
        _ => None,
    }
}

// The first group of a set, if the owning group is in the set, or a strange group.
fn owning_group_in(
    alloc: Global,
    set: &[Principal<'_>],
    strange: usize,
) -> Result<Vec<u8>, AllocError>
    ensures { IfOk result (λ v. v.items
        ≡ (small_situation strange (principals set.now)).owning_group) }
{
    if has(set, Principal::Group) {
        let names = names_in(alloc, set)?;
        if let Some(name) = names.first() {
            return Vec::from_slice(alloc, name);
        }
    }
    vec![in alloc; b'g'; strange]
}

// The groups of a set, or a strange one if only the owning group is in the set.
fn groups_in(
    alloc: Global,
    set: &[Principal<'_>],
    strange: usize,
) -> Result<Vec<Vec<u8>>, AllocError>
    ensures { IfOk result (λ v. map (λ g. g.items) v.items
        ≡ (small_situation strange (principals set.now)).groups) }
{
    let mut groups = names_in(alloc, set)?;
    if has(set, Principal::Group) && groups.is_empty() {
        groups.push(vec![in alloc; b'g'; strange]?)?;
    }
    Ok(groups)
}

// Returns whether the principal is in a set.
fn has(set: &[Principal<'_>], p: Principal<'_>) -> bool
    ensures { result ≡ is_among (principal p.entry) (principals set.now) }
{
    set.contains(&p)
}

// The names of the groups of a set.
fn names_in(alloc: Global, set: &[Principal<'_>]) -> Result<Vec<Vec<u8>>, AllocError>
    ensures { IfOk result (λ v. map (λ g. g.items) v.items ≡ group_names (principals set.now)) }
{
    let mut names = Vec::new(alloc);
    for p in set {
        add_name(alloc, &mut names, *p)?;
    }
    Ok(names)
}

// Adds the name of the principal if it is a group with a name.
fn add_name(alloc: Global, names: &mut Vec<Vec<u8>>, p: Principal<'_>) -> Result<(), AllocError>
    ensures { OnOk result (map (λ g. g.items) names.new.items
        ≡ map (λ g. g.items) names.old.items ++ group_names (principal p.entry ∷ [])) }
{
    if let Principal::GroupNamed(name) = p {
        names.push(Vec::from_slice(alloc, name)?)?;
    }
    Ok(())
}

// The number of bytes of the longest name, or 0 if there is no name.
fn longest(whole: &[Principal<'_>]) -> usize
    ensures value { result ≡ longest (principals whole.now) }
    ensures small { result < 2 ^ 63 }
{
    let mut most = 0;
    for p in whole {
        most = p.name().len().max(most);
    }
    most
}
