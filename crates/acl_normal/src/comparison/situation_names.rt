//! The names of the small situation of a set.
ghost use Rattle.std.specs.Prelude.{◌++◌, ◌∷◌, ◌≡◌};
ghost use Rattle.acl_normal.specs.Common.{[], IfOk, map, OnOk, principal, set_of};
ghost use Rattle.acl_normal.specs.SmallSituations.{group_names, small_situation};

use super::small_set::SmallSet;
use acl_perm::Principal;
use std::alloc::{AllocError, Global};

/// Returns the object's owner in the small situation of a set. A name that no list mentions has `n` bytes.
pub(crate) fn owner_in(alloc: Global, set: SmallSet<'_>, n: usize) -> Result<Vec<u8>, AllocError>
    ensures { IfOk result (λ v. v.items ≡ (small_situation n (set_of set.entry)).owner_name) }
{
    if set.has(Principal::Owner) {
        user_in(alloc, set, n)
    } else {
        vec![in alloc; b'o'; n]
    }
}

/// Returns the user in the small situation of a set. A name that no list mentions has `n` bytes.
pub(crate) fn user_in(alloc: Global, set: SmallSet<'_>, n: usize) -> Result<Vec<u8>, AllocError>
    ensures { IfOk result (λ v. v.items ≡ (small_situation n (set_of set.entry)).user_name) }
{
    match set.user() {
        Some(name) => Vec::from_slice(alloc, name),
        None => vec![in alloc; b'u'; n],
    }
}

/// Returns the object's owning group in the small situation of a set. A name that no list mentions has `n` bytes.
pub(crate) fn owning_group_in(
    alloc: Global,
    set: SmallSet<'_>,
    n: usize,
) -> Result<Vec<u8>, AllocError>
    ensures { IfOk result (λ v. v.items ≡ (small_situation n (set_of set.entry)).owning_group) }
{
    if set.has(Principal::Group) {
        let groups = groups_of(alloc, set)?;
        if let Some(name) = groups.first() {
            return Vec::from_slice(alloc, name);
        }
    }
    vec![in alloc; b'g'; n]
}

/// Returns the groups of the user in the small situation of a set. A name that no list mentions has `n` bytes.
pub(crate) fn groups_in(
    alloc: Global,
    set: SmallSet<'_>,
    n: usize,
) -> Result<Vec<Vec<u8>>, AllocError>
    ensures { IfOk result (λ v. map (λ g. g.items) v.items
        ≡ (small_situation n (set_of set.entry)).groups) }
{
    let mut groups = groups_of(alloc, set)?;
    if set.has(Principal::Group) && groups.is_empty() {
        groups.push(vec![in alloc; b'g'; n]?)?;
    }
    Ok(groups)
}

// Returns the names of the groups in the set, except the owning group, which has no name there.
fn groups_of(alloc: Global, set: SmallSet<'_>) -> Result<Vec<Vec<u8>>, AllocError>
    ensures { IfOk result (λ v. map (λ g. g.items) v.items ≡ group_names (set_of set.entry)) }
{
    let mut groups = Vec::new(alloc);
    match set {
        SmallSet::Empty => {}
        SmallSet::One(p) => add_group(alloc, &mut groups, p)?,
        SmallSet::Two(p, q) => {
            add_group(alloc, &mut groups, p)?;
            add_group(alloc, &mut groups, q)?;
        }
    }
    Ok(groups)
}

// Adds the name of the principal if it is a group with a name.
fn add_group(alloc: Global, groups: &mut Vec<Vec<u8>>, p: Principal<'_>) -> Result<(), AllocError>
    ensures { OnOk result (map (λ g. g.items) groups.new.items
        ≡ map (λ g. g.items) groups.old.items ++ group_names (principal p.entry ∷ [])) }
{
    if let Principal::GroupNamed(name) = p {
        groups.push(Vec::from_slice(alloc, name)?)?;
    }
    Ok(())
}
