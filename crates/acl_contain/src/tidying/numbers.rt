//! The numbers of the principals that the ACEs of a list name.
ghost use Rattle.std.specs.Prelude.{◌≡◌, ◌+◌, ◌*◌, ◌<◌, ◌^◌};
ghost use Rattle.acl_normal.specs.Common.{IfOk, aces_in};
ghost use Rattle.acl_contain.specs.internal.Joining.{HasNumbersOf, IsPlain, number_of};

use acl_nfs4::AceRef;
use acl_normal::internal::{Whom, mentioned};
use std::alloc::{AllocError, Global};

/// By place, the number of the principal that the ACE names. All numbers are below a count.
#[derive(Drop)]
pub(crate) struct Numbers {
    pub(crate) numbers: Vec<usize>,
    pub(crate) count: usize,
}

impl Numbers {
    pub(crate) fn of(alloc: Global, aces: &[AceRef<'_>]) -> Result<Numbers, AllocError>
        requires { IsPlain (aces_in aces.now) }
        ensures numbers { IfOk result (HasNumbersOf (aces_in aces.now)) }
        ensures small { IfOk result (λ numbered. 2 * numbered.count < 2 ^ 64) }
    {
        let mentions = mentioned(alloc, aces, &[])?;
        let others = mentions.principals.len();
        let mut numbers = Vec::with_capacity(alloc, aces.len())?;
        for whom in &mentions.whoms {
            numbers.push(number_of(*whom, others))?;
        }
        Ok(Numbers {
            numbers,
            count: others + 1,
        })
    }
}

// The number of whom an ACE names. That of everyone comes after the others.
fn number_of(whom: Whom, others: usize) -> usize
    ensures { result ≡ number_of others whom }
{
    match whom {
        Whom::One(number) => number,
        Whom::Nobody | Whom::Everyone => others,
    }
}
