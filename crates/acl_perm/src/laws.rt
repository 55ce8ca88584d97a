//! Laws of the orders.
ghost use Rattle.acl_perm.specs.Order.{IsStrictTotalOrder, key_cmp, principal_cmp};

/// The order of principals is strict and total, and two principals are equal in it if and only if they are the same.
#[tactic(auto, using(crate::proofs::Orders::principal_order))]
pub fn order_of_principals()
    ensures { IsStrictTotalOrder principal_cmp }
{}

/// The order of keys is strict and total, and two keys are equal in it if and only if they are the same.
#[tactic(auto, using(crate::proofs::Orders::key_order))]
pub fn order_of_keys()
    ensures { IsStrictTotalOrder key_cmp }
{}
