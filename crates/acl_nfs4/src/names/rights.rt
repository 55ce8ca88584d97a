//! The names of the access rights in texts.
ghost use Rattle.std.specs.Prelude.{◌≡◌, ℕ, IfSome, IsSomeAnd, option_map};
ghost use Rattle.acl_nfs4.specs.BitNames.{first_name};
ghost use Rattle.acl_nfs4.specs.Rights.{SpellsMask, mask_named, rights};

use crate::names::bit_names::set_in;
use acl_perm::Mask;
use acl_perm::internal::{RIGHTS, first_name};

/// Returns the mask that a field of the text form names, or `None` if the field names no mask: the empty mask for `-`,
/// or the union of rights with `|` between their names, each the first or the second name of a right (RFC 8881, section
/// 6.2.1.3.1). It takes no memory.
///
/// ```rust
/// let mask = read_mask(b"READ_DATA|EXECUTE").ok_or("no such right")?;
/// assert!(rt; mask.bits() == 0x21);
/// ```
pub fn read_mask(field: &[u8]) -> Option<Mask>
    ensures named { IfSome result (λ mask. SpellsMask field.now mask.bits) }
    // A mask that the field spells is returned.
    ensures only { (mask : ℕ) → SpellsMask field.now mask → IsSomeAnd result (λ m. m.bits ≡ mask) }
    // The definition that computes has the same result.
    ensures value { option_map (λ mask. mask.bits) result ≡ mask_named field.now }
{
    Mask::new(set_in(&RIGHTS, field)?)
}

/// Returns the first name of the right of a mask with one bit (RFC 8881, section 6.2.1.3.1), or `None` for every other
/// mask. It takes no memory.
pub fn bit_name(right: Mask) -> Option<&'static str>
    ensures value { option_map (λ name. name.now) result ≡ first_name rights right.bits }
    ensures named { IfSome result (λ name. SpellsMask name.now right.bits) }
{
    first_name(&RIGHTS, right.bits())
}
