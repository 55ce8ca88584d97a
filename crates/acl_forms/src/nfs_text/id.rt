//! Ids in a text.
ghost use Rattle.std.specs.Prelude.{◌≡◌, option_map};
ghost use Rattle.acl_forms.specs.NfsText.{id_alone, is_odd_number, is_other_number};

use crate::acl41_ids_writer::id_in_digits;
use acl_posix::Id;
use acl_posix::internal::{is_number, read_id};

/// Returns the id that digits alone spell, if it is one.
pub(crate) fn id_alone(bytes: &[u8]) -> Option<Id>
    ensures { option_map (λ id. id.value) result ≡ id_alone bytes.now }
{
    if is_number(bytes) {
        read_id(bytes)
    } else {
        None
    }
}

/// Returns whether a name is digits alone, but not the decimal digits of an id. Readers of the form differ in whom it
/// means: libarchive reads `007` as the id 7.
pub(crate) fn is_odd_number(name: &[u8]) -> bool
    ensures { result ≡ is_odd_number name.now }
{
    is_number(name) && id_in_digits(name).is_none()
}

/// Returns whether a name is digits alone and spells another number than this id.
pub(crate) fn is_other_number(name: &[u8], id: Id) -> bool
    ensures { result ≡ is_other_number name.now id.value }
{
    is_number(name) && read_id(name) != Some(id)
}
