//! Private functions that return the constants, so that their clauses can give the values. The constants of the rights
//! with their first names are rows of the table of `right_names`.
ghost use Rattle.std.specs.Prelude.{◌≡◌, [], ◌∷◌, map};
ghost use Rattle.acl_perm.specs.Bits.{all_flags, all_mode_bits, all_permissions, all_rights};
ghost use Rattle.acl_perm.specs.Numbers.{flags_in_order, mask_bits, flag_bits, numbers_of, perm_bits, permissions_in_order, rights_of_directories};
ghost use Rattle.acl_perm.specs.Profile.{full, narrow, profile_of};

use crate::flags::Flags;
use crate::mask::Mask;
use crate::mode::Mode;
use crate::perm::Perm;
use crate::profile::Profile;

fn empty_sets() -> (Perm, Mode, Mask, Flags)
    ensures { numbers_of result ≡ 0 ∷ 0 ∷ 0 ∷ 0 ∷ [] }
{
    (Perm::NONE, Mode::NONE, Mask::NONE, Flags::NONE)
}

fn full_sets() -> (Perm, Mode, Mask, Flags)
    ensures { numbers_of result
        ≡ all_permissions ∷ all_mode_bits ∷ all_rights ∷ all_flags ∷ [] }
{
    (Perm::ALL, Mode::ALL, Mask::ALL, Flags::ALL)
}

fn profiles() -> [Profile; 2]
    ensures { map profile_of result ≡ full ∷ narrow ∷ [] }
{
    [Profile::FULL, Profile::NARROW]
}

fn permissions() -> [Perm; 3]
    ensures { map perm_bits result ≡ permissions_in_order }
{
    [Perm::READ, Perm::WRITE, Perm::EXECUTE]
}

fn rights_of_directories() -> [Mask; 3]
    ensures { map mask_bits result ≡ rights_of_directories }
{
    [Mask::LIST_DIRECTORY, Mask::ADD_FILE, Mask::ADD_SUBDIRECTORY]
}

fn flags() -> [Flags; 8]
    ensures { map flag_bits result ≡ flags_in_order }
{
    [
        Flags::FILE_INHERIT,
        Flags::DIRECTORY_INHERIT,
        Flags::NO_PROPAGATE_INHERIT,
        Flags::INHERIT_ONLY,
        Flags::SUCCESSFUL_ACCESS,
        Flags::FAILED_ACCESS,
        Flags::IDENTIFIER_GROUP,
        Flags::INHERITED,
    ]
}
