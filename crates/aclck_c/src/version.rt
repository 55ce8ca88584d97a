//! The version of the library.
ghost use Rattle.std.specs.Prelude.{◌≡◌};
ghost use Rattle.aclck_c.specs.Version.{version_number};

/// Returns the version of the library, `ACLCK_VERSION` of `aclck.h`: major * 65536 + minor * 256 + patch.
#[unsafe(no_mangle)]
pub extern "C" fn aclck_version() -> u32
    ensures { result ≡ version_number 1 0 0 }
{
    0x0001_0000
}
