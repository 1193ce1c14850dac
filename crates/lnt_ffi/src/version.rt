//! The version of the calls.
ghost use Rattle.std.specs.Prelude.{◌≡◌};

/// The version of the calls and of their structs: a million for each major version, a thousand for each minor one, and the patch.
/// `LINETAB_VERSION` in the header is that of the header.
#[unsafe(no_mangle)]
pub extern "C" fn linetab_version() -> u32
    ensures { result ≡ 10000 }
{
    10000
}
