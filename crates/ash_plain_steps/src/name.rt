//! Names of modules.

ghost use Rattle.std.specs.Prelude.{◌≡◌};
ghost use Rattle.std.specs.List.{list_all};
ghost use Rattle.ash_requests.specs.Tasks.{is_name_start, is_name_part, is_name, is_module_name};

/// The most bytes of a module's name.
const MAX_MODULE_NAME_BYTES: usize = 64;

/// A letter or `_`.
fn is_name_start(byte: u8) -> bool
    ensures value { result ≡ is_name_start byte }
{
    matches!(byte, b'A'..=b'Z' | b'a'..=b'z' | b'_')
}

/// A letter, a digit or `_`.
fn is_name_part(byte: u8) -> bool
    ensures value { result ≡ is_name_part byte }
{
    is_name_start(byte) || matches!(byte, b'0'..=b'9')
}

/// A letter or `_`, and then letters, digits and `_` (AngelScript manual, "Tokens").
fn is_name(name: &[u8]) -> bool
    ensures value { result ≡ is_name name.now }
{
    match name {
        [] => false,
        [first, rest @ ..] => is_name_start(*first) && all_name_parts(rest),
    }
}

fn all_name_parts(bytes: &[u8]) -> bool
    ensures value { result ≡ list_all is_name_part bytes.now }
{
    for byte in bytes {
        if !is_name_part(*byte) {
            return false;
        }
    }
    true
}

/// Whether a module may have this name: a name of at most 64 bytes.
pub(crate) fn is_module_name(name: &[u8]) -> bool
    ensures value { result ≡ is_module_name name.now }
{
    is_name(name) && name.len() <= MAX_MODULE_NAME_BYTES
}
