//! Names of modules, and their order.

ghost use Rattle.std.specs.Prelude.{◌≡◌};
ghost use Rattle.std.specs.List.{list_all};
ghost use Rattle.ash_image.specs.Image.{are_ascending, names_of};
ghost use Rattle.ash_image.specs.Image.{is_name_start, is_name_part, is_name, is_module_name};
ghost use Rattle.ash_image.specs.SnapshotViews.{modules_of};

use crate::limits::MAX_MODULE_NAME_BYTES;
use crate::stored::StoredModule;

/// A letter or `_`.
fn is_name_start(byte: u8) -> bool
    ensures value { result ≡ is_name_start byte }
{
    matches!(byte, b'A'..=b'Z' | b'a'..=b'z' | b'_')
}

/// A letter, a digit or `_`.
fn is_name_part(byte: u8) -> bool
    ensures value { result ≡ is_name_part byte }
{
    is_name_start(byte) || matches!(byte, b'0'..=b'9')
}

/// A letter or `_`, and then letters, digits and `_` (AngelScript manual, "Tokens").
fn is_name(name: &[u8]) -> bool
    ensures value { result ≡ is_name name.now }
{
    match name {
        [] => false,
        [first, rest @ ..] => is_name_start(*first) && all_name_parts(rest),
    }
}

fn all_name_parts(bytes: &[u8]) -> bool
    ensures value { result ≡ list_all is_name_part bytes.now }
{
    for byte in bytes {
        if !is_name_part(*byte) {
            return false;
        }
    }
    true
}

/// A module's name is a name of at most 64 bytes.
pub fn is_module_name(name: &[u8]) -> bool
    ensures exact { result ≡ is_module_name name.now }
{
    is_name(name) && name.len() <= MAX_MODULE_NAME_BYTES
}

/// Whether each module's name comes before the next one's, byte by byte.
pub fn are_ascending(modules: &[StoredModule]) -> bool
    ensures exact { result ≡ are_ascending (names_of (modules_of modules.now)) }
{
    let Some((mut last, rest)) = modules.split_first() else {
        return true;
    };
    for module in rest {
        if last.name >= module.name {
            return false;
        }
        last = module;
    }
    true
}
