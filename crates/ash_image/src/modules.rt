//! Modules in an image.
//!
//!     modules        u8     how many, 16 at most, by ascending name, and each:
//!         name       u8     its length, and the bytes
//!         source     u32    its length, 65,536 at most, and the bytes
//!         globals    u16    how many, 256 at most, and each a word
//!
//! Names ascend byte by byte, so no two modules have one name.

ghost use Rattle.std.specs.Prelude.{◌≡◌, ◌++◌, string_bytes, Some, None};
ghost use Rattle.std.specs.Prelude.{if◌then◌else◌, OnOk, IsOkUnless, IsTrue};
ghost use Rattle.std.specs.List.{flat_map, AllByRecursion};
ghost use Rattle.ash_image.specs.Fields.{ReturnsField, times_at, items, text};
ghost use Rattle.ash_image.specs.Image.{is_module_name, loaded_module};
ghost use Rattle.ash_image.specs.Image.{FitsModule, FitModules};
ghost use Rattle.ash_image.specs.ImageReading.{name_at, source_at, module_at, modules_at};
ghost use Rattle.ash_image.specs.SnapshotViews.{module_of, modules_of, module_in, modules_in};
ghost use Rattle.ash_image.specs.declared.fields.ReadError.TheVariants.{Damaged};

use crate::fields::{ReadError, prefix, u8_at, u16_at, u32_at, write_u8, write_u16, write_u32};
use crate::limits::{MAX_GLOBALS, MAX_MODULES, MAX_SOURCE_BYTES};
use crate::names::{are_ascending, is_module_name};
use crate::parts::ModuleParts;
use crate::stored::StoredModule;
use crate::words::{words_of, write_words};
use std::alloc::{AllocError, Global};

/// The bytes as a module's name.
fn as_name(alloc: Global, bytes: &[u8]) -> Result<String, ReadError>
    ensures field { ReturnsField (λ name. string_bytes name) result
        (if is_module_name bytes.now then Some bytes.now else None) }
{
    if !is_module_name(bytes) {
        return Err(ReadError::Damaged);
    }
    let Ok(name) = str::from_utf8(bytes) else {
        return Err(ReadError::Damaged);
    };
    Ok(String::from_str(alloc, name)?)
}

#[tactic(auto, unfolding(crate::specs::ImageReading::name_at))]
pub fn name_of(alloc: Global, bytes: &[u8]) -> Result<(String, &[u8]), ReadError>
    ensures field { ReturnsField (λ x. (string_bytes x.0, x.1.now)) result (name_at bytes.now) }
{
    let (length, rest) = u8_at(bytes)?;
    let (name, rest) = prefix(rest, length as usize)?;
    let name = as_name(alloc, name)?;
    Ok((name, rest))
}

/// The bytes of a source.
#[tactic(auto, unfolding(crate::specs::ImageReading::source_at))]
pub fn source_of(bytes: &[u8]) -> Result<(&[u8], &[u8]), ReadError>
    ensures read { ReturnsField (λ x. (x.0.now, x.1.now)) result (source_at bytes.now) }
    // It takes no memory.
    ensures no_memory { IsOkUnless result Damaged }
{
    let (length, rest) = u32_at(bytes)?;
    let (source, rest) = prefix(rest, length as usize)?;
    if source.len() > MAX_SOURCE_BYTES {
        return Err(ReadError::Damaged);
    }
    Ok((source, rest))
}

#[tactic(auto, unfolding(crate::specs::ImageReading::module_at, crate::specs::ImageReading::globals_at))]
fn module_of(alloc: Global, bytes: &[u8]) -> Result<(StoredModule, &[u8]), ReadError>
    ensures field { ReturnsField (λ x. (module_of x.0, x.1.now)) result (module_at bytes.now) }
{
    let (name, rest) = name_of(alloc, bytes)?;
    let (source, rest) = source_of(rest)?;
    let (count, rest) = u16_at(rest)?;
    if count > MAX_GLOBALS {
        return Err(ReadError::Damaged);
    }
    let (globals, rest) = words_of(alloc, count, rest)?;
    let source = Vec::from_slice(alloc, source)?;
    let module = StoredModule {
        name,
        source,
        globals,
    };
    Ok((module, rest))
}

/// So many modules, one after the other.
fn counted_modules(
    alloc: Global,
    count: u8,
    bytes: &[u8],
) -> Result<(Vec<StoredModule>, &[u8]), ReadError>
    ensures field { ReturnsField (λ x. (modules_of x.0.items, x.1.now)) result
        (times_at module_at count bytes.now) }
{
    let mut modules = Vec::new(alloc);
    let mut rest = bytes;
    for _ in 0..count {
        let (module, after) = module_of(alloc, rest)?;
        modules.push(module)?;
        rest = after;
    }
    Ok((modules, rest))
}

/// The modules, by ascending name.
#[tactic(auto, unfolding(crate::specs::ImageReading::modules_at))]
pub fn modules_of(alloc: Global, bytes: &[u8]) -> Result<(Vec<StoredModule>, &[u8]), ReadError>
    ensures read { ReturnsField (λ x. (modules_of x.0.items, x.1.now)) result
        (modules_at bytes.now) }
{
    let (count, rest) = u8_at(bytes)?;
    if count > MAX_MODULES {
        return Err(ReadError::Damaged);
    }
    let (modules, rest) = counted_modules(alloc, count, rest)?;
    if !are_ascending(&modules) {
        return Err(ReadError::Damaged);
    }
    Ok((modules, rest))
}

/// A length, and a module's name.
pub fn write_name(out: &mut Vec<u8>, name: &str) -> Result<(), AllocError>
    requires fits_name { IsTrue (is_module_name name.now) }
    ensures value { OnOk result (out.new.items ≡ out.old.items ++ text 1 name.now) }
{
    write_u8(out, name.len() as u8)?;
    out.extend_from_slice(name.as_bytes())
}

fn write_module(out: &mut Vec<u8>, parts: ModuleParts<'_>) -> Result<(), AllocError>
    requires fits_module { FitsModule (module_in parts) }
    ensures value { OnOk result (out.new.items
        ≡ out.old.items ++ loaded_module (module_in parts.entry)) }
{
    write_name(out, parts.name)?;
    write_u32(out, parts.source.len() as u32)?;
    out.extend_from_slice(parts.source)?;
    write_u16(out, parts.globals.len() as u16)?;
    write_words(out, parts.globals)
}

/// Each of the modules.
fn write_each(out: &mut Vec<u8>, modules: &[ModuleParts<'_>]) -> Result<(), AllocError>
    requires fits_module { AllByRecursion FitsModule (modules_in modules.now) }
    ensures value { OnOk result (out.new.items
        ≡ out.old.items ++ flat_map loaded_module (modules_in modules.now)) }
{
    for parts in modules {
        write_module(out, *parts)?;
    }
    Ok(())
}

/// How many modules there are, and each.
pub fn write_modules(out: &mut Vec<u8>, modules: &[ModuleParts<'_>]) -> Result<(), AllocError>
    requires fit { FitModules (modules_in modules.now) }
    ensures written { OnOk result (out.new.items
        ≡ out.old.items ++ items 1 loaded_module (modules_in modules.now)) }
{
    write_u8(out, modules.len() as u8)?;
    write_each(out, modules)
}
