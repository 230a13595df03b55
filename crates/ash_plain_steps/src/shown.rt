//! Objects as replies show them.

ghost use Rattle.std.specs.Prelude.{◌≡◌, ◌+◌, map, codes, slice_get, option_map, IfOk, OnErr};
ghost use Rattle.std.specs.Prelude.{IsSome, string_bytes};
ghost use Rattle.std.specs.List.{zip};
ghost use Rattle.ash_host.specs.Objects.{handles_to, count_of};
ghost use Rattle.ash_typed.specs.BodyViews.{value_of};
ghost use Rattle.ash_typed.specs.Modules.{module_of, class_of as class_seen};
ghost use Rattle.ash_meaning.specs.Classes.{dotted};
ghost use Rattle.ash_plain_data.specs.ObjectViews.{object_seen};
ghost use Rattle.ash_requests.specs.Requests.{Fields, HostState, Elements};
ghost use Rattle.ash_requests.specs.States.{globals_of};
ghost use Rattle.ash_requests.specs.Tasks.{name_of, shown_fields};
ghost use Rattle.ash_plain_steps.specs.StateViews.{modules_seen};
ghost use Rattle.ash_requests.specs.RequestViews.{field_seen, named_seen};
ghost use Rattle.ash_plain_steps.specs.TaskViews.{tree_named, class_of_object, described_in};

use crate::state::{LoadedModule, PlainState};
use ash_host::Word;
use ash_plain_data::classes::Program;
use ash_plain_data::object::Object;
use ash_plain_world::objects::handles_to;
use ash_requests::ObjectContents;
use ash_requests::sources::SourceReader;
use ash_typed::{Class, Initialization, Module};
use std::alloc::{AllocError, Global};

/// How many globals are handles to an object, beside so many other words.
#[tactic(auto, using(crate::proofs::Handles::more_globals))]
fn globals_to(modules: &[LoadedModule], number: u64, others: usize) -> Result<usize, AllocError>
    ensures value { IfOk result (λ count. count
        ≡ handles_to number (globals_of (modules_seen modules.now)) + others) }
{
    let mut count = others;
    for m in modules {
        // No memory holds so many words that the count is too great.
        count = count
            .checked_add(handles_to(number, &m.globals))
            .ok_or(AllocError)?;
    }
    Ok(count)
}

/// The count of an object. An `Err` means that memory was refused.
pub(crate) fn count_of(state: &PlainState, number: u64) -> Result<usize, AllocError>
    ensures value { IfOk result (λ count. count ≡ count_of number
        (globals_of (modules_seen state.now.modules.items)) state.now.objects) }
{
    let fields = state.objects.fields_to(number)?;
    globals_to(&state.modules, number, fields)
}

/// The fields of an object of a class, by their names. An `Err` means that memory was refused.
fn fields_shown(
    alloc: Global,
    declared: &[Initialization],
    words: &[Word],
) -> Result<Vec<(String, Word)>, AllocError>
    ensures value { IfOk result (λ fields. map field_seen fields.items
        ≡ zip (map name_of (map value_of declared.now)) words.now) }
{
    let mut fields = Vec::new(alloc);
    for (place, field) in declared.iter().enumerate() {
        let Some(word) = words.get(place) else {
            return Ok(fields);
        };
        fields.push((String::from_str(alloc, field.name.as_str())?, *word))?;
    }
    Ok(fields)
}

/// `m.C`
pub fn dotted(alloc: Global, owner: &str, class: &str) -> Result<String, AllocError>
    ensures value { IfOk result (λ name. string_bytes name ≡ dotted owner.now class.now) }
{
    let mut name = String::from_str(alloc, owner)?;
    name.push_str(".")?;
    name.push_str(class)?;
    Ok(name)
}

/// The typed tree of the module of this name.
fn tree_named<'a>(modules: &'a [LoadedModule], name: &str) -> Option<&'a Module>
    ensures value { option_map (λ tree. module_of tree.now) result
        ≡ tree_named name.now modules.now }
{
    for m in modules {
        if m.name.as_str() == name {
            return Some(&m.tree);
        }
    }
    None
}

/// The class at a place among those of a module.
fn class_at(tree: &Module, class: usize) -> Option<&Class>
    ensures value { option_map (λ c. class_seen c.now) result
        ≡ slice_get (module_of tree.now).classes class }
{
    tree.classes.get(class)
}

/// The class of an object, in the module of this name.
fn class_of_object<'a>(
    alloc: Global,
    modules: &'a [LoadedModule],
    owner: &str,
    object: &Object,
) -> Option<&'a Class>
    ensures value { option_map (λ c. class_seen c.now) result
        ≡ class_of_object owner.now modules.now (object_seen object.now) }
{
    let tree = tree_named(modules, owner)?;
    let program = Program {
        alloc,
        name: owner,
        tree,
    };
    let class = program.class_of(object)?;
    class_at(tree, class)
}

/// An object of a class, with the name of its type. An `Err` means that memory was refused.
fn script_shown(
    alloc: Global,
    owner: &str,
    class: &Class,
    words: &[Word],
) -> Result<(String, ObjectContents), AllocError>
    ensures value { IfOk result (λ shown. named_seen shown
        ≡ (
          dotted owner.now (class_seen class.now).name,
          Fields (shown_fields (class_seen class.now) words.now),
        )) }
{
    let name = dotted(alloc, owner, class.name.as_str())?;
    let fields = fields_shown(alloc, &class.fields, words)?;
    Ok((name, ObjectContents::Fields(fields)))
}

/// An array, with the name of its type. An `Err` means that memory was refused.
fn array_shown(alloc: Global, words: &[Word]) -> Result<(String, ObjectContents), AllocError>
    ensures value { IfOk result (λ shown. named_seen shown ≡ (codes "array", Elements words.now)) }
{
    let name = String::from_str(alloc, "array")?;
    let elements = Vec::from_slice(alloc, words)?;
    Ok((name, ObjectContents::Elements(elements)))
}

/// A host object of a kind, with the name of its type. An `Err` means that memory was refused.
fn host_shown<S: SourceReader>(
    alloc: Global,
    sources: &S,
    kind: u16,
    state: &[u8],
) -> Result<(String, ObjectContents), AllocError>
    ensures value { IfOk result (λ shown. named_seen shown
        ≡ ((S.embedding sources.now).name_of_kind kind, HostState state.now)) }
{
    let name = sources.name_of_kind(alloc, kind)?;
    let bytes = Vec::from_slice(alloc, state)?;
    Ok((name, ObjectContents::HostState(bytes)))
}

/// The name of the type of an object, and what is in it. `None` where the class of the object is in no module, which is
/// tested before memory is taken: an `Err` means that memory was refused to an object that can be shown.
pub fn described<S: SourceReader>(
    sources: &S,
    state: &PlainState,
    object: &Object,
) -> Result<Option<(String, ObjectContents)>, AllocError>
    ensures described { IfOk result (λ found. option_map named_seen found
        ≡ described_in ((S.embedding sources.now).name_of_kind) state.now.modules.items
        (object_seen object.now)) }
    ensures memory { OnErr result
        (IsSome (described_in ((S.embedding sources.now).name_of_kind) state.now.modules.items
        (object_seen object.now))) }
{
    let alloc = state.alloc;
    match object {
        Object::Script { owner, fields, .. } => {
            let owner = owner.as_str();
            let Some(class) = class_of_object(alloc, &state.modules, owner, object) else {
                return Ok(None);
            };
            Ok(Some(script_shown(alloc, owner, class, fields)?))
        }
        Object::Array { elements, .. } => Ok(Some(array_shown(alloc, elements)?)),
        Object::Host { kind, state: bytes } => Ok(Some(host_shown(alloc, sources, *kind, bytes)?)),
    }
}
