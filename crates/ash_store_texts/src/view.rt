//! A state as it is shown: with the names that the sources of its modules declare.

use crate::handles::Handles;
use crate::names::{Declared, Variable, declared_in};
use ash_host::{ElementTag, Word};
use ash_image::stored::{
    StoredArray, StoredBody, StoredHost, StoredModule, StoredObject, StoredScript, StoredState,
};
use std::alloc::{AllocError, Global};

/// A value, with the name and the type of what holds it.
#[derive(Debug, Drop)]
pub struct NamedValue {
    pub type_name: String,
    pub name: String,
    pub value: Word,
}

/// A module as it is shown.
#[derive(Debug, Drop)]
pub struct ModuleView {
    pub name: String,
    /// How many bytes its source has.
    pub source_len: usize,
    pub globals: Vec<NamedValue>,
    /// Its functions as they are declared, without their bodies.
    pub functions: Vec<String>,
}

/// What an object holds.
#[derive(Debug, Drop)]
pub enum ContentsView {
    Fields(Vec<NamedValue>),
    Elements(Vec<Word>),
    HostState(Vec<u8>),
}

/// An object as it is shown.
#[derive(Debug, Drop)]
pub struct ObjectView {
    pub number: u64,
    pub type_name: String,
    /// How many handles to it are held in globals, fields and elements.
    pub handles: u64,
    pub contents: ContentsView,
}

/// A service as it is shown.
#[derive(Debug, Drop)]
pub struct ServiceView {
    pub kind: u16,
    pub state: Vec<u8>,
}

/// A state as it is shown.
#[derive(Debug, Drop)]
pub struct StateView {
    pub services: Vec<ServiceView>,
    pub modules: Vec<ModuleView>,
    pub objects: Vec<ObjectView>,
}

/// Words with the variables that hold them, in the same order. A word that no variable is known for has a number for
/// its name.
fn named_values(
    alloc: Global,
    variables: &[Variable],
    words: &[Word],
) -> Result<Vec<NamedValue>, AllocError> {
    let mut values = Vec::with_capacity(alloc, words.len())?;
    for (index, word) in words.iter().enumerate() {
        values.push(named_value(alloc, variables.get(index), index, *word)?)?;
    }
    Ok(values)
}

fn named_value(
    alloc: Global,
    variable: Option<&Variable>,
    index: usize,
    value: Word,
) -> Result<NamedValue, AllocError> {
    match variable {
        Some(variable) => Ok(NamedValue {
            type_name: variable.type_name.clone()?,
            name: variable.name.clone()?,
            value,
        }),
        None => Ok(NamedValue {
            type_name: String::new(alloc),
            name: index.to_string(alloc)?,
            value,
        }),
    }
}

/// The name of the registered type of a kind, by the text of what is registered.
fn kind_name(alloc: Global, registered: &str, kind: u16) -> Result<String, AllocError> {
    for line in registered.lines() {
        if let Some(name) = name_in_line(line, kind) {
            return String::from_str(alloc, name);
        }
    }
    format!(in alloc; "kind {kind}")
}

/// The name in the line `type name kind`.
fn name_in_line(line: &str, kind: u16) -> Option<&str> {
    let (name, number) = line.strip_prefix("type ")?.split_once(' ')?;
    match number.parse::<u16>() {
        Ok(number) if number == kind => Some(name),
        _ => None,
    }
}

/// The name of a class or an interface, by its index in the source of a module.
fn class_name(
    alloc: Global,
    declared: &[Declared],
    owner: u8,
    class: u16,
) -> Result<String, AllocError> {
    match declared.get(owner as usize) {
        Some(module) => match module.types.get(class as usize) {
            Some(of) => of.name.clone(),
            None => format!(in alloc; "class {class}"),
        },
        None => format!(in alloc; "class {class}"),
    }
}

/// The fields of a class, by its index in the source of a module.
fn fields_of(declared: &[Declared], owner: u8, class: u16) -> &[Variable] {
    match declared.get(owner as usize) {
        Some(module) => match module.types.get(class as usize) {
            Some(of) => of.fields.as_slice(),
            None => &[],
        },
        None => &[],
    }
}

/// The type of an array, by what its elements are.
fn array_name(
    alloc: Global,
    registered: &str,
    declared: &[Declared],
    element: ElementTag,
) -> Result<String, AllocError> {
    match element {
        ElementTag::Bool => String::from_str(alloc, "array<bool>"),
        ElementTag::Int => String::from_str(alloc, "array<int>"),
        ElementTag::Uint => String::from_str(alloc, "array<uint>"),
        ElementTag::Int64 => String::from_str(alloc, "array<int64>"),
        ElementTag::Uint64 => String::from_str(alloc, "array<uint64>"),
        ElementTag::Class(owner, class) => {
            let name = class_name(alloc, declared, owner, class)?;
            format!(in alloc; "array<{name}@>")
        }
        ElementTag::Kind(kind) => {
            let name = kind_name(alloc, registered, kind)?;
            format!(in alloc; "array<{name}@>")
        }
    }
}

/// The type of an object, by its body.
fn object_type(
    alloc: Global,
    registered: &str,
    declared: &[Declared],
    body: &StoredBody,
) -> Result<String, AllocError> {
    match body {
        StoredBody::Script(StoredScript { owner, class, .. }) => class_name(
            alloc, declared, *owner, *class,
        ),
        StoredBody::Host(StoredHost { kind, .. }) => kind_name(alloc, registered, *kind),
        StoredBody::Array(StoredArray { element, .. }) => array_name(
            alloc, registered, declared, *element,
        ),
    }
}

/// What an object holds, by its body.
fn contents_view(
    alloc: Global,
    declared: &[Declared],
    body: &StoredBody,
) -> Result<ContentsView, AllocError> {
    match body {
        StoredBody::Script(script) => {
            let fields = fields_of(declared, script.owner, script.class);
            Ok(ContentsView::Fields(named_values(alloc, fields, &script.fields)?))
        }
        StoredBody::Host(host) => Ok(ContentsView::HostState(host.state.to_vec(alloc)?)),
        StoredBody::Array(array) => Ok(ContentsView::Elements(array.elements.to_vec(alloc)?)),
    }
}

fn object_view(
    alloc: Global,
    registered: &str,
    declared: &[Declared],
    handles: &Handles,
    object: &StoredObject,
) -> Result<ObjectView, AllocError> {
    Ok(ObjectView {
        number: object.number,
        type_name: object_type(alloc, registered, declared, &object.body)?,
        handles: handles.count(object.number),
        contents: contents_view(alloc, declared, &object.body)?,
    })
}

fn object_views(
    alloc: Global,
    declared: &[Declared],
    state: &StoredState,
) -> Result<Vec<ObjectView>, AllocError> {
    let handles = Handles::of(alloc, state)?;
    let mut objects = Vec::with_capacity(alloc, state.objects.len())?;
    for object in &state.objects {
        objects.push(object_view(alloc, &state.registered, declared, &handles, object)?)?;
    }
    Ok(objects)
}

/// A module, with what its source declares.
fn module_view(
    alloc: Global,
    module: &StoredModule,
    declared: &Declared,
) -> Result<ModuleView, AllocError> {
    let mut functions = Vec::with_capacity(alloc, declared.functions.len())?;
    for function in &declared.functions {
        functions.push(function.clone()?)?;
    }
    Ok(ModuleView {
        name: module.name.clone()?,
        source_len: module.source.len(),
        globals: named_values(alloc, &declared.globals, &module.globals)?,
        functions,
    })
}

fn module_views(
    alloc: Global,
    declared: &[Declared],
    modules: &[StoredModule],
) -> Result<Vec<ModuleView>, AllocError> {
    let mut views = Vec::with_capacity(alloc, modules.len())?;
    for (module, declared) in modules.iter().zip(declared) {
        views.push(module_view(alloc, module, declared)?)?;
    }
    Ok(views)
}

fn service_views(alloc: Global, services: &[StoredHost]) -> Result<Vec<ServiceView>, AllocError> {
    let mut views = Vec::with_capacity(alloc, services.len())?;
    for service in services {
        views.push(ServiceView {
            kind: service.kind,
            state: service.state.to_vec(alloc)?,
        })?;
    }
    Ok(views)
}

/// What the sources of modules declare.
fn declared_in_all(alloc: Global, modules: &[StoredModule]) -> Result<Vec<Declared>, AllocError> {
    let mut declared = Vec::with_capacity(alloc, modules.len())?;
    for module in modules {
        declared.push(declared_in(alloc, &module.source)?)?;
    }
    Ok(declared)
}

/// A state as it is shown.
pub fn view_of(alloc: Global, state: &StoredState) -> Result<StateView, AllocError> {
    let declared = declared_in_all(alloc, &state.modules)?;
    Ok(StateView {
        services: service_views(alloc, &state.services)?,
        modules: module_views(alloc, &declared, &state.modules)?,
        objects: object_views(alloc, &declared, state)?,
    })
}
