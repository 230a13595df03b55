//! Indexes of names: the place of the first of each name in a list, found without a search through the list.

ghost use Rattle.std.specs.Prelude.{◌≡◌, map, slice_get, IfOk};
ghost use Rattle.std.specs.Option.{option_copied};
ghost use Rattle.ash_check_names.specs.NameIndex.{IsNameIndex, texts};

use crate::signatures::{Binding, ClassSignature, FunctionSignature, InterfaceSignature};
use indexmap::IndexMap;
use std::alloc::{AllocError, Global};

/// The place of the first of each name.
pub(crate) type NameIndex<'a> = IndexMap<&'a str, usize>;

/// What a module declares, by name: an index for each kind.
#[derive(Drop)]
pub(crate) struct NameIndexes<'a> {
    pub(crate) interfaces: NameIndex<'a>,
    pub(crate) classes: NameIndex<'a>,
    pub(crate) functions: NameIndex<'a>,
    pub(crate) globals: NameIndex<'a>,
}

/// The index of these names. It goes from the last name to the first, so that the first of each name is what is left.
fn name_index_of<'a>(alloc: Global, names: &[&'a str]) -> Result<NameIndex<'a>, AllocError>
    ensures name_index { IfOk result (λ places. IsNameIndex places (texts names.now)) }
{
    let mut places = IndexMap::with_capacity(alloc, names.len())?;
    for place in (0..names.len()).rev() {
        places.insert(names[place], place)?;
    }
    Ok(places)
}

fn interface_names<'a>(
    alloc: Global,
    all: &[InterfaceSignature<'a>],
) -> Result<Vec<&'a str>, AllocError>
    ensures value { IfOk result (λ names. texts names.items ≡ map (λ i. i.name.now) all.now) }
{
    let mut names = Vec::with_capacity(alloc, all.len())?;
    for interface in all {
        names.push(interface.name)?;
    }
    Ok(names)
}

fn class_names<'a>(alloc: Global, all: &[ClassSignature<'a>]) -> Result<Vec<&'a str>, AllocError>
    ensures value { IfOk result (λ names. texts names.items ≡ map (λ c. c.name.now) all.now) }
{
    let mut names = Vec::with_capacity(alloc, all.len())?;
    for class in all {
        names.push(class.name)?;
    }
    Ok(names)
}

fn function_names<'a>(
    alloc: Global,
    all: &[FunctionSignature<'a>],
) -> Result<Vec<&'a str>, AllocError>
    ensures value { IfOk result (λ names. texts names.items ≡ map (λ f. f.name.now) all.now) }
{
    let mut names = Vec::with_capacity(alloc, all.len())?;
    for function in all {
        names.push(function.name)?;
    }
    Ok(names)
}

fn variable_names<'a>(alloc: Global, all: &[Binding<'a>]) -> Result<Vec<&'a str>, AllocError>
    ensures value { IfOk result (λ names. texts names.items ≡ map (λ v. v.name.now) all.now) }
{
    let mut names = Vec::with_capacity(alloc, all.len())?;
    for variable in all {
        names.push(variable.name)?;
    }
    Ok(names)
}

/// The index of the names of interfaces.
fn index_of_interfaces<'a>(
    alloc: Global,
    all: &[InterfaceSignature<'a>],
) -> Result<NameIndex<'a>, AllocError>
    ensures value { IfOk result (λ places. IsNameIndex places (map (λ i. i.name.now) all.now)) }
{
    let names = interface_names(alloc, all)?;
    name_index_of(alloc, &names)
}

/// The index of the names of classes.
fn index_of_classes<'a>(
    alloc: Global,
    all: &[ClassSignature<'a>],
) -> Result<NameIndex<'a>, AllocError>
    ensures value { IfOk result (λ places. IsNameIndex places (map (λ c. c.name.now) all.now)) }
{
    let names = class_names(alloc, all)?;
    name_index_of(alloc, &names)
}

/// The index of the names of functions.
fn index_of_functions<'a>(
    alloc: Global,
    all: &[FunctionSignature<'a>],
) -> Result<NameIndex<'a>, AllocError>
    ensures value { IfOk result (λ places. IsNameIndex places (map (λ f. f.name.now) all.now)) }
{
    let names = function_names(alloc, all)?;
    name_index_of(alloc, &names)
}

/// The index of the names of variables.
fn index_of_variables<'a>(alloc: Global, all: &[Binding<'a>]) -> Result<NameIndex<'a>, AllocError>
    ensures value { IfOk result (λ places. IsNameIndex places (map (λ v. v.name.now) all.now)) }
{
    let names = variable_names(alloc, all)?;
    name_index_of(alloc, &names)
}

/// The indexes of interfaces and of classes.
fn type_indexes<'a>(
    alloc: Global,
    interfaces: &[InterfaceSignature<'a>],
    classes: &[ClassSignature<'a>],
) -> Result<(NameIndex<'a>, NameIndex<'a>), AllocError>
    ensures interfaces { IfOk result
        (λ found. IsNameIndex found.0 (map (λ i. i.name.now) interfaces.now)) }
    ensures classes { IfOk result
        (λ found. IsNameIndex found.1 (map (λ c. c.name.now) classes.now)) }
{
    let interfaces = index_of_interfaces(alloc, interfaces)?;
    let classes = index_of_classes(alloc, classes)?;
    Ok((interfaces, classes))
}

/// The indexes of functions and of variables.
fn value_indexes<'a>(
    alloc: Global,
    functions: &[FunctionSignature<'a>],
    variables: &[Binding<'a>],
) -> Result<(NameIndex<'a>, NameIndex<'a>), AllocError>
    ensures functions { IfOk result
        (λ found. IsNameIndex found.0 (map (λ f. f.name.now) functions.now)) }
    ensures variables { IfOk result
        (λ found. IsNameIndex found.1 (map (λ v. v.name.now) variables.now)) }
{
    let functions = index_of_functions(alloc, functions)?;
    let variables = index_of_variables(alloc, variables)?;
    Ok((functions, variables))
}

/// The indexes of what a module declares.
pub(crate) fn indexes_of<'a>(
    alloc: Global,
    interfaces: &[InterfaceSignature<'a>],
    classes: &[ClassSignature<'a>],
    functions: &[FunctionSignature<'a>],
    globals: &[Binding<'a>],
) -> Result<NameIndexes<'a>, AllocError>
    ensures interfaces { IfOk result
        (λ found. IsNameIndex found.interfaces (map (λ i. i.name.now) interfaces.now)) }
    ensures classes { IfOk result
        (λ found. IsNameIndex found.classes (map (λ c. c.name.now) classes.now)) }
    ensures functions { IfOk result
        (λ found. IsNameIndex found.functions (map (λ f. f.name.now) functions.now)) }
    ensures globals { IfOk result
        (λ found. IsNameIndex found.globals (map (λ v. v.name.now) globals.now)) }
{
    let (interfaces, classes) = type_indexes(alloc, interfaces, classes)?;
    let (functions, globals) = value_indexes(alloc, functions, globals)?;
    Ok(NameIndexes {
        interfaces,
        classes,
        functions,
        globals,
    })
}

/// The item at a place.
pub(crate) fn item_at<T>(all: &[T], place: usize) -> Option<&T>
    ensures value { option_copied result ≡ slice_get all.now place }
{
    all.get(place)
}
