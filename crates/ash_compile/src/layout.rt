//! Where the code of a module's functions, constructions and methods stands, and what it knows of its types.

ghost use Rattle.std.specs.Prelude.{◌≡◌, ℕ, ◌+◌, ◌<◌, ◌≤◌, ◌++◌, length, map, flat_map, IfOk};
ghost use Rattle.std.specs.Prelude.{IfSome, IfNone, Some, slice_get};
ghost use Rattle.ash_typed.specs.Modules.{Module as ModuleData, Class as ClassData, class_of, function_of};
ghost use Rattle.ash_typed.specs.Modules.{interface_of, module_of};
ghost use Rattle.ash_meaning.specs.Classes.{Program, Construction, Method, element_of};
ghost use Rattle.ash_soundness.specs.WellFormed.{IsNamed};
ghost use Rattle.ash_object_ranks.specs.ShownTables.{SlotNames, elements_shown};
ghost use Rattle.ash_compile.specs.Layout.{IsLayout, index_of, methods_before, interfaces_before, classes_before};
ghost use Rattle.ash_compile.specs.Layout.{count_of_parameters, count_of_constructor, counts_of_methods};
ghost use Rattle.ash_compile.specs.Layout.{counts_of_parameters};

use ash_host::ElementTag;
use ash_integers::IntType;
use ash_typed::{Class, Element, Function, Interface, Module};
use std::alloc::{AllocError, Global};

/// Where the code of a module stands. The functions come first, each at its place. Then come the constructions, by
/// class, and the methods, class by class.
#[derive(Drop)]
pub struct Layout {
    /// The slot of the module in the table of objects.
    pub slot: u8,
    /// How many functions there are.
    pub functions: usize,
    /// How many parameters each function, construction and method has.
    pub parameters: Vec<usize>,
    /// How many parameters the construction of each class has.
    pub constructors: Vec<usize>,
    /// The first method of each class.
    pub methods: Vec<usize>,
    /// The place of each class in the source, where classes and interfaces count together.
    pub classes: Vec<u16>,
    /// The place of each interface there.
    pub interfaces: Vec<u16>,
}

/// The sum of two numbers.
fn sum(a: usize, b: usize) -> Result<usize, AllocError>
    ensures sum { IfOk result (λ n. n ≡ a + b) }
{
    a.checked_add(b).ok_or(AllocError)
}

/// The place of a class or an interface in the source, among these places.
pub(crate) fn place_in(places: &[u16], index: usize) -> Option<u16>
    ensures place { result ≡ slice_get places.now index }
{
    places.get(index).copied()
}

/// The first method of each class, if methods begin here.
fn first_methods(alloc: Global, first: usize, classes: &[Class]) -> Result<Vec<usize>, AllocError>
    ensures methods { IfOk result (λ methods. (class : ℕ) → class < length classes.now
        → slice_get methods.items class ≡ Some (first + methods_before class (map class_of classes.now))) }
{
    let mut methods = Vec::new(alloc);
    let mut next = first;
    for class in classes {
        methods.push(next)?;
        next = sum(next, class.methods.len())?;
    }
    Ok(methods)
}

/// How many interfaces are declared before a class.
fn count_before(interfaces: &[Interface], class: usize) -> usize
    ensures count { result ≡ interfaces_before class (map interface_of interfaces.now) }
    ensures few { result ≤ length interfaces.now }
{
    let mut count = 0;
    for interface in interfaces {
        if interface.classes_before <= class {
            count += 1;
        }
    }
    count
}

/// A place in the source.
fn place_at(before: usize, others: usize) -> Result<u16, AllocError>
    ensures place { IfOk result (λ place. place ≡ before + others) }
{
    match u16::try_from(sum(before, others)?) {
        Ok(place) => Ok(place),
        Err(_) => Err(AllocError),
    }
}

/// The places of so many classes in the source.
fn places_of_classes(
    alloc: Global,
    count: usize,
    interfaces: &[Interface],
) -> Result<Vec<u16>, AllocError>
    ensures places { IfOk result (λ places. (class : ℕ) → class < count
        → slice_get places.items class ≡ Some (class + interfaces_before class (map interface_of interfaces.now))) }
{
    let mut places = Vec::new(alloc);
    for class in 0..count {
        places.push(place_at(class, count_before(interfaces, class))?)?;
    }
    Ok(places)
}

/// The places of the interfaces in the source.
fn places_of_interfaces(alloc: Global, interfaces: &[Interface]) -> Result<Vec<u16>, AllocError>
    ensures places { IfOk result (λ places. (interface : ℕ) → interface < length interfaces.now
        → slice_get places.items interface
        ≡ Some (interface + classes_before interface (map interface_of interfaces.now))) }
{
    let mut places = Vec::new(alloc);
    for (index, interface) in interfaces.iter().enumerate() {
        places.push(place_at(index, interface.classes_before)?)?;
    }
    Ok(places)
}

/// How many parameters the construction of an object of a class has.
fn constructor_count(class: &Class) -> usize
    ensures count { result ≡ count_of_constructor (class_of class.now) }
{
    match &class.constructor {
        Some(constructor) => constructor.parameters.len(),
        None => 0,
    }
}

/// Adds how many parameters functions have.
fn add_functions(counts: &mut Vec<usize>, functions: &[Function]) -> Result<(), AllocError>
    ensures added { IfOk result (λ u. counts.new.items ≡ counts.old.items
        ++ map count_of_parameters (map function_of functions.now)) }
{
    for function in functions {
        counts.push(function.parameters.len())?;
    }
    Ok(())
}

/// Adds how many parameters the constructions of classes have.
fn add_constructions(counts: &mut Vec<usize>, classes: &[Class]) -> Result<(), AllocError>
    ensures added { IfOk result (λ u. counts.new.items ≡ counts.old.items
        ++ map count_of_constructor (map class_of classes.now)) }
{
    for class in classes {
        counts.push(constructor_count(class))?;
    }
    Ok(())
}

/// Adds how many parameters the methods of classes have, class by class.
fn add_methods(counts: &mut Vec<usize>, classes: &[Class]) -> Result<(), AllocError>
    ensures added { IfOk result (λ u. counts.new.items ≡ counts.old.items
        ++ flat_map counts_of_methods (map class_of classes.now)) }
{
    for class in classes {
        add_functions(counts, &class.methods)?;
    }
    Ok(())
}

/// How many parameters each function, construction and method of a module has.
fn parameter_counts(alloc: Global, tree: &Module) -> Result<Vec<usize>, AllocError>
    ensures counts { IfOk result (λ counts. counts.items ≡ counts_of_parameters (module_of tree.now)) }
{
    let mut counts = Vec::new(alloc);
    add_functions(&mut counts, &tree.functions)?;
    add_constructions(&mut counts, &tree.classes)?;
    add_methods(&mut counts, &tree.classes)?;
    Ok(counts)
}

/// How many parameters the construction of each class has.
fn constructor_counts(alloc: Global, classes: &[Class]) -> Result<Vec<usize>, AllocError>
    ensures counts { IfOk result (λ counts. counts.items ≡ map count_of_constructor (map class_of classes.now)) }
{
    let mut counts = Vec::new(alloc);
    add_constructions(&mut counts, classes)?;
    Ok(counts)
}

impl Layout {
    /// The layout of a module, whose objects know it by this slot.
    ///
    /// # Errors
    ///
    /// If there is no memory, or a place is too great.
    pub fn new(alloc: Global, slot: u8, tree: &Module) -> Result<Layout, AllocError>
        ensures layout { IfOk result (λ layout. IsLayout slot (module_of tree.now) layout) }
    {
        let functions = tree.functions.len();
        let count = tree.classes.len();
        let first = sum(functions, count)?;
        Ok(Layout {
            slot,
            functions,
            parameters: parameter_counts(alloc, tree)?,
            constructors: constructor_counts(alloc, &tree.classes)?,
            methods: first_methods(alloc, first, &tree.classes)?,
            classes: places_of_classes(alloc, count, &tree.interfaces)?,
            interfaces: places_of_interfaces(alloc, &tree.interfaces)?,
        })
    }

    /// Where the construction of a class stands.
    ///
    /// # Errors
    ///
    /// If the place is too great.
    pub fn construction(&self, class: usize) -> Result<usize, AllocError>
        ensures place { IfOk result (λ place. (slot : ℕ) (m : ModuleData) → IsLayout slot m self.now
            → place ≡ index_of m (Construction class)) }
    {
        sum(self.functions, class)
    }

    /// Where a method of a class stands, if it is there.
    pub fn method(&self, class: usize, method: usize) -> Option<usize>
        ensures place { IfSome result (λ place. (slot : ℕ) (m : ModuleData) → IsLayout slot m self.now
            → class < length m.classes → place ≡ index_of m (Method class method)) }
        ensures there { IfSome result (λ place. place < length self.now.parameters.items) }
        ensures none { IfNone result ((slot : ℕ) (m : ModuleData) → IsLayout slot m self.now
            → class < length m.classes → length self.now.parameters.items ≤ index_of m (Method class method)) }
    {
        let first = self.methods.get(class).copied()?;
        let place = first.checked_add(method)?;
        if place < self.parameters.len() {
            Some(place)
        } else {
            None
        }
    }

    /// Where a method stands that a class has for an interface. A class that lacks it, which no sound module has,
    /// gives its construction.
    ///
    /// # Errors
    ///
    /// If the place is too great.
    pub fn implementing(&self, class: usize, method: usize) -> Result<usize, AllocError>
        ensures place { IfOk result (λ place. (slot : ℕ) (m : ModuleData) (k : ClassData) → IsLayout slot m self.now
            → slice_get m.classes class ≡ Some k → method < length k.methods
            → place ≡ index_of m (Method class method)) }
        ensures there { IfOk result (λ place. (slot : ℕ) (m : ModuleData) → IsLayout slot m self.now
            → class < length m.classes → place < length self.now.parameters.items) }
    {
        match self.method(class, method) {
            Some(place) => Ok(place),
            None => self.construction(class),
        }
    }

    /// What the elements of an array are, as the table of objects has it.
    pub fn element(&self, of: Element) -> ElementTag
        ensures element { (names : SlotNames) (slot : ℕ) (p : Program) → IsLayout slot p.tree self.now
            → names slot ≡ p.name → IsNamed p.tree of → elements_shown names result ≡ element_of p of }
    {
        match of {
            Element::Bool => ElementTag::Bool,
            Element::Integer(IntType::Int) => ElementTag::Int,
            Element::Integer(IntType::Uint) => ElementTag::Uint,
            Element::Integer(IntType::Int64) => ElementTag::Int64,
            Element::Integer(IntType::Uint64) => ElementTag::Uint64,
            Element::Class(class) => self.handles(place_in(&self.classes, class)),
            Element::Interface(interface) => self.handles(place_in(&self.interfaces, interface)),
            Element::Host(kind) => ElementTag::Kind(kind),
        }
    }

    /// Handles to objects of a class or an interface, by its place in the source. No sound module names one that is
    /// not there.
    fn handles(&self, place: Option<u16>) -> ElementTag
        ensures handles { (k : ℕ) → place ≡ Some k → result ≡ ElementTag.Class self.now.slot k }
    {
        match place {
            Some(place) => ElementTag::Class(self.slot, place),
            None => ElementTag::Bool,
        }
    }
}
