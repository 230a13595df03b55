//! What the names of a module mean while it runs: places of classes, what class an object is of, what a call enters.

ghost use Rattle.std.specs.Prelude.{◌≡◌, map, option_map, slice_get, count_by};
ghost use Rattle.std.specs.Prelude.{nat_le, nat_eq, find, position};
ghost use Rattle.std.specs.Prelude.{string_bytes, IfOk};
ghost use Rattle.std.specs.List.{position_from, range_with_len};
ghost use Rattle.ash_host.specs.Objects.{Handles};
ghost use Rattle.ash_typed.specs.Modules.{function_of, interface_of, implementation_of};
ghost use Rattle.ash_typed.specs.Modules.{class_of as class_seen};
ghost use Rattle.ash_typed.specs.Modules.{module_of};
ghost use Rattle.ash_typed.specs.BodyViews.{value_of};
ghost use Rattle.ash_meaning.specs.Classes.{dotted, entry_of_function, entry_of_method};
ghost use Rattle.ash_meaning.specs.Classes.{entry_of_construction};
ghost use Rattle.ash_meaning.specs.Classes.{entry_of, place_of_class, place_of_interface, class_of};
ghost use Rattle.ash_meaning.specs.Classes.{implementation_in, implemented, is_class_of};
ghost use Rattle.ash_meaning.specs.Classes.{is_object_of, element_of};
ghost use Rattle.ash_meaning.specs.Classes.{places_of_classes};
ghost use Rattle.ash_meaning.specs.OperatorMeaning.{zero_of};
ghost use Rattle.ash_meaning.specs.CallMeaning.{blank};
ghost use Rattle.ash_plain_data.specs.ObjectViews.{element_seen, object_seen};
ghost use Rattle.ash_plain_data.specs.ClassViews.{program_seen, callee_seen, entry_seen};

use crate::object::{Elements, Object};
use crate::operators::zero_of;
use ash_host::Word;
use ash_typed::{
    Class, Element as TypedElement, Function, Implementation, Initialization, IntType, Interface,
    Module, ObjectType, Stmt,
};
use std::alloc::{AllocError, Global};

/// A module that runs: its typed tree, and the name that it is loaded under.
#[derive(Clone, Copy)]
pub struct Program<'a> {
    /// From where what runs gets its memory.
    pub alloc: Global,
    pub name: &'a str,
    pub tree: &'a Module,
}

/// What a script calls of its own module.
#[derive(Clone, Copy)]
pub enum ModuleCallee {
    /// A function, by its place.
    Function(usize),
    /// A method of a class, by their places.
    Method { class: usize, place: usize },
    /// The construction of an object of a class.
    Construction(usize),
}

/// What the frame of a call does: its name, the line of its entry, the fields that it initializes, and the body.
#[derive(Drop)]
pub struct Entry<'a> {
    pub name: String,
    pub line: usize,
    pub fields: &'a [Initialization],
    pub body: &'a [Stmt],
}

/// `C.m`
fn dotted(alloc: Global, class: &str, method: &str) -> Result<String, AllocError>
    ensures value { IfOk result (λ name. string_bytes name ≡ dotted class.now method.now) }
{
    let mut name = String::from_str(alloc, class)?;
    name.push_str(".")?;
    name.push_str(method)?;
    Ok(name)
}

fn entry_of_function<'a>(alloc: Global, function: &'a Function) -> Result<Entry<'a>, AllocError>
    ensures value { IfOk result (λ entry. entry_seen entry
        ≡ entry_of_function (function_of function.now)) }
{
    Ok(Entry {
        name: String::from_str(alloc, function.name.as_str())?,
        line: function.line,
        fields: &[],
        body: function.body.as_slice(),
    })
}

fn entry_of_method<'a>(
    alloc: Global,
    class: &Class,
    method: &'a Function,
) -> Result<Entry<'a>, AllocError>
    ensures value { IfOk result (λ entry. entry_seen entry
        ≡ entry_of_method (class_seen class.now) (function_of method.now)) }
{
    Ok(Entry {
        name: dotted(alloc, class.name.as_str(), method.name.as_str())?,
        line: method.line,
        fields: &[],
        body: method.body.as_slice(),
    })
}

/// A construction is entered at the line of the constructor's name, or of the class's where no constructor is written.
fn entry_of_construction<'a>(alloc: Global, class: &'a Class) -> Result<Entry<'a>, AllocError>
    ensures value { IfOk result (λ entry. entry_seen entry
        ≡ entry_of_construction (class_seen class.now)) }
{
    let name = dotted(alloc, class.name.as_str(), class.name.as_str())?;
    let fields = class.fields.as_slice();
    match &class.constructor {
        Some(constructor) => Ok(Entry {
            name,
            line: constructor.line,
            fields,
            body: constructor.body.as_slice(),
        }),
        None => Ok(Entry {
            name,
            line: class.line,
            fields,
            body: &[],
        }),
    }
}

/// What is entered by a call, where the module has it.
pub fn entry_of<'a>(
    alloc: Global,
    tree: &'a Module,
    callee: ModuleCallee,
) -> Result<Option<Entry<'a>>, AllocError>
    ensures entry { IfOk result (λ found. option_map entry_seen found
        ≡ entry_of (module_of tree.now) (callee_seen callee)) }
{
    match callee {
        ModuleCallee::Function(place) => match tree.functions.get(place) {
            Some(function) => Ok(Some(entry_of_function(alloc, function)?)),
            None => Ok(None),
        },
        ModuleCallee::Method { class, place } => match tree.classes.get(class) {
            Some(class) => method_in(alloc, class, place),
            None => Ok(None),
        },
        ModuleCallee::Construction(class) => match tree.classes.get(class) {
            Some(class) => Ok(Some(entry_of_construction(alloc, class)?)),
            None => Ok(None),
        },
    }
}

/// What is entered by a call of a method of a class, where it has it.
fn method_in<'a>(
    alloc: Global,
    class: &'a Class,
    place: usize,
) -> Result<Option<Entry<'a>>, AllocError>
    ensures value { IfOk result (λ found. option_map entry_seen found
        ≡ option_map (entry_of_method (class_seen class.now))
        (slice_get (class_seen class.now).methods place)) }
{
    match class.methods.get(place) {
        Some(method) => Ok(Some(entry_of_method(alloc, class, method)?)),
        None => Ok(None),
    }
}

/// How many interfaces are declared before a class.
fn interfaces_before(interfaces: &[Interface], class: usize) -> usize
    ensures value { result
        ≡ count_by (λ i. nat_le i.classes_before class) (map interface_of interfaces.now) }
{
    interfaces
        .iter()
        .filter(|interface| interface.classes_before <= class)
        .count()
}

/// The place of a class in the source, where classes and interfaces count together.
fn place_of_class(tree: &Module, class: usize) -> Result<usize, AllocError>
    ensures value { IfOk result (λ place. place ≡ place_of_class (module_of tree.now) class) }
{
    // No memory holds so many classes that the place is too great.
    class
        .checked_add(interfaces_before(&tree.interfaces, class))
        .ok_or(AllocError)
}

/// The place of an interface in the source.
fn place_of_interface(tree: &Module, interface: usize) -> Result<usize, AllocError>
    ensures value { IfOk result (λ place. place
        ≡ place_of_interface (module_of tree.now) interface) }
{
    let before = match tree.interfaces.get(interface) {
        Some(found) => found.classes_before,
        None => 0,
    };
    // No memory holds so many classes that the place is too great.
    interface.checked_add(before).ok_or(AllocError)
}

/// Whether this is the place of a class in the source.
fn is_place_of(tree: &Module, class: usize, place: usize) -> bool
    ensures value { result ≡ nat_eq place (place_of_class (module_of tree.now) class) }
{
    match class.checked_add(interfaces_before(&tree.interfaces, class)) {
        Some(own) => place == own,
        None => false,
    }
}

/// The first of so many classes that has this place in the source.
fn first_at(tree: &Module, count: usize, place: usize) -> Option<usize>
    ensures value { result
        ≡ position_from (nat_eq place) 0 (map (place_of_class (module_of tree.now))
        (range_with_len 0 count)) }
{
    for class in 0..count {
        if is_place_of(tree, class, place) {
            return Some(class);
        }
    }
    None
}

/// The class of this place in the source, by its place among the classes.
fn class_at_place(tree: &Module, place: usize) -> Option<usize>
    ensures value { result ≡ position (nat_eq place) (places_of_classes (module_of tree.now)) }
{
    first_at(tree, tree.classes.len(), place)
}

/// How a class implements an interface, where it lists it.
fn implementation_in(tree: &Module, class: usize, interface: usize) -> Option<&Implementation>
    ensures value { option_map (λ i. implementation_of i.now) result
        ≡ implementation_in (module_of tree.now) class interface }
{
    let class = tree.classes.get(class)?;
    find_implementation(&class.interfaces, interface)
}

fn find_implementation(all: &[Implementation], interface: usize) -> Option<&Implementation>
    ensures value { option_map (λ i. implementation_of i.now) result
        ≡ find (λ i. nat_eq i.interface interface) (map implementation_of all.now) }
{
    for one in all {
        if one.interface == interface {
            return Some(one);
        }
    }
    None
}

/// The method that a class has for a method of an interface.
pub fn implemented(tree: &Module, interface: usize, method: usize, class: usize) -> Option<usize>
    ensures method { result ≡ implemented (module_of tree.now) interface method class }
{
    let implementation = implementation_in(tree, class, interface)?;
    implementation.methods.get(method).copied()
}

/// Whether the objects of a class are of this type.
fn is_class_of(tree: &Module, of: ObjectType, class: usize) -> bool
    ensures value { result ≡ is_class_of (module_of tree.now) of class }
{
    match of {
        ObjectType::Class(other) => class == other,
        ObjectType::Interface(interface) => implementation_in(tree, class, interface).is_some(),
        ObjectType::Host(_) | ObjectType::Array(_) => false,
    }
}

/// The fields of a new object.
fn blank_fields(alloc: Global, fields: &[Initialization]) -> Result<Vec<Word>, AllocError>
    ensures value { IfOk result (λ words. words.items
        ≡ map (λ v. zero_of v.of) (map value_of fields.now)) }
{
    let mut words = Vec::with_capacity(alloc, fields.len())?;
    for field in fields {
        words.push(zero_of(field.of))?;
    }
    Ok(words)
}

impl Program<'_> {
    /// The class of an object, by its place among those of the module; none where it is of no class of this module.
    pub fn class_of(&self, object: &Object) -> Option<usize>
        ensures class { result ≡ class_of (program_seen self.now) (object_seen object.now) }
    {
        match object {
            Object::Script { owner, place, .. } if owner.as_str() == self.name => {
                class_at_place(self.tree, *place)
            }
            _ => None,
        }
    }

    /// Whether an object is of a class or an interface.
    pub fn is_object_of(&self, of: ObjectType, object: &Object) -> bool
        ensures of_type { result
            ≡ is_object_of (program_seen self.now) of (object_seen object.now) }
    {
        match self.class_of(object) {
            Some(class) => is_class_of(self.tree, of, class),
            None => false,
        }
    }

    fn handles_at(&self, place: usize) -> Result<Elements, AllocError>
        ensures value { IfOk result (λ of. element_seen of ≡ Handles self.now.name.now place) }
    {
        let owner = String::from_str(self.alloc, self.name)?;
        Ok(Elements::Handles { owner, place })
    }

    /// What the elements of an array are of, as the array says it.
    pub fn element_of(&self, of: TypedElement) -> Result<Elements, AllocError>
        ensures element { IfOk result (λ seen. element_seen seen
            ≡ element_of (program_seen self.now) of) }
    {
        match of {
            TypedElement::Bool => Ok(Elements::Bools),
            TypedElement::Integer(IntType::Int) => Ok(Elements::Ints),
            TypedElement::Integer(IntType::Uint) => Ok(Elements::Uints),
            TypedElement::Integer(IntType::Int64) => Ok(Elements::Int64s),
            TypedElement::Integer(IntType::Uint64) => Ok(Elements::Uint64s),
            TypedElement::Class(class) => {
                let place = place_of_class(self.tree, class)?;
                self.handles_at(place)
            }
            TypedElement::Interface(interface) => {
                let place = place_of_interface(self.tree, interface)?;
                self.handles_at(place)
            }
            TypedElement::Host(kind) => Ok(Elements::Hosts(kind)),
        }
    }

    /// A new object of a class, with nothing in its fields.
    pub fn blank(&self, place: usize, class: &Class) -> Result<Object, AllocError>
        ensures zeros { IfOk result (λ object. object_seen object
            ≡ blank (program_seen self.now) place (class_seen class.now)) }
    {
        let place = place_of_class(self.tree, place)?;
        let owner = String::from_str(self.alloc, self.name)?;
        let fields = blank_fields(self.alloc, &class.fields)?;
        Ok(Object::Script {
            owner,
            place,
            fields,
        })
    }
}
