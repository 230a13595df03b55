//! What a module declares, with an index of the names of each kind.

ghost use Rattle.std.specs.Prelude.{map};
ghost use Rattle.ash_check_names.specs.NameIndex.{IsNameIndex};

use crate::name_index::{NameIndex, indexes_of, item_at};
use ash_type_rules::Ty;
use std::alloc::{AllocError, Global};

/// A variable, a parameter or a field.
#[derive(Clone, Copy)]
pub struct Binding<'a> {
    pub name: &'a str,
    pub of: Ty,
}

/// A function or a method, whose result is `Void` where it has none.
#[derive(Drop)]
pub struct FunctionSignature<'a> {
    pub name: &'a str,
    pub result: Ty,
    pub parameters: Vec<Ty>,
}

/// An interface, with the methods that it declares.
#[derive(Drop)]
pub struct InterfaceSignature<'a> {
    pub name: &'a str,
    pub methods: Vec<FunctionSignature<'a>>,
}

/// A class, with the places of the interfaces that it lists, and the parameters that its construction
/// takes.
#[derive(Drop)]
pub struct ClassSignature<'a> {
    pub name: &'a str,
    pub interfaces: Vec<usize>,
    pub fields: Vec<Binding<'a>>,
    pub methods: Vec<FunctionSignature<'a>>,
    pub parameters: Vec<Ty>,
}

/// What a module declares, with indexes of its names.
#[derive(Drop)]
pub struct Signatures<'a> {
    pub interfaces: Vec<InterfaceSignature<'a>>,
    pub classes: Vec<ClassSignature<'a>>,
    pub functions: Vec<FunctionSignature<'a>>,
    pub globals: Vec<Binding<'a>>,
    interface_index: NameIndex<'a>,
    class_index: NameIndex<'a>,
    function_index: NameIndex<'a>,
    global_index: NameIndex<'a>,
    ghost interfaces_indexed: { IsNameIndex interface_index
        (map (λ i. i.name.now) interfaces.items) },
    ghost classes_indexed: { IsNameIndex class_index (map (λ c. c.name.now) classes.items) },
    ghost functions_indexed: { IsNameIndex function_index (map (λ f. f.name.now) functions.items) },
    ghost globals_indexed: { IsNameIndex global_index (map (λ v. v.name.now) globals.items) },
}

impl<'a> Signatures<'a> {
    ghost use Rattle.std.specs.Prelude.{◌≡◌, option_map, IfOk};
    ghost use Rattle.ash_type_rules.specs.Environment as environment;
    ghost use Rattle.ash_check_names.specs.EnvironmentViews.{binding_of, function_signature_of};
    ghost use Rattle.ash_check_names.specs.EnvironmentViews.{interface_signature_of};
    ghost use Rattle.ash_check_names.specs.EnvironmentViews.{class_signature_of, placed_type, placed_function};
    ghost use Rattle.ash_check_names.specs.EnvironmentViews.{placed_interface, placed_class};

    /// Takes what a module declares, and makes an index of each kind, by name: the first of a name is found. `Err` is
    /// that memory was refused for the indexes; what was declared is dropped then.
    pub fn new(
        alloc: Global,
        interfaces: Vec<InterfaceSignature<'a>>,
        classes: Vec<ClassSignature<'a>>,
        functions: Vec<FunctionSignature<'a>>,
        globals: Vec<Binding<'a>>,
    ) -> Result<Signatures<'a>, AllocError>
        ensures interfaces { IfOk result (λ h. h.interfaces.items ≡ interfaces.entry.items) }
        ensures classes { IfOk result (λ h. h.classes.items ≡ classes.entry.items) }
        ensures functions { IfOk result (λ h. h.functions.items ≡ functions.entry.items) }
        ensures globals { IfOk result (λ h. h.globals.items ≡ globals.entry.items) }
    {
        let indexes = indexes_of(alloc, &interfaces, &classes, &functions, &globals)?;
        Ok(Signatures {
            interfaces,
            classes,
            functions,
            globals,
            interface_index: indexes.interfaces,
            class_index: indexes.classes,
            function_index: indexes.functions,
            global_index: indexes.globals,
        })
    }

    /// The first interface of this name, with its place.
    pub fn interface(&self, name: &str) -> Option<(usize, &InterfaceSignature<'a>)>
        ensures interface_found { option_map placed_interface result
            ≡ environment.first_from (environment.is_interface_named name.now) 0
            (map interface_signature_of self.now.interfaces.items) }
    {
        let place = *self.interface_index.get(name)?;
        let interface = item_at(&self.interfaces, place)?;
        Some((place, interface))
    }

    /// The first class of this name, with its place.
    pub fn class(&self, name: &str) -> Option<(usize, &ClassSignature<'a>)>
        ensures class_found { option_map placed_class result
            ≡ environment.first_from (environment.is_class name.now) 0
            (map class_signature_of self.now.classes.items) }
    {
        let place = *self.class_index.get(name)?;
        let class = item_at(&self.classes, place)?;
        Some((place, class))
    }

    /// The first function of this name, with its place.
    pub(crate) fn function(&self, name: &str) -> Option<(usize, &FunctionSignature<'a>)>
        ensures value { option_map placed_function result
            ≡ environment.first_from (environment.is_called name.now) 0
            (map function_signature_of self.now.functions.items) }
    {
        let place = *self.function_index.get(name)?;
        let function = item_at(&self.functions, place)?;
        Some((place, function))
    }

    /// The first global of this name, with its place.
    pub(crate) fn global(&self, name: &str) -> Option<(usize, Ty)>
        ensures value { result
            ≡ option_map placed_type
            (environment.first_from (environment.declares name.now) 0
            (map binding_of self.now.globals.items)) }
    {
        let place = *self.global_index.get(name)?;
        let global = item_at(&self.globals, place)?;
        Some((place, global.of))
    }
}
