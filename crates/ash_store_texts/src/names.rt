//! What the source of a module declares, by name.

use ash_lex::{LexFault, Token, lex};
use ash_parse::{ParseFault, parse_module};
use ash_tree::{
    Class, Element, ElementKind, Function, Item, Member, Module, Primitive, Type, TypeKind, Vars,
};
use std::alloc::{AllocError, Global};
use std::str;

/// A variable: its type and its name.
#[derive(Debug, Drop)]
pub struct Variable {
    pub type_name: String,
    pub name: String,
}

/// A class or an interface: its name and its fields.
#[derive(Debug, Drop)]
pub struct DeclaredType {
    pub name: String,
    pub fields: Vec<Variable>,
}

/// What the source of a module declares. Of a source that can't be read it is nothing.
#[derive(Debug, Drop)]
pub struct Declared {
    pub globals: Vec<Variable>,
    /// Functions as they are declared, without their bodies.
    pub functions: Vec<String>,
    /// Classes and interfaces, by their index in the source.
    pub types: Vec<DeclaredType>,
}

fn primitive_name(primitive: Primitive) -> &'static str {
    match primitive {
        Primitive::Bool => "bool",
        Primitive::Int => "int",
        Primitive::Int64 => "int64",
        Primitive::Uint => "uint",
        Primitive::Uint64 => "uint64",
    }
}

fn element_name(alloc: Global, element: &Element) -> Result<String, AllocError> {
    match &element.kind {
        ElementKind::Primitive(primitive) => String::from_str(alloc, primitive_name(*primitive)),
        ElementKind::Handle(name) => format!(in alloc; "{name}@"),
    }
}

/// A type as it is written.
fn type_name(alloc: Global, of: &Type) -> Result<String, AllocError> {
    match &of.kind {
        TypeKind::Primitive(primitive) => String::from_str(alloc, primitive_name(*primitive)),
        TypeKind::Object(name) => name.clone(),
        TypeKind::Handle(name) => format!(in alloc; "{name}@"),
        TypeKind::Array(element) => {
            let element = element_name(alloc, element)?;
            format!(in alloc; "array<{element}>")
        }
        TypeKind::ArrayHandle(element) => {
            let element = element_name(alloc, element)?;
            format!(in alloc; "array<{element}>@")
        }
    }
}

/// Adds the variables of a declaration.
fn add_variables(alloc: Global, into: &mut Vec<Variable>, vars: &Vars) -> Result<(), AllocError> {
    for decl in &vars.decls {
        into.push(Variable {
            type_name: type_name(alloc, &vars.of)?,
            name: decl.name.clone()?,
        })?;
    }
    Ok(())
}

/// Adds the parameters of a function to its text, with a comma between them.
fn add_parameters(alloc: Global, text: &mut String, function: &Function) -> Result<(), AllocError> {
    let mut separator = "";
    for parameter in &function.parameters {
        text.push_str(separator)?;
        text.push_str(&type_name(alloc, &parameter.of)?)?;
        text.push_str(" ")?;
        text.push_str(&parameter.name)?;
        separator = ", ";
    }
    Ok(())
}

/// A function as it is declared, without its body.
fn function_text(alloc: Global, function: &Function) -> Result<String, AllocError> {
    let mut text = match &function.result {
        Some(of) => type_name(alloc, of)?,
        None => String::from_str(alloc, "void")?,
    };
    text.push_str(" ")?;
    text.push_str(&function.name)?;
    text.push_str("(")?;
    add_parameters(alloc, &mut text, function)?;
    text.push_str(")")?;
    Ok(text)
}

/// The fields of a class, in order of declaration.
fn fields_of(alloc: Global, class: &Class) -> Result<Vec<Variable>, AllocError> {
    let mut fields = Vec::new(alloc);
    for member in &class.members {
        if let Member::Vars(vars) = member {
            add_variables(alloc, &mut fields, vars)?;
        }
    }
    Ok(fields)
}

fn add_item(alloc: Global, declared: &mut Declared, item: &Item) -> Result<(), AllocError> {
    match item {
        Item::Class(class) => {
            let fields = fields_of(alloc, class)?;
            let name = class.name.clone()?;
            declared.types.push(DeclaredType { name, fields })?;
        }
        Item::Interface(interface) => {
            let fields = Vec::new(alloc);
            let name = interface.name.clone()?;
            declared.types.push(DeclaredType { name, fields })?;
        }
        Item::Function(function) => declared.functions.push(function_text(alloc, function)?)?,
        Item::Vars(vars) => add_variables(alloc, &mut declared.globals, vars)?,
    }
    Ok(())
}

fn declared_by(alloc: Global, module: &Module) -> Result<Declared, AllocError> {
    let mut declared = Declared {
        globals: Vec::new(alloc),
        functions: Vec::new(alloc),
        types: Vec::new(alloc),
    };
    for item in &module.items {
        add_item(alloc, &mut declared, item)?;
    }
    Ok(declared)
}

/// The tokens of a source. None if it has a fault.
fn tokens_of(alloc: Global, source: &[u8]) -> Result<Vec<Token>, AllocError> {
    let Ok(text) = str::from_utf8(source) else {
        return Ok(Vec::new(alloc));
    };
    match lex(alloc, text) {
        Ok(tokens) => Ok(tokens),
        Err(LexFault::NoMemory) => Err(AllocError),
        Err(_) => Ok(Vec::new(alloc)),
    }
}

/// What the source of a module declares.
pub fn declared_in(alloc: Global, source: &[u8]) -> Result<Declared, AllocError> {
    let tokens = tokens_of(alloc, source)?;
    match parse_module(alloc, &tokens) {
        Ok(module) => declared_by(alloc, &module),
        Err(ParseFault::NoMemory) => Err(AllocError),
        Err(_) => declared_by(
            alloc,
            &Module {
                items: Vec::new(alloc),
            },
        ),
    }
}
