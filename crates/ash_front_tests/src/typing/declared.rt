//! What is declared where expressions are checked by themselves.

use crate::compare::NO_MEMORY;
use ash_check_names::{Binding, ClassSignature, FunctionSignature, InterfaceSignature, Signatures};
use ash_type_rules::Ty;
use ash_typed::{Element, IntType, ObjectType};
use std::alloc::{AllocError, Global};
use std::panic::Expect;
use std::process::Abort;

const INT: Ty = Ty::Integer(IntType::Int);

const NODE: Ty = Ty::Handle(ObjectType::Class(0));

const SHAPE: Ty = Ty::Handle(ObjectType::Interface(0));

/// A function or a method: its name, its result and its parameters.
type Signature = (&'static str, Ty, &'static [Ty]);

// `interface Shape { int get(int k); }`, and
// `class Node : Shape { int v; Node@ next; Node(int k) {} int get(int k) {..} }`
const FIELDS: &[Binding<'static>] = &[
    Binding { name: "v", of: INT },
    Binding {
        name: "next",
        of: NODE,
    },
];

const METHOD: Signature = ("get", INT, &[INT]);

// `int a; uint u; int64 l; bool b; Node@ h; Node o(1); Shape@ s; array<int> r; array<Node@>@ t;` and
// `void g(int k, bool c) {}`, beside these two.
const GLOBALS: &[Binding<'static>] = &[
    Binding { name: "a", of: INT },
    Binding {
        name: "u",
        of: Ty::Integer(IntType::Uint),
    },
    Binding {
        name: "l",
        of: Ty::Integer(IntType::Int64),
    },
    Binding {
        name: "b",
        of: Ty::Bool,
    },
    Binding {
        name: "h",
        of: NODE,
    },
    Binding {
        name: "o",
        of: Ty::Object(ObjectType::Class(0)),
    },
    Binding {
        name: "s",
        of: SHAPE,
    },
    Binding {
        name: "r",
        of: Ty::Object(ObjectType::Array(Element::Integer(IntType::Int))),
    },
    Binding {
        name: "t",
        of: Ty::Handle(ObjectType::Array(Element::Class(0))),
    },
];

const FUNCTION: Signature = ("g", Ty::Void, &[INT, Ty::Bool]);

/// A list of this alone.
fn alone<T: Drop>(rt: &impl Abort, alloc: Global, item: T) -> Vec<T> {
    let mut found = Vec::new(alloc);
    found.push(item).expect(rt, NO_MEMORY);
    found
}

/// The function or the method of this signature alone.
fn functions(
    rt: &impl Abort,
    alloc: Global,
    signature: &Signature,
) -> Vec<FunctionSignature<'static>> {
    let (name, result, parameters) = *signature;
    let parameters = Vec::from_slice(alloc, parameters).expect(rt, NO_MEMORY);
    let function = FunctionSignature {
        name,
        result,
        parameters,
    };
    alone(rt, alloc, function)
}

/// The interface alone.
fn interfaces(rt: &impl Abort, alloc: Global) -> Vec<InterfaceSignature<'static>> {
    let interface = InterfaceSignature {
        name: "Shape",
        methods: functions(rt, alloc, &METHOD),
    };
    alone(rt, alloc, interface)
}

/// The class alone.
fn classes(rt: &impl Abort, alloc: Global) -> Vec<ClassSignature<'static>> {
    let class = ClassSignature {
        name: "Node",
        interfaces: Vec::from_slice(alloc, &[0]).expect(rt, NO_MEMORY),
        fields: Vec::from_slice(alloc, FIELDS).expect(rt, NO_MEMORY),
        methods: functions(rt, alloc, &METHOD),
        parameters: Vec::from_slice(alloc, &[INT]).expect(rt, NO_MEMORY),
    };
    alone(rt, alloc, class)
}

/// The interface, the class, the function and the globals.
fn declared(rt: &impl Abort, alloc: Global) -> Result<Signatures<'static>, AllocError> {
    let interfaces = interfaces(rt, alloc);
    let classes = classes(rt, alloc);
    let functions = functions(rt, alloc, &FUNCTION);
    let globals = Vec::from_slice(alloc, GLOBALS)?;
    Signatures::new(alloc, interfaces, classes, functions, globals)
}

/// The interface, the class, the function and the globals. They are boxed, so that no function that has them carries
/// their parts.
pub(crate) fn module_signatures(rt: &impl Abort, alloc: Global) -> Box<Signatures<'static>> {
    let signatures = declared(rt, alloc).expect(rt, NO_MEMORY);
    Box::new(alloc, signatures).expect(rt, NO_MEMORY)
}
