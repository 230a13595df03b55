//! Expressions by themselves, each as the value of `int z`: their types, their faults, and what operators take their
//! operands for.

use crate::compare::NO_MEMORY;
use crate::typing::declared::module_signatures;
use crate::typing::sources::{Question, check_rows, coded, or_empty, printed, tree_of};
use ash_check::ScriptError;
use ash_check_expressions::{AssignmentSide, TypedExpr, check_expr};
use ash_check_names::{Environment, Signatures};
use ash_registrations::Registrations;
use ash_tree as written;
use ash_tree::{Initializer, Item, Module, Vars};
use ash_typed::{Expr, ExprKind, Operands, Operation};
use std::alloc::Global;
use std::fmt::Debug;
use std::panic::Expect;
use std::process::Abort;

/// What is asked of a value.
#[derive(Clone, Copy)]
pub(crate) enum ValueQuestion {
    /// Its type.
    Type,
    /// What its last operator takes its operands for.
    Operands,
}

/// A value as it is printed for programmers, or nothing where memory is refused.
fn debugged<T: Debug>(alloc: Global, value: &T) -> String {
    or_empty(alloc, format!(in alloc; "{value:?}"))
}

/// The variables that a tree begins with.
fn variables_in(tree: &Module) -> Option<&Vars> {
    match tree.items.first()? {
        Item::Vars(vars) => Some(vars),
        _ => None,
    }
}

/// The value of the first variable in a tree.
fn value_in(tree: &Module) -> Option<&written::Expr> {
    match &variables_in(tree)?.decls.first()?.initializer {
        Initializer::Value(value) => Some(value),
        _ => None,
    }
}

fn compared(operation: Operation) -> Operands {
    match operation {
        Operation::Calculate(calculation) => Operands::Integers(calculation.of),
        Operation::Compare(_, operands) => operands,
    }
}

/// What the last operator takes its operands for.
fn operands_in(tree: &Expr) -> Option<Operands> {
    match &*tree.kind {
        ExprKind::Chain { operands, .. } => Some(compared(operands.last()?.operation)),
        ExprKind::Lazy { .. } => Some(Operands::Bools),
        ExprKind::Update { calculation, .. } => Some(Operands::Integers(calculation.of)),
        _ => None,
    }
}

/// What the last operator of a typed value takes its operands for, as it is printed.
fn shown_operands(alloc: Global, tree: &Expr) -> String {
    match operands_in(tree) {
        Some(operands) => debugged(alloc, &operands),
        None => printed(alloc, &"no operator"),
    }
}

/// The answer to a question about a typed value.
fn answer_of(alloc: Global, question: ValueQuestion, typed: &TypedExpr) -> String {
    match question {
        ValueQuestion::Type => debugged(alloc, &typed.ty),
        ValueQuestion::Operands => shown_operands(alloc, &typed.tree),
    }
}

/// The answer to a question about a value in an environment, or the fault of the value.
fn answer_in(env: &Environment, question: ValueQuestion, value: &written::Expr) -> String {
    match check_expr(env, AssignmentSide::Value, value) {
        Ok(typed) => answer_of(env.alloc, question, &typed),
        Err(error) => coded(env.alloc, &ScriptError::from(error)),
    }
}

/// The answer to a question about a value, where these are declared and registered, or the fault of the value.
fn answer_where(
    alloc: Global,
    signatures: &Signatures,
    registry: &Registrations,
    question: ValueQuestion,
    value: &written::Expr,
) -> String {
    let env = Environment {
        alloc,
        signatures,
        registry,
        this: None,
        locals: &[],
    };
    answer_in(&env, question, value)
}

/// The answer to a question about a value, where the globals are declared and nothing is registered, or the fault of
/// the value.
fn answer_declared(
    rt: &impl Abort,
    alloc: Global,
    question: ValueQuestion,
    value: &written::Expr,
) -> String {
    let signatures = module_signatures(rt, alloc);
    let registry = Box::new(alloc, Registrations::new(alloc)).expect(rt, NO_MEMORY);
    answer_where(alloc, &signatures, &registry, question, value)
}

/// The answer to a question about the value of a tree's first variable, or why there is none.
fn answer_in_tree(
    rt: &impl Abort,
    alloc: Global,
    question: ValueQuestion,
    tree: &Module,
) -> String {
    match value_in(tree) {
        Some(value) => answer_declared(rt, alloc, question, value),
        None => printed(alloc, &"no value"),
    }
}

/// The answer to a question about the value of a source's variable, or why there is none.
pub(crate) fn answer_of_value(
    rt: &impl Abort,
    alloc: Global,
    question: ValueQuestion,
    source: &str,
) -> String {
    match tree_of(alloc, source) {
        Ok(tree) => answer_in_tree(rt, alloc, question, &tree),
        Err(fault) => fault,
    }
}

const TYPES_OF_EXPRESSIONS: &str = "
    Integer(Int) | int z = 5;
    Integer(Uint) | int z = 4294967295;
    Integer(Int64) | int z = 4294967296;
    Integer(Uint64) | int z = 9223372036854775808;
    Integer(Int) | int z = a + u;
    Integer(Int64) | int z = a + l;
    Integer(Uint) | int z = u / 5;
    Integer(Int) | int z = u / (5);
    Integer(Int64) | int z = 1 + l;
    Integer(Uint) | int z = u << l;
    Integer(Int) | int z = 5 >> l;
    Integer(Int) | int z = -u;
    Integer(Uint) | int z = ~u;
    Bool | int z = !b;
    Bool | int z = a < l;
    Bool | int z = b == b;
    Bool | int z = b ^^ b && b;
    Bool | int z = h is null;
    Bool | int z = null is null;
    Bool | int z = h !is o;
    Integer(Int64) | int z = b ? a : l;
    Handle(Class(0)) | int z = b ? h : null;
    Integer(Int) | int z = (a) = 1;
    Handle(Class(0)) | int z = @h = o;
    Handle(Class(0)) | int z = @h = null;
    Handle(Class(0)) | int z = @o;
    Integer(Uint) | int z = u += l;
    Integer(Uint) | int z = ++u;
    Integer(Int) | int z = a++;
    Void | int z = g(1, b);
    Handle(Class(0)) | int z = Node(1);
    Integer(Int) | int z = h.v;
    Integer(Int) | int z = h.get(l);
    Integer(Int) | int z = h.next.next.v = 4;
    Integer(Int) | int z = h.next.v++;
    Integer(Uint) | int z = uint(l);
    Bool | int z = bool(b);
    ";

const TYPES_BY_INTERFACES: &str = "
    Handle(Interface(0)) | int z = @s;
    Handle(Interface(0)) | int z = @s = h;
    Handle(Interface(0)) | int z = @s = o;
    Handle(Interface(0)) | int z = b ? s : null;
    Integer(Int) | int z = s.get(l);
    Bool | int z = s is h;
    Bool | int z = r !is s;
    Handle(Class(0)) | int z = cast<Node>(s);
    Handle(Interface(0)) | int z = cast<Shape>(o);
    Handle(Class(0)) | int z = cast<Node>(r);
    Integer(Int) | int z = cast<Node>(s).v++;
    ";

const TYPES_OF_ARRAYS: &str = "
    Handle(Array(Integer(Int))) | int z = @r;
    Handle(Array(Class(0))) | int z = @t = null;
    Handle(Array(Integer(Int))) | int z = array<int32>();
    Handle(Array(Bool)) | int z = array<bool>(l);
    Handle(Array(Class(0))) | int z = b ? t : array<Node@>();
    Handle(Array(Interface(0))) | int z = array<Shape@>(2);
    Integer(Uint) | int z = r.length();
    Void | int z = r.resize(a);
    Void | int z = r.insertLast(l);
    Void | int z = t.insertLast(o);
    Void | int z = t.removeLast();
    Bool | int z = t.isEmpty();
    Integer(Int) | int z = r[l];
    Integer(Int) | int z = r[0] += l;
    Integer(Int) | int z = r[r[0]]++;
    Handle(Class(0)) | int z = t[u];
    Handle(Class(0)) | int z = @t[0] = o;
    Integer(Int) | int z = t[0].next.v;
    Bool | int z = array<bool>(1)[0];
    ";

#[test]
fn types_of_expressions(rt: HostRuntime) {
    check_rows(&rt, rt.alloc(), Question::Type, TYPES_OF_EXPRESSIONS)
}

#[test]
fn types_by_interfaces(rt: HostRuntime) {
    check_rows(&rt, rt.alloc(), Question::Type, TYPES_BY_INTERFACES)
}

#[test]
fn types_of_arrays(rt: HostRuntime) {
    check_rows(&rt, rt.alloc(), Question::Type, TYPES_OF_ARRAYS)
}

const FAULTS_OF_EXPRESSIONS: &str = "
    301 UnknownName 8 | int z = q;
    304 TypeMismatch 8 | int z = true + 1;
    304 TypeMismatch 12 | int z = 1 + true;
    304 TypeMismatch 8 | int z = null == h;
    304 TypeMismatch 13 | int z = 1 == true;
    304 TypeMismatch 8 | int z = true + 1 + zz;
    304 TypeMismatch 9 | int z = -true;
    304 TypeMismatch 9 | int z = !1;
    304 TypeMismatch 9 | int z = ~b;
    304 TypeMismatch 8 | int z = b << 1;
    304 TypeMismatch 13 | int z = b && a;
    304 TypeMismatch 8 | int z = b < b;
    304 TypeMismatch 13 | int z = h is a;
    304 TypeMismatch 8 | int z = a is h;
    304 TypeMismatch 16 | int z = b ? a : true;
    304 TypeMismatch 8 | int z = a ? a : a;
    304 TypeMismatch 19 | int z = b ? null : null;
    306 NotAssignable 8 | int z = 1 = 2;
    301 UnknownName 12 | int z = 1 = zz;
    306 NotAssignable 8 | int z = h = h;
    306 NotAssignable 8 | int z = @o = h;
    306 NotAssignable 8 | int z = @a = h;
    304 TypeMismatch 13 | int z = @h = a;
    306 NotAssignable 8 | int z = (@h) = o;
    304 TypeMismatch 9 | int z = @null;
    304 TypeMismatch 12 | int z = a = true;
    304 TypeMismatch 8 | int z = b &= b;
    306 NotAssignable 8 | int z = h += 1;
    306 NotAssignable 8 | int z = +a = 1;
    304 TypeMismatch 10 | int z = ++b;
    306 NotAssignable 10 | int z = ++5;
    306 NotAssignable 8 | int z = 5++;
    304 TypeMismatch 8 | int z = b--;
    305 WrongArgumentCount 8 | int z = g(1);
    304 TypeMismatch 10 | int z = g(true, b);
    304 TypeMismatch 8 | int z = g(1, b) + 1;
    301 UnknownName 13 | int z = g(1, zz);
    301 UnknownName 8 | int z = nope(zz);
    305 WrongArgumentCount 8 | int z = Node();
    301 UnknownName 10 | int z = h.w;
    304 TypeMismatch 8 | int z = a.v;
    301 UnknownName 10 | int z = h.get;
    301 UnknownName 10 | int z = h.v(1);
    301 UnknownName 10 | int z = h.nope(zz);
    304 TypeMismatch 8 | int z = 5.m(zz);
    304 TypeMismatch 14 | int z = h.get(true);
    305 WrongArgumentCount 10 | int z = h.get();
    304 TypeMismatch 8 | int z = h.v.v;
    304 TypeMismatch 8 | int z = h.next++;
    308 Misplaced 8 | int z = this;
    304 TypeMismatch 12 | int z = int(b);
    304 TypeMismatch 13 | int z = bool(1);
    306 NotAssignable 8 | int z = int(a) = 1;
    304 TypeMismatch 13 | int z = @h = s;
    304 TypeMismatch 16 | int z = b ? h : s;
    301 UnknownName 10 | int z = s.v;
    305 WrongArgumentCount 10 | int z = s.get();
    302 UnknownType 13 | int z = cast<Nope>(h);
    304 TypeMismatch 19 | int z = cast<Node>(null);
    302 UnknownType 14 | int z = array<Nope@>();
    305 WrongArgumentCount 8 | int z = array<int>(1, 2);
    304 TypeMismatch 19 | int z = array<int>(true);
    304 TypeMismatch 13 | int z = r is t;
    301 UnknownName 10 | int z = r.push(1);
    305 WrongArgumentCount 10 | int z = r.resize();
    304 TypeMismatch 21 | int z = r.insertLast(b);
    304 TypeMismatch 10 | int z = r[b];
    304 TypeMismatch 8 | int z = h[0];
    306 NotAssignable 8 | int z = t[0] = h;
    304 TypeMismatch 16 | int z = @t[0] = s;
    ";

#[test]
fn faults_of_expressions(rt: HostRuntime) {
    check_rows(&rt, rt.alloc(), Question::Type, FAULTS_OF_EXPRESSIONS)
}

// A number alone takes the type of the other operand where that holds it; one in brackets is not alone.
const OPERANDS_OF_OPERATORS: &str = "
    Integers(Uint) | int z = u / 5;
    Integers(Uint) | int z = 5 / u;
    Integers(Int) | int z = u / (5);
    Integers(Int) | int z = (5) / u;
    Integers(Uint) | int z = u > 1;
    Integers(Int) | int z = u > (1);
    Integers(Int) | int z = a < u;
    Integers(Int) | int z = u < a;
    Integers(Int) | int z = u == a;
    Integers(Int64) | int z = u < l;
    Integers(Uint) | int z = u /= 5;
    Integers(Int) | int z = u /= (5);
    Integers(Int) | int z = u %= a;
    Integers(Uint) | int z = u << 5;
    Integers(Int) | int z = 5 << u;
    Integers(Uint) | int z = u >>= l;
    Integers(Int) | int z = 1 + 2;
    Integers(Int) | int z = 1 + 4294967295;
    Integers(Int) | int z = a + 4294967295;
    Integers(Uint) | int z = u + 4294967295;
    Integers(Int64) | int z = u + 4294967296;
    Integers(Int64) | int z = l + 5;
    Integers(Int) | int z = -5 / u;
    Integers(Uint) | int z = u + 1 + 5;
    Integers(Int) | int z = u + (1) + 5;
    Bools | int z = b == b;
    Bools | int z = b && b;
    Handles | int z = h is null;
    Handles | int z = s is h;
    Integers(Uint) | int z = r.length() + 5;
    Integers(Int) | int z = r[0] += u;
    ";

#[test]
fn operands_of_operators(rt: HostRuntime) {
    check_rows(&rt, rt.alloc(), Question::Operands, OPERANDS_OF_OPERATORS)
}
