//! Trees of items, written out by hand.

use crate::trees::check_items;

static ITEMS: [(&str, &str); 2] = [
    (
        "; class A { int a, b = 1; A(int x) { } A@ m() { return null; } };",
        "Class(Class { @8, name: \"A\", interfaces: [], \
                members: [Vars(Vars { of: Type { @12, Primitive(Int) }, decls: [Decl { @16, name: \"a\", \
                initializer: Default }, Decl { @19, name: \"b\", \
                initializer: Value(Expr { @23, Number(1) }) }] }), \
                Constructor(Constructor { @26, name: \"A\", \
                parameters: [Parameter { of: Type { @28, Primitive(Int) }, @32, name: \"x\" }], body: [] }), \
                Function(Function { @42, result: Some(Type { @39, Handle(\"A\") }), name: \"m\", \
                parameters: [], body: [Stmt { @48, Return(Some(Expr { @55, Null })) }] })] })",
    ),
    // a function, or a variable with arguments
    (
        "Foo f(Bar b) {} Foo f(b); Foo g();",
        "Function(Function { @4, result: Some(Type { @0, Object(\"Foo\") }), name: \"f\", \
                parameters: [Parameter { of: Type { @6, Object(\"Bar\") }, @10, name: \"b\" }], body: [] }), \
                Vars(Vars { of: Type { @16, Object(\"Foo\") }, decls: [Decl { @20, name: \"f\", \
                initializer: Arguments([Expr { @22, Name(\"b\") }]) }] }), \
                Vars(Vars { of: Type { @26, Object(\"Foo\") }, decls: [Decl { @30, name: \"g\", \
                initializer: Arguments([]) }] })",
    ),
];

#[test]
fn items(rt: HostRuntime) {
    check_items(&rt, rt.alloc(), &ITEMS)
}

static INTERFACES_AND_ARRAYS: [(&str, &str); 4] = [
    // an interface, and a class that lists two
    (
        "interface I { int v(); } class A : I, J { }",
        "Interface(Interface { @10, name: \"I\", \
                methods: [InterfaceMethod { @18, result: Some(Type { @14, Primitive(Int) }), name: \"v\", \
                parameters: [] }] }), Class(Class { @31, name: \"A\", \
                interfaces: [TypeName { @35, name: \"I\" }, TypeName { @38, name: \"J\" }], members: [] })",
    ),
    // arrays, and handles of them
    (
        "array<int> a; array<Foo@>@ b;",
        "Vars(Vars { of: Type { @0, Array(Element { @6, Primitive(Int) }) }, \
                decls: [Decl { @11, name: \"a\", initializer: Default }] }), \
                Vars(Vars { of: Type { @14, ArrayHandle(Element { @20, Handle(\"Foo\") }) }, \
                decls: [Decl { @27, name: \"b\", initializer: Default }] })",
    ),
    (
        "void f(array<bool>@ a) { array<uint64> b(2); }",
        "Function(Function { @5, result: None, name: \"f\", \
                parameters: [Parameter { of: Type { @7, ArrayHandle(Element { @13, Primitive(Bool) }) }, \
                @20, name: \"a\" }], \
                body: [Stmt { @25, Vars(Vars { of: Type { @25, Array(Element { @31, Primitive(Uint64) }) }, \
                decls: [Decl { @39, name: \"b\", initializer: Arguments([Expr { @41, Number(2) }]) }] }) }] })",
    ),
    (
        "array<A@>@ f(array<int> a) { }",
        "Function(Function { @11, result: Some(Type { @0, ArrayHandle(Element { @6, Handle(\"A\") }) }), \
                name: \"f\", \
                parameters: [Parameter { of: Type { @13, Array(Element { @19, Primitive(Int) }) }, \
                @24, name: \"a\" }], body: [] })",
    ),
];

#[test]
fn interfaces_and_arrays(rt: HostRuntime) {
    check_items(&rt, rt.alloc(), &INTERFACES_AND_ARRAYS)
}

static MEMBERS_WITH_ARRAYS: [(&str, &str); 3] = [
    // methods of interfaces, one of them without any
    (
        "interface I { void m(int a, I@ b); array<A@>@ n(array<bool> c); } interface J { }",
        "Interface(Interface { @10, name: \"I\", methods: [InterfaceMethod { @19, result: None, \
                name: \"m\", parameters: [Parameter { of: Type { @21, Primitive(Int) }, @25, name: \"a\" }, \
                Parameter { of: Type { @28, Handle(\"I\") }, @31, name: \"b\" }] }, InterfaceMethod { @46, \
                result: Some(Type { @35, ArrayHandle(Element { @41, Handle(\"A\") }) }), name: \"n\", \
                parameters: [Parameter { of: Type { @48, Array(Element { @54, Primitive(Bool) }) }, \
                @60, name: \"c\" }] }] }), Interface(Interface { @76, name: \"J\", methods: [] })",
    ),
    // members of a class that lists one
    (
        "class A : I { array<int> v(3); A() { v[0] = 1; } array<int>@ m() { return v; } }",
        "Class(Class { @6, name: \"A\", interfaces: [TypeName { @10, name: \"I\" }], \
                members: [Vars(Vars { of: Type { @14, Array(Element { @20, Primitive(Int) }) }, \
                decls: [Decl { @25, name: \"v\", initializer: Arguments([Expr { @27, Number(3) }]) }] }), \
                Constructor(Constructor { @31, name: \"A\", parameters: [], body: [Stmt { @37, \
                Expr(Expr { @37, Assign { target: Expr { @37, Postfix { operand: Expr { @37, Name(\"v\") }, \
                suffixes: [Index(Expr { @39, Number(0) })] } }, operator: Assign, \
                value: Expr { @44, Number(1) } } }) }] }), Function(Function { @61, result: Some(Type { @49, \
                ArrayHandle(Element { @55, Primitive(Int) }) }), name: \"m\", parameters: [], \
                body: [Stmt { @67, Return(Some(Expr { @74, Name(\"v\") })) }] })] })",
    ),
    // lines
    (
        "interface I {\n void m(); }\nclass A\n : I { }",
        "Interface(Interface { @10, name: \"I\", methods: [InterfaceMethod { @20/2, result: None, \
                name: \"m\", parameters: [] }] }), Class(Class { @33/3, name: \"A\", \
                interfaces: [TypeName { @38/4, name: \"I\" }], members: [] })",
    ),
];

#[test]
fn members_with_arrays(rt: HostRuntime) {
    check_items(&rt, rt.alloc(), &MEMBERS_WITH_ARRAYS)
}
