//! Trees of statements, written out by hand.

use crate::trees::check_bodies;

static STATEMENTS: [(&str, &str); 5] = [
    // an `else` belongs to the nearest `if`
    (
        "void f() { if (a) if (b) c; else ; }",
        "Stmt { @11, If { condition: Expr { @15, Name(\"a\") }, \
                then: Stmt { @18, IfElse { condition: Expr { @22, Name(\"b\") }, \
                then: Stmt { @25, Expr(Expr { @25, Name(\"c\") }) }, otherwise: Stmt { @33, Empty } } } } }",
    ),
    // a declaration, or an expression
    (
        "void f() { Foo x(1); Foo@ y; foo * x; }",
        "Stmt { @11, Vars(Vars { of: Type { @11, Object(\"Foo\") }, decls: [Decl { @15, name: \"x\", \
                initializer: Arguments([Expr { @17, Number(1) }]) }] }) }, \
                Stmt { @21, Vars(Vars { of: Type { @21, Handle(\"Foo\") }, decls: [Decl { @26, name: \"y\", \
                initializer: Default }] }) }, \
                Stmt { @29, Expr(Expr { @29, Binary { first: Expr { @29, Name(\"foo\") }, \
                links: [Link { operator: Multiply, operand: Expr { @35, Name(\"x\") } }] } }) }",
    ),
    // the parts of a `for`
    (
        "void f() { for (int i = 0; i < 3; i++, --j) ; for (k = 1;;) break; }",
        "Stmt { @11, For { first: Stmt { @16, Vars(Vars { of: Type { @16, Primitive(Int) }, \
                decls: [Decl { @20, name: \"i\", initializer: Value(Expr { @24, Number(0) }) }] }) }, \
                condition: Some(Expr { @27, Binary { first: Expr { @27, Name(\"i\") }, \
                links: [Link { operator: Less, operand: Expr { @31, Number(3) } }] } }), \
                steps: [Expr { @34, Postfix { operand: Expr { @34, Name(\"i\") }, suffixes: [Increment] } }, \
                Expr { @39, Unary { operator: Decrement, operand: Expr { @41, Name(\"j\") } } }], \
                body: Stmt { @44, Empty } } }, Stmt { @46, For { first: Stmt { @51, Expr(Expr { @51, \
                Assign { target: Expr { @51, Name(\"k\") }, operator: Assign, \
                value: Expr { @55, Number(1) } } }) }, condition: None, steps: [], \
                body: Stmt { @60, Break } } }",
    ),
    // a label is at its constant, a `default` at its word
    (
        "void f() { switch (a) { case 1: case -2: b(); default: } }",
        "Stmt { @11, Switch { value: Expr { @19, Name(\"a\") }, cases: [Case { @29, label: Case(1), \
                body: [] }, Case { @37, label: CaseMinus(2), \
                body: [Stmt { @41, Expr(Expr { @41, Call { name: \"b\", arguments: [] } }) }] }, \
                Case { @46, label: Default, body: [] }] } }",
    ),
    // lines
    (
        "void f() {\n do continue;\n while (true); { return; }\n}",
        "Stmt { @12/2, DoWhile { body: Stmt { @15/2, Continue }, \
                condition: Expr { @33/3, Bool(true) } } }, \
                Stmt { @40/3, Block([Stmt { @42/3, Return(None) }]) }",
    ),
];

#[test]
fn statements(rt: HostRuntime) {
    check_bodies(&rt, rt.alloc(), &STATEMENTS)
}

static STATEMENTS_WITH_ARRAYS_AND_INDEXES: [(&str, &str); 2] = [
    // a declaration, or a new array by itself
    (
        "void f() { array<A@> a, b(1); array<int>(2); for (array<A@>@ c = a;;) ; }",
        "Stmt { @11, Vars(Vars { of: Type { @11, Array(Element { @17, Handle(\"A\") }) }, \
                decls: [Decl { @21, name: \"a\", initializer: Default }, Decl { @24, name: \"b\", \
                initializer: Arguments([Expr { @26, Number(1) }]) }] }) }, \
                Stmt { @30, Expr(Expr { @30, NewArray { of: Element { @36, Primitive(Int) }, \
                arguments: [Expr { @41, Number(2) }] } }) }, Stmt { @45, For { first: Stmt { @50, \
                Vars(Vars { of: Type { @50, ArrayHandle(Element { @56, Handle(\"A\") }) }, \
                decls: [Decl { @61, name: \"c\", initializer: Value(Expr { @65, Name(\"a\") }) }] }) }, \
                condition: None, steps: [], body: Stmt { @70, Empty } } }",
    ),
    (
        "void f() { a.b[0].c() = -d[1]; cast<A>(e); if (g[h]) return i[0]; }",
        "Stmt { @11, Expr(Expr { @11, Assign { target: Expr { @11, Postfix { operand: Expr { @11, \
                Name(\"a\") }, suffixes: [Field { @13, name: \"b\" }, Index(Expr { @15, Number(0) }), \
                Method { @18, name: \"c\", arguments: [] }] } }, operator: Assign, \
                value: Expr { @24, Unary { operator: Minus, \
                operand: Expr { @25, Postfix { operand: Expr { @25, Name(\"d\") }, \
                suffixes: [Index(Expr { @27, Number(1) })] } } } } } }) }, \
                Stmt { @31, Expr(Expr { @31, Cast { to: TypeName { @36, name: \"A\" }, \
                value: Expr { @39, Name(\"e\") } } }) }, \
                Stmt { @43, If { condition: Expr { @47, Postfix { operand: Expr { @47, Name(\"g\") }, \
                suffixes: [Index(Expr { @49, Name(\"h\") })] } }, \
                then: Stmt { @53, Return(Some(Expr { @60, Postfix { operand: Expr { @60, Name(\"i\") }, \
                suffixes: [Index(Expr { @62, Number(0) })] } })) } } }",
    ),
];

#[test]
fn statements_with_arrays_and_indexes(rt: HostRuntime) {
    check_bodies(&rt, rt.alloc(), &STATEMENTS_WITH_ARRAYS_AND_INDEXES)
}
