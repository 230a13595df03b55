//! Trees of expressions, written out by hand.

use crate::trees::check_values;

static OPERATORS: [(&str, &str); 5] = [
    // one level groups to the left, and is a list
    (
        "int a = 1 - 2 - 3;",
        "Expr { @8, Binary { first: Expr { @8, Number(1) }, links: [Link { operator: Subtract, \
                operand: Expr { @12, Number(2) } }, Link { operator: Subtract, \
                operand: Expr { @16, Number(3) } }] } }",
    ),
    // the tighter level is the operand of the looser one
    (
        "int a = b + c * d == 0x1F;",
        "Expr { @8, Binary { first: Expr { @8, Binary { first: Expr { @8, Name(\"b\") }, \
                links: [Link { operator: Add, operand: Expr { @12, Binary { first: Expr { @12, Name(\"c\") }, \
                links: [Link { operator: Multiply, operand: Expr { @16, Name(\"d\") } }] } } }] } }, \
                links: [Link { operator: Equal, operand: Expr { @21, Number(31) } }] } }",
    ),
    // brackets are nodes, and a conversion is a phrase of its own
    (
        "int a = (b | c) & int64(d);",
        "Expr { @8, Binary { first: Expr { @8, Brackets(Expr { @9, Binary { first: Expr { @9, \
                Name(\"b\") }, links: [Link { operator: BitOr, operand: Expr { @13, Name(\"c\") } }] } }) }, \
                links: [Link { operator: BitAnd, \
                operand: Expr { @18, Convert { to: Int64, value: Expr { @24, Name(\"d\") } } } }] } }",
    ),
    // operators before an operand, and the words for operators
    (
        "int a = -~!b and not c;",
        "Expr { @8, Binary { first: Expr { @8, Unary { operator: Minus, \
                operand: Expr { @9, Unary { operator: BitNot, operand: Expr { @10, Unary { operator: Not, \
                operand: Expr { @11, Name(\"b\") } } } } } } }, links: [Link { operator: And, \
                operand: Expr { @17, Unary { operator: Not, operand: Expr { @21, Name(\"c\") } } } }] } }",
    ),
    // suffixes are a list, and bind tighter than the operators before the operand
    (
        "int a = @b.c.d(1, e)++;",
        "Expr { @8, Unary { operator: Handle, \
                operand: Expr { @9, Postfix { operand: Expr { @9, Name(\"b\") }, \
                suffixes: [Field { @11, name: \"c\" }, Method { @13, name: \"d\", \
                arguments: [Expr { @15, Number(1) }, Expr { @18, Name(\"e\") }] }, Increment] } } } }",
    ),
];

#[test]
fn operators(rt: HostRuntime) {
    check_values(&rt, rt.alloc(), &OPERATORS)
}

static INDEXES_CASTS_AND_NEW_ARRAYS: [(&str, &str); 6] = [
    // an index is a suffix, with an expression of its own
    (
        "int a = b[c[1]].d;",
        "Expr { @8, Postfix { operand: Expr { @8, Name(\"b\") }, \
                suffixes: [Index(Expr { @10, Postfix { operand: Expr { @10, Name(\"c\") }, \
                suffixes: [Index(Expr { @12, Number(1) })] } }), Field { @16, name: \"d\" }] } }",
    ),
    (
        "int a = -b[0]++ + c(1)[d];",
        "Expr { @8, Binary { first: Expr { @8, Unary { operator: Minus, \
                operand: Expr { @9, Postfix { operand: Expr { @9, Name(\"b\") }, \
                suffixes: [Index(Expr { @11, Number(0) }), Increment] } } } }, links: [Link { operator: Add, \
                operand: Expr { @18, Postfix { operand: Expr { @18, Call { name: \"c\", \
                arguments: [Expr { @20, Number(1) }] } }, \
                suffixes: [Index(Expr { @23, Name(\"d\") })] } } }] } }",
    ),
    // a new array is an operand
    (
        "int a = array<int>(3, b).c;",
        "Expr { @8, Postfix { operand: Expr { @8, NewArray { of: Element { @14, Primitive(Int) }, \
                arguments: [Expr { @19, Number(3) }, Expr { @22, Name(\"b\") }] } }, \
                suffixes: [Field { @25, name: \"c\" }] } }",
    ),
    (
        "int a = array<A@>();",
        "Expr { @8, NewArray { of: Element { @14, Handle(\"A\") }, arguments: [] } }",
    ),
    // a cast is an operand, and names its type where it is
    (
        "int a = cast<A>(b).c;",
        "Expr { @8, Postfix { operand: Expr { @8, Cast { to: TypeName { @13, name: \"A\" }, \
                value: Expr { @16, Name(\"b\") } } }, suffixes: [Field { @19, name: \"c\" }] } }",
    ),
    (
        "int a = cast < B > (cast<A>(c)) is null;",
        "Expr { @8, Binary { first: Expr { @8, Cast { to: TypeName { @15, name: \"B\" }, \
                value: Expr { @20, Cast { to: TypeName { @25, name: \"A\" }, \
                value: Expr { @28, Name(\"c\") } } } } }, links: [Link { operator: Is, \
                operand: Expr { @35, Null } }] } }",
    ),
];

#[test]
fn indexes_casts_and_new_arrays(rt: HostRuntime) {
    check_values(&rt, rt.alloc(), &INDEXES_CASTS_AND_NEW_ARRAYS)
}

static INDEXES_CASTS_AND_NEW_ARRAYS_IN_ONE_ANOTHER: [(&str, &str); 4] = [
    // any assignment is an index
    (
        "int a = b[c ? 1 : 2][d = 3]--;",
        "Expr { @8, Postfix { operand: Expr { @8, Name(\"b\") }, \
                suffixes: [Index(Expr { @10, Conditional { condition: Expr { @10, Name(\"c\") }, \
                then: Expr { @14, Number(1) }, otherwise: Expr { @18, Number(2) } } }), \
                Index(Expr { @21, Assign { target: Expr { @21, Name(\"d\") }, operator: Assign, \
                value: Expr { @25, Number(3) } } }), Decrement] } }",
    ),
    // each of them in another one
    (
        "int a = array<I@>(2)[cast<J>(b).c[0]];",
        "Expr { @8, Postfix { operand: Expr { @8, NewArray { of: Element { @14, Handle(\"I\") }, \
                arguments: [Expr { @18, Number(2) }] } }, suffixes: [Index(Expr { @21, Postfix { operand: \
                Expr { @21, Cast { to: TypeName { @26, name: \"J\" }, value: Expr { @29, Name(\"b\") } } }, \
                suffixes: [Field { @32, name: \"c\" }, Index(Expr { @34, Number(0) })] } })] } }",
    ),
    (
        "int a = @cast<A>(array<int>(b[0]));",
        "Expr { @8, Unary { operator: Handle, \
                operand: Expr { @9, Cast { to: TypeName { @14, name: \"A\" }, \
                value: Expr { @17, NewArray { of: Element { @23, Primitive(Int) }, \
                arguments: [Expr { @28, Postfix { operand: Expr { @28, Name(\"b\") }, \
                suffixes: [Index(Expr { @30, Number(0) })] } }] } } } } } }",
    ),
    // the signs round a cast's type compare nothing
    (
        "int a = b < cast<C>(d) > e;",
        "Expr { @8, Binary { first: Expr { @8, Name(\"b\") }, links: [Link { operator: Less, \
                operand: Expr { @12, Cast { to: TypeName { @17, name: \"C\" }, \
                value: Expr { @20, Name(\"d\") } } } }, Link { operator: Greater, \
                operand: Expr { @25, Name(\"e\") } }] } }",
    ),
];

#[test]
fn indexes_casts_and_new_arrays_in_one_another(rt: HostRuntime) {
    check_values(
        &rt,
        rt.alloc(),
        &INDEXES_CASTS_AND_NEW_ARRAYS_IN_ONE_ANOTHER,
    )
}

static CONDITIONALS_AND_ASSIGNMENTS: [(&str, &str); 3] = [
    // the last branch reaches as far as it can
    (
        "int a = b ? c : d = e;",
        "Expr { @8, Conditional { condition: Expr { @8, Name(\"b\") }, then: Expr { @12, Name(\"c\") }, \
                otherwise: Expr { @16, Assign { target: Expr { @16, Name(\"d\") }, operator: Assign, \
                value: Expr { @20, Name(\"e\") } } } } }",
    ),
    // the second branch takes the next condition
    (
        "int a = b ? 1 : c ? 2 : 3;",
        "Expr { @8, Conditional { condition: Expr { @8, Name(\"b\") }, then: Expr { @12, Number(1) }, \
                otherwise: Expr { @16, Conditional { condition: Expr { @16, Name(\"c\") }, \
                then: Expr { @20, Number(2) }, otherwise: Expr { @24, Number(3) } } } } }",
    ),
    // assignments group to the right
    (
        "int a = b = c >>>= this;",
        "Expr { @8, Assign { target: Expr { @8, Name(\"b\") }, operator: Assign, \
                value: Expr { @12, Assign { target: Expr { @12, Name(\"c\") }, \
                operator: ShiftRightArithmetic, value: Expr { @19, This } } } } }",
    ),
];

#[test]
fn conditionals_and_assignments(rt: HostRuntime) {
    check_values(&rt, rt.alloc(), &CONDITIONALS_AND_ASSIGNMENTS)
}
