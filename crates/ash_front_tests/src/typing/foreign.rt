//! A registered type that scripts can't construct, which `ashd` has none of: what is checked of the others is in
//! `tests/rows/check`.

use crate::typing::sources::{Question, check_rows};

const CONSTRUCTIONS: &str = "
    310 NoFactory 0 | Plain p;
    310 NoFactory 0 | Plain p(1);
    310 NoFactory 11 | void f() { Plain p; }
    310 NoFactory 10 | void f() {Plain p;}
    310 NoFactory 11 | void f() { Plain(); }
    310 NoFactory 11 | void f() { Plain(1, true); }
    310 NoFactory 10 | class A { Plain p; }
    301 UnknownName 8 | Plain p(zz);
    301 UnknownName 17 | void f() { Plain(zz); }
    303 NameTaken 13 | int a; Plain a;
    313 DuplicateCase 37 | void f() { switch (1) { case 1: case 1: } Plain p; }
    310 NoFactory 11 | void f() { Plain p; switch (1) { case 1: case 1: } }
    304 TypeMismatch 8 | int a = true; Plain p;
    310 NoFactory 0 | Plain p; int a = true;
    304 TypeMismatch 18 | void f() { Plain@ p(1); }
    308 Misplaced 17 | class A { void m(Plain p) {} }
    303 NameTaken 6 | class Plain {}
    ";

#[test]
fn constructions(rt: HostRuntime) {
    check_rows(&rt, rt.alloc(), Question::Outcome, CONSTRUCTIONS)
}

const HANDLES: &str = "
    ok | Plain@ p; void f(Plain@ q) { @p = q; @p = null; }
    ok | Counter@ c; Plain@ p; B@ b; class B {}
    ok | void f(Counter@ c, B@ b) { B d; Counter e(1); Plain@ g; } class B {}
    ok | class A { B b; B@ c; Counter d(1); } class B { int v; Plain@ p; }
    301 UnknownName 21 | void f(Plain@ p) { p.value; }
    304 TypeMismatch 38 | Counter@ c; Plain@ p; void f() { @c = p; }
    304 TypeMismatch 23 | Plain@ p; Counter@ c = p;
    304 TypeMismatch 43 | void g(Counter@ c) {} void f(Plain@ p) { g(p); }
    304 TypeMismatch 36 | Counter@ c; Plain@ p; bool b = c is p;
    304 TypeMismatch 46 | Counter@ c; Plain@ p; Counter@ a = true ? c : p;
    304 TypeMismatch 30 | Counter@ f(Plain@ p) { return p; }
    ";

#[test]
fn handles(rt: HostRuntime) {
    check_rows(&rt, rt.alloc(), Question::Outcome, HANDLES)
}
