//! Stores with objects and several modules: what is found of them after every end of a process and of the power. What
//! is asked of a host is data, so that each call is proved once and not in each test.

use crate::checks::check_text;
use crate::hosts::{Disks, both_crashed};
use crate::stores::runs::{answers_in, boxed_disks_of};
use crate::stores::store::check_survives;
use ash_disk::Survives;
use ash_store_fixtures::lives::{File, HostStep};
use std::alloc::Global;
use std::process::Abort;
use std::test::Fail;

/// What is asked of a host until its process ends, with what is answered, and then what is asked of it where its store
/// is opened again.
struct Part {
    steps: &'static [HostStep],
    answers: &'static str,
    looks: &'static [HostStep],
    found: &'static str,
}

/// What a life is called, and its parts, from an empty store on.
type Life = (&'static str, &'static [Part]);

const CLASSES: &[u8] = b"class Q { int w = 1; } \
    class P { Q q; Q@ r; int v = 2; P(int k) { v = v + k; @r = q; } } P@ g = P(5); int f() { return g.v; }";

const LOOK_AT_CLASSES: &[HostStep] = &[
    HostStep::Global("g"),
    HostStep::Object(1),
    HostStep::Object(2),
    HostStep::Object(3),
    HostStep::Seq,
];

// The object 1 has a handle from the global, and the object 2 one for each of the fields `q` and `r`.
static MEMBERS: Life = (
    "members, a constructor and a handle",
    &[
        Part {
            steps: &[HostStep::LoadAs("m", CLASSES)],
            answers: "ok seq 1\n",
            looks: LOOK_AT_CLASSES,
            found: "ok object 1\nok object 1 m.P count 1 q object 2 r object 2 v 7\n\
                ok object 2 m.Q count 2 w 1\nrefused 407 NoObject\n1\n",
        },
        Part {
            steps: &[HostStep::CallIn("m"), HostStep::Global("g")],
            answers: "ok 7 seq 2\nok object 1\n",
            looks: LOOK_AT_CLASSES,
            found: "ok object 1\nok object 1 m.P count 1 q object 2 r object 2 v 7\n\
                ok object 2 m.Q count 2 w 1\nrefused 407 NoObject\n2\n",
        },
        Part {
            steps: &[HostStep::Snapshot, HostStep::Object(2)],
            answers: "ok\nok object 2 m.Q count 2 w 1\n",
            looks: LOOK_AT_CLASSES,
            found: "ok object 1\nok object 1 m.P count 1 q object 2 r object 2 v 7\n\
                ok object 2 m.Q count 2 w 1\nrefused 407 NoObject\n2\n",
        },
        Part {
            steps: &[HostStep::Discard, HostStep::Discard],
            answers: "ok seq 3\nrefused 401 NoModule\n",
            looks: LOOK_AT_CLASSES,
            found: "refused 401 NoModule\nrefused 407 NoObject\nrefused 407 NoObject\n\
                refused 407 NoObject\n3\n",
        },
    ],
);

const COUNTING: &[u8] = b"class A { int v; } A@ a = A(); void f() { a.v = a.v + 1; }";

const LOOK_AT_TWO: &[HostStep] = &[
    HostStep::Get("m", "a"),
    HostStep::Object(1),
    HostStep::Get("k", "a"),
    HostStep::Object(2),
    HostStep::Object(3),
];

// Objects of a module go with it, and no number is given twice.
static TWO_MODULES: Life = (
    "two modules, of which one is removed",
    &[
        Part {
            steps: &[
                HostStep::LoadAs("m", COUNTING),
                HostStep::LoadAs("k", COUNTING),
                HostStep::CallIn("m"),
                HostStep::CallIn("k"),
                HostStep::CallIn("k"),
            ],
            answers: "ok seq 1\nok seq 2\nok seq 3\nok seq 4\nok seq 5\n",
            looks: LOOK_AT_TWO,
            found: "ok object 1\nok object 1 m.A count 1 v 1\nok object 2\nok object 2 k.A count 1 v 2\n\
                refused 407 NoObject\n",
        },
        Part {
            steps: &[HostStep::DiscardOf("m"), HostStep::DiscardOf("z")],
            answers: "ok seq 6\nrefused 401 NoModule\n",
            looks: LOOK_AT_TWO,
            found: "refused 401 NoModule\nrefused 407 NoObject\nok object 2\n\
                ok object 2 k.A count 1 v 2\nrefused 407 NoObject\n",
        },
        Part {
            steps: &[
                HostStep::CallIn("m"),
                HostStep::CallIn("k"),
                HostStep::LoadAs("m", COUNTING),
            ],
            answers: "refused 401 NoModule\nok seq 7\nok seq 8\n",
            looks: LOOK_AT_TWO,
            found: "ok object 3\nrefused 407 NoObject\nok object 2\nok object 2 k.A count 1 v 3\n\
                ok object 3 m.A count 1 v 0\n",
        },
    ],
);

const INTERFACES: &[u8] = b"interface I { int v(); } class A : I { int k; int v() { return k; } } \
    I@ g; array<I@> l; \
    int f(int k) { A@ a = A(); a.k = k; @g = a; l.insertLast(a); return l[0].v() * 10 + g.v(); }";

const LOOK_AT_ARRAY: &[HostStep] = &[
    HostStep::Global("g"),
    HostStep::Global("l"),
    HostStep::Object(1),
    HostStep::Object(2),
    HostStep::Object(3),
];

static ARRAYS: Life = (
    "an array of handles of an interface",
    &[
        Part {
            steps: &[HostStep::LoadAs("m", INTERFACES)],
            answers: "ok seq 1\n",
            looks: LOOK_AT_ARRAY,
            found: "ok null\nok object 1\nok object 1 array count 1\nrefused 407 NoObject\n\
                refused 407 NoObject\n",
        },
        Part {
            steps: &[HostStep::Call(3), HostStep::Call(4)],
            answers: "ok 33 seq 2\nok 34 seq 3\n",
            looks: LOOK_AT_ARRAY,
            found: "ok object 3\nok object 1\nok object 1 array count 1 object 2 object 3\n\
                ok object 2 m.A count 1 k 3\nok object 3 m.A count 2 k 4\n",
        },
    ],
);

const NAMES: &[u8] =
    b"int\nlast = first;\nint\nf(int first) {\n last += first - (last);\n first = 7;\n \
    return last * 10 + first; }\nint\nfirst = 5;";

// A parameter is not the global of its name, and a global is 0 until its initializer has run.
static NAMED: Life = (
    "names that are globals and parameters",
    &[Part {
        steps: &[
            HostStep::LoadAs("m", NAMES),
            HostStep::Global("last"),
            HostStep::Call(6),
        ],
        answers: "ok seq 1\nok 0\nok 67 seq 2\n",
        looks: &[HostStep::Global("last"), HostStep::Global("first")],
        found: "ok 6\nok 5\n",
    }],
);

/// Handles a part of a life, with a crash after it. What is found is the same whatever of it survives.
fn check_part(
    rt: &impl Abort,
    alloc: Global,
    disks: Disks,
    part: &Part,
    what: &str,
) -> Result<Disks, Fail> {
    let (answers, left) = answers_in(alloc, disks, part.steps)?;
    check_text(rt, answers.as_str(), part.answers, what);
    check_survives(rt, alloc, &left, (part.looks, part.found))?;
    Ok(both_crashed(alloc, &left, usize::MAX, Survives::Nothing)?)
}

/// Handles the parts of a life, with a crash after each.
fn check_life(rt: &impl Abort, alloc: Global, life: &Life) -> Result<(), Fail> {
    let (what, parts) = *life;
    let mut disks = boxed_disks_of(alloc, File::Empty, File::Bytes(&[0]))?;
    for part in parts {
        disks = check_part(rt, alloc, disks, part, what)?;
    }
    Ok(())
}

#[test]
fn objects_after_each_crash(rt: HostRuntime) -> Result<(), Fail> {
    check_life(&rt, rt.alloc(), &MEMBERS)
}

#[test]
fn two_modules_with_objects(rt: HostRuntime) -> Result<(), Fail> {
    check_life(&rt, rt.alloc(), &TWO_MODULES)
}

#[test]
fn arrays_and_interfaces(rt: HostRuntime) -> Result<(), Fail> {
    check_life(&rt, rt.alloc(), &ARRAYS)
}

#[test]
fn names_are_places(rt: HostRuntime) -> Result<(), Fail> {
    check_life(&rt, rt.alloc(), &NAMED)
}
