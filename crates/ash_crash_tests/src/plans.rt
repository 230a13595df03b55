//! What is asked of a store, and what is found of it after each request.

/// What is reached: what each probe is answered, and how many writes and syncs the first disk and the second have had.
pub struct Reached {
    pub found: &'static str,
    pub first: usize,
    pub second: usize,
}

/// What is asked of a store: lines after its making, and lines after it is opened again.
pub struct Plan {
    pub what: &'static str,
    pub lines: &'static [&'static str],
    pub again: &'static [&'static str],
    /// What is asked to find what was reached. The load among them is in the store after a second crash.
    pub probes: &'static [&'static str],
    /// What the lines are answered.
    pub answers: &'static str,
    pub answers_again: &'static str,
    /// What is reached before all of it, after the making, after each line, after the opening, and after each line of
    /// `again`.
    pub reached: &'static [Reached],
}

impl Plan {
    /// How many parts it has: the making, each line, the opening, and each line after that.
    pub fn parts(&self) -> usize {
        self.reached.len().saturating_sub(1)
    }

    /// What is reached after so many parts.
    pub fn reached_after(&self, parts: usize) -> &'static Reached {
        self.reached.get(parts).unwrap_or(&NOTHING)
    }
}

static NOTHING: Reached = Reached {
    found: "",
    first: 0,
    second: 0,
};

// To make a store is a write and a sync of the first gate of each disk, and two writes and two syncs of the generation.
// A request is two writes and two syncs on the current disk, and a snapshot on the other. An opening syncs both disks.

/// The service's total is stored with a call that raises an exception, and with a load that comes to no end.
pub static SERVICE: Plan = Plan {
    what: "a service",
    lines: &[
        "load m int n = 0;\nint f(int d) {\nn = 1; tally(4);\nreturn 10 / d;\n}\nint t() { return total(); }\n",
        "call m f 0",
        "snapshot",
        "call m f 5",
        "load k int a = tally(3); int c = 1 / 0;",
    ],
    again: &["call m t", "load k int a = tally(-20);"],
    probes: &[
        "seq",
        "get m n",
        "get k a",
        "load y int t = total();",
        "get y t",
        "seq",
    ],
    answers: "ok seq 1\nexception DivideByZero f 4 seq 2\nok\nok 2 seq 3\n\
        exception DivideByZero (init) 1 seq 4\n",
    answers_again: "ok 11 seq 5\nok seq 6\n",
    reached: &[
        Reached {
            found: "",
            first: 0,
            second: 0,
        },
        Reached {
            found: "ok 0\nrefused 401 NoModule\nrefused 401 NoModule\nok seq 1\nok 0\nok 1\n",
            first: 6,
            second: 2,
        },
        Reached {
            found: "ok 1\nok 0\nrefused 401 NoModule\nok seq 2\nok 0\nok 2\n",
            first: 10,
            second: 2,
        },
        Reached {
            found: "ok 2\nok 1\nrefused 401 NoModule\nok seq 3\nok 4\nok 3\n",
            first: 14,
            second: 2,
        },
        Reached {
            found: "ok 2\nok 1\nrefused 401 NoModule\nok seq 3\nok 4\nok 3\n",
            first: 14,
            second: 6,
        },
        Reached {
            found: "ok 3\nok 1\nrefused 401 NoModule\nok seq 4\nok 8\nok 4\n",
            first: 14,
            second: 10,
        },
        Reached {
            found: "ok 4\nok 1\nrefused 401 NoModule\nok seq 5\nok 11\nok 5\n",
            first: 14,
            second: 14,
        },
        Reached {
            found: "ok 4\nok 1\nrefused 401 NoModule\nok seq 5\nok 11\nok 5\n",
            first: 15,
            second: 15,
        },
        Reached {
            found: "ok 5\nok 1\nrefused 401 NoModule\nok seq 6\nok 11\nok 6\n",
            first: 15,
            second: 19,
        },
        Reached {
            found: "ok 6\nok 1\nok -9\nok seq 7\nok -9\nok 7\n",
            first: 15,
            second: 23,
        },
    ],
};

/// Counters that come and go, which a global, a field and a local hold. The global's is the object 1. A call makes an
/// object, the counter in its field, and one that goes at its end; from the second on what the first made goes before.
pub static OBJECTS: Plan = Plan {
    what: "objects that come and go",
    lines: &[
        "load m Counter@ g = Counter(7); class B { Counter@ c; } B@ b; \
        int f(int k) { B@ x = B(); @x.c = Counter(k); Counter t(1); @b = x; tally(k); return g.add(x.c.add(1)); }",
        "call m f 5",
        "snapshot",
        "call m f -2",
        "load k Counter@ h = Counter(3); array<Counter@> l(2); \
        int one() { @l[0] = h; @l[1] = h; @h = null; return 1; }",
    ],
    again: &["call k one", "discard m", "discard k"],
    probes: &[
        "seq",
        "get m g",
        "get m b",
        "object 1",
        "object 2",
        "object 3",
        "object 4",
        "object 5",
        "object 6",
        "object 8",
        "load y int y = total();",
        "get y y",
        "seq",
    ],
    answers: "ok seq 1\nok 13 seq 2 dropped 4\nok\nok 12 seq 3 dropped 3 7\nok seq 4\n",
    answers_again: "ok 1 seq 5\nok seq 6 dropped 1 6\nok seq 7 dropped 8\n",
    reached: &[
        Reached {
            found: "",
            first: 0,
            second: 0,
        },
        Reached {
            found: "ok 0\nrefused 401 NoModule\nrefused 401 NoModule\nrefused 407 NoObject\nrefused 407 NoObject\n\
                refused 407 NoObject\nrefused 407 NoObject\nrefused 407 NoObject\nrefused 407 NoObject\n\
                refused 407 NoObject\nok seq 1\nok 0\nok 1\n",
            first: 6,
            second: 2,
        },
        Reached {
            found: "ok 1\nok object 1\nok null\nok object 1 Counter count 1 state 07000000\n\
                refused 407 NoObject\nrefused 407 NoObject\nrefused 407 NoObject\nrefused 407 NoObject\n\
                refused 407 NoObject\nrefused 407 NoObject\nok seq 2\nok 0\nok 2\n",
            first: 10,
            second: 2,
        },
        Reached {
            found: AFTER_ONE_CALL,
            first: 14,
            second: 2,
        },
        Reached {
            found: AFTER_ONE_CALL,
            first: 14,
            second: 6,
        },
        Reached {
            found: "ok 3\nok object 1\nok object 5\nok object 1 Counter count 1 state 0c000000\n\
                refused 407 NoObject\nrefused 407 NoObject\nrefused 407 NoObject\n\
                ok object 5 m.B count 1 c object 6\nok object 6 Counter count 1 state ffffffff\n\
                refused 407 NoObject\nok seq 4\nok 3\nok 4\n",
            first: 14,
            second: 10,
        },
        Reached {
            found: AFTER_TWO_CALLS,
            first: 14,
            second: 14,
        },
        Reached {
            found: AFTER_TWO_CALLS,
            first: 15,
            second: 15,
        },
        Reached {
            found: "ok 5\nok object 1\nok object 5\nok object 1 Counter count 1 state 0c000000\n\
                refused 407 NoObject\nrefused 407 NoObject\nrefused 407 NoObject\n\
                ok object 5 m.B count 1 c object 6\nok object 6 Counter count 1 state ffffffff\n\
                ok object 8 Counter count 2 state 03000000\nok seq 6\nok 3\nok 6\n",
            first: 15,
            second: 19,
        },
        Reached {
            found: "ok 6\nrefused 401 NoModule\nrefused 401 NoModule\nrefused 407 NoObject\nrefused 407 NoObject\n\
                refused 407 NoObject\nrefused 407 NoObject\nrefused 407 NoObject\nrefused 407 NoObject\n\
                ok object 8 Counter count 2 state 03000000\nok seq 7\nok 3\nok 7\n",
            first: 15,
            second: 23,
        },
        Reached {
            found: "ok 7\nrefused 401 NoModule\nrefused 401 NoModule\nrefused 407 NoObject\nrefused 407 NoObject\n\
                refused 407 NoObject\nrefused 407 NoObject\nrefused 407 NoObject\nrefused 407 NoObject\n\
                refused 407 NoObject\nok seq 8\nok 3\nok 8\n",
            first: 15,
            second: 27,
        },
    ],
};

const AFTER_ONE_CALL: &str =
    "ok 2\nok object 1\nok object 2\nok object 1 Counter count 1 state 0d000000\n\
    ok object 2 m.B count 1 c object 3\nok object 3 Counter count 1 state 06000000\nrefused 407 NoObject\n\
    refused 407 NoObject\nrefused 407 NoObject\nrefused 407 NoObject\nok seq 3\nok 5\nok 3\n";

// The second call made the objects 5 to 7, and the module `k` the counter 8 and an array.
const AFTER_TWO_CALLS: &str =
    "ok 4\nok object 1\nok object 5\nok object 1 Counter count 1 state 0c000000\nrefused 407 NoObject\n\
    refused 407 NoObject\nrefused 407 NoObject\nok object 5 m.B count 1 c object 6\n\
    ok object 6 Counter count 1 state ffffffff\nok object 8 Counter count 1 state 03000000\nok seq 5\nok 3\nok 5\n";
