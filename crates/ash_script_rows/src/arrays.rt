//! Arrays.

use crate::rows::{HOST, Row};
use crate::steps::HostStep;

/// The rows.
pub static ROWS: [Row<'static>; 2] = [
    Row {
        what: "handles in an array",
        host: HOST,
        steps: &[HostStep::Start(2, 5), HostStep::Read(2)],
        exchanges: &[
            (
                "load m array<Counter@> l; int f(int k) { l.insertLast(Counter(k)); return l.length(); } \
            void g() { l.removeLast(); } int h(uint i) { return l[i].value; }",
                "ok seq 1",
                "",
            ),
            ("call m f 5", "ok 1 seq 2", "Drew 2; "),
            ("object 1", "ok object 1 array count 1 object 2", ""),
            ("object 2", "ok object 2 Counter count 1 state 05000000", ""),
            ("call m h 0", "ok 5 seq 3", ""),
            ("call m h 1", "exception IndexOutOfBounds h 1 seq 4", ""),
            ("call m g", "ok seq 5 dropped 2", "Dropped 2; "),
            ("call m g", "exception IndexOutOfBounds g 1 seq 6", ""),
            ("object 1", "ok object 1 array count 1", ""),
        ],
        left: "seq 6 last 2 | m object 1 | objects 1 | services 00000000 | free 2 left 0",
    },
    Row {
        what: "the longest array",
        host: HOST,
        steps: &[],
        exchanges: &[
            (
                "load m array<int> a; void f(uint n) { a.resize(n); }",
                "ok seq 1",
                "",
            ),
            ("call m f 4096", "ok seq 2", ""),
            ("call m f 4097", "exception ArrayLimit f 1 seq 3", ""),
            ("object 1", "ok object 1 array count 1 (4096 zeros)", ""),
        ],
        left: "seq 3 last 1 | m object 1 | objects 1 | services 00000000 | free 3 left 0",
    },
];
