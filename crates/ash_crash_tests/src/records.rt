//! What the record of a call has where a counter lives and a service is there, and neither is called.

use crate::checks::{check, check_text};
use crate::visits::visit;
use ash_store_fixtures::hosts::disk;
use ash_store_fixtures::lives::Start;
use std::test::Fail;

const WHAT: &str = "a call that changes one global beside a counter";

const LOAD: &str = "load m int n = 0; Counter@ g = Counter(7); void f() { n = 1; }";

/// The length of the body; its tag, the number of the answer, the last number of an object; no services; that globals
/// of `m` changed: one, the first, which is the `int` 1; no objects that are gone, and none that are new or changed;
/// the next gate.
const RECORD: &[u8] = b"\
    \x27\x00\x00\x00\
    \x02\
    \x02\x00\x00\x00\x00\x00\x00\x00\
    \x01\x00\x00\x00\x00\x00\x00\x00\
    \x00\x00\
    \x03\x01m\
    \x01\x00\x00\x00\x01\x01\x00\x00\x00\
    \x00\x00\x00\x00\
    \x00\x00\x00\x00\
    \x00";

#[test]
fn one_global_beside_a_counter(rt: HostRuntime) -> Result<(), Fail> {
    let disks = (disk(rt.alloc(), &[])?, disk(rt.alloc(), &[])?);
    let made = visit(rt.alloc(), disks, Start::Make, &[LOAD])?;
    check_text(&rt, &made.answers, "ok seq 1\n", WHAT);
    let before = made.disks.0.bytes().len();
    let called = visit(rt.alloc(), made.disks, Start::Open, &["call m f"])?;
    check_text(&rt, &called.answers, "ok seq 2\n", WHAT);
    let record = called.disks.0.bytes().get(before..).unwrap_or_default();
    check(&rt, &record, &RECORD, WHAT);
    Ok(())
}
