//! The worked rows by the engine, beside the plain evaluator.

use crate::sessions::{Host, Session, asked, begun};
use ash_machine_fixtures::boxes::Pool;
use ash_script_rows::rows::{Exchange, Row};
use ash_script_rows::{
    arrays, classes, counters, frame_points, integers, interfaces, limits, modules, points,
    services, sources, ticks,
};
use std::alloc::Global;
use std::process::Abort;
use std::test::Fail;

/// Compares a text with the one that is wanted.
fn check_text(rt: &impl Abort, found: &str, wanted: &str, what: (&str, &str)) {
    if found != wanted {
        let (row, part) = what;
        panic!(rt; "{row}, {part}: found {found}, wanted {wanted}");
    }
}

/// The beginning of a reply that a row has, before how many zeros the elements are if they are many.
fn beginning_of(reply: &str) -> Option<&str> {
    reply
        .strip_suffix(" zeros)")?
        .split_once(" (")
        .map(|parts| parts.0)
}

/// Compares a reply as the program writes it with the one of a row.
fn check_reply(rt: &impl Abort, found: &str, wanted: &str, what: (&str, &str)) {
    match beginning_of(wanted) {
        Some(beginning) if found.starts_with(beginning) => {}
        _ => check_text(rt, found, wanted, what),
    }
}

/// What a request of a row comes to, which is compared with what the row says, and with what the plain evaluator says.
fn check_exchange(
    rt: &impl Abort,
    alloc: Global,
    row: &Row<'_>,
    session: Session,
    exchange: Exchange<'_>,
) -> Result<Option<Session>, Fail> {
    let (line, reply, events) = exchange;
    let (session, compared) = asked(alloc, session, line, row.host.budget)?;
    check_reply(rt, &compared.line, reply, (row.what, line));
    check_text(rt, &compared.events, events, (row.what, line));
    check_text(rt, &compared.found, &compared.wanted, (row.what, line));
    Ok(session)
}

fn check_row(rt: &impl Abort, alloc: Global, row: &Row<'_>) -> Result<(), Fail> {
    let pool = Pool {
        counters: row.host.counters,
        buffers: 0,
        odds: 1,
    };
    let host = Host {
        pool,
        last: row.host.last,
    };
    let mut session = Some(begun(alloc, host)?);
    for exchange in row.exchanges {
        if let Some(before) = session {
            session = check_exchange(rt, alloc, row, before, *exchange)?;
        } else {
            return Err(Fail::new("no state"));
        }
    }
    Ok(())
}

fn check_rows(rt: &impl Abort, alloc: Global, rows: &[Row<'_>]) -> Result<(), Fail> {
    for row in rows {
        check_row(rt, alloc, row)?;
    }
    Ok(())
}

#[test]
fn rows_of_objects(rt: HostRuntime) -> Result<(), Fail> {
    let alloc = rt.alloc();
    check_rows(&rt, alloc, &arrays::ROWS)?;
    check_rows(&rt, alloc, &classes::ROWS)?;
    check_rows(&rt, alloc, &counters::ROWS)?;
    check_rows(&rt, alloc, &interfaces::ROWS)?;
    check_rows(&rt, alloc, &services::ROWS)?;
    check_rows(&rt, alloc, &sources::ROWS)
}

#[test]
fn rows_of_release_points(rt: HostRuntime) -> Result<(), Fail> {
    let alloc = rt.alloc();
    check_rows(&rt, alloc, &frame_points::ROWS)?;
    check_rows(&rt, alloc, &points::ROWS)
}

#[test]
fn rows_of_integers_and_limits(rt: HostRuntime) -> Result<(), Fail> {
    let alloc = rt.alloc();
    check_rows(&rt, alloc, &integers::ROWS)?;
    check_rows(&rt, alloc, &limits::ROWS)?;
    check_rows(&rt, alloc, &modules::ROWS)?;
    check_rows(&rt, alloc, &ticks::ROWS)
}
