//! The worked rows.

use crate::rows::check_rows;
use ash_script_rows::{
    arrays, classes, counters, frame_points, integers, interfaces, limits, points, services,
    sources, ticks,
};
use std::test::Fail;

#[test]
fn rows_of_objects(rt: HostRuntime) -> Result<(), Fail> {
    check_rows(&rt, rt.alloc(), &classes::ROWS)?;
    check_rows(&rt, rt.alloc(), &counters::ROWS)?;
    check_rows(&rt, rt.alloc(), &interfaces::ROWS)?;
    check_rows(&rt, rt.alloc(), &arrays::ROWS)?;
    check_rows(&rt, rt.alloc(), &services::ROWS)?;
    check_rows(&rt, rt.alloc(), &sources::ROWS)
}

#[test]
fn rows_of_integers_and_limits(rt: HostRuntime) -> Result<(), Fail> {
    check_rows(&rt, rt.alloc(), &integers::ROWS)?;
    check_rows(&rt, rt.alloc(), &limits::ROWS)?;
    check_rows(&rt, rt.alloc(), &ticks::ROWS)
}

#[test]
fn rows_of_release_points(rt: HostRuntime) -> Result<(), Fail> {
    check_rows(&rt, rt.alloc(), &points::ROWS)?;
    check_rows(&rt, rt.alloc(), &frame_points::ROWS)
}
