//! The worked rows, each from the beginning.

use crate::rows::check_rows;
use ash_script_rows::{
    arrays, classes, counters, frame_points, integers, interfaces, limits, modules, points,
    services, sources, ticks,
};
use std::test::Fail;

#[test]
fn rows_of_arrays(rt: HostRuntime) -> Result<(), Fail> {
    check_rows(&rt, rt.alloc(), &arrays::ROWS)
}

#[test]
fn rows_of_classes(rt: HostRuntime) -> Result<(), Fail> {
    check_rows(&rt, rt.alloc(), &classes::ROWS)
}

#[test]
fn rows_of_counters(rt: HostRuntime) -> Result<(), Fail> {
    check_rows(&rt, rt.alloc(), &counters::ROWS)
}

#[test]
fn rows_of_frame_points(rt: HostRuntime) -> Result<(), Fail> {
    check_rows(&rt, rt.alloc(), &frame_points::ROWS)
}

#[test]
fn rows_of_integers(rt: HostRuntime) -> Result<(), Fail> {
    check_rows(&rt, rt.alloc(), &integers::ROWS)
}

#[test]
fn rows_of_interfaces(rt: HostRuntime) -> Result<(), Fail> {
    check_rows(&rt, rt.alloc(), &interfaces::ROWS)
}

#[test]
fn rows_of_limits(rt: HostRuntime) -> Result<(), Fail> {
    check_rows(&rt, rt.alloc(), &limits::ROWS)
}

#[test]
fn rows_of_modules(rt: HostRuntime) -> Result<(), Fail> {
    check_rows(&rt, rt.alloc(), &modules::ROWS)
}

#[test]
fn rows_of_points(rt: HostRuntime) -> Result<(), Fail> {
    check_rows(&rt, rt.alloc(), &points::ROWS)
}

#[test]
fn rows_of_services(rt: HostRuntime) -> Result<(), Fail> {
    check_rows(&rt, rt.alloc(), &services::ROWS)
}

#[test]
fn rows_of_sources(rt: HostRuntime) -> Result<(), Fail> {
    check_rows(&rt, rt.alloc(), &sources::ROWS)
}

#[test]
fn rows_of_ticks(rt: HostRuntime) -> Result<(), Fail> {
    check_rows(&rt, rt.alloc(), &ticks::ROWS)
}
