//! All cases of the table, and the limits that only long histories reach.

use crate::attempt::{take_all, try_in_order};
use crate::case::try_all;
use crate::runs;
use crate::table::*;
use std::alloc::Global;
use std::process::Abort;
use std::test::Fail;

/// Tries the cases of these tables, of which there are so many.
fn try_tables(rt: &impl Abort, alloc: Global, tables: &[&str], count: u32) -> Result<(), Fail> {
    let mut found = 0_u32;
    'tables: for table in tables {
        let cases = try_all(rt, alloc, *table)?;
        found = found.wrapping_add(cases);
    }
    assert_eq!(rt; found, count);
    Ok(())
}

#[test]
fn each_check_of_objects_and_commands_is_broken(rt: HostRuntime) -> Result<(), Fail> {
    let tables = [
        objects::BROKEN,
        memory::BROKEN,
        buffers::BROKEN,
        resources::BROKEN,
        pools::POOLS,
        pools::RECORDED,
        commands::BROKEN,
        copies::BROKEN,
        image_copies::TO_IMAGES,
        image_copies::TO_BUFFERS,
    ];
    try_tables(&rt, rt.alloc(), &tables, 285)
}

#[test]
fn each_check_of_queues_and_sections_is_broken(rt: HostRuntime) -> Result<(), Fail> {
    let tables = [
        signals::BROKEN,
        submits::BROKEN,
        swapchains::BROKEN,
        presents::BROKEN,
        metadata::BROKEN,
        metadata::OUTSIDE,
        limits::LISTS,
    ];
    try_tables(&rt, rt.alloc(), &tables, 200)
}

#[test]
fn of_two_broken_checks_the_earlier_one_is_told(rt: HostRuntime) -> Result<(), Fail> {
    let tables = [
        objects::EARLIER,
        memory::EARLIER,
        buffers::EARLIER,
        resources::EARLIER,
        pools::EARLIER,
        commands::EARLIER,
        copies::EARLIER,
        image_copies::EARLIER,
        signals::EARLIER,
        submits::EARLIER,
        swapchains::EARLIER,
        presents::EARLIER,
        metadata::EARLIER,
    ];
    try_tables(&rt, rt.alloc(), &tables, 171)
}

#[test]
fn effects_that_break_no_check_are_taken(rt: HostRuntime) -> Result<(), Fail> {
    let tables = [
        objects::GOOD,
        memory::GOOD,
        buffers::GOOD,
        resources::GOOD,
        pools::GOOD,
        commands::GOOD,
        copies::GOOD,
        image_copies::GOOD,
        signals::GOOD,
        submits::GOOD,
        swapchains::GOOD,
        presents::GOOD,
        metadata::GOOD,
    ];
    try_tables(&rt, rt.alloc(), &tables, 121)
}

#[test]
fn captures_without_a_fault_are_taken_whole(rt: HostRuntime) -> Result<(), Fail> {
    take_all(&rt, rt.alloc(), runs::SMALL, 22)?;
    take_all(&rt, rt.alloc(), runs::DRAWN, 46)?;
    take_all(&rt, rt.alloc(), runs::LIVES, 53)?;
    take_all(&rt, rt.alloc(), runs::PRESENTED, 44)?;
    take_all(&rt, rt.alloc(), runs::BEGUN, 37)
}

#[test]
fn as_many_objects_as_there_may_be(rt: HostRuntime) -> Result<(), Fail> {
    try_in_order(&rt, rt.alloc(), "Device Swapchain", limits::OBJECTS, 52)
}

#[test]
fn as_many_commands_as_may_be_kept(rt: HostRuntime) -> Result<(), Fail> {
    try_in_order(&rt, rt.alloc(), "Device Pool Second", kept::COMMANDS, 14)
}

#[test]
fn as_many_bytes_as_may_be_kept(rt: HostRuntime) -> Result<(), Fail> {
    try_in_order(&rt, rt.alloc(), "Device Resources", kept::BYTES, 76)
}
