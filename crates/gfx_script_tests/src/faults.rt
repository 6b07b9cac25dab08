//! Texts with a fault, and texts like them without one.

use crate::limits::fault_of;
use gfx_script::{ScriptFault, ScriptKind};
use std::test::Fail;

/// Texts, and the first line with a fault and its kind where there is one.
const TEXTS: [(&str, Option<(u32, ScriptKind)>); 62] = [
    ("", None),
    ("\n", None),
    ("# nothing", None),
    ("phase", None),
    ("phase\nthread 0\n", None),
    ("  phase  \n thread   63 ", None),
    ("version 2\nphase\n", None),
    ("# first\n\n  version   2\n", None),
    ("phase\nthread 1\nthread 0\nphase\nthread 1", None),
    // kind 1
    ("\tphase", Some((1, ScriptKind::BadByte))),
    ("phase\n# \u{7f}", Some((2, ScriptKind::BadByte))),
    ("phase\r\n", Some((1, ScriptKind::BadByte))),
    // kind 4
    ("phases", Some((1, ScriptKind::BadLine))),
    ("phase 1", Some((1, ScriptKind::BadLine))),
    ("version 1", Some((1, ScriptKind::BadLine))),
    ("version", Some((1, ScriptKind::BadLine))),
    ("version 2 #", Some((1, ScriptKind::BadLine))),
    ("thread", Some((1, ScriptKind::BadLine))),
    ("phase\nthread 64", Some((2, ScriptKind::BadLine))),
    ("phase\nthread 00", Some((2, ScriptKind::BadLine))),
    ("phase\nthread 07", Some((2, ScriptKind::BadLine))),
    ("phase\nthread -1", Some((2, ScriptKind::BadLine))),
    ("phase\nthread 1 2", Some((2, ScriptKind::BadLine))),
    ("phase\nthread 100", Some((2, ScriptKind::BadLine))),
    ("phase #", Some((1, ScriptKind::BadLine))),
    ("=", Some((1, ScriptKind::BadLine))),
    ("a =", Some((1, ScriptKind::BadLine))),
    ("vk", Some((1, ScriptKind::BadLine))),
    ("vkNone", Some((1, ScriptKind::BadLine))),
    ("write", Some((1, ScriptKind::BadLine))),
    // kind 5
    ("version 2\nversion 2", Some((2, ScriptKind::Structure))),
    ("phase\nversion 2", Some((2, ScriptKind::Structure))),
    ("thread 0", Some((1, ScriptKind::Structure))),
    (
        "phase\nthread 5\nthread 5",
        Some((3, ScriptKind::Structure)),
    ),
    (
        "phase\nthread 5\nthread 4\nthread 5",
        Some((4, ScriptKind::Structure)),
    ),
    ("version 2\nthread 1", Some((2, ScriptKind::Structure))),
    (
        "vkDeviceWaitIdle device=d",
        Some((1, ScriptKind::Structure)),
    ),
    (
        "phase\nvkDeviceWaitIdle device=d",
        Some((2, ScriptKind::Structure)),
    ),
    (
        "phase\na = vkCreateInstance api=1",
        Some((2, ScriptKind::Structure)),
    ),
    // one behind another on a line
    ("phases\u{1}", Some((1, ScriptKind::BadByte))),
    ("thread 64", Some((1, ScriptKind::BadLine))),
    ("version 3\nthread 0", Some((1, ScriptKind::BadLine))),
    // kind 6
    (
        "phase\nthread 0\nvkDeviceWaitIdle device=d",
        Some((3, ScriptKind::NameUnknown)),
    ),
    (
        "phase\nthread 0\na = vkCreateDevice instance=a",
        Some((3, ScriptKind::NameUnknown)),
    ),
    (
        "phase\nthread 0\na = vkCreateInstance api=1\nthread 1\nb = vkCreateDevice instance=a",
        Some((5, ScriptKind::NameUnknown)),
    ),
    (
        "phase\nthread 0\na = vkCreateInstance api=1\nphase\nthread 1\nb = vkCreateDevice instance=a",
        None,
    ),
    (
        "phase\nthread 0\na = vkCreateInstance api=1\nb = vkCreateDevice instance=a",
        None,
    ),
    (
        "phase\nthread 0\nvkQueueSubmit queue=q submits=[] fence=0",
        Some((3, ScriptKind::NameUnknown)),
    ),
    (
        "phase\nthread 0\nvkDeviceWaitIdle device=0",
        Some((3, ScriptKind::BadLine)),
    ),
    (
        "phase\nvkDeviceWaitIdle device=D",
        Some((2, ScriptKind::BadLine)),
    ),
    (
        "phase\nthread 0\nb = vkCreateDevice instance=a\nphase\nthread 0\na = vkCreateInstance api=1",
        Some((3, ScriptKind::NameUnknown)),
    ),
    // names, and none
    (
        "phase\nthread 0\n_234567890123456789012345678901_ = vkCreateInstance api=1",
        None,
    ),
    (
        "phase\nthread 0\n_234567890123456789012345678901_3 = vkCreateInstance api=1",
        Some((3, ScriptKind::BadLine)),
    ),
    (
        "phase\nthread 0\nq = vkCreateInstance api=1\nvkQueueSubmit queue=q submits=[] fence=0",
        None,
    ),
    (
        "phase\nthread 0\nq = vkCreateInstance api=1\nvkQueueSubmit queue=0 submits=[] fence=q",
        Some((4, ScriptKind::BadLine)),
    ),
    (
        "phase\nthread 0\ns = vkCreateInstance api=1\nInitImage image=s layout=0 bytes=",
        Some((4, ScriptKind::BadLine)),
    ),
    // kind 7
    (
        "phase\nthread 0\na = vkCreateInstance api=1\na = vkCreateInstance api=1",
        Some((4, ScriptKind::NameTaken)),
    ),
    (
        "phase\nthread 0\na = vkCreateInstance api=1\nphase\nthread 1\na = vkCreateInstance api=1",
        Some((6, ScriptKind::NameTaken)),
    ),
    (
        "phase\nthread 0\na = vkCreateInstance api=1\nthread 1\na = vkCreateInstance api=1",
        Some((5, ScriptKind::NameTaken)),
    ),
    (
        "phase\nthread 0\na = vkCreateInstance api=1\na = vkCreateDevice instance=b",
        Some((4, ScriptKind::NameUnknown)),
    ),
    (
        "phase\nthread 0\na,a = vkAllocateCommandBuffers device=d pool=p",
        Some((3, ScriptKind::NameUnknown)),
    ),
    (
        "phase\nthread 0\nd = vkCreateInstance api=1\na,a = vkAllocateCommandBuffers device=d pool=d",
        Some((4, ScriptKind::NameTaken)),
    ),
];

#[test]
fn the_first_fault_of_a_text_is_named(rt: HostRuntime) -> Result<(), Fail> {
    for &(text, fault) in &TEXTS {
        assert_eq!(rt; fault_of(rt.alloc(), text.as_bytes())?, fault, "{text}");
    }
    Ok(())
}

#[test]
fn a_fault_is_printed(rt: HostRuntime) -> Result<(), Fail> {
    let fault = ScriptFault::Bad {
        line: 4,
        kind: ScriptKind::NameTaken,
    };
    assert_eq!(rt;
        fault.to_string(rt.alloc())?.as_str(),
        "bad script line 4: NameTaken"
    );
    Ok(())
}
