//! Where the rows of each copy stand. The wanted numbers were worked out by hand from the rules of a capture.

use crate::Shape;
use crate::region::{BufferCopies, Downloads, ImageCopies, MakesOp, Uploads};
use gfx_objects::Window;
use gfx_types::{BufferRegion, ImageRegion, MixedRegion, Op, Place};

// Where rows stand, from one row to the next.
#[derive(Clone, Copy, Debug, PartialEq, Eq)]
struct Rows {
    place: Place,
    offset: u64,
    step: u64,
}

// A copy: its target, its source, the bytes of a row, and how many rows there are.
#[derive(Clone, Copy, Debug, PartialEq, Eq)]
struct Copied {
    to: Rows,
    from: Rows,
    length: u64,
    rows: u64,
}

fn rows_at(place: Place, offset: u64, step: u64) -> Rows {
    Rows {
        place,
        offset,
        step,
    }
}

fn copy_of(op: &Op) -> Option<Copied> {
    match op {
        Op::Copy {
            to,
            to_offset,
            to_step,
            from,
            from_offset,
            from_step,
            length,
            rows: count,
        } => Some(Copied {
            to: rows_at(*to, *to_offset, *to_step),
            from: rows_at(*from, *from_offset, *from_step),
            length: *length,
            rows: *count,
        }),
        _ => None,
    }
}

#[test]
fn bytes_between_buffers_are_one_row(rt: HostRuntime) {
    let maker = BufferCopies {
        source: Window {
            place: Place::Memory(3),
            offset: 32,
            length: 64,
        },
        target: Window {
            place: Place::Memory(4),
            offset: 16,
            length: 128,
        },
    };
    let (from, to, size) = (8, 100, 7);
    let op = maker.op(&BufferRegion { from, to, size });
    let (to, from) = (
        rows_at(Place::Memory(4), 116, 0),
        rows_at(Place::Memory(3), 40, 0),
    );
    let (length, rows) = (7, 1);
    assert_eq!(rt;
        copy_of(&op),
        Some(Copied {
            to,
            from,
            length,
            rows
        })
    );
}

// An image of 10 by 10 texels of 4 bytes, at 64 in memory 3.
const SMALL: Shape = Shape {
    width: 10,
    height: 10,
    texel: 4,
};

const SMALL_WINDOW: Window = Window {
    place: Place::Memory(3),
    offset: 64,
    length: 400,
};

// A buffer at 32 in memory 6.
const BUFFER: Window = Window {
    place: Place::Memory(6),
    offset: 32,
    length: 256,
};

#[test]
fn rows_between_images_go_on_by_the_width_of_each(rt: HostRuntime) {
    let maker = ImageCopies {
        source: SMALL_WINDOW,
        target: Window {
            place: Place::Image(5),
            offset: 0,
            length: 512,
        },
        source_shape: SMALL,
        target_shape: Shape {
            width: 16,
            height: 8,
            texel: 4,
        },
    };
    let op = maker.op(&ImageRegion {
        from_x: 2,
        from_y: 1,
        to_x: 3,
        to_y: 4,
        width: 5,
        height: 3,
    });
    let (to, from) = (
        rows_at(Place::Image(5), 268, 64),
        rows_at(Place::Memory(3), 112, 40),
    );
    let (length, rows) = (20, 3);
    assert_eq!(rt;
        copy_of(&op),
        Some(Copied {
            to,
            from,
            length,
            rows
        })
    );
}

#[test]
fn rows_of_a_buffer_go_on_by_the_row_length(rt: HostRuntime) {
    let maker = Uploads {
        buffer: BUFFER,
        image: SMALL_WINDOW,
        shape: SMALL,
    };
    for (row, step) in [(0, 12), (6, 24)] {
        let (x, y, width, height) = (1, 2, 3, 4);
        let (offset, rows_kept) = (20, 0);
        let op = maker.op(&MixedRegion {
            offset,
            row,
            rows: rows_kept,
            x,
            y,
            width,
            height,
        });
        let to = rows_at(Place::Memory(3), 148, 40);
        let from = rows_at(Place::Memory(6), 52, step);
        let (length, rows) = (12, 4);
        assert_eq!(rt;
            copy_of(&op),
            Some(Copied {
                to,
                from,
                length,
                rows
            }),
            "row length {row}"
        );
    }
}

#[test]
fn rows_of_an_image_go_to_a_buffer(rt: HostRuntime) {
    let maker = Downloads {
        image: SMALL_WINDOW,
        buffer: BUFFER,
        shape: SMALL,
    };
    let op = maker.op(&MixedRegion {
        offset: 20,
        row: 6,
        rows: 0,
        x: 1,
        y: 2,
        width: 3,
        height: 4,
    });
    let (to, from) = (
        rows_at(Place::Memory(6), 52, 24),
        rows_at(Place::Memory(3), 148, 40),
    );
    let (length, rows) = (12, 4);
    assert_eq!(rt;
        copy_of(&op),
        Some(Copied {
            to,
            from,
            length,
            rows
        })
    );
}
