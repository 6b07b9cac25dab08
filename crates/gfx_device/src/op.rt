use gfx_types::Piece;

/// Names a place of a device.
#[derive(Clone, Copy, Debug, PartialEq, Eq)]
pub struct Handle {
    pub(crate) key: usize,
}

/// One change of a device's bytes.
#[derive(Debug, Drop)]
pub enum DeviceOp {
    Put {
        place: Handle,
        offset: u64,
        bytes: Piece,
    },
    /// Puts bytes that are lent to the call.
    PutGiven {
        place: Handle,
        offset: u64,
    },
    /// Puts a word again and again, its least significant byte first.
    Fill {
        place: Handle,
        offset: u64,
        length: u64,
        word: u32,
    },
    /// Copies rows in order, the first at the two offsets and each next one step further on both sides. Each row is
    /// read whole before it is written.
    Copy {
        to: Handle,
        to_offset: u64,
        to_step: u64,
        from: Handle,
        from_offset: u64,
        from_step: u64,
        length: u64,
        rows: u64,
    },
}
