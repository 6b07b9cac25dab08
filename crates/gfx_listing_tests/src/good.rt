// Lines of headers, markers and skipped blocks, and the bytes that have them.

/// Lines of headers, and their bytes.
pub(crate) const HEADS: [(&str, &str); 5] = [
    ("gfxr 1000.1", "47465852e80300000100000000000000"),
    ("gfxr 1000.2", "47465852e80300000200000000000000"),
    (
        "gfxr 1000.1 1=0",
        "47465852e803000001000000010000000100000000000000",
    ),
    (
        "gfxr 1000.2 2=4294967295",
        "47465852e8030000020000000100000002000000ffffffff",
    ),
    (
        "gfxr 1000.1 1=0 258=3 4294967295=4",
        "47465852e8030000010000000300000001000000000000000201000003000000ffffffff04000000",
    ),
];

/// Lines of markers and of blocks that are skipped, and the bytes of their blocks.
pub(crate) const LINES: [(&str, &str); 8] = [
    (
        "begin frame=2",
        "0c0000000000000002000000010000000200000000000000",
    ),
    (
        "end frame=18446744073709551615",
        "0c000000000000000200000002000000ffffffffffffffff",
    ),
    ("frame bytes=", "000000000000000001000000"),
    ("frame bytes=00ff10a9", "04000000000000000100000000ff10a9"),
    ("annotation bytes=", "000000000000000005000000"),
    ("annotation bytes=0a", "0100000000000000050000000a"),
    ("message bytes=", "04000000000000000300000001000000"),
    (
        "message bytes=68690a",
        "0700000000000000030000000100000068690a",
    ),
];
