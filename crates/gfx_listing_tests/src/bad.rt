// Lines of no header or block, and what is wrong with each.

/// Lines of no header.
pub(crate) const BAD_HEADS: [(&str, &str); 17] = [
    ("an empty line", ""),
    ("no version", "gfxr"),
    ("a name in upper case", "GFXR 1000.1"),
    ("a name that goes on", "gfxrs 1000.1"),
    ("a space in front", " gfxr 1000.1"),
    ("a space behind", "gfxr 1000.1 "),
    ("two spaces", "gfxr  1000.1"),
    ("another major version", "gfxr 1001.1"),
    ("minor version 0", "gfxr 1000.0"),
    ("minor version 3", "gfxr 1000.3"),
    ("a leading zero", "gfxr 1000.01"),
    ("a minor version of 2^32", "gfxr 1000.4294967296"),
    ("an option without a value", "gfxr 1000.1 2"),
    ("an option with two values", "gfxr 1000.1 2=3=4"),
    ("a key of 0", "gfxr 1000.1 0=1"),
    ("keys that don't rise", "gfxr 1000.1 2=1 2=1"),
    ("blocks that are compressed", "gfxr 1000.1 1=1"),
];

/// Lines of no block in version 1.
pub(crate) const BAD_LINES: [(&str, &str); 30] = [
    ("an empty line", ""),
    ("a space", " "),
    ("an unknown name", "marker frame=1"),
    ("a header", "gfxr 1000.1"),
    ("a marker without a frame", "begin"),
    ("a marker with another field", "begin bytes=1"),
    ("a marker with a thread", "thread=0 begin frame=1"),
    ("a frame with a leading zero", "begin frame=01"),
    ("a frame of 2^64", "end frame=18446744073709551616"),
    ("a space behind", "end frame=1 "),
    ("a message without bytes", "message"),
    ("a message with a thread", "thread=1 message bytes=00"),
    ("two fields of bytes", "frame bytes=00 bytes=00"),
    ("an odd number of digits", "frame bytes=000"),
    ("upper-case digits", "annotation bytes=FF"),
    ("another field", "annotation frame=00"),
    ("no thread", "vkDestroyInstance instance=1"),
    ("a thread alone", "thread=1"),
    (
        "a thread with a leading zero",
        "thread=00 vkDestroyInstance instance=1",
    ),
    (
        "a thread of 2^64",
        "thread=18446744073709551616 vkDestroyInstance instance=1",
    ),
    ("a call without vk", "thread=1 DestroyInstance instance=1"),
    (
        "a metadata with vk",
        "thread=1 vkSetSemaphoreState semaphore=1 signalled=0",
    ),
    ("two spaces", "thread=1  vkDestroyInstance instance=1"),
    ("a space in front", " thread=1 vkDestroyInstance instance=1"),
    (
        "a space behind the fields",
        "thread=1 vkDestroyInstance instance=1 ",
    ),
    ("no field", "thread=1 vkDestroyInstance"),
    (
        "another field of a metadata",
        "thread=1 SetSemaphoreState semaphore=1 signaled=0",
    ),
    (
        "fields of a metadata in another order",
        "thread=1 SetSemaphoreState signalled=0 semaphore=1",
    ),
    (
        "more fields than a line has",
        "thread=1 vkDestroyInstance instance=1 a=1 b=1 c=1 d=1 e=1 f=1 g=1 h=1 i=1 j=1 k=1 l=1 m=1 n=1 o=1 p=1 q=1",
    ),
    (
        "a present of version 2",
        "thread=1 vkQueuePresentKHR queue=3 waits=[] presents=[(5,1)]",
    ),
];
