// Where a decoder is between blocks.

/// The number of the next block, from 1 on, its offset in bytes, whether it is in the state section, and how many
/// blocks are on each side of the section.
#[derive(Clone, Copy, Debug, PartialEq, Eq)]
pub struct Position {
    pub number: u64,
    pub offset: u64,
    pub in_section: bool,
    pub inside: u64,
    pub outside: u64,
}
