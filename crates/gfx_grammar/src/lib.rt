//! The grammar of a capture read by functions, and the laws that they read what is spelled and nothing else.
#![tactic(auto)]

ghost use Rattle.gfx_grammar.specs.Laws.{ReadIsSpelled, SpelledIsRead, ReadIsContent, ContentIsRead, EndsAreComputed, FrontsAreComputed, BlocksAreComputed, BlocksGoOn, SplitsInOneWay, OthersAreNotRead, HeaderDecides, HeadDecides, PayloadDecides, RestDoesNotMatter, PlaceDoesNotMatter, SaidDecides, PartsAreBlocks, WrittenIsRead, FileIsRead, FileHasRoom};

/// What is read is spelled so, each byte of it.
pub fn read_is_spelled()
    ensures { ReadIsSpelled }
{}

/// What is spelled so is read.
pub fn spelled_is_read()
    ensures { SpelledIsRead }
{}

/// What is read of a payload is its content.
pub fn read_is_content()
    ensures { ReadIsContent }
{}

/// The content of a payload is read.
pub fn content_is_read()
    ensures { ContentIsRead }
{}

/// The list ends at the start exactly where the computed prefix says so.
pub fn ends_are_computed()
    ensures { EndsAreComputed }
{}

/// A block is at the start exactly where the computed prefix says so.
pub fn fronts_are_computed()
    ensures { FrontsAreComputed }
{}

/// The computed blocks are the one list of blocks of the bytes.
pub fn blocks_are_computed()
    ensures { BlocksAreComputed }
{}

/// The blocks are what is at the start, and then the blocks of what follows it.
pub fn blocks_go_on()
    ensures { BlocksGoOn }
{}

/// Bytes split into whole blocks and an end in one way: what is computed.
pub fn splits_in_one_way()
    ensures { SplitsInOneWay }
{}

/// Nothing is read where there is no row.
pub fn others_are_not_read()
    ensures { OthersAreNotRead }
{}

/// The first sixteen bytes of a file decide, and then its options.
pub fn header_decides()
    ensures { HeaderDecides }
{}

/// The first twelve bytes of a block decide, then the count of blocks on its side, and then how far the bytes go.
pub fn head_decides()
    ensures { HeadDecides }
{}

/// Behind a head in order a whole payload decides, whatever follows it.
pub fn payload_decides()
    ensures { PayloadDecides }
{}

/// A block that was found is found whatever follows it.
pub fn rest_does_not_matter()
    ensures { RestDoesNotMatter }
{}

/// A block is found wherever it stands, while its side of the section has room.
pub fn place_does_not_matter()
    ensures { PlaceDoesNotMatter }
{}

/// What a block says decides on which side of the section it counts, and where the next block stands.
pub fn said_decides()
    ensures { SaidDecides }
{}

/// A header and blocks one after the other have just these blocks, and end cleanly.
pub fn parts_are_blocks()
    ensures { PartsAreBlocks }
{}

/// A file that is written of events has just their blocks, and ends cleanly.
pub fn written_is_read()
    ensures { WrittenIsRead }
{}

/// A file of a section that is made and of blocks that are copied has just their blocks, and ends cleanly.
pub fn file_is_read()
    ensures { FileIsRead }
{}

/// Such a file has room for as many blocks of the section as a side may have, and for as many behind it.
pub fn file_has_room()
    ensures { FileHasRoom }
{}
