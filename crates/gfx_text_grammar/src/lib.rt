//! The text of fields, listings and scripts read by functions, and the laws that they read what shows so and nothing else.
#![tactic(auto)]

ghost use Rattle.gfx_text_grammar.specs.Laws.{NumbersAreRead, StylesRead, FieldsAreRead, LinesAreRead, HeadersAreRead, ReadIsListed, ListedIsRead, OneListing, FrontsAreListings, StatementsAreRead, FormsAreRead, OutcomesAreComputed, ParsesAreComputed};

/// A word is read as a number exactly where it is the number in decimal.
pub fn numbers_are_read()
    ensures { NumbersAreRead }
{}

/// Both styles of ids read what they show: numbers in listings, names in scripts.
pub fn styles_read()
    ensures { StylesRead }
{}

/// In each style of ids the fields of an event are read exactly where they show so.
pub fn fields_are_read()
    ensures { FieldsAreRead }
{}

/// A block is read of a line exactly where it has this line.
pub fn lines_are_read()
    ensures { LinesAreRead }
{}

/// A header is read of a line exactly where it has this line.
pub fn headers_are_read()
    ensures { HeadersAreRead }
{}

/// What is read of a text is a file with this listing.
pub fn read_is_listed()
    ensures { ReadIsListed }
{}

/// The listing of a file is read, and gives its bytes.
pub fn listed_is_read()
    ensures { ListedIsRead }
{}

/// Two files with one listing are equal.
pub fn one_listing()
    ensures { OneListing }
{}

/// The first lines of a listing are a listing, with its header and its first blocks.
pub fn fronts_are_listings()
    ensures { FrontsAreListings }
{}

/// A statement of a script is read exactly where it shows so.
pub fn statements_are_read()
    ensures { StatementsAreRead }
{}

/// A line's form is read exactly where its tokens have it.
pub fn forms_are_read()
    ensures { FormsAreRead }
{}

/// What a line of a script gives is computed, and it gives nothing else.
pub fn outcomes_are_computed()
    ensures { OutcomesAreComputed }
{}

/// What a text parses to is computed, and it parses to nothing else.
pub fn parses_are_computed()
    ensures { ParsesAreComputed }
{}
