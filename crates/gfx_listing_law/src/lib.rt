//! Laws of the lines of listings: how long they are, what the first of them list, and which is the first bad one.
#![tactic(auto)]

ghost use Rattle.gfx_listing_law.specs.Laws.{LinesAreShort, FrontsAreUnlisted, AllIsUnlisted, ListingsAreUnlisted, ListingsAreGood, OneBadLine};

/// No line of a header or of a block has 2^29 bytes.
pub fn lines_are_short()
    ensures { LinesAreShort }
{}

/// What first lines of a text list is a prefix of what the text lists.
pub fn fronts_are_unlisted()
    ensures { FrontsAreUnlisted }
{}

/// It is all that the text lists, where the next line is none of a listing, or there is none.
pub fn all_is_unlisted()
    ensures { AllIsUnlisted }
{}

/// A listing lists its file.
pub fn listings_are_unlisted()
    ensures { ListingsAreUnlisted }
{}

/// A listing has no bad line.
pub fn listings_are_good()
    ensures { ListingsAreGood }
{}

/// A text has one first bad line.
pub fn one_bad_line()
    ensures { OneBadLine }
{}
