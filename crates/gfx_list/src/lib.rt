//! The listing of a capture file, and the file of a listing, each written as the other is read.
#![tactic(auto)]

ghost use Rattle.gfx_list.specs.Laws.{ListedIsGivenBack};

mod fault;
mod lines;
mod listing;
mod parts;
mod reading;
mod unlisting;
mod writing;

pub use fault::UnlistFault;
pub use listing::list;
pub use unlisting::unlist;

/// What is written of a file that ends cleanly is its listing, and the listing of no other file.
pub fn listed_is_given_back()
    ensures { ListedIsGivenBack }
{}
