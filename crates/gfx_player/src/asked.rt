//! Which frames are asked for.
ghost use Rattle.std.specs.Prelude.{◌≡◌};

/// The frames that are asked for: all, or those from a first to a last number.
#[derive(Clone, Copy, Debug, PartialEq, Eq)]
pub enum Asked {
    All,
    Between { first: u64, last: u64 },
}

impl Asked {
    ghost use Rattle.gfx_player.specs.Asked.{is_asked, is_last};

    /// Whether a frame is asked for, in a file whose first frame has the number `first_in`.
    pub fn asks_for(&self, first_in: u64, number: u64) -> bool
        ensures { result ≡ is_asked self.now first_in number }
    {
        match *self {
            Asked::All => true,
            Asked::Between { first, last } => first_in <= first
                && first <= number
                && number <= last,
        }
    }

    /// Whether this is the last frame that is asked for.
    pub fn ends_with(&self, first_in: u64, number: u64) -> bool
        ensures { result ≡ is_last self.now first_in number }
    {
        match *self {
            Asked::All => false,
            Asked::Between { first, last } => first_in <= first && number == last,
        }
    }
}
