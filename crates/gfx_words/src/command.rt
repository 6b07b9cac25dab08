//! Commands of the program.
ghost use Rattle.std.specs.Prelude.{◌≡◌, ◌≢◌, ◌∷◌, [], ◌≤◌, ℕ, codes, decimal, IfSome, IsNone, map, string_bytes};

use crate::number::number_of;
use crate::range::FrameRange;

/// A command of the program, by its words.
#[derive(Clone, Copy, Debug, PartialEq, Eq)]
pub enum Command {
    Info,
    Replay {
        pixels: bool,
        frames: Option<FrameRange>,
    },
    Trim(FrameRange),
    Lean(FrameRange),
    Upgrade,
    List,
    Unlist,
    /// How many frames the file is to have, 3 to 1,000.
    Make {
        frames: u64,
    },
    Help,
    Version,
}

impl Command {
    ghost use Rattle.gfx_words.specs.declared.command.Command.{Command};
    ghost use Rattle.gfx_words.specs.Commands.{words_of, Fits};

    /// The command that the words name.
    pub fn of(words: &[String]) -> Option<Command>
        ensures some { IfSome result (λ c. (map string_bytes words.now ≡ words_of c) × Fits c) }
        ensures none { IsNone result → (c : Command) → Fits c → map string_bytes words.now ≢ words_of c }
        ensures only { IfSome result (λ c. (other : Command) → Fits other → map string_bytes words.now ≡ words_of other → other ≡ c) }
    {
        Command::by_count(words)
    }

    // The command that the words name, looked for among those of so many words.
    fn by_count(words: &[String]) -> Option<Command>
        ensures some { IfSome result (λ c. (map string_bytes words.now ≡ words_of c) × Fits c) }
        ensures none { IsNone result → (c : Command) → Fits c → map string_bytes words.now ≢ words_of c }
    {
        match words {
            [word] => Command::of_one(word.as_str()),
            [word, option] => Command::of_two(word.as_str(), option.as_str()),
            [word, option, range] => Command::of_three(
                word.as_str(),
                option.as_str(),
                range.as_str(),
            ),
            [word, first, second, range] => Command::of_four(
                word.as_str(),
                first.as_str(),
                second.as_str(),
                range.as_str(),
            ),
            _ => None,
        }
    }

    // The command of one word.
    fn of_one(word: &str) -> Option<Command>
        ensures some { IfSome result (λ c. (word.now ∷ [] ≡ words_of c) × Fits c) }
        ensures none { IsNone result → (c : Command) → Fits c → word.now ∷ [] ≢ words_of c }
    {
        match word {
            "info" => Some(Command::Info),
            "replay" => Some(Command::Replay {
                pixels: false,
                frames: None,
            }),
            "upgrade" => Some(Command::Upgrade),
            "list" => Some(Command::List),
            "unlist" => Some(Command::Unlist),
            "--help" => Some(Command::Help),
            "--version" => Some(Command::Version),
            _ => None,
        }
    }

    // The command of two words.
    fn of_two(word: &str, option: &str) -> Option<Command>
        ensures some { IfSome result (λ c. (word.now ∷ option.now ∷ [] ≡ words_of c) × Fits c) }
        ensures none { IsNone result → (c : Command) → Fits c → word.now ∷ option.now ∷ [] ≢ words_of c }
    {
        match word {
            "replay" if option == "--pixels" => Some(Command::Replay {
                pixels: true,
                frames: None,
            }),
            "trim" => Some(Command::Trim(FrameRange::of(option)?)),
            "lean" => Some(Command::Lean(FrameRange::of(option)?)),
            "make" => Command::make(option),
            _ => None,
        }
    }

    // The command that makes a file of so many frames.
    fn make(frames: &str) -> Option<Command>
        ensures some { IfSome result (λ c. (codes "make" ∷ frames.now ∷ [] ≡ words_of c) × Fits c) }
        ensures none { IsNone result → (n : ℕ) → 3 ≤ n → n ≤ 1000 → frames.now ≢ decimal n }
    {
        let frames = number_of(frames)?;
        if 3 <= frames && frames <= 1000 {
            Some(Command::Make { frames })
        } else {
            None
        }
    }

    // The command of three words.
    fn of_three(word: &str, option: &str, range: &str) -> Option<Command>
        ensures some { IfSome result (λ c. (word.now ∷ option.now ∷ range.now ∷ [] ≡ words_of c) × Fits c) }
        ensures none { IsNone result → (c : Command) → Fits c → word.now ∷ option.now ∷ range.now ∷ [] ≢ words_of c }
    {
        if word == "replay" && option == "--frames" {
            let range = FrameRange::of(range)?;
            Some(Command::Replay {
                pixels: false,
                frames: Some(range),
            })
        } else {
            None
        }
    }

    // The command of four words.
    fn of_four(word: &str, first: &str, second: &str, range: &str) -> Option<Command>
        ensures some { IfSome result (λ c. (word.now ∷ first.now ∷ second.now ∷ range.now ∷ [] ≡ words_of c) × Fits c) }
        ensures none { IsNone result → (c : Command) → Fits c → word.now ∷ first.now ∷ second.now ∷ range.now ∷ [] ≢ words_of c }
    {
        if word == "replay" && first == "--pixels" && second == "--frames" {
            let range = FrameRange::of(range)?;
            Some(Command::Replay {
                pixels: true,
                frames: Some(range),
            })
        } else {
            None
        }
    }
}
