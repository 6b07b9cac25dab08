//! The words of a recording.
ghost use Rattle.std.specs.Prelude.{◌≡◌, ◌≢◌, ◌∷◌, [], IfSome, IsNone, map, string_bytes};

use crate::range::FrameRange;

/// A recording, by its words: of all frames, or of those of a range, and whether the writes of a thread are gathered.
#[derive(Clone, Copy, Debug, PartialEq, Eq)]
pub struct Recording {
    pub gathers: bool,
    pub frames: Option<FrameRange>,
}

impl Recording {
    ghost use Rattle.gfx_words.specs.declared.recording.Recording.{Recording};
    ghost use Rattle.gfx_words.specs.Commands.{recording_words, FitsFrames};

    /// The recording that the words name.
    pub fn of(words: &[String]) -> Option<Recording>
        ensures some { IfSome result (λ r. (map string_bytes words.now ≡ recording_words r) × FitsFrames r.frames) }
        ensures none { IsNone result → (r : Recording) → FitsFrames r.frames → map string_bytes words.now ≢ recording_words r }
        ensures only { IfSome result (λ r. (other : Recording) → FitsFrames other.frames → map string_bytes words.now ≡ recording_words other → other ≡ r) }
    {
        Recording::by_count(words)
    }

    // The recording that the words name, looked for among those of so many words.
    fn by_count(words: &[String]) -> Option<Recording>
        ensures some { IfSome result (λ r. (map string_bytes words.now ≡ recording_words r) × FitsFrames r.frames) }
        ensures none { IsNone result → (r : Recording) → FitsFrames r.frames → map string_bytes words.now ≢ recording_words r }
    {
        match words {
            [word] => Recording::whole(word.as_str()),
            [word, option] => Recording::gathered(word.as_str(), option.as_str()),
            [word, option, range] => Recording::between(
                word.as_str(),
                option.as_str(),
                range.as_str(),
            ),
            [word, first, second, range] => Recording::gathered_between(
                word.as_str(),
                first.as_str(),
                second.as_str(),
                range.as_str(),
            ),
            _ => None,
        }
    }

    // The recording of all frames.
    fn whole(word: &str) -> Option<Recording>
        ensures some { IfSome result (λ r. (word.now ∷ [] ≡ recording_words r) × FitsFrames r.frames) }
        ensures none { IsNone result → (r : Recording) → FitsFrames r.frames → word.now ∷ [] ≢ recording_words r }
    {
        match word {
            "capture" => Some(Recording {
                gathers: false,
                frames: None,
            }),
            _ => None,
        }
    }

    // The recording of all frames with gathered writes.
    fn gathered(word: &str, option: &str) -> Option<Recording>
        ensures some { IfSome result (λ r. (word.now ∷ option.now ∷ [] ≡ recording_words r) × FitsFrames r.frames) }
        ensures none { IsNone result → (r : Recording) → FitsFrames r.frames → word.now ∷ option.now ∷ [] ≢ recording_words r }
    {
        if word == "capture" && option == "--gather" {
            Some(Recording {
                gathers: true,
                frames: None,
            })
        } else {
            None
        }
    }

    // The recording of the frames of a range.
    fn between(word: &str, option: &str, range: &str) -> Option<Recording>
        ensures some { IfSome result (λ r. (word.now ∷ option.now ∷ range.now ∷ [] ≡ recording_words r) × FitsFrames r.frames) }
        ensures none { IsNone result → (r : Recording) → FitsFrames r.frames → word.now ∷ option.now ∷ range.now ∷ [] ≢ recording_words r }
    {
        if word == "capture" && option == "--frames" {
            let range = FrameRange::of(range)?;
            Some(Recording {
                gathers: false,
                frames: Some(range),
            })
        } else {
            None
        }
    }

    // The recording of the frames of a range with gathered writes.
    fn gathered_between(word: &str, first: &str, second: &str, range: &str) -> Option<Recording>
        ensures some { IfSome result (λ r. (word.now ∷ first.now ∷ second.now ∷ range.now ∷ [] ≡ recording_words r) × FitsFrames r.frames) }
        ensures none { IsNone result → (r : Recording) → FitsFrames r.frames → word.now ∷ first.now ∷ second.now ∷ range.now ∷ [] ≢ recording_words r }
    {
        if word == "capture" && first == "--gather" && second == "--frames" {
            let range = FrameRange::of(range)?;
            Some(Recording {
                gathers: true,
                frames: Some(range),
            })
        } else {
            None
        }
    }
}
