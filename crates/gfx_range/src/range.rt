//! A range of blocks, and what it needs of the state before it.
ghost use Rattle.std.specs.Prelude.{◌≡◌, ◌++◌, ◌∷◌, [], Err, None, Some, List, ℕ, length, IfOk, IfErr, OnOk, OnErr};
ghost use Rattle.gfx_types.specs.declared.names.Fault.{Fault};
ghost use Rattle.gfx_model.specs.Blocks.{Whole};
ghost use Rattle.gfx_model.specs.Checks.{first_broken};
ghost use Rattle.gfx_model.specs.Events.{Event, event_of};
ghost use Rattle.gfx_model.specs.History.{view};
ghost use Rattle.gfx_model.specs.Meaning.{events_onto};
ghost use Rattle.gfx_model.specs.Table.{checks_of};
ghost use Rattle.gfx_blocks.specs.Payloads.{content_of};
ghost use Rattle.gfx_decode.specs.Decoding.{item_of};
ghost use Rattle.gfx_asked.specs.Accesses.{AreNear};
ghost use Rattle.gfx_replay.specs.Fed.{broken_by};
ghost use Rattle.gfx_tracker.specs.Operations.{given_by, ops_of};
ghost use Rattle.gfx_tracker.specs.Tracker.{answers};
ghost use Rattle.gfx_range.specs.Follower.{Followed, Follows, IsSameFollower, Refuses, ops_said};
ghost use Rattle.gfx_range.specs.Range.{AreSaidNear, IsFresh, IsGathered, IsKept, IsSameNeed, Names, shown_said, accesses_said};

use crate::follower::Follower;
use crate::keep::RangeKeep;
use crate::shown::push_shown;
use gfx_asked::Accesses;
use gfx_decode::Raw;
use gfx_needed::NeededIds;
use gfx_player::PlayFault;
use gfx_tracker::Tracker;
use gfx_types::{Block, Effect, Meta, OpList, WantMemory};
use std::alloc::Global;

/// The blocks of a range unchanged in the file, what they name of the state before the range, and which bytes they
/// show and change.
#[derive(Drop)]
pub struct Range {
    pub blocks: Vec<u8>,
    needed: NeededIds,
    accesses: Accesses,
}

impl Range {
    /// A range without blocks.
    pub fn new(alloc: Global) -> Range
        ensures fresh { IsFresh result }
        ensures blocks { result.blocks.items ≡ [] }
    {
        Range {
            blocks: Vec::new(alloc),
            needed: NeededIds::new(alloc),
            accesses: Accesses::new(alloc),
        }
    }

    /// Keeps a block that is skipped. When out of memory the range is as it was.
    pub fn keep(&mut self, raw: &Raw<'_>) -> Result<(), PlayFault>
        ensures bytes { OnOk result (self.new.blocks.items ≡ self.old.blocks.items ++ raw.now.bytes.now) }
        ensures same { IsSameNeed self.old self.new }
        ensures err { IfErr result (λ why. why ≡ PlayFault.WantMemory) }
        ensures kept { OnErr result (self.new.blocks.items ≡ self.old.blocks.items) }
    {
        self.blocks.extend_from_slice(raw.bytes)?;
        Ok(())
    }

    /// Drops the blocks.
    pub fn clear(&mut self)
        ensures bytes { self.new.blocks.items ≡ [] }
        ensures same { IsSameNeed self.old self.new }
    {
        self.blocks.clear();
    }

    /// Takes the next block of the range, behind what the follower follows, where the boundary's tracker stands for what was
    /// before the range. Answers the number of the frame that the block shows, if it shows one. A rule that it breaks is told also
    /// when out of memory, and leaves the follower as it was. After an error the range is of no use, and when out of memory
    /// neither is the follower.
    pub fn add(
        &mut self,
        alloc: Global,
        boundary: &Tracker,
        follower: &mut Follower,
        raw: &Raw<'_>,
    ) -> Result<Option<u64>, PlayFault>
        ensures ok { IfOk result (λ number. (h : List Event) (ws : List Whole) → answers boundary.now ≡ view h → IsGathered self.old h ws → Follows follower.old (events_onto ws h)
            → Followed follower.new (events_onto ws h) (item_of raw.now).content number × IsGathered self.new h (ws ++ item_of raw.now ∷ [])) }
        ensures rule { (fault : Fault) → broken_by (answers follower.old.tracker) (content_of raw.now.block) ≡ Some fault → result ≡ Err (PlayFault.Bad fault raw.now.number raw.now.offset) }
        ensures err { IfErr result (λ why. (h : List Event) → Follows follower.old h → Refuses h (item_of raw.now) why) }
        ensures kept { (fault : Fault) → (block offset : ℕ) → result ≡ Err (PlayFault.Bad fault block offset) → IsSameFollower follower.old follower.new }
    {
        let mut ops = OpList::of(Vec::new(alloc));
        // a rule that the block breaks is told first
        let shown = self.show(&follower.tracker, raw);
        let number = follower.follow(raw, &mut ops)?;
        shown?;
        self.say(boundary, raw, &ops)?;
        self.keep(raw)?;
        Ok(number)
    }

    // Adds the images that a block shows.
    fn show(&mut self, tracker: &Tracker, raw: &Raw<'_>) -> Result<(), WantMemory>
        ensures accesses { OnOk result (self.new.accesses ≡ self.old.accesses ++ shown_said (answers tracker.now) (content_of raw.now.block)) }
        ensures needed { self.new.needed ≡ self.old.needed }
        ensures blocks { self.new.blocks ≡ self.old.blocks }
    {
        match &raw.block {
            Block::Skip => Ok(()),
            Block::Effect { effect, .. } => push_shown(&mut self.accesses, tracker, effect),
        }
    }

    // Takes down what a block names, and its operations.
    fn say(&mut self, boundary: &Tracker, raw: &Raw<'_>, ops: &OpList) -> Result<(), WantMemory>
        requires { AreSaidNear (content_of raw.now.block) ops.now }
        ensures accesses { OnOk result (self.new.accesses ≡ self.old.accesses ++ accesses_said (content_of raw.now.block) ops.now) }
        ensures needed { OnOk result (Names (answers boundary.now) (content_of raw.now.block) self.old.needed self.new.needed) }
        ensures blocks { self.new.blocks ≡ self.old.blocks }
    {
        match &raw.block {
            Block::Skip => Ok(()),
            Block::Effect { effect, .. } => {
                self.accesses.push_ops(ops.items(), given(effect))?;
                self.needed.name(boundary, effect)
            }
        }
    }

    /// What the range needs and asks for, where the boundary's tracker stands for what was before it, and its blocks.
    pub fn needs(self, boundary: &Tracker) -> Result<(RangeKeep, Vec<u8>), WantMemory>
        ensures keep { IfOk result (λ both. (h : List Event) (ws : List Whole) → answers boundary.now ≡ view h → IsGathered self h ws → IsKept both.0 h ws) }
        ensures blocks { IfOk result (λ both. both.1 ≡ self.blocks) }
    {
        let asked = self.accesses.asked()?;
        let mut needed = self.needed;
        needed.follow(boundary)?;
        Ok((RangeKeep { needed, asked }, self.blocks))
    }
}

// How many bytes the effect has of its own.
fn given(effect: &Effect<'_>) -> usize
    ensures { result ≡ length (given_by (event_of effect.now)) }
{
    match effect {
        Effect::Meta(Meta::FillMemory { bytes, .. } | Meta::InitImage { bytes, .. }) => {
            bytes.len()
        }
        _ => 0,
    }
}
