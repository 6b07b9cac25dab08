//! What follows the blocks of a file, without bytes.
//!
//! A player's tracker at the boundary has no copy, so a lean cut follows its file with a tracker of its own.
ghost use Rattle.std.specs.Prelude.{◌≡◌, ◌++◌, [], Err, None, Some, List, IfOk, IfErr, OnOk, OnErr};
ghost use Rattle.gfx_types.specs.declared.names.Fault.{Fault};
ghost use Rattle.gfx_model.specs.Events.{Event, event_of};
ghost use Rattle.gfx_model.specs.Blocks.Content.{effect as of_effect};
ghost use Rattle.gfx_model.specs.Checks.{first_broken};
ghost use Rattle.gfx_model.specs.Table.{checks_of};
ghost use Rattle.gfx_decode.specs.Decoding.{item_of};
ghost use Rattle.gfx_blocks.specs.Payloads.{content_of};
ghost use Rattle.gfx_replay.specs.Fed.{broken_by};
ghost use Rattle.gfx_tracker.specs.Tracker.{answers};
ghost use Rattle.gfx_tracker.specs.Operations.{ops_of};
ghost use Rattle.gfx_player.specs.Meanings.{first_in, last_in};
ghost use Rattle.gfx_range.specs.Follower.{Followed, Follows, IsSameFollower, Refuses, RefusesEffect, ops_said};

use gfx_decode::Raw;
use gfx_player::PlayFault;
use gfx_tracker::{ApplyFault, Outcome, Tracker};
use gfx_types::{Block, Effect, OpList};
use std::alloc::Global;

/// What follows the blocks of a file, without bytes, and the number of the first frame that they show.
#[derive(Drop)]
pub struct Follower {
    pub tracker: Tracker,
    pub first: Option<u64>,
}

impl Follower {
    /// Stands before the first block.
    pub fn new(alloc: Global) -> Follower
        ensures { Follows result [] }
    {
        Follower {
            tracker: Tracker::new(alloc),
            first: None,
        }
    }

    /// Takes what a block says and appends its operations. Answers the number of the frame that it shows, if it shows one. A rule
    /// that it breaks is told also when out of memory. After an error the follower and the list are as they were.
    pub fn follow(&mut self, raw: &Raw<'_>, ops: &mut OpList) -> Result<Option<u64>, PlayFault>
        ensures ok { IfOk result (λ number. (h : List Event) → Follows self.old h → Followed self.new h (item_of raw.now).content number) }
        ensures fine { OnOk result (broken_by (answers self.old.tracker) (content_of raw.now.block) ≡ None) }
        ensures ops { OnOk result (ops.new ≡ ops.old ++ ops_said (answers self.old.tracker) (content_of raw.now.block)) }
        ensures rule { (fault : Fault) → broken_by (answers self.old.tracker) (content_of raw.now.block) ≡ Some fault → result ≡ Err (PlayFault.Bad fault raw.now.number raw.now.offset) }
        ensures err { IfErr result (λ why. (h : List Event) → Follows self.old h → Refuses h (item_of raw.now) why) }
        ensures kept { OnErr result (IsSameFollower self.old self.new) }
        ensures none { OnErr result (ops.new ≡ ops.old) }
    {
        match &raw.block {
            Block::Skip => Ok(None),
            Block::Effect { effect, .. } => match self.apply(effect, ops) {
                Ok(number) => Ok(number),
                Err(ApplyFault::Rule(fault)) => Err(PlayFault::Bad {
                    fault,
                    block: raw.number,
                    offset: raw.offset,
                }),
                Err(ApplyFault::WantMemory) => Err(PlayFault::WantMemory),
            },
        }
    }

    // Takes an effect.
    fn apply(&mut self, effect: &Effect<'_>, ops: &mut OpList) -> Result<Option<u64>, ApplyFault>
        ensures ok { IfOk result (λ number. (h : List Event) → Follows self.old h → Followed self.new h (of_effect 0 (event_of effect.now)) number) }
        ensures fine { OnOk result (first_broken (answers self.old.tracker) (checks_of (event_of effect.now)) ≡ None) }
        ensures ops { OnOk result (ops.new ≡ ops.old ++ ops_of (answers self.old.tracker) (event_of effect.now)) }
        ensures rule { (fault : Fault) → first_broken (answers self.old.tracker) (checks_of (event_of effect.now)) ≡ Some fault → result ≡ Err (ApplyFault.Rule fault) }
        ensures err { IfErr result (λ why. (h : List Event) → Follows self.old h → RefusesEffect h (event_of effect.now) why) }
        ensures kept { OnErr result (IsSameFollower self.old self.new) }
        ensures none { OnErr result (ops.new ≡ ops.old) }
    {
        let number = self.tracker.next_frame();
        match self.tracker.apply(effect, ops) {
            Ok(Outcome::Presented) => {
                self.first = Some(self.first.unwrap_or(number));
                Ok(Some(number))
            }
            Ok(Outcome::Nothing) => Ok(None),
            Err(fault) => Err(fault),
        }
    }

    /// What is told of a file without a frame that is asked for: the frames that are there.
    pub fn no_such_frame(&self) -> PlayFault
        ensures { (h : List Event) → Follows self.now h → result ≡ PlayFault.NoSuchFrame (first_in h) (last_in h) }
    {
        let next = self.tracker.next_frame();
        PlayFault::NoSuchFrame {
            first: self.first.unwrap_or(next),
            last: next.saturating_sub(1),
        }
    }
}
