//! The digest of the frames of a range, one frame after another.
ghost use Rattle.std.specs.Prelude.{◌≡◌, ◌<◌, ◌+◌, ◌^◌, ◌++◌, ℕ, List, [], if◌then◌else◌, length};
ghost use Rattle.sha2.specs.Hashers.{Holds256};
ghost use Rattle.sha2.specs.Sha256.{sha256};
ghost use Rattle.gfx_replay.specs.Replayer.{bytes_of};
ghost use Rattle.gfx_replay.specs.Shown.{frame_of};
ghost use Rattle.gfx_player.specs.Asked.{is_asked, is_last};
ghost use Rattle.gfx_player.specs.Walks.{first_frame_of};
ghost use Rattle.gfx_digest.specs.Images.{frame_bytes};

use crate::digest::Digested;
use crate::images::hash_frame;
use gfx_player::{Asked, Player};
use gfx_replay::ShownFrame;
use sha2::{Digest, Sha256};
use std::mem;

/// What was hashed of the frames that are asked for.
#[derive(Drop)]
pub(crate) struct FrameHasher {
    pub asked: Asked,
    // how many of them were shown so far
    pub count: u64,
    pub hasher: Sha256,
}

impl FrameHasher {
    /// A hasher before the first frame.
    pub(crate) fn new(asked: Asked) -> FrameHasher
        ensures asked { result.asked ≡ asked }
        ensures count { result.count ≡ 0 }
        ensures holds { Holds256 result.hasher [] }
    {
        FrameHasher {
            asked,
            count: 0,
            hasher: Sha256::new(),
        }
    }

    /// Hashes the images of the frame that the player shows, where it is asked for. Answers whether it is the last one.
    pub(crate) fn take(&mut self, frame: &ShownFrame, player: &Player, piece: &mut [u8]) -> bool
        requires space { 0 < length piece.old }
        requires room { self.old.count < 2 ^ 63 }
        ensures asked { self.new.asked ≡ self.old.asked }
        ensures count { self.new.count ≡ self.old.count + (if is_asked self.old.asked (first_frame_of player.now) frame.now.number then 1 else 0) }
        ensures last { result ≡ is_last self.old.asked (first_frame_of player.now) frame.now.number }
        ensures holds { (before : List ℕ) → Holds256 self.old.hasher before → Holds256 self.new.hasher (before ++ (if is_asked self.old.asked (first_frame_of player.now) frame.now.number then frame_bytes (frame_of (bytes_of player.now.replayer) frame.now) else [])) }
    {
        let first = player.first_frame();
        if self.asked.asks_for(first, frame.number) {
            hash_frame(frame, player.replayer(), &mut self.hasher, piece);
            self.count += 1;
        }
        self.asked.ends_with(first, frame.number)
    }

    /// The digest of what was hashed, and the number of these frames. What is left has hashed nothing.
    pub(crate) fn finish(&mut self) -> Digested
        ensures digest { (bytes : List ℕ) → Holds256 self.old.hasher bytes → result.digest ≡ sha256 bytes }
        ensures frames { result.frames ≡ self.old.count }
    {
        let hasher = mem::replace(&mut self.hasher, Sha256::new());
        Digested {
            digest: hasher.finalize(),
            frames: self.count,
        }
    }
}
