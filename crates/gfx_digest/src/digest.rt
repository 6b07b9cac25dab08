//! The digest of a range of frames, as their file is read.
ghost use Rattle.std.specs.Prelude.{◌≡◌, ◌≢◌, ◌≤◌, ◌<◌, ℕ, List, [], Err, length};
ghost use Rattle.std.specs.declared.option.Option.{Option as Maybe};
ghost use Rattle.gfx_io.specs.Causes.{Rose};
ghost use Rattle.gfx_io.specs.Told.{IfTold};
ghost use Rattle.gfx_player.specs.Walks.{Plays};
ghost use Rattle.gfx_digest.specs.Digests.{Digests, DigestsAsked};

use crate::hasher::FrameHasher;
use gfx_io::Source;
use gfx_player::{Asked, PlayFault, Player};
use std::alloc::Global;

/// The digest of frames, and how many they are.
#[derive(Clone, Copy, Debug, PartialEq, Eq)]
pub struct Digested {
    pub digest: [u8; 32],
    pub frames: u64,
}

// How many bytes of an image are looked at in one piece.
const PIECE: usize = 65536;

/// The SHA-256 of the bytes of all images of the frames from `first` to `last`, one after another, and the number of
/// these frames. Reading ends behind the last of them. A range that is not in the file is told where the file ends, and
/// a bad block or a failed read where it is met. Nothing is written, and no write fails.
pub fn digest_frames<S: Source>(
    alloc: Global,
    first: u64,
    last: u64,
    source: &mut S,
) -> Result<Digested, PlayFault>
    ensures told { IfTold (S.left source.old) (S.left source.new) (Digests first last result) }
    ensures read_fault { result ≡ Err PlayFault.ReadFault → Rose (S.faults source.old) (S.faults source.new) }
    ensures unwritten { result ≢ Err PlayFault.SinkFault }
    ensures later { S.faults source.old ≤ S.faults source.new }
{
    let mut piece = vec![in alloc; 0; PIECE]?;
    let asked = Asked::Between { first, last };
    digest_asked(alloc, asked, piece.as_mut_slice(), source)
}

/// Hashes the frames of a file that are asked for.
fn digest_asked<S: Source>(
    alloc: Global,
    asked: Asked,
    piece: &mut [u8],
    source: &mut S,
) -> Result<Digested, PlayFault>
    requires space { 0 < length piece.old }
    ensures told { IfTold (S.left source.old) (S.left source.new) (DigestsAsked asked result) }
    ensures read_fault { result ≡ Err PlayFault.ReadFault → Rose (S.faults source.old) (S.faults source.new) }
    ensures unwritten { result ≢ Err PlayFault.SinkFault }
    ensures later { S.faults source.old ≤ S.faults source.new }
{
    let mut player = Player::open(alloc, source)?;
    let digested = digest_opened(alloc, asked, piece, &mut player, source);
    drop(player);
    digested
}

// The loop only borrows the player: each exit of an owner drops it field by field, which takes long to prove.
fn digest_opened<S: Source>(
    alloc: Global,
    asked: Asked,
    piece: &mut [u8],
    player: &mut Player,
    source: &mut S,
) -> Result<Digested, PlayFault>
    requires space { 0 < length piece.old }
    requires plays { (file : Maybe (List ℕ)) × Plays player.old [] file (S.left source.old) }
    ensures told { (file : Maybe (List ℕ)) → Plays player.old [] file (S.left source.old)
        → IfTold file (S.left source.new) (DigestsAsked asked result) }
    ensures read_fault { result ≡ Err PlayFault.ReadFault → Rose (S.faults source.old) (S.faults source.new) }
    ensures unwritten { result ≢ Err PlayFault.SinkFault }
    ensures later { S.faults source.old ≤ S.faults source.new }
{
    let mut hasher = FrameHasher::new(asked);
    let mut buffer = Vec::new(alloc);
    'frames: while let Some(frame) = player.next_frame(source, &mut buffer)? {
        if hasher.take(&frame, player, piece) {
            return Ok(hasher.finish());
        }
    }
    Err(player.no_such_frame())
}
