//! How one token learns what another has seen.
ghost use Rattle.std.specs.Prelude.{◌≡◌, ◌≤◌, [], length};
ghost use mathlib.Core.List.{IsPrefix};
ghost use Rattle.gfx_seats.specs.declared.stage.Stage.TheVariants.{HasTurn};
ghost use Rattle.gfx_seats.specs.Stage.{seat_count};
ghost use Rattle.gfx_seats.specs.Hand.{with_seen, HasAllOwn, CreatesAlone};
ghost use Rattle.gfx_seats.specs.Steps.{with_me};

use crate::grows::Grows;
use crate::steps::{Learn, MakeNote, TakeNote};
use crate::words::{Board, NEXT_ID, Token};

/// What `from` has seen, `to` has seen too. The load finds nothing that is used: a view changes at a step alone.
pub(crate) fn tell<V: Grows>(board: &Board<V>, from: &mut Token<V>, to: &mut Token<V>)
    requires board { (from.old.table_id ≡ board.now.table_id) × (to.old.table_id ≡ board.now.table_id) × (board.now.table_id.words ≡ 4) }
    requires there { (seat_count from.old.me.0.hand.stage ≡ 1) × (seat_count to.old.me.0.hand.stage ≡ 1) }
    requires bare { (to.old.me.0.others ≡ []) × (to.old.me.0.notes ≡ []) }
    ensures board { (from.new.table_id ≡ from.old.table_id) × (to.new.table_id ≡ to.old.table_id) }
    ensures from { from.new.me ≡ from.old.me }
    ensures to { to.new.me ≡ with_me to.old.me (with_seen to.old.me.0.hand from.old.me.0.hand.seen from.old.me.0.hand.known) }
    ensures before { IsPrefix to.old.me.0.hand.seen to.new.me.0.hand.seen }
    ensures told { IsPrefix from.old.me.0.hand.seen to.new.me.0.hand.seen }
    ensures knows { length to.new.me.0.hand.seen ≤ to.new.me.0.hand.known }
    ensures turn { to.old.me.0.hand.stage ≡ HasTurn → to.new.me.0.hand.seen ≡ to.old.me.0.hand.seen }
    ensures own { HasAllOwn V.thread_of to.new.me.0.hand }
    ensures alone { CreatesAlone V.ids_of to.new.me.0.hand }
{
    let note = board.split_seat::<MakeNote>(from);
    board.join_seat::<TakeNote>(to, note);
    board.load::<Learn<V>>(to, NEXT_ID);
}
