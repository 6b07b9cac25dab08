use crate::grows::Grows;
use crate::start::Start;
use crate::view::View;
use atomic_table::TableRule;

/// The rule that each step keeps.
pub struct DeskRule;

impl<V: Grows> TableRule<Option<V>, View<V::Entry>, Start<V>> for DeskRule {
    ghost use Rattle.gfx_seats.specs.Rule.{IsKept};
    ghost use Rattle.gfx_seats.specs.View.{opening_view};

    ghost holds = { λ key. IsKept V.entries V.thread_of V.ids_of V.kind key.seats (V.kind key.value.value) };

    ghost first = { λ key. opening_view (V.kind key.value.value) key.seats };
}
