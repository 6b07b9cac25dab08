// The values that fields spell.
ghost use Rattle.std.specs.Prelude.{◌≡◌, ◌≤◌, ◌⊎◌};
ghost use Rattle.gfx_model.specs.Events.{event_of_call, event_of_meta};
ghost use Rattle.gfx_grammar.specs.Rows.{read_call, read_meta};
ghost use Rattle.gfx_params.specs.Gives.{Gives};

use crate::ParamFault;
use crate::read::read_whole;
use gfx_types::{Call, Ids, Meta, Present, Presents, calls, in_order, metas};
use std::alloc::Global;

/// The section of this name, passed on.
macro_rules! decoded {
    (devices $to:tt; devices { $($rows:tt)* } $($others:tt)*) => { decoded_rows! { $to $($rows)* } };
    (memory $to:tt; memory { $($rows:tt)* } $($others:tt)*) => { decoded_rows! { $to $($rows)* } };
    (pools $to:tt; pools { $($rows:tt)* } $($others:tt)*) => { decoded_rows! { $to $($rows)* } };
    (commands $to:tt; commands { $($rows:tt)* } $($others:tt)*) => { decoded_rows! { $to $($rows)* } };
    (signals $to:tt; signals { $($rows:tt)* } $($others:tt)*) => { decoded_rows! { $to $($rows)* } };
    (swapchains $to:tt; swapchains { $($rows:tt)* } $($others:tt)*) => { decoded_rows! { $to $($rows)* } };
    (metas $to:tt; metas { $($rows:tt)* }) => { decoded_rows! { $to $($rows)* } };
    ($wanted:ident $to:tt; $section:ident { $($rows:tt)* } $($others:tt)*) => { decoded! { $wanted $to; $($others)* } };
}

/// What fields spell by the rows of a section.
macro_rules! decoded_rows {
    (($id:expr, $of:ident, $alloc:expr, $bytes:expr, $other:expr) $($row:literal $name:ident $method:ident($($field:ident: $mark:ident),+);)+) => {
        match $id {
            $($row => match read_whole($alloc, $bytes) {
                Ok(in_order!($($field),+)) => Ok($of::$name { $($field),+ }),
                Err(fault) => Err(fault),
            },)+
            _ => $other,
        }
    };
}

/// The call of this id whose fields the bytes are, BadParams exactly where they are the fields of none.
#[tactic(auto, unfolding(gfx_grammar::specs::Rows::by_row, gfx_grammar::specs::Rows::read_event))]
pub fn decode(alloc: Global, minor: u32, id: u32, bytes: &[u8]) -> Result<Call<'_>, ParamFault>
    requires { (minor ≡ 1) ⊎ (minor ≡ 2) }
    ensures { Gives event_of_call result (read_call minor id bytes.now) }
{
    match id {
        1..=7 => decode_devices(alloc, minor, id, bytes),
        8..=17 => decode_memory(alloc, minor, id, bytes),
        18..=25 => decode_pools(alloc, minor, id, bytes),
        26..=33 => decode_command(alloc, minor, id, bytes),
        34..=40 => decode_signals(alloc, minor, id, bytes),
        41..=47 => decode_swapchains(alloc, minor, id, bytes),
        48 => decode_present(alloc, minor, bytes),
        _ => {
            gfx_grammar::others_are_not_read();
            Err(ParamFault::BadParams)
        }
    }
}

#[tactic(auto, unfolding(gfx_grammar::specs::Rows::by_row, gfx_grammar::specs::Rows::read_event))]
fn decode_devices(alloc: Global, minor: u32, id: u32, bytes: &[u8]) -> Result<Call<'_>, ParamFault>
    requires { (1 ≤ id) × (id ≤ 7) }
    ensures { Gives event_of_call result (read_call minor id bytes.now) }
{
    calls!(decoded, devices(id, Call, alloc, bytes, unreachable!()))
}

#[tactic(auto, unfolding(gfx_grammar::specs::Rows::by_row, gfx_grammar::specs::Rows::read_event))]
fn decode_memory(alloc: Global, minor: u32, id: u32, bytes: &[u8]) -> Result<Call<'_>, ParamFault>
    requires { (8 ≤ id) × (id ≤ 17) }
    ensures { Gives event_of_call result (read_call minor id bytes.now) }
{
    calls!(decoded, memory(id, Call, alloc, bytes, unreachable!()))
}

#[tactic(auto, unfolding(gfx_grammar::specs::Rows::by_row, gfx_grammar::specs::Rows::read_event))]
fn decode_pools(alloc: Global, minor: u32, id: u32, bytes: &[u8]) -> Result<Call<'_>, ParamFault>
    requires { (18 ≤ id) × (id ≤ 25) }
    ensures { Gives event_of_call result (read_call minor id bytes.now) }
{
    calls!(decoded, pools(id, Call, alloc, bytes, unreachable!()))
}

#[tactic(auto, unfolding(gfx_grammar::specs::Rows::by_row, gfx_grammar::specs::Rows::read_event))]
fn decode_command(alloc: Global, minor: u32, id: u32, bytes: &[u8]) -> Result<Call<'_>, ParamFault>
    requires { (26 ≤ id) × (id ≤ 33) }
    ensures { Gives event_of_call result (read_call minor id bytes.now) }
{
    calls!(decoded, commands(id, Call, alloc, bytes, unreachable!()))
}

#[tactic(auto, unfolding(gfx_grammar::specs::Rows::by_row, gfx_grammar::specs::Rows::read_event))]
fn decode_signals(alloc: Global, minor: u32, id: u32, bytes: &[u8]) -> Result<Call<'_>, ParamFault>
    requires { (34 ≤ id) × (id ≤ 40) }
    ensures { Gives event_of_call result (read_call minor id bytes.now) }
{
    calls!(decoded, signals(id, Call, alloc, bytes, unreachable!()))
}

#[tactic(auto, unfolding(gfx_grammar::specs::Rows::by_row, gfx_grammar::specs::Rows::read_event))]
fn decode_swapchains(
    alloc: Global,
    minor: u32,
    id: u32,
    bytes: &[u8],
) -> Result<Call<'_>, ParamFault>
    requires { (41 ≤ id) × (id ≤ 47) }
    ensures { Gives event_of_call result (read_call minor id bytes.now) }
{
    calls!(decoded, swapchains(id, Call, alloc, bytes, unreachable!()))
}

/// A present: version 1 has one swapchain and one index, version 2 a list of them.
#[tactic(auto, unfolding(gfx_grammar::specs::Rows::by_row, gfx_grammar::specs::Rows::read_event, gfx_grammar::specs::Rows::present_row))]
fn decode_present(alloc: Global, minor: u32, bytes: &[u8]) -> Result<Call<'_>, ParamFault>
    requires { (minor ≡ 1) ⊎ (minor ≡ 2) }
    ensures { Gives event_of_call result (read_call minor 48 bytes.now) }
{
    if minor == 1 {
        let (queue, (waits, present)) = read_whole::<(u64, (Ids, Present))>(alloc, bytes)?;
        let mut presents = Vec::new(alloc);
        presents.push(present)?;
        return Ok(Call::QueuePresentKHR {
            queue,
            waits,
            presents: Presents::of(presents),
        });
    }
    let (queue, (waits, presents)) = read_whole(alloc, bytes)?;
    Ok(Call::QueuePresentKHR {
        queue,
        waits,
        presents,
    })
}

/// The metadata of this id whose fields the bytes are, BadParams exactly where they are the fields of none.
#[tactic(auto, unfolding(gfx_grammar::specs::Rows::by_row, gfx_grammar::specs::Rows::read_event))]
pub fn decode_meta(alloc: Global, id: u32, bytes: &[u8]) -> Result<Meta<'_>, ParamFault>
    ensures { Gives event_of_meta result (read_meta 1 id bytes.now) }
{
    metas!(
        decoded,
        metas(
            id,
            Meta,
            alloc,
            bytes,
            {
                gfx_grammar::others_are_not_read();
                Err(ParamFault::BadParams)
            }
        )
    )
}
