//! A log up to its last byte.
ghost use Rattle.std.specs.Prelude.{◌≡◌};
ghost use Rattle.gfx_model.specs.Events.{event_of, event_of_call};
ghost use Rattle.gfx_capture.specs.ThreadBuffer.{CanBePut};

use gfx_capture::{AppendFault, Log, Receipt, ThreadBuffer};
use gfx_types::{Call, Effect, Meta};
use std::alloc::Global;
use std::process::Abort;
use std::test::Fail;

/// How many bytes each of the two large fills has, which is the most that a fill has here.
const LARGE: usize = 134_217_000;

/// How many bytes a fill behind them has that needs one byte more than there is.
const OVER: usize = 1_117;

/// What appending the effect alone answers.
fn append(
    log: &mut Log,
    buffer: &mut ThreadBuffer,
    effect: &Effect<'_>,
) -> Result<Receipt, AppendFault>
    requires minor { (log.old.minor ≡ 1) × (buffer.old.minor ≡ 1) }
    requires fits { CanBePut 1 (event_of effect.now) }
    ensures minor { (log.new.minor ≡ 1) × (buffer.new.minor ≡ 1) }
{
    buffer.clear();
    match buffer.put(effect) {
        Ok(()) => log.append(0, buffer),
        Err(_) => Err(AppendFault::WantMemory { done: 0 }),
    }
}

/// Appends a call, which is dropped here alone.
fn append_call(
    log: &mut Log,
    buffer: &mut ThreadBuffer,
    call: Call<'_>,
) -> Result<Receipt, AppendFault>
    requires minor { (log.old.minor ≡ 1) × (buffer.old.minor ≡ 1) }
    requires fits { CanBePut 1 (event_of_call call) }
    ensures minor { (log.new.minor ≡ 1) × (buffer.new.minor ≡ 1) }
{
    append(log, buffer, &Effect::Call(call))
}

/// An instance, a device, and a memory of all bytes that there may be, which is mapped whole.
#[tactic(auto, unfolding(gfx_model::specs::Spelling::fields_of, gfx_model::specs::Spelling::spelling, gfx_model::specs::Spelling::payload, gfx_model::specs::Spelling::type_of, gfx_model::specs::Spelling::id_of))]
fn append_objects(log: &mut Log, buffer: &mut ThreadBuffer) -> Result<Receipt, AppendFault>
    requires minor { (log.old.minor ≡ 1) × (buffer.old.minor ≡ 1) }
    ensures minor { (log.new.minor ≡ 1) × (buffer.new.minor ≡ 1) }
{
    let (instance, device, memory) = (1, 2, 3);
    let (api, offset) = (1, 0);
    let call = Call::CreateInstance { instance, api };
    append_call(log, buffer, call)?;
    let call = Call::CreateDevice { instance, device };
    append_call(log, buffer, call)?;
    let size = 1 << 28;
    let call = Call::AllocateMemory {
        device,
        memory,
        size,
    };
    append_call(log, buffer, call)?;
    let size = u64::MAX;
    let call = Call::MapMemory {
        device,
        memory,
        offset,
        size,
    };
    append_call(log, buffer, call)
}

/// What appending a fill of the memory with these bytes answers.
fn fill(log: &mut Log, buffer: &mut ThreadBuffer, bytes: &[u8]) -> Result<Receipt, AppendFault>
    requires minor { (log.old.minor ≡ 1) × (buffer.old.minor ≡ 1) }
    ensures minor { (log.new.minor ≡ 1) × (buffer.new.minor ≡ 1) }
{
    if bytes.len() > LARGE {
        return Err(AppendFault::WantMemory { done: 0 });
    }
    let (memory, offset) = (3, 0);
    let fill = Meta::FillMemory {
        memory,
        offset,
        bytes,
    };
    append(log, buffer, &Effect::Meta(fill))
}

/// Two large fills, then one that needs a byte more than there is, and one that needs all that there is.
fn fill_up<R: Abort>(rt: &R, log: &mut Log, buffer: &mut ThreadBuffer, large: &[u8], over: &[u8])
    requires minor { (log.old.minor ≡ 1) × (buffer.old.minor ≡ 1) }
{
    assert_eq!(rt; fill(log, buffer, large), Ok(Receipt { from: 4, count: 1 }));
    assert_eq!(rt; fill(log, buffer, large), Ok(Receipt { from: 5, count: 1 }));
    assert_eq!(rt; log.bytes().len(), 268_434_292);
    let full = AppendFault::LogFull {
        length: 268_434_292,
        wanted: 1_165,
        done: 0,
    };
    assert_eq!(rt; fill(log, buffer, over), Err(full));
    assert_eq!(rt; (log.blocks(), log.bytes().len()), (6, 268_434_292));
    let [_, fitting @ ..] = over else {
        panic!(rt; "a byte")
    };
    assert_eq!(rt;
        fill(log, buffer, fitting),
        Ok(Receipt { from: 6, count: 1 })
    );
    assert_eq!(rt; log.bytes().len(), 1 << 28);
}

/// A log with its objects, filled up.
fn fill_whole<R: Abort>(
    rt: &R,
    alloc: Global,
    log: &mut Log,
    buffer: &mut ThreadBuffer,
) -> Result<(), Fail>
    requires minor { (log.old.minor ≡ 1) × (buffer.old.minor ≡ 1) }
{
    let objects = append_objects(log, buffer);
    assert_eq!(rt; objects, Ok(Receipt { from: 3, count: 1 }));
    let large = vec![in alloc; 7u8; LARGE]?;
    let over = vec![in alloc; 7u8; OVER]?;
    fill_up(rt, log, buffer, &large, &over);
    Ok(())
}

// The log is owned where there is one way out, since letting go of it takes long to prove.
#[test]
fn a_log_is_filled_to_its_last_byte(rt: HostRuntime) -> Result<(), Fail> {
    let mut log = Log::new(rt.alloc(), 1)?;
    let mut buffer = ThreadBuffer::new(rt.alloc(), 1);
    fill_whole(&rt, rt.alloc(), &mut log, &mut buffer)
}
