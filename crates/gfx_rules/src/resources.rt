//! Checks that many rows begin with, without a list of them.

ghost use Rattle.std.specs.Prelude.{◌≡◌, ◌≢◌, ◌==◌, ◌++◌, ◌∷◌, [], true, false, IfOk};
ghost use Rattle.std.specs.Result.{result_err};
ghost use Rattle.gfx_types.specs.declared.names.Kind.TheVariants as kind;
ghost use Rattle.gfx_model.specs.Table as table;
ghost use Rattle.gfx_model.specs.Checks as words;
ghost use Rattle.gfx_model.specs.Views as views;

use crate::answers::Answers;
use crate::checks::unless;
use crate::derived::{has_bit, has_room_to_keep};
use gfx_types::{Fault, Kind, Resource};

/// 11 unless a live object of this kind has this id.
#[tactic(auto, unfolding(gfx_model::specs::Checks::broken))]
pub fn live_fault<A: Answers>(answers: &A, kind: Kind, id: u64) -> Option<Fault>
    ensures { result ≡ words.broken (A.view answers.now) (words.Check.live kind id) }
{
    unless(answers.is_live(kind, id), Fault::NotLive)
}

/// The fault of the command buffer of a command: 11 unless it is live, 21 unless it is recording.
#[tactic(auto, unfolding(gfx_model::specs::Checks::broken))]
pub fn command_fault<A: Answers>(answers: &A, cb: u64) -> Option<Fault>
    ensures { result ≡ words.first_broken (A.view answers.now) (words.Check.live kind.CommandBuffer cb ∷ words.Check.recording cb ∷ []) }
{
    if !answers.is_live(Kind::CommandBuffer, cb) {
        return Some(Fault::NotLive);
    }
    unless(answers.is_recording(cb), Fault::CommandState)
}

// Whether the kind is that of devices.
fn is_device(of: Kind) -> bool
    ensures { result ≡ false → of ≢ kind.Device }
{
    matches!(of, Kind::Device)
}

// Whether a live object and its command buffer are of one device, which is known of the command buffer. A child of a device is of
// it without another look.
#[tactic(auto, using(crate::proofs::Near::child_near))]
fn is_near<A: Answers>(answers: &A, kind: Kind, parent: u64, cb: u64, device: u64, id: u64) -> bool
    requires live { views.is_live (A.view answers.now) kind id ≡ true }
    requires parent { parent ≡ views.parent_of (A.view answers.now) id }
    requires device { device ≡ views.device_of (A.view answers.now) cb }
    ensures { result ≡ (views.device_of (A.view answers.now) id == views.device_of (A.view answers.now) cb) }
{
    if parent == device && device != 0 && !is_device(kind) {
        return true;
    }
    answers.device_of(id) == device
}

/// A resource of a command, by the device of its command buffer: 11 unless it is live, 13 unless it is of that device, 18
/// unless it is usable.
#[tactic(auto, unfolding(gfx_model::specs::Checks::broken))]
fn resource_near<A: Answers>(
    answers: &A,
    kind: Kind,
    cb: u64,
    device: u64,
    id: u64,
) -> Result<Resource, Fault>
    requires { device ≡ views.device_of (A.view answers.now) cb }
    ensures fault { result_err result ≡ words.first_broken (A.view answers.now) (table.res kind cb id) }
    ensures usage { IfOk result (λ r. r.usage ≡ views.usage_of (A.view answers.now) id) }
{
    let Some(resource) = answers.resource(kind, id) else {
        return Err(Fault::NotLive);
    };
    if !is_near(answers, kind, resource.parent, cb, device, id) {
        return Err(Fault::WrongParent);
    }
    if !resource.is_usable {
        return Err(Fault::NotBound);
    }
    Ok(resource)
}

/// The fault of a resource of a command, by the device of its command buffer: 11 unless it is live, 13 unless it is of that
/// device, 18 unless it is usable.
pub fn resource_fault<A: Answers>(
    answers: &A,
    kind: Kind,
    cb: u64,
    device: u64,
    id: u64,
) -> Option<Fault>
    requires { device ≡ views.device_of (A.view answers.now) cb }
    ensures { result ≡ words.first_broken (A.view answers.now) (table.res kind cb id) }
{
    resource_near(answers, kind, cb, device, id).err()
}

/// The fault of a resource of a command, as of `resource_fault`, and then 22 unless it was made for this usage.
#[tactic(auto, unfolding(gfx_model::specs::Checks::broken))]
pub fn used_fault<A: Answers>(answers: &A, kind: Kind, cb: u64, id: u64, bit: u32) -> Option<Fault>
    ensures { result ≡ words.first_broken (A.view answers.now) (table.res kind cb id ++ words.Check.may_use id bit ∷ []) }
{
    match resource_near(answers, kind, cb, answers.device_of(cb), id) {
        Ok(resource) => unless(has_bit(resource.usage, bit), Fault::UsageMissing),
        Err(fault) => Some(fault),
    }
}

/// 22 unless the resource was made for this usage.
#[tactic(auto, unfolding(gfx_model::specs::Checks::broken))]
pub fn usage_fault<A: Answers>(answers: &A, id: u64, bit: u32) -> Option<Fault>
    ensures { result ≡ words.broken (A.view answers.now) (words.Check.may_use id bit) }
{
    unless(has_bit(answers.usage_of(id), bit), Fault::UsageMissing)
}

/// 16 unless the bytes before this end lie in the object.
#[tactic(auto, unfolding(gfx_model::specs::Checks::broken))]
pub fn end_fault<A: Answers>(answers: &A, id: u64, end: u128) -> Option<Fault>
    ensures { result ≡ words.broken (A.view answers.now) (words.Check.ends_in id end) }
{
    unless(end <= u128::from(answers.size_of(id)), Fault::OutOfRange)
}

/// 28 unless there is room to keep one more command, with so many bytes of fields.
#[tactic(auto, unfolding(gfx_model::specs::Checks::broken))]
pub fn keep_fault<A: Answers>(answers: &A, more: u128) -> Option<Fault>
    ensures { result ≡ words.broken (A.view answers.now) (words.Check.fits more) }
{
    unless(has_room_to_keep(answers, more), Fault::LimitReached)
}

/// The fault of an object of a device: 11 unless both are live, 13 unless the device is its parent.
#[tactic(auto, unfolding(gfx_model::specs::Checks::broken))]
pub fn owned_fault<A: Answers>(answers: &A, kind: Kind, device: u64, id: u64) -> Option<Fault>
    ensures { result ≡ words.first_broken (A.view answers.now) (table.of_device kind device id) }
{
    if !answers.is_live(Kind::Device, device) {
        return Some(Fault::NotLive);
    }
    if !answers.is_live(kind, id) {
        return Some(Fault::NotLive);
    }
    unless(answers.parent_of(id) == device, Fault::WrongParent)
}
