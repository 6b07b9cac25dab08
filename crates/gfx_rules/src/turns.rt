//! The turns of a submit, each on what the turns before it leave.

ghost use Rattle.std.specs.Prelude.{◌≡◌, ◌<◌, ◌≤◌, ◌↔◌, Bool, ℕ, Some, None, IsTrue, IfSome, length, map, take, flat_map};
ghost use Rattle.gfx_types.specs.declared.names.Fault.TheVariants.{SignalState};
ghost use Rattle.gfx_model.specs.Checks as words;
ghost use Rattle.gfx_model.specs.Layouts.{cbs_at, layouts_by};
ghost use Rattle.gfx_rules.specs.Turns.{AreFew, IsFirstDiffering, signals_after, signals_behind, turns_at};

use crate::answers::Answers;
use crate::checks::first;
use crate::ids::is_among;
use gfx_types::{Fault, Submit, Submits};

/// Whether an id is signalled after a submit, where it is or is not before.
fn is_left_by(submit: &Submit, is: bool, id: u64) -> bool
    ensures { (signalled : ℕ → Bool) → is ≡ signalled id → result ≡ signals_after signalled (words.turns_of_submit submit.now) id }
{
    is_among(submit.signals.items(), id) || (!is_among(submit.waits.items(), id) && is)
}

/// Whether an id is signalled after these submits of the call.
fn is_signalled_after<A: Answers>(answers: &A, submits: &[Submit], id: u64) -> bool
    ensures { result ≡ signals_behind (A.view answers.now).signalled submits.now id }
{
    let mut is = answers.is_signalled(id);
    'submits: for submit in submits {
        is = is_left_by(submit, is, id);
    }
    is
}

/// Whether an id is signalled after these submits of the call and these waits.
fn is_signalled_behind<A: Answers>(answers: &A, submits: &[Submit], waits: &[u64], id: u64) -> bool
    ensures { result ≡ signals_after (signals_behind (A.view answers.now).signalled submits.now) (map words.Turn.wait waits.now) id }
{
    !is_among(waits, id) && is_signalled_after(answers, submits, id)
}

/// Whether an id is signalled after these submits of the call, these waits and these signals.
fn is_signalled_now<A: Answers>(
    answers: &A,
    submits: &[Submit],
    waits: &[u64],
    signals: &[u64],
    id: u64,
) -> bool
    ensures { let waited = signals_after (signals_behind (A.view answers.now).signalled submits.now) (map words.Turn.wait waits.now) in
        result ≡ signals_after waited (map words.Turn.signal signals.now) id }
{
    is_among(signals, id) || is_signalled_behind(answers, submits, waits, id)
}

/// 25 unless each wait finds a signal, behind these submits of the call.
pub fn waits_fault<A: Answers>(answers: &A, submits: &[Submit], waits: &[u64]) -> Option<Fault>
    ensures { let v = A.view answers.now in (layout : ℕ → ℕ) →
        result ≡ words.turns_fault v (signals_behind v.signalled submits.now) layout (map words.Turn.wait waits.now) }
{
    'waits: for (at, id) in waits.iter().enumerate() {
        if !is_signalled_behind(answers, submits, &waits[..at], *id) {
            return Some(Fault::SignalState);
        }
    }
    None
}

/// 25 if a signal finds one already, behind these submits of the call and these waits.
fn signals_fault<A: Answers>(
    answers: &A,
    submits: &[Submit],
    waits: &[u64],
    signals: &[u64],
) -> Option<Fault>
    ensures { let v = A.view answers.now in let waited = signals_after (signals_behind v.signalled submits.now) (map words.Turn.wait waits.now) in
        (layout : ℕ → ℕ) → result ≡ words.turns_fault v waited layout (map words.Turn.signal signals.now) }
{
    'signals: for (at, id) in signals.iter().enumerate() {
        if is_signalled_now(answers, submits, waits, &signals[..at], *id) {
            return Some(Fault::SignalState);
        }
    }
    None
}

/// Whether a place of a call is this one.
fn is_place(place: Option<(u32, u32)>, submit: u32, at: u32) -> bool
    ensures { IsTrue result ↔ place ≡ Some (submit, at) }
{
    match place {
        Some((its_submit, its_at)) => its_submit == submit && its_at == at,
        None => false,
    }
}

/// 21 unless each command buffer of a submit is executable, 23 unless it meets its layouts, where no earlier submit of
/// the call has one that does not.
fn executes_fault<A: Answers>(
    answers: &A,
    submits: &Submits,
    submit: u32,
    cbs: &[u64],
    differing: Option<(u32, u32)>,
) -> Option<Fault>
    requires few { AreFew submits.now }
    requires submit { submit < length submits.now }
    requires cbs { cbs.now ≡ cbs_at submits.now submit }
    requires first { IsFirstDiffering (A.view answers.now) submits.now differing }
    requires earlier { IfSome differing (λ place. submit ≤ place.0) }
    ensures passed { result ≡ None → IfSome differing (λ place. submit < place.0) }
    ensures fault { let v = A.view answers.now in let before = flat_map (λ s. s.cbs) (take submit submits.now) in
        (signalled : ℕ → Bool) → result ≡ words.turns_fault v signalled (layouts_by v.buffer v.layout before) (map words.Turn.execute cbs.now) }
{
    'cbs: for (at, cb) in cbs.iter().enumerate() {
        if !answers.is_executable(*cb) {
            return Some(Fault::CommandState);
        }
        if is_place(differing, submit, at as u32) {
            return Some(Fault::LayoutDiffers);
        }
    }
    None
}

/// The fault of a submit's first turn that has one, behind the submits before it.
fn submit_fault<A: Answers>(
    answers: &A,
    submits: &Submits,
    at: u32,
    differing: Option<(u32, u32)>,
) -> Option<Fault>
    requires few { AreFew submits.now }
    requires at { at < length submits.now }
    requires first { IsFirstDiffering (A.view answers.now) submits.now differing }
    requires earlier { IfSome differing (λ place. at ≤ place.0) }
    ensures passed { result ≡ None → IfSome differing (λ place. at < place.0) }
    ensures fault { let v = A.view answers.now in let before = take at submits.now in
        result ≡ words.turns_fault v (signals_behind v.signalled before) (layouts_by v.buffer v.layout (flat_map (λ s. s.cbs) before)) (turns_at submits.now at) }
{
    let all = submits.items();
    let submit = &all[at as usize];
    let before = &all[..at as usize];
    let waited = waits_fault(answers, before, submit.waits.items());
    let executed = executes_fault(answers, submits, at, submit.cbs.items(), differing);
    let signalled = signals_fault(
        answers,
        before,
        submit.waits.items(),
        submit.signals.items(),
    );
    first(first(waited, executed), signalled)
}

/// The fault of the first turn of the submits that has one.
fn submits_fault<A: Answers>(
    answers: &A,
    submits: &Submits,
    differing: Option<(u32, u32)>,
) -> Option<Fault>
    requires few { AreFew submits.now }
    requires first { IsFirstDiffering (A.view answers.now) submits.now differing }
    ensures { let v = A.view answers.now in result ≡ words.turns_fault v v.signalled v.layout (flat_map words.turns_of_submit submits.now) }
{
    'submits: for at in 0..submits.items().len() {
        if let Some(fault) = submit_fault(answers, submits, at as u32, differing) {
            return Some(fault);
        }
    }
    None
}

/// The fault of the first turn of a call that has one.
pub fn turns_fault<A: Answers>(answers: &A, submits: &Submits, fence: u64) -> Option<Fault>
    requires { AreFew submits.now }
    ensures { let v = A.view answers.now in result ≡ words.turns_fault v v.signalled v.layout (words.turns_of submits.now fence) }
{
    let all = submits_fault(answers, submits, answers.differs_at(submits));
    if fence == 0 {
        all
    } else {
        first(all, signals_fault(answers, submits.items(), &[], &[fence]))
    }
}
