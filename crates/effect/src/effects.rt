#![tactic(auto, unfolding(crate::specs::Inner::effect_by))]
// What an action comes to: its effect, given what its instruction read.
ghost use Rattle.std.specs.Prelude.{◌≡◌};
ghost use Rattle.effect.specs.State.{running};
ghost use Rattle.effect.specs.Effect.{no_link, in_slot, onward as onwardOf, completed, restart as restartOf, exception_pc, raises, accumulating};
ghost use Rattle.effect.specs.Inner.{effect_by};
ghost use Rattle.effect.specs.declared.types.Inputs.{Inputs};

use crate::state;
use crate::types::{
    Action, Effect, Exception, Faulted, Flow, Inputs, Jumped, Link, Linked, Store, Written,
};
use isa::vectors::Cause;
use product::Accumulator;

// The instruction is in a delay slot.
pub fn in_slot(x: Inputs) -> bool
    ensures { result ≡ in_slot x }
{
    x.flow.delay == 1
}

fn no_link() -> Link
    ensures { result ≡ no_link }
{
    Link {
        held: 0,
        address: 0,
    }
}

// ---- completed instructions

// `place`, `value` and `sr` stay apart, as in `completed`: few callers have a Written at hand.
fn complete(
    place: u32,
    value: u32,
    sr: u32,
    flow: Flow,
    link: Link,
    mode: u32,
    store: Option<Store>,
) -> Effect
    ensures { result ≡ completed place value sr flow link mode store }
{
    Effect {
        place,
        value,
        sr,
        flow,
        link,
        mode,
        accumulated: None,
        store,
        outcome: Ok(()),
    }
}

// To the next instruction, or from a slot to its target.
#[tactic(auto, unfolding(crate::specs::Effect::onward))]
fn onward(x: Inputs) -> Flow
    ensures { result ≡ onwardOf x }
{
    Flow {
        pc: if in_slot(x) {
            x.flow.target
        } else {
            arith::address_add(x.flow.pc, 4)
        },
        delay: 0,
        target: 0,
    }
}

// On to there, running.
fn go_on(x: Inputs, place: u32, value: u32, sr: u32, link: Link, store: Option<Store>) -> Effect
    ensures { result ≡ completed place value sr (onwardOf x) link running store }
{
    complete(place, value, sr, onward(x), link, state::RUNNING, store)
}

#[tactic(auto, unfolding(crate::specs::Inner::effect_by, crate::specs::Effect::advances))]
pub fn advance_effect(x: Inputs, w: Written) -> Effect
    ensures { result ≡ effect_by x (Action.Advance w) }
{
    go_on(x, w.place, w.value, w.sr, x.link, None)
}

// To the target after the slot.
pub fn jump_effect(x: Inputs, j: Jumped) -> Effect
    ensures { result ≡ effect_by x (Action.Jump j) }
{
    let flow = Flow {
        pc: arith::address_add(x.flow.pc, 4),
        delay: 1,
        target: j.target,
    };
    complete(j.place, j.value, x.sr, flow, x.link, state::RUNNING, None)
}

pub fn save_effect(x: Inputs, s: Store) -> Effect
    ensures { result ≡ effect_by x (Action.Save s) }
{
    go_on(x, 0, 0, x.sr, x.link, Some(s))
}

fn return_effect(x: Inputs) -> Effect
    ensures { result ≡ effect_by x Action.Return }
{
    let flow = Flow {
        pc: x.epcr,
        delay: 0,
        target: 0,
    };
    complete(0, 0, x.esr, flow, x.link, state::RUNNING, None)
}

fn halt_effect(x: Inputs) -> Effect
    ensures { result ≡ effect_by x Action.Halt }
{
    complete(0, 0, x.sr, onward(x), x.link, state::HALTED, None)
}

// l.lwa once its access is granted.
fn load_linked_effect(x: Inputs, l: Linked) -> Effect
    ensures { result ≡ effect_by x (Action.LoadLinked l) }
{
    let link = Link {
        held: 1,
        address: l.address,
    };
    go_on(x, l.place, l.value, x.sr, link, None)
}

// l.swa once its access is granted: it stores if its link was to that word.
fn save_linked_effect(x: Inputs, s: Option<Store>) -> Effect
    ensures { result ≡ effect_by x (Action.SaveLinked s) }
{
    let sr = arith::set_flag(x.sr, s.is_some());
    go_on(x, 0, 0, sr, no_link(), s)
}

// On to the next instruction, where MACHI and MACLO become m.
fn accumulate_effect(x: Inputs, place: u32, value: u32, m: Accumulator) -> Effect
    ensures { result ≡ accumulating x place value m }
{
    Effect {
        place,
        value,
        sr: x.sr,
        flow: onward(x),
        link: x.link,
        mode: state::RUNNING,
        accumulated: Some(m),
        store: None,
        outcome: Ok(()),
    }
}

// l.macrc: MACLO goes to rD, and both are cleared.
fn read_accumulator_effect(x: Inputs) -> Effect
    ensures { result ≡ effect_by x Action.ReadAccumulator }
{
    let cleared = Accumulator { high: 0, low: 0 };
    accumulate_effect(x, x.d, x.accumulator.low, cleared)
}

// ---- exceptions

// The address that EPCR keeps: in a slot, its jump's.
#[tactic(auto, unfolding(crate::specs::Effect::restart))]
fn restart(x: Inputs) -> u32
    ensures { result ≡ restartOf x }
{
    if in_slot(x) {
        arith::address_sub(x.flow.pc, 4)
    } else {
        x.flow.pc
    }
}

// EPCR of an exception: l.sys goes on after itself.
fn exception_pc(x: Inputs, cause: Cause) -> u32
    ensures { result ≡ exception_pc x cause }
{
    match cause {
        Cause::Syscall => arith::address_add(x.flow.pc, 4),
        Cause::Interrupt => x.flow.pc,
        _ => restart(x),
    }
}

// The exception, once `value` went to `place` and SR became `sr`. Its commit goes to the vector.
#[tactic(auto, unfolding(crate::specs::Effect::raises))]
fn raise(x: Inputs, place: u32, value: u32, sr: u32, cause: Cause, eear: u32) -> Effect
    ensures { result ≡ raises x place value sr cause eear }
{
    Effect {
        place,
        value,
        sr: arith::exception_sr(sr, in_slot(x)),
        flow: Flow {
            pc: x.flow.pc,
            delay: 0,
            target: 0,
        },
        link: no_link(),
        mode: state::RUNNING,
        accumulated: None,
        store: None,
        outcome: Err(Exception {
            cause,
            epcr: exception_pc(x, cause),
            eear,
            esr: sr,
        }),
    }
}

// Before anything is written.
pub fn fault_effect(x: Inputs, f: Faulted) -> Effect
    ensures { result ≡ effect_by x (Action.Fault f) }
{
    raise(x, 0, 0, x.sr, f.cause, f.eear)
}

// Range, once w is written.
fn range_effect(x: Inputs, w: Written) -> Effect
    ensures { result ≡ effect_by x (Action.RaiseRange w) }
{
    raise(x, w.place, w.value, w.sr, Cause::Range, x.eear)
}

// ---- any action

pub fn effect_by(x: Inputs, action: Action) -> Effect
    ensures { result ≡ effect_by x action }
{
    match action {
        Action::Advance(w) => advance_effect(x, w),
        Action::Jump(j) => jump_effect(x, j),
        Action::Save(s) => save_effect(x, s),
        Action::Fault(f) => fault_effect(x, f),
        Action::RaiseRange(w) => range_effect(x, w),
        Action::Return => return_effect(x),
        Action::Halt => halt_effect(x),
        Action::LoadLinked(l) => load_linked_effect(x, l),
        Action::SaveLinked(s) => save_linked_effect(x, s),
        Action::Accumulate(m) => accumulate_effect(x, 0, 0, m),
        Action::ReadAccumulator => read_accumulator_effect(x),
    }
}

// What an action stores.
#[tactic(auto, unfolding(crate::specs::Inner::effect_by, crate::specs::Effect::advances, crate::specs::Effect::raises))]
pub fn store_of(action: Action) -> Option<Store>
    ensures { (x : Inputs) → result ≡ (effect_by x action).store }
{
    match action {
        Action::Save(s) => Some(s),
        Action::SaveLinked(s) => s,
        _ => None,
    }
}
