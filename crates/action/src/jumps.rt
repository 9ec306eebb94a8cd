// Jumps, branches and the return from an exception: illegal in a delay slot.
ghost use Rattle.std.specs.Prelude.{◌≡◌};
ghost use Rattle.effect.specs.Effect.{jumping};
ghost use Rattle.effect.specs.Inner.{effect_by};
ghost use Rattle.effect.specs.declared.types.Inputs.{Inputs};
ghost use Rattle.action.specs.Operations.{jump as jumpOf, relative as relativeOf, after_slot, branch as branchOf, register_jump, returns};

use crate::raised;
use effect::effects;
use effect::types::{Action, Inputs, Jumped};
use isa::vectors::Cause;

#[tactic(auto, unfolding(effect::specs::Inner::effect_by))]
fn jump_to(place: u32, value: u32, target: u32) -> Action
    ensures { (x : Inputs) → effect_by x result ≡ jumping x place value target }
{
    Action::Jump(Jumped {
        place,
        value,
        target,
    })
}

#[tactic(auto, unfolding(crate::specs::Operations::jump))]
pub fn jump(x: Inputs, place: u32, value: u32, to: u32) -> Action
    ensures { effect_by x result ≡ jumpOf x place value to }
{
    if effects::in_slot(x) {
        return raised::illegal(x);
    }
    jump_to(place, value, to)
}

// The instruction's address plus its immediate.
pub fn relative(x: Inputs) -> u32
    ensures { result ≡ relativeOf x }
{
    arith::address_add(x.flow.pc, x.immediate)
}

// The address after the slot.
pub fn after_slot(x: Inputs) -> u32
    ensures { result ≡ after_slot x }
{
    arith::address_add(x.flow.pc, 8)
}

#[tactic(auto, unfolding(crate::specs::Operations::branch))]
pub fn branch(x: Inputs, taken: bool) -> Action
    ensures { effect_by x result ≡ branchOf x taken }
{
    if taken {
        return jump(x, 0, 0, relative(x));
    }
    jump(x, 0, 0, after_slot(x))
}

// To the address in rB, which must be a multiple of 4.
#[tactic(auto, unfolding(crate::specs::Operations::register_jump))]
pub fn register_jump(x: Inputs, place: u32, value: u32) -> Action
    ensures { effect_by x result ≡ register_jump x place value }
{
    if effects::in_slot(x) {
        return raised::illegal(x);
    }
    if 0 < x.b % 4 {
        return raised::fault(Cause::Alignment, x.b);
    }
    jump_to(place, value, x.b)
}

#[tactic(auto, unfolding(crate::specs::Operations::returns, effect::specs::Inner::effect_by))]
pub fn return_from_exception(x: Inputs) -> Action
    ensures { effect_by x result ≡ returns x }
{
    if effects::in_slot(x) {
        return raised::illegal(x);
    }
    Action::Return
}
