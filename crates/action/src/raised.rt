// Instructions that raise an exception.
ghost use Rattle.std.specs.Prelude.{◌≡◌};
ghost use Rattle.effect.specs.Effect.{faults};
ghost use Rattle.effect.specs.Inner.{effect_by};
ghost use Rattle.effect.specs.declared.types.Inputs.{Inputs};
ghost use Rattle.action.specs.Operations.{illegal as illegalOf, trap as trapOf, syscall as syscallOf};

use effect::effects;
use effect::types::{Action, Faulted, Inputs};
use isa::vectors::Cause;

#[tactic(auto, unfolding(effect::specs::Inner::effect_by))]
pub fn fault(cause: Cause, eear: u32) -> Action
    ensures { (x : Inputs) → effect_by x result ≡ faults x cause eear }
{
    Action::Fault(Faulted { cause, eear })
}

pub fn illegal(x: Inputs) -> Action
    ensures { effect_by x result ≡ illegalOf x }
{
    fault(Cause::Illegal, x.flow.pc)
}

pub fn trap(x: Inputs) -> Action
    ensures { effect_by x result ≡ trapOf x }
{
    fault(Cause::Trap, x.eear)
}

#[tactic(auto, unfolding(crate::specs::Operations::syscall))]
pub fn syscall(x: Inputs) -> Action
    ensures { effect_by x result ≡ syscallOf x }
{
    if effects::in_slot(x) {
        return illegal(x);
    }
    fault(Cause::Syscall, x.eear)
}
