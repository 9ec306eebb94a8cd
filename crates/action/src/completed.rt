// Instructions that complete and go on to the next one: what they write, and their action.
ghost use Rattle.std.specs.Prelude.{◌≡◌};
ghost use Rattle.effect.specs.Inner.{effect_by, goes_on};
ghost use Rattle.action.specs.Operations.{writes as writes_of, nothing as nothingOf, sets_flag, nop as nopOf};

use effect::types::{Action, Inputs, Written};

pub fn written(place: u32, value: u32, sr: u32) -> Written
    ensures { result ≡ record { place = place; value = value; sr = sr } }
{
    Written { place, value, sr }
}

pub fn write(x: Inputs, value: u32) -> Written
    ensures { goes_on x result ≡ writes_of x value }
{
    written(x.d, value, x.sr)
}

pub fn nothing(x: Inputs) -> Written
    ensures { goes_on x result ≡ nothingOf x }
{
    written(0, 0, x.sr)
}

#[tactic(auto, unfolding(crate::specs::Operations::sets_flag))]
pub fn set_flag(x: Inputs, t: bool) -> Written
    ensures { goes_on x result ≡ sets_flag x t }
{
    written(0, 0, arith::set_flag(x.sr, t))
}

// l.nop 1 halts its core.
#[tactic(auto, unfolding(crate::specs::Operations::nop, effect::specs::Inner::effect_by))]
pub fn nop(x: Inputs) -> Action
    ensures { effect_by x result ≡ nopOf x }
{
    if x.immediate == 1 {
        return Action::Halt;
    }
    Action::Advance(nothing(x))
}
