// Results with flags: sums, differences, products.
ghost use Rattle.std.specs.Prelude.{◌≡◌};
ghost use Rattle.effect.specs.Inner.{effect_by};
ghost use Rattle.action.specs.Operations.{result_or_raises};

use crate::completed;
use arith::Flagged;
use effect::types::{Action, Inputs};

// The result is written with its flags, also where SR asks for range on overflow and f has overflowed.
#[tactic(auto, unfolding(crate::specs::Operations::result_or_raises, effect::specs::Inner::effect_by))]
pub fn result_or_raise(x: Inputs, f: Flagged) -> Action
    ensures { effect_by x result ≡ result_or_raises x f }
{
    let sr = arith::set_carry_overflow(x.sr, f.carry, f.overflow);
    let w = completed::written(x.d, f.value, sr);
    if arith::overflow_enabled(x.sr) && f.overflow {
        return Action::RaiseRange(w);
    }
    Action::Advance(w)
}
