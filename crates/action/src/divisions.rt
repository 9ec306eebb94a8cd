// Divisions. A zero divisor sets CY, writes no register, and raises range if SR asks for it.
ghost use Rattle.std.specs.Prelude.{◌≡◌, ◌<◌, ℕ, SomeIff};
ghost use Rattle.effect.specs.Inner.{effect_by};
ghost use Rattle.action.specs.Operations.{divides_by_zero, divides};

use crate::completed;
use effect::types::{Action, Inputs};

#[tactic(auto, unfolding(effect::specs::Inner::effect_by))]
fn divide_by_zero(x: Inputs) -> Action
    ensures { effect_by x result ≡ divides_by_zero x }
{
    let w = completed::written(0, 0, arith::set_carry_overflow(x.sr, true, false));
    if arith::overflow_enabled(x.sr) {
        return Action::RaiseRange(w);
    }
    Action::Advance(w)
}

// The quotient by rB; there is none if rB is 0.
#[tactic(auto, unfolding(crate::specs::Operations::divides, effect::specs::Inner::effect_by))]
pub fn divide(x: Inputs, quotient: Option<u32>) -> Action
    ensures { (q : ℕ) → SomeIff quotient (0 < x.b) q → effect_by x result ≡ divides x q }
{
    match quotient {
        None => divide_by_zero(x),
        Some(q) => {
            let sr = arith::set_carry_overflow(x.sr, false, false);
            Action::Advance(completed::written(x.d, q, sr))
        }
    }
}
