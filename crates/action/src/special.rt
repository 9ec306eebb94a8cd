// The special-purpose registers, by number: it comes from a register's value, and may name none.
ghost use Rattle.std.specs.Prelude.{◌≡◌};
ghost use Rattle.effect.specs.Inner.{goes_on};
ghost use Rattle.action.specs.Operations.{special_register, sets_special_register};

use crate::completed;
use effect::state;
use effect::types::{Inputs, Written};

#[tactic(auto, unfolding(crate::specs::Operations::special_register))]
pub fn read(cores: u32, x: Inputs, n: u32) -> u32
    ensures { result ≡ special_register cores x n }
{
    match n {
        17 => x.sr,
        32 => x.epcr,
        48 => x.eear,
        64 => x.esr,
        128 => x.core,
        129 => cores,
        0x2801 => x.accumulator.low,
        0x2802 => x.accumulator.high,
        0x4800 => x.picmr,
        0x4802 => x.picsr,
        _ => 0,
    }
}

#[tactic(auto, unfolding(crate::specs::Operations::sets_special_register))]
pub fn write(x: Inputs, n: u32, v: u32) -> Written
    ensures { goes_on x result ≡ sets_special_register x n v }
{
    match n {
        17 => completed::written(0, 0, arith::keep_allowed(v)),
        32 => completed::written(state::EPCR as u32, arith::align(v), x.sr),
        48 => completed::written(state::EEAR as u32, v, x.sr),
        64 => completed::written(state::ESR as u32, arith::keep_allowed(v), x.sr),
        0x2801 => completed::written(state::MACLO as u32, v, x.sr),
        0x2802 => completed::written(state::MACHI as u32, v, x.sr),
        0x4800 => completed::written(state::PICMR as u32, v | 3, x.sr),
        0x4802 => completed::written(state::PICSR as u32, x.picsr & v, x.sr),
        _ => completed::nothing(x),
    }
}
