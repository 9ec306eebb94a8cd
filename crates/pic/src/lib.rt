#![tactic(auto)]
// The interrupt controller of document 001 (PIC): line levels are latched in PICSR, and what is latched there
// interrupts its core.
ghost use Rattle.std.specs.List.{fold};
ghost use Rattle.std.specs.Int.Bits.{bit_or};
ghost use Rattle.std.specs.Prelude.{◌≡◌};
ghost use Rattle.commit.specs.Inner.{Owned};
ghost use Rattle.pic.specs.Interrupt.{latched, is_interrupted, interruption};
ghost use Rattle.pic.specs.Inner.{none_latched, is_quiet};

use effect::state;
use effect::state::STATE_WORDS;
use effect::types::{Faulted, Outcome};
use isa::vectors::{COUNT, Cause};

// PICSR gains the lines that are high and not masked.
#[tactic(auto, unfolding(crate::specs::Interrupt::latched))]
fn gain(own: &mut [u32; STATE_WORDS], lines: u32)
    ensures { own.new ≡ latched own.old 0 lines }
{
    own[state::PICSR] = own[state::PICSR] | (lines & own[state::PICMR]);
}

// A line is latched, interrupts are enabled, and no slot is pending.
#[tactic(auto, unfolding(crate::specs::Interrupt::is_interrupted))]
fn interrupted(own: &[u32; STATE_WORDS]) -> bool
    ensures { result ≡ is_interrupted own.now 0 }
{
    own[state::PICSR] != 0 && arith::interrupts_enabled(own[state::SR]) && own[state::DELAY] == 0
}

// All lines that are high in any of the levels. A fold has no way out, so that the compiler makes vector code of it.
fn high(levels: &[u32]) -> u32
    ensures { result ≡ fold bit_or 0 levels.now }
{
    levels.iter().fold(0, |high, lines| high | *lines)
}

// No line is latched of any core. By index: one word of each core is read, so state::own would be no plainer.
#[tactic(auto, unfolding(crate::specs::Inner::none_latched))]
fn none_latched(states: &[u32]) -> bool
    ensures { result ≡ none_latched states.now }
{
    let cores = states.len() / STATE_WORDS;
    (0..cores).all(|core| states[core * STATE_WORDS + state::PICSR] == 0)
}

// No line is high in any of the levels, and none is latched of any core. Then nothing can interrupt while their entries
// are run, since no instruction makes PICSR greater.
#[tactic(auto, unfolding(crate::specs::Inner::is_quiet))]
pub fn quiet(states: &[u32], levels: &[u32]) -> bool
    ensures { result ≡ is_quiet states.now levels.now }
{
    high(levels) == 0 && none_latched(states)
}

// Latches the lines of a running core's entry; answers whether an interrupt takes the place of its fetch.
pub fn latch(own: &mut [u32; STATE_WORDS], lines: u32) -> bool
    ensures { (own.new ≡ latched own.old 0 lines) × (result ≡ is_interrupted (latched own.old 0 lines) 0) }
{
    gain(own, lines);
    interrupted(own)
}

// Takes the interrupt, which leaves memory and keeps EEAR; answers how the step ends.
pub fn take(vectors: &[u32; COUNT], own: &mut [u32; STATE_WORDS], core: u8) -> Outcome
    ensures { Owned vectors.now own.old (interruption own.old 0) own.new result }
{
    let fault = Faulted {
        cause: Cause::Interrupt,
        eear: own[state::EEAR],
    };
    exec::raise(vectors, own, core, fault)
}
