// Loads, stores and the cache instructions: each tests its access first. Stores and l.swa are held against the limit of
// what is read-only.
ghost use Rattle.std.specs.Prelude.{◌≡◌, if◌then◌else◌};
ghost use Rattle.memory.specs.Memory.{bytes};
ghost use Rattle.memory.specs.declared.Width.TheVariants.{Word};
ghost use Rattle.effect.specs.Effect.{unlinking};
ghost use Rattle.effect.specs.Inner.{effect_by};
ghost use Rattle.action.specs.Operations.{effective_address, load as load_of, load_linked, storing as storingOf, store as store_of, linked as linkedOf, store_conditional, touch as touch_of};

use crate::{completed, raised};
use effect::types::{Action, Inputs, Linked, Store};
use memory::Width;

// Loads, l.lwa and p.* may be anywhere in memory.
const NO_LIMIT: u32 = 0;

// Each access below tests, and then goes on or faults: with what goes on as a closure, the five would be no plainer.

fn address(x: Inputs) -> u32
    ensures { result ≡ effective_address x }
{
    arith::address_add(x.a, x.immediate)
}

#[tactic(auto, using(memory::proofs::Laws::granted_inside), unfolding(crate::specs::Operations::load, effect::specs::Inner::effect_by))]
pub fn load(x: Inputs, mem: &[u8], width: Width, signed: bool) -> Action
    ensures { effect_by x result ≡ load_of x mem.now (bytes width) signed }
{
    let at = address(x);
    match memory::test(NO_LIMIT, mem.len(), at, width) {
        Ok(()) => Action::Advance(completed::write(
            x,
            memory::load_extended(mem, at, width, signed),
        )),
        Err(cause) => raised::fault(cause, at),
    }
}

// l.lwa.
#[tactic(auto, using(memory::proofs::Laws::granted_inside), unfolding(crate::specs::Operations::load_linked, effect::specs::Inner::effect_by))]
pub fn load_linked(x: Inputs, mem: &[u8]) -> Action
    ensures { effect_by x result ≡ load_linked x mem.now }
{
    let at = address(x);
    match memory::test(NO_LIMIT, mem.len(), at, Width::Word) {
        Ok(()) => Action::LoadLinked(Linked {
            place: x.d,
            value: memory::load(mem, at, Width::Word),
            address: at,
        }),
        Err(cause) => raised::fault(cause, at),
    }
}

fn storing(x: Inputs, width: Width) -> Store
    ensures { result ≡ storingOf x width }
{
    Store {
        width,
        address: address(x),
        value: x.b,
    }
}

#[tactic(auto, unfolding(crate::specs::Operations::store, effect::specs::Inner::effect_by))]
pub fn store(limit: u32, x: Inputs, len: usize, width: Width) -> Action
    ensures { effect_by x result ≡ store_of limit x len width }
{
    let at = address(x);
    match memory::test(limit, len, at, width) {
        Ok(()) => Action::Save(storing(x, width)),
        Err(cause) => raised::fault(cause, at),
    }
}

// The link is to the word at the address.
fn linked(x: Inputs) -> bool
    ensures { result ≡ linkedOf x }
{
    x.link.held == 1 && x.link.address == address(x)
}

#[tactic(auto, unfolding(effect::specs::Inner::effect_by))]
fn conditional(x: Inputs) -> Action
    ensures { effect_by x result ≡ unlinking x (linkedOf x) (if linkedOf x then Some (storingOf x Word) else None) }
{
    Action::SaveLinked(linked(x).then_some(storing(x, Width::Word)))
}

// l.swa.
#[tactic(auto, unfolding(crate::specs::Operations::store_conditional, effect::specs::Inner::effect_by))]
pub fn store_conditional(limit: u32, x: Inputs, len: usize) -> Action
    ensures { effect_by x result ≡ store_conditional limit x len }
{
    let at = address(x);
    match memory::test(limit, len, at, Width::Word) {
        Ok(()) => conditional(x),
        Err(cause) => raised::fault(cause, at),
    }
}

// p.*.
#[tactic(auto, unfolding(crate::specs::Operations::touch, effect::specs::Inner::effect_by))]
pub fn touch(x: Inputs, len: usize) -> Action
    ensures { effect_by x result ≡ touch_of x len }
{
    let at = address(x);
    match memory::test(NO_LIMIT, len, at, Width::Byte) {
        Ok(()) => Action::Advance(completed::nothing(x)),
        Err(cause) => raised::fault(cause, at),
    }
}
