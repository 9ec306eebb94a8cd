#![tactic(auto)]
// Committing what an instruction does, in place: its core's own state, memory, and every core's link.
ghost use Rattle.std.specs.Prelude.{◌≡◌, ◌<◌, length};
ghost use Rattle.effect.specs.State.{state_words};
ghost use Rattle.effect.specs.Inner.{effect_by};
ghost use Rattle.effect.specs.declared.types.Inputs.{Inputs};
ghost use Rattle.commit.specs.Commit.{stored_by};
ghost use Rattle.commit.specs.Inner.{tells, action_effect, Storable, Fits, Performed, Acted, Commits};

use crate::inputs::inputs_at;
use effect::effects;
use effect::state::STATE_WORDS;
use effect::types::{Action, Effect, Outcome, Store, Written};
use isa::vectors::COUNT;
use memory::Width;

pub mod inputs;
pub mod links;
pub mod own_state;

// What an instruction tells the run: how it ends, and at which address it stored, if it did.
#[derive(Clone, Copy)]
pub struct Done {
    pub outcome: Outcome,
    pub stored: Option<u32>,
}

// The bytes that an instruction stores.
fn put_store(memory: &mut [u8], s: Option<Store>)
    requires { Storable (length memory.old) s }
    ensures { memory.new ≡ stored_by s memory.old }
{
    if let Some(s) = s {
        memory::store(memory, s.address, s.width, s.value);
    }
}

// What an outcome and a store tell the run.
fn tell(outcome: Outcome, s: Option<Store>) -> Done
    ensures { result ≡ tells outcome s }
{
    Done {
        outcome,
        stored: s.map(|s| s.address),
    }
}

// What an action tells it.
fn done_by(outcome: Outcome, action: Action) -> Done
    ensures { (x : Inputs) → result ≡ tells outcome (effect_by x action).store }
{
    tell(outcome, effects::store_of(action))
}

// An effect, and what it tells the run.
#[tactic(auto, unfolding(crate::specs::Commit::memory_after))]
fn settle(
    vectors: &[u32; COUNT],
    memory: &mut [u8],
    own: &mut [u32; STATE_WORDS],
    e: Effect,
) -> Done
    requires { Fits (length memory.old) e }
    ensures { Performed vectors.now memory.old own.old e memory.new own.new result }
{
    let outcome = own_state::commit_state(vectors, own, e);
    let s = e.store;
    put_store(memory, s);
    tell(outcome, s)
}

// Any action, and how it ends. It stands by itself, so that the frequent ones do not pay for the others.
#[tactic(auto, unfolding(crate::specs::Commit::memory_after))]
fn other(
    vectors: &[u32; COUNT],
    memory: &mut [u8],
    own: &mut [u32; STATE_WORDS],
    core: u8,
    entry: u64,
    action: Action,
) -> Outcome
    requires { Fits (length memory.old) (action_effect own.old core entry action) }
    ensures { Acted vectors.now memory.old own.old core entry action memory.new own.new result }
{
    let x = inputs_at(own, core, entry);
    let outcome = own_state::commit_state(vectors, own, effects::effect_by(x, action));
    put_store(memory, effects::store_of(action));
    outcome
}

// What is written by an instruction that goes on. Each of these reads its inputs itself, so that nothing is read that
// it does not use. `memory`, `own`, `core` and `entry` stay parameters for the reason that exec's perform gives.
#[tactic(auto, unfolding(effect::specs::Inner::effect_by, effect::specs::Effect::advances))]
pub fn write(
    vectors: &[u32; COUNT],
    memory: &mut [u8],
    own: &mut [u32; STATE_WORDS],
    core: u8,
    entry: u64,
    w: Written,
) -> Done
    requires { w.place < state_words }
    ensures { Commits vectors.now memory.old own.old core entry (Action.Advance w) memory.new own.new result }
{
    settle(
        vectors,
        memory,
        own,
        effects::advance_effect(inputs_at(own, core, entry), w),
    )
}

// The three below differ in the arm that is likely, which is inlined where they are called. One function with the arm
// as a closure would be no plainer: the closure's contract says more than the arm. `other` is given `rest`, a copy, so
// that a likely action is never laid in memory, which would cost up to 5 machine instructions (of 83) a step. That an
// action fits is a fact of it, its core and memory together (`Fits`), so no type of the action alone can say it.

// An action that is likely to go on.
#[tactic(auto, unfolding(effect::specs::Inner::effect_by, effect::specs::Effect::advances))]
pub fn advance(
    vectors: &[u32; COUNT],
    memory: &mut [u8],
    own: &mut [u32; STATE_WORDS],
    core: u8,
    entry: u64,
    action: Action,
) -> Done
    requires { Fits (length memory.old) (action_effect own.old core entry action) }
    ensures { Commits vectors.now memory.old own.old core entry action memory.new own.new result }
{
    match action {
        Action::Advance(w) => write(vectors, memory, own, core, entry, w),
        rest => done_by(other(vectors, memory, own, core, entry, rest), rest),
    }
}

// An action that is likely to be a jump.
pub fn jump(
    vectors: &[u32; COUNT],
    memory: &mut [u8],
    own: &mut [u32; STATE_WORDS],
    core: u8,
    entry: u64,
    action: Action,
) -> Done
    requires { Fits (length memory.old) (action_effect own.old core entry action) }
    ensures { Commits vectors.now memory.old own.old core entry action memory.new own.new result }
{
    match action {
        Action::Jump(j) => settle(
            vectors,
            memory,
            own,
            effects::jump_effect(inputs_at(own, core, entry), j),
        ),
        rest => done_by(other(vectors, memory, own, core, entry, rest), rest),
    }
}

// An action that is likely to store.
pub fn save(
    vectors: &[u32; COUNT],
    memory: &mut [u8],
    own: &mut [u32; STATE_WORDS],
    core: u8,
    entry: u64,
    action: Action,
) -> Done
    requires { Fits (length memory.old) (action_effect own.old core entry action) }
    ensures { Commits vectors.now memory.old own.old core entry action memory.new own.new result }
{
    match action {
        Action::Save(s) => settle(
            vectors,
            memory,
            own,
            effects::save_effect(inputs_at(own, core, entry), s),
        ),
        rest => done_by(other(vectors, memory, own, core, entry, rest), rest),
    }
}
