#![tactic(auto, using(crate::proofs::Performs::meant), unfolding(effect::specs::Inner::effect_by))]
// What an entry does to memory and its core's own state, by group of kinds. Each group reads its inputs itself, so that
// nothing is read that its instructions do not use. `memory`, `own`, `core` and `entry` stay parameters: a struct with
// two `&mut` would be lent anew at each call, and its contracts would speak of references in place of what they hold.
ghost use Rattle.std.specs.Prelude.{◌≤◌, ◌<◌, length};
ghost use Rattle.isa.specs.Groups.{first_add_immediate, first_store, first_compare, first_cache};
ghost use Rattle.effect.specs.Board.{board_of_code};
ghost use Rattle.effect.specs.State.{state_words};
ghost use Rattle.exec.specs.Inner.{Performs};

use commit::Done;
use commit::inputs::inputs_at;
use effect::state::STATE_WORDS;
use effect::types::Board;
use isa::groups;

// Jumps, exceptions and loads.
fn low(
    board: Board,
    memory: &mut [u8],
    own: &mut [u32; STATE_WORDS],
    core: u8,
    kind: u8,
    entry: u64,
) -> Done
    requires { kind < first_add_immediate }
    ensures { Performs (board_of_code board.entry) memory.old own.old core kind entry memory.new own.new result }
{
    if kind < groups::CONTROL {
        if kind < groups::NOP_MOVHI {
            let action = semantics::branch(kind, inputs_at(own, core, entry));
            commit::jump(board.vectors, memory, own, core, entry, action)
        } else {
            let action = semantics::nop_movhi(kind, inputs_at(own, core, entry));
            commit::advance(board.vectors, memory, own, core, entry, action)
        }
    } else if kind < groups::LOAD {
        let action = semantics::control(kind, inputs_at(own, core, entry));
        commit::jump(board.vectors, memory, own, core, entry, action)
    } else {
        let action = semantics::load(memory, kind, inputs_at(own, core, entry));
        commit::advance(board.vectors, memory, own, core, entry, action)
    }
}

// What is computed of a register and an immediate.
fn immediate(
    board: Board,
    memory: &mut [u8],
    own: &mut [u32; STATE_WORDS],
    core: u8,
    kind: u8,
    entry: u64,
) -> Done
    requires { (first_add_immediate ≤ kind) × (kind < first_store) }
    ensures { Performs (board_of_code board.entry) memory.old own.old core kind entry memory.new own.new result }
{
    if kind < groups::COMPARE_IMMEDIATE {
        if kind < groups::IMMEDIATE {
            let action = semantics::add_immediate(kind, inputs_at(own, core, entry));
            commit::advance(board.vectors, memory, own, core, entry, action)
        } else {
            let w = semantics::immediate(board.cores, kind, inputs_at(own, core, entry));
            commit::write(board.vectors, memory, own, core, entry, w)
        }
    } else {
        let w = semantics::compare_immediate(kind, inputs_at(own, core, entry));
        commit::write(board.vectors, memory, own, core, entry, w)
    }
}

// Stores, and what is computed of registers.
fn mid(
    board: Board,
    memory: &mut [u8],
    own: &mut [u32; STATE_WORDS],
    core: u8,
    kind: u8,
    entry: u64,
) -> Done
    requires { (first_store ≤ kind) × (kind < first_compare) }
    ensures { Performs (board_of_code board.entry) memory.old own.old core kind entry memory.new own.new result }
{
    if kind < groups::LOGIC {
        if kind < groups::ARITHMETIC {
            let action = semantics::store(
                board.limit,
                memory.len(),
                kind,
                inputs_at(own, core, entry),
            );
            commit::save(board.vectors, memory, own, core, entry, action)
        } else {
            let action = semantics::arithmetic(kind, inputs_at(own, core, entry));
            commit::advance(board.vectors, memory, own, core, entry, action)
        }
    } else {
        let w = semantics::logic(kind, inputs_at(own, core, entry));
        commit::write(board.vectors, memory, own, core, entry, w)
    }
}

// The cache instructions; products, quotients and the accumulator.
fn top(
    board: Board,
    memory: &mut [u8],
    own: &mut [u32; STATE_WORDS],
    core: u8,
    kind: u8,
    entry: u64,
) -> Done
    requires { first_cache ≤ kind }
    ensures { Performs (board_of_code board.entry) memory.old own.old core kind entry memory.new own.new result }
{
    if kind < groups::PRODUCT {
        let action = semantics::cache(memory.len(), kind, inputs_at(own, core, entry));
        commit::advance(board.vectors, memory, own, core, entry, action)
    } else {
        let action = semantics::product(kind, inputs_at(own, core, entry));
        commit::advance(board.vectors, memory, own, core, entry, action)
    }
}

// The kinds from the immediates on.
fn high(
    board: Board,
    memory: &mut [u8],
    own: &mut [u32; STATE_WORDS],
    core: u8,
    kind: u8,
    entry: u64,
) -> Done
    requires { first_add_immediate ≤ kind }
    ensures { Performs (board_of_code board.entry) memory.old own.old core kind entry memory.new own.new result }
{
    if kind < groups::STORE {
        immediate(board, memory, own, core, kind, entry)
    } else if kind < groups::COMPARE {
        mid(board, memory, own, core, kind, entry)
    } else if kind < groups::CACHE {
        let w = semantics::compare(kind, inputs_at(own, core, entry));
        commit::write(board.vectors, memory, own, core, entry, w)
    } else {
        top(board, memory, own, core, kind, entry)
    }
}

// Performs a kind with the fields of an entry, on the state that the words of `own` begin with. The tests halve the
// groups, so that none is deep.
pub fn perform(
    board: Board,
    memory: &mut [u8],
    own: &mut [u32],
    core: u8,
    kind: u8,
    entry: u64,
) -> Done
    requires { state_words ≤ length own.old }
    ensures { Performs (board_of_code board.entry) memory.old own.old core kind entry memory.new own.new result }
{
    // first_chunk_mut would test the length at each step.
    let (part, _) = own.split_at_mut(STATE_WORDS);
    let state = part.as_mut_array().unwrap();
    if kind < groups::ADD_IMMEDIATE {
        low(board, memory, state, core, kind, entry)
    } else {
        high(board, memory, state, core, kind, entry)
    }
}
