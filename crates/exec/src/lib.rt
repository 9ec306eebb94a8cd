#![tactic(auto)]
// An instruction on what is lent, or an exception in its place: its inputs are read, and what it does is committed.
ghost use Rattle.std.specs.Prelude.{◌+◌, ◌*◌, ◌≤◌, length};
ghost use Rattle.effect.specs.Board.{board_of_code};
ghost use Rattle.effect.specs.State.{state_words};
ghost use Rattle.effect.specs.Effect.{faults};
ghost use Rattle.commit.specs.Commit.{inputs, no_fields, fetch_fault};
ghost use Rattle.commit.specs.Inner.{Owned};
ghost use Rattle.exec.specs.Inner.{Executes};

use commit::Done;
use effect::state::STATE_WORDS;
use effect::types::{Board, Faulted, Outcome};
use effect::{effects, state};
use isa::vectors::{COUNT, Cause};

pub mod perform;

// Executes an entry as it stands, whatever word memory holds: on the core's own part of the states, whose words are at
// fixed places.
pub fn execute(board: Board, memory: &mut [u8], states: &mut [u32], core: u8, entry: u64) -> Done
    requires { core * state_words + state_words ≤ length states.old }
    ensures { Executes (board_of_code board.entry) memory.old states.old core entry memory.new states.new result }
{
    let kind = (entry / 0x100_0000_0000_0000) as u8;
    // The core's words and all after them, since effect's state has no own_mut (it says why).
    let (_, own) = states.split_at_mut(usize::from(core) * STATE_WORDS);
    let done = perform::perform(board, memory, own, core, kind, entry);
    if let Some(address) = done.stored {
        commit::links::clear_links(states, address / 4 * 4);
    }
    done
}

// An exception in place of an instruction: it leaves memory and the other cores, and answers how the step ends.
pub fn raise(
    vectors: &[u32; COUNT],
    own: &mut [u32; STATE_WORDS],
    core: u8,
    fault: Faulted,
) -> Outcome
    ensures { Owned vectors.now own.old (faults (inputs own.old 0 no_fields) fault.cause fault.eear) own.new result }
{
    let x = commit::inputs::state_at(own, core);
    commit::own_state::commit_state(vectors, own, effects::fault_effect(x, fault))
}

// A fetch outside memory raises bus error.
pub fn fetch_fault(vectors: &[u32; COUNT], own: &mut [u32; STATE_WORDS], core: u8) -> Outcome
    ensures { Owned vectors.now own.old (fetch_fault own.old 0) own.new result }
{
    let fault = Faulted {
        cause: Cause::Bus,
        eear: own[state::PC],
    };
    raise(vectors, own, core, fault)
}
