#![tactic(auto)]
// One loop for both runs: the entries of a schedule, with a decode cache that may be empty.
ghost use Rattle.std.specs.Prelude.{false, [], ◌∷◌, ◌≡◌, ◌+◌, ◌*◌, ◌%◌, ◌≤◌, ◌<◌, length};
ghost use Rattle.std.specs.declared.option.Option.TheVariants.{None};
ghost use Rattle.std.specs.Option.{IfSome};
ghost use Rattle.effect.specs.Board.{board_of_code};
ghost use Rattle.effect.specs.State.{state_words, pc_at, mode_at, linked};
ghost use Rattle.commit.specs.Commit.{word_at};
ghost use Rattle.decode_cache.specs.Inner.{Backed};
ghost use Rattle.pic.specs.Interrupt.{is_interrupted};
ghost use Rattle.refusal.specs.Lent.{lent, lent_by};
ghost use Rattle.steps.specs.Inner.{IsForm, Runnable, Undisturbed, alone, begun, start_of, straight_mode, Entered, Stepped, Finished, FormExecuted};

use crate::counts::Counts;
use effect::state;
use effect::state::STATE_WORDS;
use effect::types::{Board, Outcome};
use refusal::Plan;

pub mod counts;
pub mod form;

// An entry of the schedule: its core, and the levels of the lines.
#[derive(Clone, Copy)]
pub struct Scheduled {
    pub core: u8,
    pub lines: u32,
}

// What an entry of the schedule comes to.
#[derive(Clone, Copy)]
pub enum Turn {
    // Its core is not running.
    Idle,
    // No word is fetched, since an interrupt is taken or PC is outside memory: how the step ends.
    Unfetched(Outcome),
    // A word is fetched: how its instruction ends, and whether its entry was filled.
    Instruction(Outcome, bool),
}

// One instruction of a core that is not interrupted: how it ends. A filled entry of the cache is executed as it stands,
// whatever word memory holds there; so is a form that is given in place of a fetch.
fn instruction(
    board: Board,
    memory: &mut [u8],
    states: &mut [u32],
    cache: &mut [u64],
    core: u8,
    given: Option<u64>,
) -> Turn
    requires state_words_in_bounds { core * state_words + state_words ≤ length states.old }
    requires not_interrupted { given ≡ None → is_interrupted states.old core ≡ false }
    requires backed { Backed cache.old memory.old }
    requires pc_aligned { word_at states.old core pc_at % 4 ≡ 0 }
    ensures { Entered (board_of_code board.entry) memory.old states.old cache.old core given memory.new states.new cache.new result }
{
    // As exec::execute splits.
    let (_, rest) = states.split_at_mut(usize::from(core) * STATE_WORDS);
    let (part, _) = rest.split_at_mut(STATE_WORDS);
    let own = part.as_mut_array().unwrap();
    let Some(f) = crate::form::next(memory, cache, own[state::PC] as usize, given) else {
        return Turn::Unfetched(exec::fetch_fault(board.vectors, own, core));
    };
    let done = exec::execute(board, memory, states, core, f.entry);
    decode_cache::empty_touched(cache, done);
    Turn::Instruction(done.outcome, f.reused)
}

// How an entry of the schedule begins: its core does nothing, is interrupted, or executes: a form that it is given, or
// what it fetches.
#[derive(Clone, Copy)]
pub enum Start {
    Idle,
    Interrupt,
    Execute(Option<u64>),
}

// Latches the lines of a running core. One in the mode `straight` runs and nothing can interrupt it, so most entries
// need no test but that of the mode. A linked core executes what is given, if anything is.
fn begin(own: &mut [u32; STATE_WORDS], lines: u32, straight: u32, given: Option<u64>) -> Start
    requires { word_at own.old 0 mode_at ≡ straight → Undisturbed own.old (alone lines) }
    ensures { (own.new ≡ begun own.old (alone lines)) × (result ≡ start_of own.old (alone lines) given) }
{
    let mode = own[state::MODE];
    if mode == straight {
        return Start::Execute(None);
    }
    if crate::form::is_given(mode, given) {
        return Start::Execute(given);
    }
    if mode != state::RUNNING {
        return Start::Idle;
    }
    if pic::latch(own, lines) {
        return Start::Interrupt;
    }
    Start::Execute(None)
}

// One entry of the schedule.
fn step(
    board: Board,
    memory: &mut [u8],
    states: &mut [u32],
    cache: &mut [u64],
    entry: Scheduled,
    straight: u32,
    given: Option<u64>,
) -> Turn
    requires state_words_in_bounds { entry.core * state_words + state_words ≤ length states.old }
    requires backed { Backed cache.old memory.old }
    requires pc_aligned { word_at states.old entry.core pc_at % 4 ≡ 0 }
    requires undisturbed { word_at states.old entry.core mode_at ≡ straight → Undisturbed states.old entry }
    ensures { Stepped (board_of_code board.entry) memory.old states.old cache.old entry given memory.new states.new cache.new result }
{
    // As exec::execute splits.
    let (_, rest) = states.split_at_mut(usize::from(entry.core) * STATE_WORDS);
    let (part, _) = rest.split_at_mut(STATE_WORDS);
    let own = part.as_mut_array().unwrap();
    match begin(own, entry.lines, straight, given) {
        Start::Idle => Turn::Idle,
        Start::Interrupt => Turn::Unfetched(pic::take(board.vectors, own, entry.core)),
        Start::Execute(given) => instruction(board, memory, states, cache, entry.core, given),
    }
}

// A mode that no core has. A mode or none in one number, and no flag beside the mode, since the flag's test costs 4
// machine instructions (of 80) an entry.
const NO_MODE: u32 = 4;

// The mode whose cores nothing can interrupt while these levels last: running, or none.
#[tactic(auto, unfolding(crate::specs::Inner::straight_mode))]
fn straight_mode(states: &[u32], levels: &[u32]) -> u32
    ensures { result ≡ straight_mode states.now levels.now }
{
    if pic::quiet(states, levels) {
        return state::RUNNING;
    }
    NO_MODE
}

// The schedule's entries, in order; a linked core's executes the form that is given, if one is. Everything that
// executes shares this loop: exec::execute has one caller, so the compiler inlines it here. By index, since a zip looks
// for the end of both lists at each entry. The list of vectors becomes an array here, once for all entries. `Runnable`
// stands in the contract of each run, since it is a fact of all that is lent together. The parts of a plan are
// parameters: a plan would be laid in memory and read back at each call, and linked cores make a call an instruction.
fn entries(
    memory: &mut [u8],
    states: &mut [u32],
    schedule: &[u8],
    levels: &[u32],
    limit: u32,
    vectors: &[u32],
    cache: &mut [u64],
    given: Option<u64>,
) -> Counts
    requires runnable { Runnable (lent memory.old states.old schedule.now levels.now limit vectors.now) cache.old }
    requires form { IfSome given IsForm }
    ensures { Finished (lent memory.old states.old schedule.now levels.now limit vectors.now) given cache.old memory.new states.new cache.new result }
{
    let cores = states.len() / STATE_WORDS;
    let board = Board {
        cores: cores as u32,
        limit,
        vectors: vectors.as_array().unwrap(),
    };
    let straight = straight_mode(states, levels);
    let mut counts = Counts::default();
    for i in 0..schedule.len() {
        let entry = Scheduled {
            core: schedule[i],
            lines: levels[i],
        };
        let turn = step(board, memory, states, cache, entry, straight, given);
        counts = counts.after(turn);
    }
    counts
}

// The schedule's entries, each for its own core alone: a linked core's does nothing.
pub fn run(memory: &mut [u8], states: &mut [u32], plan: Plan<'_>, cache: &mut [u64]) -> Counts
    requires { Runnable (lent_by memory.old states.old plan) cache.old }
    ensures { Finished (lent_by memory.old states.old plan.entry) None cache.old memory.new states.new cache.new result }
{
    entries(
        memory,
        states,
        plan.schedule,
        plan.levels,
        plan.limit,
        plan.vectors,
        cache,
        None,
    )
}

// A linked core executes a form as it stands, under the plan's limit and vectors; whether it completes.
pub fn execute_form(
    memory: &mut [u8],
    states: &mut [u32],
    core: u8,
    plan: Plan<'_>,
    cache: &mut [u64],
    form: u64,
) -> bool
    requires runnable { Runnable (lent memory.old states.old (core ∷ []) (0 ∷ []) plan.limit plan.vectors.now) cache.old }
    requires mode_linked { word_at states.old core mode_at ≡ linked }
    requires form { IsForm form }
    ensures { FormExecuted (lent memory.old states.old (core ∷ []) (0 ∷ []) plan.entry.limit plan.entry.vectors.now) cache.old core form memory.new states.new cache.new result }
{
    let counts = entries(
        memory,
        states,
        &[core],
        &[0],
        plan.limit,
        plan.vectors,
        cache,
        Some(form),
    );
    counts.raised == 0
}
