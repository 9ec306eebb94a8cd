#![tactic(auto)]
// The result of a run, written as text into bytes that the caller lends.
ghost use Rattle.std.specs.Prelude.{◌≡◌, ◌++◌, ◌+◌, ◌≤◌, length};
ghost use Rattle.print.specs.Digits.{decimal};
ghost use Rattle.print.specs.Inner.{Puts, Fits};
ghost use Rattle.report.specs.Result.{line_feed, count_lines, core_line, register_line, register_lines, core_text};
ghost use Rattle.report.specs.Result.{core_texts, cores as cores_of, result_text, refusal_text};
ghost use Rattle.report.specs.Answer.{answer, written, result_room, refusal_room};

use effect::state::{DELAY, MODE, PC, SR, STATE_WORDS};
use print::Writer;
use steps::counts::Counts;

// How many words of a core's state are registers.
const REGISTERS: usize = 32;

// A core's words.
type State = [u32; STATE_WORDS];

// The bytes that a writer asks for: for a result besides its cores, for each core, and for a refusal.
pub const ENDS_ROOM: usize = 60;

pub const CORE_ROOM: usize = 83 + REGISTERS * 13;

const REFUSAL_ROOM: usize = 35;

// The bytes lent are too few for the longest text, and nothing was written.
#[derive(Clone, Copy, Debug, PartialEq, Eq)]
pub struct TooSmall;

fn put_count(w: &mut Writer<'_>, key: &[u8], count: u64)
    requires { Fits w.old (key.now ++ decimal count ++ line_feed) }
    ensures { Puts w.old (key.now ++ decimal count ++ line_feed) w.new }
{
    w.put_decimal(key, count);
    w.put(b"\n");
}

#[tactic(auto, using(crate::proofs::Lines::lengths), unfolding(crate::specs::Result::count_lines))]
fn put_counts(w: &mut Writer<'_>, counts: Counts)
    requires { Fits w.old (count_lines counts) }
    ensures { Puts w.old (count_lines counts) w.new }
{
    put_count(w, b"executed=", counts.executed as u64);
    put_count(w, b"raised=", counts.raised as u64);
    put_count(w, b"reused=", counts.reused as u64);
}

#[tactic(auto, using(crate::proofs::Lines::lengths), unfolding(crate::specs::Result::core_line))]
fn put_core_line(w: &mut Writer<'_>, core: u64, state: &State)
    requires { Fits w.old (core_line core state.now) }
    ensures { Puts w.old (core_line core state.now) w.new }
{
    w.put_decimal(b"core=", core);
    w.put_decimal(b" mode=", state[MODE] as u64);
    w.put_word(b" pc=", state[PC]);
    w.put_decimal(b" delay=", state[DELAY] as u64);
    w.put_word(b" sr=", state[SR]);
    w.put(b"\n");
}

#[tactic(auto, using(crate::proofs::Lines::register_lengths))]
fn put_register(w: &mut Writer<'_>, number: u64, value: u32)
    requires { Fits w.old (register_line number value) }
    ensures { Puts w.old (register_line number value) w.new }
{
    if value != 0 {
        w.put_decimal(b"r", number);
        w.put_word(b"=", value);
        w.put(b"\n");
    }
}

fn put_registers(w: &mut Writer<'_>, values: &[u32])
    requires { Fits w.old (register_lines 0 values.now) }
    ensures { Puts w.old (register_lines 0 values.now) w.new }
{
    for (number, value) in values.iter().enumerate() {
        put_register(w, number as u64, *value);
    }
}

#[tactic(auto, using(crate::proofs::Lines::lengths), unfolding(crate::specs::Result::core_text))]
fn put_core(w: &mut Writer<'_>, core: u64, state: &State)
    requires { Fits w.old (core_text core state.now) }
    ensures { Puts w.old (core_text core state.now) w.new }
{
    put_core_line(w, core, state);
    put_registers(w, &state[..REGISTERS]);
}

fn put_cores(w: &mut Writer<'_>, states: &[u32])
    requires { Fits w.old (core_texts 0 (cores_of states.now) states.now) }
    ensures { Puts w.old (core_texts 0 (cores_of states.now) states.now) w.new }
{
    let (whole, _) = states.as_chunks::<STATE_WORDS>();
    for (core, state) in whole.iter().enumerate() {
        put_core(w, core as u64, state);
    }
}

#[tactic(auto, using(crate::proofs::Lines::lengths), unfolding(crate::specs::Result::result_text))]
fn put_result(w: &mut Writer<'_>, counts: Counts, states: &[u32])
    requires { Fits w.old (result_text counts states.now) }
    ensures { Puts w.old (result_text counts states.now) w.new }
{
    put_counts(w, counts);
    put_cores(w, states);
    w.put(b"end\n");
}

#[tactic(auto, using(crate::proofs::Lines::lengths), unfolding(crate::specs::Result::refusal_text))]
fn put_refusal(w: &mut Writer<'_>, number: u32, line: u32)
    requires { Fits w.old (refusal_text number line) }
    ensures { Puts w.old (refusal_text number line) w.new }
{
    w.put_decimal(b"refused=", number as u64);
    w.put_decimal(b" line=", line as u64);
    w.put(b"\n");
}

// Writes a run's counts, its cores with their registers, and `end`, and says how many bytes that is. Words of states
// after the last whole state are not read.
pub fn write_result(out: &mut [u8], counts: Counts, states: &[u32]) -> Result<usize, TooSmall>
    ensures answered { result ≡ answer (result_room (cores_of states.now)) (result_text counts states.now) out.old }
    ensures left { out.new ≡ written (result_room (cores_of states.now)) (result_text counts states.now) out.old }
{
    let cores = states.len() / STATE_WORDS;
    if out.len() < ENDS_ROOM || (out.len() - ENDS_ROOM) / CORE_ROOM < cores {
        return Err(TooSmall);
    }
    let mut w = Writer::new(out);
    put_result(&mut w, counts, states);
    Ok(w.len())
}

// The number by which a job is refused, and the line of its card. A number, and no card::Cause: the promise
// (`refusal_text`) is of every number, and report does not know cards.
pub fn write_refusal(out: &mut [u8], number: u32, line: u32) -> Result<usize, TooSmall>
    ensures answered { result ≡ answer refusal_room (refusal_text number line) out.old }
    ensures left { out.new ≡ written refusal_room (refusal_text number line) out.old }
{
    if out.len() < REFUSAL_ROOM {
        return Err(TooSmall);
    }
    let mut w = Writer::new(out);
    put_refusal(&mut w, number, line);
    Ok(w.len())
}
