#![tactic(auto)]
// The static library for C, C++ and Rust programs: each function of the crate host under its name in C, with its
// clauses (include/or1k.h). The C interface needs these twins.
ghost use Rattle.std.specs.Prelude.{◌≡◌};
ghost use Rattle.isa.specs.InstructionSet.{decode};
ghost use Rattle.refusal.specs.Lent.{lent, left};
ghost use Rattle.host.specs.Interface.{Answers, PlainRun, FastRun};

#[unsafe(no_mangle)]
pub extern "C" fn or1k_decode(word: u32) -> u64
    ensures { result ≡ decode word }
{
    host::or1k_decode(word)
}

#[unsafe(no_mangle)]
pub extern "C" fn or1k_encode(entry: u64) -> u64
    ensures { Answers entry result }
{
    host::or1k_encode(entry)
}

#[unsafe(no_mangle)]
pub extern "C" fn or1k_plain_run(
    memory: &mut [u8],
    states: &mut [u32],
    schedule: &[u8],
    levels: &[u32],
    limit: u32,
    vectors: &[u32],
) -> u64
    ensures { PlainRun (lent memory.old states.old schedule.now levels.now limit vectors.now) (left memory.new states.new) result }
{
    host::or1k_plain_run(memory, states, schedule, levels, limit, vectors)
}

#[unsafe(no_mangle)]
pub extern "C" fn or1k_fast_run(
    memory: &mut [u8],
    states: &mut [u32],
    schedule: &[u8],
    levels: &[u32],
    limit: u32,
    vectors: &[u32],
    cache: &mut [u64],
) -> u64
    ensures { FastRun (lent memory.old states.old schedule.now levels.now limit vectors.now) cache.old (left memory.new states.new) cache.new result }
{
    host::or1k_fast_run(memory, states, schedule, levels, limit, vectors, cache)
}
