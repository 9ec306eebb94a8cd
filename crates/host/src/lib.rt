#![tactic(auto)]
// What programs in other languages call, by the crate host_c: plain numbers in and out.
// Names and parameters are the C interface's (include/or1k.h).
ghost use Rattle.std.specs.Prelude.{◌≡◌};
ghost use Rattle.isa.specs.InstructionSet.{decode};
ghost use Rattle.refusal.specs.Lent.{lent, left};
ghost use Rattle.host.specs.Interface.{Answers, PlainRun, FastRun};

// Refusal 8: no 32-bit word decodes to the entry.
const NO_WORD: u64 = 0x1_0000_0000;

pub fn or1k_decode(word: u32) -> u64
    ensures { result ≡ decode word }
{
    codec::decoder::decode(word)
}

pub fn or1k_encode(entry: u64) -> u64
    ensures { Answers entry result }
{
    codec::encoder::encode(entry).map_or(NO_WORD, u64::from)
}

pub fn or1k_plain_run(
    memory: &mut [u8],
    states: &mut [u32],
    schedule: &[u8],
    levels: &[u32],
    limit: u32,
    vectors: &[u32],
) -> u64
    ensures { PlainRun (lent memory.old states.old schedule.now levels.now limit vectors.now) (left memory.new states.new) result }
{
    engine::answer::pack(engine::plain::plain_run(memory, states, schedule, levels, limit, vectors))
}

pub fn or1k_fast_run(
    memory: &mut [u8],
    states: &mut [u32],
    schedule: &[u8],
    levels: &[u32],
    limit: u32,
    vectors: &[u32],
    cache: &mut [u64],
) -> u64
    ensures { FastRun (lent memory.old states.old schedule.now levels.now limit vectors.now) cache.old (left memory.new states.new) cache.new result }
{
    engine::answer::pack(engine::fast::fast_run(
        memory, states, schedule, levels, limit, vectors, cache,
    ))
}
