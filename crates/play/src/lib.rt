#![tactic(auto)]
// From a file of vectors and a run card's bytes to the bytes that the runner prints.
ghost use Rattle.std.specs.Prelude.{◌≡◌, ◌≤◌, IfOk, T};
ghost use Rattle.card.specs.Card.{max_cores};
ghost use Rattle.card.specs.Answer.{job_at};
ghost use Rattle.report.specs.Result.{cores as cores_of, result_text};
ghost use Rattle.vector_list.specs.Rules.{vectors_fit};
ghost use Rattle.vectors_file.specs.Answer.{file_of};
ghost use Rattle.play.specs.Output.{job_text, output};
ghost use Rattle.play.specs.Answer.{Printed};
ghost use Rattle.play.specs.Inner.{Ready, text_of};

use card::{Job, Refused};
use effect::state;
use report::TooSmall;
use steps::counts::Counts;
use vectors_file::Source;

const CORES: usize = card::table::MAX_CORES as usize;

// The bytes that a card's output may take: the longest is that of all cores.
pub const ROOM: usize = report::ENDS_ROOM + CORES * report::CORE_ROOM;

// The largest job: its memory's words, its cores' states and its steps.
const MEMORY_WORDS: usize = job::IMAGE / 4;

const STATES: usize = CORES * state::STATE_WORDS;

const STEPS: usize = card::table::MAX_STEPS as usize;

// No part of a card's memory is read-only.
const NO_LIMIT: u32 = 0;

// What a good card's run leaves.
#[derive(Clone, Copy)]
struct Ran<'a> {
    counts: Counts,
    states: &'a [u32],
}

// The run of a good card's job, with its memory laid out in the image: all lines are low, and the run starts from an
// empty decode cache.
fn run_job<'a>(
    vectors: &[u32],
    card: &[u8],
    job: Job,
    image: &mut [u8],
    states: &'a mut [u32; STATES],
) -> Ran<'a>
    requires ready { Ready card.now job image.old }
    requires vectors_listed { T (vectors_fit vectors.now) }
    ensures text { result_text result.counts result.states.now ≡ job_text vectors.now (job_at card.now job) }
    ensures few_cores { cores_of result.states.now ≤ max_cores }
{
    let mut schedule = [0u8; STEPS];
    let levels = [0u32; STEPS];
    let mut cache = [0u64; MEMORY_WORDS];
    job::reset(states, job.cores, job.entry, job.sr);
    job::schedule(card, job, &mut schedule);
    let memory = job.memory as usize;
    let steps = job.steps as usize;
    let states = &mut states[..job.cores as usize * state::STATE_WORDS];
    let Ok(counts) = engine::fast::fast_run(
        &mut image[..memory],
        states,
        &schedule[..steps],
        &levels[..steps],
        NO_LIMIT,
        vectors,
        &mut cache[..memory / 4],
    ) else {
        // What a good card asks for is accepted.
        unreachable!()
    };
    Ran { counts, states }
}

// The run of a card, after its file of vectors.
fn run<'a>(
    source: Source<'_>,
    card: &[u8],
    states: &'a mut [u32; STATES],
) -> Result<Ran<'a>, Refused>
    ensures text { text_of result ≡ output (file_of source.entry) card.now }
    ensures few_cores { IfOk result (λ ran. cores_of ran.states.now ≤ max_cores) }
{
    let list = vectors_file::read(source)?;
    let mut image = [0u8; job::IMAGE];
    let job = job::read_job(card, &mut image)?;
    Ok(run_job(&list, card, job, &mut image, states))
}

// What the runner prints for a file of vectors and a card, and how many bytes that is; or that the bytes lent are too
// few for the longest output, and nothing is written.
pub fn run_card(source: Source<'_>, card: &[u8], out: &mut [u8]) -> Result<usize, TooSmall>
    ensures { Printed (output (file_of source.entry) card.now) out.old out.new result }
{
    if out.len() < ROOM {
        return Err(TooSmall);
    }
    let mut states = [0u32; STATES];
    match run(source, card, &mut states) {
        Ok(ran) => report::write_result(out, ran.counts, ran.states),
        Err(refused) => report::write_refusal(out, u32::from(refused.cause), refused.line),
    }
}
