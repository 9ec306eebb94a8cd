#![tactic(auto)]
// A card's job: its answer, its memory image, its schedule and its cores' first states.
ghost use Rattle.std.specs.Prelude.{◌≡◌, ◌+◌, ◌*◌, ◌≤◌, ◌<◌, length, drop};
ghost use Rattle.std.proofs.lemmas.List.Edits.{sets};
ghost use Rattle.text.specs.Lines.{lines};
ghost use Rattle.card.specs.Answer.{words_from, schedule_at, words_at, job_at};
ghost use Rattle.job.specs.Job.{image_length, filled, memory_of, entries, reset_state, reset_states};
ghost use Rattle.effect.specs.State.{state_words};
ghost use Rattle.job.specs.Answer.{ReadJob};

use card::{Cause, Job, Refused};
use effect::state;
use memory::Width;

pub const IMAGE: usize = 16384;

const RESET_ESR: u32 = 0x8001;

const RESET_PICMR: u32 = 3;

// Reads a card: a good one's job, with its memory laid out in the image; or the refusal, and nothing written.
pub fn read_job(card: &[u8], image: &mut [u8]) -> Result<Job, Refused>
    ensures { ReadJob card.now image.old image.new result }
{
    if image.len() != IMAGE {
        return Err(Cause::Image.at(0));
    }
    let job = card::read_card(card)?;
    lay_out(card, job, image);
    Ok(job)
}

// The image of a good job.
fn lay_out(card: &[u8], job: Job, image: &mut [u8])
    requires { (length image.old ≡ image_length) × (job.memory ≤ image_length) × (4 * length (words_at card.now job) ≤ job.memory) }
    ensures { image.new ≡ sets image.old 0 (memory_of (job_at card.now job)) }
{
    let memory = job.memory as usize;
    image[..memory].fill(0);
    fill(card, job.image, job.words, image);
}

// The words of n lines from a place on, into the image from address 0. No twin of `card::word_lines`, which answers a
// bad line with its number; here the lines are good.
fn fill(card: &[u8], from: usize, n: u32, image: &mut [u8])
    requires { (length image.old ≡ image_length) × (4 * length (words_from n (lines (drop from card.now))) ≤ image_length) }
    ensures { image.new ≡ filled image.old 0 (words_from n (lines (drop from card.now))) }
{
    let mut at = from;
    for i in 0..n {
        let Ok((word, next)) = card::word_at(card, at) else {
            return;
        };
        memory::store(image, 4 * i, Width::Word, word);
        at = next;
    }
}

// The core of each step of a good job. By index: the digits begin again after the last, and a zip with a cycle would be
// no plainer.
pub fn schedule(card: &[u8], job: Job, out: &mut [u8])
    requires { (0 < job.digits) × (job.schedule + job.digits ≤ length card.now) × (job.steps ≤ length out.old) }
    ensures { out.new ≡ sets out.old 0 (entries (schedule_at card.now job) job.steps) }
{
    let digits = &card[job.schedule..job.schedule + job.digits];
    for i in 0..job.steps as usize {
        out[i] = text::digit(digits[i % job.digits]);
    }
}

// The first states of n cores that start at an entry with an SR.
pub fn reset(states: &mut [u32], n: u32, entry: u32, sr: u32)
    requires { n * state_words ≤ length states.old }
    ensures { states.new ≡ sets states.old 0 (reset_states entry sr n) }
{
    let first = first_state(entry, sr);
    for i in 0..n as usize {
        let at = i * state::STATE_WORDS;
        states[at..at + state::STATE_WORDS].copy_from_slice(&first);
    }
}

// A core's first state.
fn first_state(entry: u32, sr: u32) -> [u32; state::STATE_WORDS]
    ensures { result ≡ reset_state entry sr }
{
    let mut first = [0; state::STATE_WORDS];
    first[state::PC] = entry;
    first[state::SR] = sr;
    first[state::ESR] = RESET_ESR;
    first[state::MODE] = state::RUNNING;
    first[state::PICMR] = RESET_PICMR;
    first
}
