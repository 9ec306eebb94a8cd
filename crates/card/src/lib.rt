#![tactic(auto)]
// What a run card says, line by line.
ghost use Rattle.std.specs.Prelude.{◌≡◌, ◌≤◌, length, drop};
ghost use Rattle.text.specs.Ascii.{ascii};
ghost use Rattle.text.specs.Lines.{lines};
ghost use Rattle.card.specs.Card.{first, word, card_says, max_card};
ghost use Rattle.card.specs.Answer.{refusal, told, and_then, answered};
ghost use Rattle.card.specs.Inner.{step_in, Ahead, standing, start_of};
ghost use Rattle.card.specs.Inner.{header_from, header_at, word_lines_of, last_lines};

use crate::table::{CORES, ENTRY, LINES, MEMORY, SCHEDULE, SCHEDULE_KEY, SR, STEPS, WORDS};
use crate::value::WORD;

pub mod table;
pub mod value;

pub const MAX_CARD: usize = 65536;

// The number of the first w line.
const WORD_LINES: u32 = LINES as u32 + 1;

// Why a card or a file of vectors is refused, document 01's 1, 9 and 10: the image's length, a line's form, a value's
// limits.
#[derive(Clone, Copy)]
pub enum Cause {
    Image,
    Form,
    Limit,
    // The file of vectors alone, document 02's 13: an address that repeats one above it.
    Repeat,
}

// The number of a cause.
impl From<Cause> for u32 {
    ghost from_gives = { λ cause n. n ≡ refusal cause };

    fn from(cause: Cause) -> u32 {
        match cause {
            Cause::Image => 1,
            Cause::Form => 9,
            Cause::Limit => 10,
            Cause::Repeat => 13,
        }
    }
}

// Why a card or a file of vectors is refused, and at which line.
#[derive(Clone, Copy)]
pub struct Refused {
    pub cause: Cause,
    pub line: u32,
}

impl Cause {
    // The refusal for this cause at a line.
    pub fn at(self, line: u32) -> Refused
        ensures { (result.cause ≡ self) × (result.line ≡ line) }
    {
        Refused { cause: self, line }
    }
}

// A good card's job. The schedule's digits and the first w line are given by their places in the card and not by
// slices: `placed` (specs/Answer) says where they stand, also where the same bytes stand elsewhere.
#[derive(Clone, Copy, Default)]
pub struct Job {
    pub cores: u32,
    pub memory: u32,
    pub entry: u32,
    pub sr: u32,
    pub steps: u32,
    pub schedule: usize,
    pub digits: usize,
    pub words: u32,
    pub image: usize,
}

// A line's place in a card and its number, and the job of the lines before it.
#[derive(Clone, Copy)]
pub struct Progress {
    pub at: usize,
    pub line: u32,
    pub job: Job,
}

// A card's bytes and the line reached in it, or why it is refused.
#[derive(Clone, Copy)]
pub struct Reader<'a> {
    pub card: &'a [u8],
    pub reached: Result<Progress, Refused>,
}

impl<'a> Reader<'a> {
    // At a card's first line.
    pub fn new(card: &'a [u8]) -> Reader<'a>
        ensures { (result.card ≡ card.entry) × (standing result.reached ≡ start_of card.now) }
    {
        Reader {
            card,
            reached: start(card),
        }
    }

    // Over the header, from the card's first line to the first w line; a refusal stays.
    pub fn header(self) -> Reader<'a>
        ensures { (result.card ≡ self.entry.card) × (standing result.reached ≡ and_then (standing self.entry.reached) (header_at self.entry.card.now)) }
    {
        Reader {
            card: self.card,
            reached: self.reached.and_then(|p| header_at(self.card, p)),
        }
    }

    // The lines after the header, and the answer.
    pub fn finish(self) -> Result<Job, Refused>
        ensures { told result ≡ and_then (standing self.entry.reached) (last_lines self.entry.card.now) }
    {
        last_lines(self.card, self.reached?)
    }
}

// A whole card.
pub fn read_card(card: &[u8]) -> Result<Job, Refused>
    ensures { told result ≡ answered card.now (card_says card.now) }
{
    Reader::new(card).header().finish()
}

// The first line of a card that is not too long.
fn start(card: &[u8]) -> Result<Progress, Refused>
    ensures { standing result ≡ start_of card.now }
{
    if MAX_CARD < card.len() {
        return Err(Cause::Form.at(0));
    }
    Ok(Progress {
        at: 0,
        line: 1,
        job: Job::default(),
    })
}

// The header, if its first line is reached.
fn header_at(card: &[u8], p: Progress) -> Result<Progress, Refused>
    ensures { standing result ≡ header_at card.now p }
{
    if p.line != 1 {
        return Ok(p);
    }
    read_header(card, p.at)
}

// What a line of the header says, and its place.
#[derive(Clone, Copy)]
struct LineRead {
    value: u32,
    at: usize,
}

// The header's lines from a place on.
fn read_header(card: &[u8], from: usize) -> Result<Progress, Refused>
    ensures { standing result ≡ header_from card.now from }
{
    let mut lines = [LineRead { value: 0, at: 0 }; LINES];
    let mut at = from;
    for i in 0..LINES {
        let line = i as u32 + 1;
        let (value, next) = table::line_at(
            card,
            at,
            i,
            lines[CORES].value,
            lines[MEMORY].value,
        ).map_err(|cause| cause.at(line))?;
        lines[i] = LineRead { value, at };
        at = next;
    }
    Ok(Progress {
        at,
        line: WORD_LINES,
        job: Job {
            cores: lines[CORES].value,
            memory: lines[MEMORY].value,
            entry: lines[ENTRY].value,
            sr: lines[SR].value,
            steps: lines[STEPS].value,
            schedule: lines[SCHEDULE].at + SCHEDULE_KEY,
            digits: lines[SCHEDULE].value as usize,
            words: lines[WORDS].value,
            image: 0,
        },
    })
}

// The lines after the header, if its last line is read.
fn last_lines(card: &[u8], p: Progress) -> Result<Job, Refused>
    ensures { told result ≡ last_lines card.now p }
{
    // A reader may hold any card. In one that is not too long every line's number fits.
    if MAX_CARD < card.len() {
        return Err(Cause::Form.at(0));
    }
    if p.line != WORD_LINES {
        return Err(Cause::Form.at(p.line));
    }
    let mut job = p.job;
    job.image = p.at;
    word_lines(card, job)
}

// The w lines of a job, and no line more.
fn word_lines(card: &[u8], job: Job) -> Result<Job, Refused>
    requires { length card.now ≤ max_card }
    ensures { told result ≡ word_lines_of card.now job }
{
    let mut at = job.image;
    for i in 0..job.words {
        let line = WORD_LINES + i;
        (_, at) = word_at(card, at).map_err(|cause| cause.at(line))?;
    }
    if at < card.len() {
        return Err(Cause::Form.at(WORD_LINES + job.words));
    }
    Ok(job)
}

// The word of the w line at a place, and the place of the next line.
pub fn word_at(card: &[u8], at: usize) -> Result<(u32, usize), Cause>
    ensures { (step_in card.now result ≡ first (ascii "w=") word (lines (drop at card.now))) × (Ahead card.now at result) }
{
    value::value_at(card, at, b"w=", WORD)
}
