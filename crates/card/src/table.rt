// The header's lines: the table of their keys, forms and limits.
ghost use Rattle.std.specs.Prelude.{◌≡◌, ◌<◌, drop, get_or};
ghost use Rattle.text.specs.Lines.{lines};
ghost use Rattle.card.specs.Card.{first};
ghost use Rattle.card.specs.Answer.{header_lines};
ghost use Rattle.card.specs.Inner.{header, no_row, Same, rule_of, text_means, step_in, Ahead};

use crate::Cause;
use crate::value::{Limits, MAX_WORD, Rule};

pub const MAX_CORES: u32 = 4;

const MIN_MEMORY: u32 = 4096;

const MAX_MEMORY: u32 = 16384;

pub const MAX_STEPS: u32 = 16384;

// A line's rule, or the line above on which it depends.
#[derive(Clone, Copy)]
pub enum Meaning {
    Fixed(Rule),
    // Each digit names a core.
    Cores,
    // As many words at most as memory has.
    Memory,
}

// A line of the header: its key and what may follow.
#[derive(Clone, Copy)]
pub struct Row {
    pub key: &'static [u8],
    pub meaning: Meaning,
}

// The length of the schedule's key, by which its digits are found. A number, since a constant calls no function here.
pub const SCHEDULE_KEY: usize = 9;

pub const LINES: usize = 7;

// The lines' places in the table. Numbers and no enum: they are indices, and `header_from` (specs/Inner) counts the
// lines.
pub const CORES: usize = 0;

pub const MEMORY: usize = 1;

pub const ENTRY: usize = 2;

pub const SR: usize = 3;

pub const STEPS: usize = 4;

pub const SCHEDULE: usize = 5;

pub const WORDS: usize = 6;

// The lines in their order.
const HEADER: [Row; LINES] = [
    Row {
        key: b"cores=",
        meaning: Meaning::Fixed(Rule::Decimal(Limits {
            low: 1,
            high: MAX_CORES,
            multiple: 1,
        })),
    },
    Row {
        key: b"memory=",
        meaning: Meaning::Fixed(Rule::Decimal(Limits {
            low: MIN_MEMORY,
            high: MAX_MEMORY,
            multiple: 4,
        })),
    },
    Row {
        key: b"entry=",
        meaning: Meaning::Fixed(Rule::Hexadecimal(Limits {
            low: 0,
            high: MAX_WORD,
            multiple: 4,
        })),
    },
    Row {
        key: b"sr=",
        meaning: Meaning::Fixed(Rule::Status),
    },
    Row {
        key: b"steps=",
        meaning: Meaning::Fixed(Rule::Decimal(Limits {
            low: 0,
            high: MAX_STEPS,
            multiple: 1,
        })),
    },
    Row {
        key: b"schedule=",
        meaning: Meaning::Cores,
    },
    Row {
        key: b"words=",
        meaning: Meaning::Memory,
    },
];

// The row at a place of the table.
fn row_of(i: usize) -> Row
    requires { i < header_lines }
    ensures { Same result (get_or header i no_row) }
{
    HEADER[i]
}

// A line's rule, by the values of the lines above.
fn rule_of(meaning: Meaning, cores: u32, memory: u32) -> Rule
    ensures { result ≡ rule_of meaning cores memory }
{
    match meaning {
        Meaning::Fixed(rule) => rule,
        Meaning::Cores => Rule::Digits(cores),
        Meaning::Memory => Rule::Decimal(Limits {
            low: 0,
            high: memory / 4,
            multiple: 1,
        }),
    }
}

// The value on the header's line i, which stands at a place, and the place of the next line.
pub fn line_at(
    card: &[u8],
    at: usize,
    i: usize,
    cores: u32,
    memory: u32,
) -> Result<(u32, usize), Cause>
    requires { i < header_lines }
    ensures { (step_in card.now result ≡ first (get_or header i no_row).key (text_means (rule_of (get_or header i no_row).meaning cores memory)) (lines (drop at card.now))) × (Ahead card.now at result) }
{
    let row = row_of(i);
    crate::value::value_at(card, at, row.key, rule_of(row.meaning, cores, memory))
}
