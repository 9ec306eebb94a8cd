// The value that a line has after its key: its form and its limits.
ghost use Rattle.std.specs.Prelude.{◌≡◌, ◌<◌, ◌&&◌, ◌==◌, Some, eqb, drop};
ghost use Rattle.text.specs.Numbers.{within};
ghost use Rattle.text.specs.Lines.{lines};
ghost use Rattle.arith.specs.Status.{allowed};
ghost use Rattle.card.specs.Card.{tested, limited as limitedOf, first, schedule, digits_below};
ghost use Rattle.card.specs.Inner.{counted, text_means, Sensible, field_in, step_in, Ahead};

use crate::Cause;

const MAX_DIGITS: usize = 16;

pub const MAX_WORD: u32 = 0xffffffff;

// A number's limits: the lowest, the highest, and of what it is a multiple.
#[derive(Clone, Copy)]
pub struct Limits {
    pub low: u32,
    pub high: u32,
    pub multiple: u32,
}

// What may follow a key. Decimal and Hexadecimal differ in the form of the text and not only in the base, so a base
// beside the limits would keep both arms.
#[derive(Clone, Copy)]
pub enum Rule {
    Decimal(Limits),
    Hexadecimal(Limits),
    // Eight digits, of a word that SR may be.
    Status,
    // 1 to 16 digits, each below this number; the value is how many.
    Digits(u32),
}

// The rule of a w line.
pub const WORD: Rule = Rule::Hexadecimal(Limits {
    low: 0,
    high: MAX_WORD,
    multiple: 1,
});

// The value on the line at a place, if it has that key, and the place of the next line. A place in the whole card, and
// no slice of its rest: the places of a job count from the card's start (`placed`).
pub fn value_at(card: &[u8], at: usize, key: &[u8], rule: Rule) -> Result<(u32, usize), Cause>
    requires { Sensible rule }
    ensures { (step_in card.now result ≡ first key.now (text_means rule) (lines (drop at card.now))) × (Ahead card.now at result) }
{
    let found = text::find_entry(card, at, key).ok_or(Cause::Form)?;
    let value = meant(&card[found.start..found.end], rule)?;
    Ok((value, found.end + 1))
}

// What a text means by a rule.
fn meant(text: &[u8], rule: Rule) -> Result<u32, Cause>
    requires { Sensible rule }
    ensures { field_in result ≡ text_means rule text.now }
{
    match rule {
        Rule::Decimal(limits) => limited(text::decimal(text).ok_or(Cause::Form)?, limits),
        Rule::Hexadecimal(limits) => limited(text::hexadecimal(text).ok_or(Cause::Form)?, limits),
        Rule::Status => status(text::hexadecimal(text).ok_or(Cause::Form)?),
        Rule::Digits(cores) => digits(text, cores),
    }
}

// A number within limits.
fn limited(n: u32, limits: Limits) -> Result<u32, Cause>
    requires { 0 < limits.multiple }
    ensures { field_in result ≡ limitedOf limits.low limits.high limits.multiple (Some n) }
{
    if limits.low <= n && n <= limits.high && n % limits.multiple == 0 {
        return Ok(n);
    }
    Err(Cause::Limit)
}

// A word that SR may be.
fn status(n: u32) -> Result<u32, Cause>
    ensures { field_in result ≡ tested (λ n. eqb (allowed n) n) (Some n) }
{
    if arith::keep_allowed(n) == n {
        return Ok(n);
    }
    Err(Cause::Limit)
}

// How many digits a schedule has.
fn digits(text: &[u8], cores: u32) -> Result<u32, Cause>
    ensures { field_in result ≡ counted (schedule cores text.now) }
{
    if text.is_empty() || MAX_DIGITS < text.len() || !digits_below(text, 10) {
        return Err(Cause::Form);
    }
    if !digits_below(text, cores) {
        return Err(Cause::Limit);
    }
    Ok(text.len() as u32)
}

// Whether every character is a digit below n.
fn digits_below(text: &[u8], n: u32) -> bool
    ensures { result ≡ digits_below n text.now }
{
    text.iter().all(|b| u32::from(text::digit(*b)) < n)
}
