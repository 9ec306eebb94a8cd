#![tactic(auto)]
// Digits, numbers and lines of text.
ghost use Rattle.std.specs.Prelude.{◌≡◌, ◌==◌, ◌≤◌, ◌<◌, length, drop, position};
ghost use Rattle.text.specs.Digits.{glyph as glyphOf, digit as digitOf};
ghost use Rattle.text.specs.Numbers.{number as number_of, decimal as decimalOf, hexadecimal as hexadecimalOf};
ghost use Rattle.text.specs.Lines.{lines, entry_of};
ghost use Rattle.text.specs.Inner.{found_in, Inside};

// Where a text was found: from a place up to another. Not std's Range, which is not Copy.
#[derive(Clone, Copy)]
pub struct Found {
    pub start: usize,
    pub end: usize,
}

// The character of a digit. Not char::from_digit, which answers an Option of a char: no plainer for a byte.
pub fn glyph(d: u8) -> u8
    requires { d < 16 }
    ensures { result ≡ glyphOf d }
{
    if d < 10 { b'0' + d } else { b'a' + (d - 10) }
}

// The digit that a byte is the character of, or 16 and no Option: a schedule is a number for each byte (`schedule` in
// card/specs/Card, `schedule_at` in its Answer).
pub fn digit(b: u8) -> u8
    ensures { result ≡ digitOf b }
{
    match b {
        b'0'..=b'9' => b - b'0',
        b'a'..=b'f' => b - b'a' + 10,
        _ => 16,
    }
}

// The number that all of a text is in a base.
fn number(text: &[u8], base: u32) -> Option<u32>
    requires { (base ≤ 16) × (length text.now ≤ 8) }
    ensures { result ≡ number_of base 0 text.now }
{
    let mut v = 0;
    for b in text {
        let d = u32::from(digit(*b));
        if base <= d {
            return None;
        }
        v = v * base + d;
    }
    Some(v)
}

pub fn decimal(text: &[u8]) -> Option<u32>
    ensures { result ≡ decimalOf text.now }
{
    match text.len() {
        1 => number(text, 10),
        2..=7 if text[0] != b'0' => number(text, 10),
        _ => None,
    }
}

pub fn hexadecimal(text: &[u8]) -> Option<u32>
    ensures { result ≡ hexadecimalOf text.now }
{
    if text.len() == 8 {
        number(text, 16)
    } else {
        None
    }
}

// How many bytes stand before the first line feed.
fn line_length(text: &[u8]) -> Option<usize>
    ensures { result ≡ position (λ b. b == 10) text.now }
{
    text.iter().position(|b| *b == b'\n')
}

// Where what follows a key stands on the line at a place.
pub fn find_entry(text: &[u8], at: usize, key: &[u8]) -> Option<Found>
    ensures { (found_in text.now result ≡ entry_of key.now (lines (drop at text.now))) × (Inside key.now text.now at result) }
{
    let rest = text.get(at..)?;
    let length = line_length(rest)?;
    if !rest[..length].starts_with(key) {
        return None;
    }
    Some(Found {
        start: at + key.len(),
        end: at + length,
    })
}
