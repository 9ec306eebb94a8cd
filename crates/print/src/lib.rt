#![tactic(auto)]
// A writer of text into bytes that the caller lends. Not std's `write!`: its contract says what was written if it
// succeeds, and of no writer that it does succeed. `answer` in report promises the text wherever there is room.
ghost use Rattle.std.specs.Prelude.{◌≡◌, ◌++◌, ◌+◌, ◌≤◌, ◌<◌, length};
ghost use Rattle.print.specs.Digits.{digits, decimal_places, decimal, hexadecimal};
ghost use Rattle.print.specs.Inner.{Puts, Fits};

// The next text goes into `out` from `at` on. That there is room (`Fits`) is a fact of a writer and a text together, so
// each contract says it.
#[derive(Drop)]
pub struct Writer<'a> {
    out: &'a mut [u8],
    at: usize,
}

impl<'a> Writer<'a> {
    pub fn new(out: &'a mut [u8]) -> Writer<'a>
        ensures same_reference { result.out.ghost_name ≡ out.entry.ghost_name }
        ensures bytes { result.out.now ≡ out.old }
        ensures start { result.at ≡ 0 }
    {
        Writer { out, at: 0 }
    }

    // How many bytes are written.
    pub fn len(&self) -> usize
        ensures { result ≡ self.now.at }
    {
        self.at
    }

    pub fn put(&mut self, text: &[u8])
        requires { Fits self.old text.now }
        ensures { Puts self.old text.now self.new }
    {
        let end = self.at + text.len();
        self.out[self.at..end].copy_from_slice(text);
        self.at = end;
    }

    // The k lowest digits of n in a base.
    fn put_digits(&mut self, n: u64, base: u64, k: usize)
        requires { (self.old.at + k ≤ length self.old.out.now) × (1 < base) × (base ≤ 16) }
        ensures { Puts self.old (digits base k n) self.new }
    {
        let mut rest = n;
        for i in (0..k).rev() {
            self.out[self.at + i] = text::glyph((rest % base) as u8);
            rest /= base;
        }
        self.at += k;
    }

    // A key, and a number in decimal.
    pub fn put_decimal(&mut self, key: &[u8], n: u64)
        requires { Fits self.old (key.now ++ decimal n) }
        ensures { Puts self.old (key.now ++ decimal n) self.new }
    {
        self.put(key);
        self.put_digits(n, 10, decimal_places(n));
    }

    // A key, and a word as eight hexadecimal digits.
    pub fn put_word(&mut self, key: &[u8], word: u32)
        requires { Fits self.old (key.now ++ hexadecimal word) }
        ensures { Puts self.old (key.now ++ hexadecimal word) self.new }
    {
        self.put(key);
        self.put_digits(word as u64, 16, 8);
    }
}

// How many decimal digits n has.
fn decimal_places(n: u64) -> usize
    ensures { result ≡ decimal_places n }
{
    match n.checked_ilog10() {
        Some(log) => log as usize + 1,
        None => 1,
    }
}
