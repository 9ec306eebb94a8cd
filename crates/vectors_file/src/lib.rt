#![tactic(auto)]
// What the file named `vectors` says, line by line.
ghost use Rattle.std.specs.Prelude.{◌≡◌, ◌<◌, drop, map, get_or};
ghost use Rattle.text.specs.Ascii.{ascii};
ghost use Rattle.text.specs.Lines.{lines};
ghost use Rattle.card.specs.Card.{first, whole};
ghost use Rattle.card.specs.Inner.{step_in, Ahead, left};
ghost use Rattle.isa.specs.Vectors.{vector_count};
ghost use Rattle.vectors_file.specs.File.{keys, address, distinct as distinctOf, content, vectors_say};
ghost use Rattle.vectors_file.specs.Answer.{told, file_of};

use card::value::{Limits, Rule};
use card::{Cause, Refused};
use isa::vectors::COUNT;

// How the file was found: its bytes were read, there is none, or it is there and cannot be read. A Result of an Option
// would be no plainer: the cases are those of `File` (specs/File).
#[derive(Clone, Copy)]
pub enum Source<'a> {
    Bytes(&'a [u8]),
    Absent,
    Unreadable,
}

// The lines' keys in their order.
const KEYS: [&[u8]; COUNT] = [
    b"bus=",
    b"align=",
    b"illegal=",
    b"range=",
    b"syscall=",
    b"trap=",
    b"interrupt=",
];

const ADDRESS: Rule = Rule::Hexadecimal(Limits {
    low: 0,
    high: vector_list::END - 1,
    multiple: 4,
});

// The list; or why the file is refused and at which line. With no such file the old list holds. One that cannot be read
// is refused, and not passed over.
#[tactic(auto, unfolding(crate::specs::File::vectors_say))]
pub fn read(source: Source<'_>) -> Result<[u32; COUNT], Refused>
    ensures { told result ≡ vectors_say (file_of source.entry) }
{
    match source {
        Source::Bytes(file) => read_file(file),
        Source::Absent => Ok(isa::vectors::default_list()),
        Source::Unreadable => Err(Cause::Form.at(0)),
    }
}

// A file is no longer than a card may be.
fn read_file(file: &[u8]) -> Result<[u32; COUNT], Refused>
    ensures { told result ≡ whole file.now content }
{
    if card::MAX_CARD < file.len() {
        return Err(Cause::Form.at(0));
    }
    read_lines(file)
}

// A line for each address, and no line more.
fn read_lines(file: &[u8]) -> Result<[u32; COUNT], Refused>
    ensures { told result ≡ content (left file.now 0 1) }
{
    let mut list = [0; COUNT];
    let mut at = 0;
    for i in 0..COUNT {
        let line = i as u32 + 1;
        let (address, next) = address_at(file, at, i).map_err(|cause| cause.at(line))?;
        list[i] = address;
        at = next;
    }
    if at < file.len() {
        return Err(Cause::Form.at(COUNT as u32 + 1));
    }
    distinct(list)
}

// The address on the line at a place, by its key's place in the list, and the place of the next line.
fn address_at(file: &[u8], at: usize, i: usize) -> Result<(u32, usize), Cause>
    requires { i < vector_count }
    ensures { (step_in file.now result ≡ first (ascii (get_or keys i "")) address (lines (drop at file.now))) × (Ahead file.now at result) }
{
    card::value::value_at(file, at, key_at(i), ADDRESS)
}

// The key at a place in the list.
fn key_at(i: usize) -> &'static [u8]
    requires { i < vector_count }
    ensures { result.now ≡ get_or (map ascii keys) i (ascii "") }
{
    KEYS[i]
}

// A list with two equal addresses is refused at the line of the first that repeats one above it.
fn distinct(list: [u32; COUNT]) -> Result<[u32; COUNT], Refused>
    ensures { told result ≡ distinctOf list }
{
    match vector_list::first_repeat(&list) {
        Some(i) => Err(Cause::Repeat.at(i as u32 + 1)),
        None => Ok(list),
    }
}
