#![tactic(auto)]
// The runner: a run card on standard input and a file `vectors`, if there is one, in the current directory; what it
// prints on standard output, and what went wrong on standard error.
ghost use Rattle.std.specs.Prelude.{◌≡◌, ◌≤◌, length};
ghost use Rattle.vectors_file.specs.Answer.{file_of};
ghost use Rattle.runner.specs.Inner.{Within, More, unopened_by, opened_by};

use std::fs;
use std::io::{self, ErrorKind, Read};
use std::rt::Files;
use vectors_file::Source;

// One byte more than a card or a file of vectors may have, so that a longer one is seen.
const ROOM: usize = 65537;

// One read into buf from `at` on; no bytes are the end of the input.
fn read_more<R: Read>(from: &mut R, buf: &mut [u8], at: usize) -> io::Result<usize>
    requires { at ≤ length buf.old }
    ensures { More at buf.old buf.new result }
{
    from.read(&mut buf[at..])
}

// Reads until buf is full or the input ends, and says how many bytes came. A read may hand over a part of what is still
// to come, so only one without bytes is the end; one that fails is not. A `while`: std's `read_to_end` needs the heap,
// and its `read_exact` fails on a shorter input.
fn read_all<R: Read>(from: &mut R, buf: &mut [u8]) -> io::Result<usize>
    ensures { Within 0 buf.new result }
{
    let mut done = 0;
    while done < buf.len() {
        match read_more(from, buf, done)? {
            0 => break,
            n => done += n,
        }
    }
    Ok(done)
}

// A file that could not be opened. Only the error that there is no such file means that it is absent.
fn unopened(error: ErrorKind) -> Source<'static>
    ensures { file_of result ≡ unopened_by error }
{
    match error {
        ErrorKind::NotFound => Source::Absent,
        _ => Source::Unreadable,
    }
}

// A file that was opened, and what came of it. One that could not be read to its end is not cut short.
fn opened<'a>(buf: &'a [u8], read: io::Result<usize>) -> Source<'a>
    requires { Within 0 buf.now read }
    ensures { file_of result ≡ opened_by buf.now read }
{
    match read {
        Ok(n) => Source::Bytes(&buf[..n]),
        Err(_) => Source::Unreadable,
    }
}

// The file `vectors` in the current directory.
fn read_vectors<'a>(rt: &impl Files, buf: &'a mut [u8]) -> Source<'a> {
    match fs::open(rt, "vectors") {
        // It is closed before the card is read: if standard input is closed, this file has its number.
        Ok(mut file) => {
            let read = read_all(&mut file, buf);
            opened(buf, read)
        }
        Err(error) => unopened(error.kind()),
    }
}

fn complain(rt: &HostRuntime, message: &[u8]) {
    let _ = rt.stderr().write_all(message);
}

// Runs the card and writes all that it prints, or says that it could not.
fn run(rt: &HostRuntime, source: Source<'_>, card: &[u8]) {
    let mut out = [0u8; play::ROOM];
    let Ok(n) = play::run_card(source, card, &mut out) else {
        // The output has its room.
        unreachable!()
    };
    if rt.stdout().write_all(&out[..n]).is_err() {
        complain(rt, b"runner: the result could not be written\n");
    }
}

fn main(rt: HostRuntime) {
    let mut file = [0u8; ROOM];
    let source = read_vectors(&rt, &mut file);
    let mut card = [0u8; ROOM];
    match read_all(&mut rt.stdin(), &mut card) {
        Ok(n) => run(&rt, source, &card[..n]),
        Err(_) => complain(&rt, b"runner: the card could not be read\n"),
    }
}
