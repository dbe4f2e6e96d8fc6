// Lines that ask for a call: a name and three values, split by single blanks.
ghost use Rattle.std.specs.Prelude.{◌≡◌};
ghost use Rattle.lines.specs.Names.{same};
ghost use Rattle.lines.specs.RequestLines.{named, write_of, request_line};

use super::fields;

// What a line asks for: a call with its values. Write has an address, a count and a fill byte, read and fetch an address and a
// count, fail a member.
#[derive(Clone, Copy, PartialEq, Eq, Debug)]
pub enum Request {
    Start,
    Write(usize, usize, u8),
    Read(usize, usize),
    Fetch(usize, usize),
    Fail(usize),
    Resync,
    Rebuild,
    NewLog,
    FullResync,
}

// What a line asks for, if it can be read.
pub fn read_request(line: &[u8]) -> Option<Request>
    ensures { result ≡ request_line line.now }
{
    let end = fields::first_blank(line)?;
    let [a, b, c]: [usize; 3] = fields::read_values(&line[end + 1..])?;
    named(&line[..end], a, b, c)
}

// What a name with three values asks for.
// The names are compared one after another, as the definition `named` has them.
#[tactic(auto, unfolding(crate::specs::RequestLines::named))]
fn named(name: &[u8], a: usize, b: usize, c: usize) -> Option<Request>
    ensures { result ≡ named name.now a b c }
{
    let is = |word: &[u8]| -> bool
        ensures { result ≡ same name.entry.now word.now }
    { name == word };
    if is(b"start") {
        Some(Request::Start)
    } else if is(b"write") {
        write_of(a, b, c)
    } else if is(b"read") {
        Some(Request::Read(a, b))
    } else if is(b"fetch") {
        Some(Request::Fetch(a, b))
    } else if is(b"fail") {
        Some(Request::Fail(a))
    } else if is(b"resync") {
        Some(Request::Resync)
    } else if is(b"rebuild") {
        Some(Request::Rebuild)
    } else if is(b"newlog") {
        Some(Request::NewLog)
    } else if is(b"full") {
        Some(Request::FullResync)
    } else {
        None
    }
}

// A write of b blocks from address a on with fill byte c, where c is a byte.
fn write_of(a: usize, b: usize, c: usize) -> Option<Request>
    ensures { result ≡ write_of a b c }
{
    if c <= 255 {
        Some(Request::Write(a, b, c as u8))
    } else {
        None
    }
}
