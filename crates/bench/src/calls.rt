// Requests as calls on a shelf.
ghost use Rattle.std.specs.Prelude.{true, ◌≡◌, ◌*◌, Option, replicate};
ghost use Rattle.shelf.specs.Lent.{lent, Answered};
ghost use Rattle.shelf.specs.Status.{write};
ghost use Rattle.bench.specs.Bench.{fits, first_read, Performed, answer_of};

use super::room;
use lines::requests::Request;
use shelf::record::Shelf;
use shelf::{Answer, Resynced};

// What came of a request: the number and the first byte read (0 if none), as the line of the answer has them, and the record after it.
#[derive(Clone, Copy)]
pub struct Outcome {
    pub code: usize,
    pub first: u8,
    pub shelf: Shelf,
}

// The number of a line that can't be read.
const BAD_LINE: usize = 15;

// What comes of a line that can't be read: its number, and the record as it is.
pub fn bad_line(shelf: Shelf) -> Outcome
    ensures { result ≡ record { code = 15; first = 0; shelf = shelf } }
{
    Outcome {
        code: BAD_LINE,
        first: 0,
        shelf,
    }
}

// The outcome of a call that reads no byte.
impl From<Answer> for Outcome {
    ghost from_gives = { λ a o. o ≡ record { code = a.code; first = 0; shelf = a.shelf } };

    fn from(a: Answer) -> Outcome {
        Outcome {
            code: a.code,
            first: 0,
            shelf: a.shelf,
        }
    }
}

// The outcome of a resync; the stripe that it tells is not written. C knows two structs, so there are two conversions.
impl From<Resynced> for Outcome {
    ghost from_gives = { λ a o. o ≡ record { code = a.code; first = 0; shelf = a.shelf } };

    fn from(a: Resynced) -> Outcome {
        Outcome {
            code: a.code,
            first: 0,
            shelf: a.shelf,
        }
    }
}

// The answer that is written of an outcome.
impl From<Outcome> for lines::answers::Answer {
    ghost from_gives = { λ o a. a ≡ answer_of o };

    fn from(o: Outcome) -> lines::answers::Answer {
        lines::answers::Answer {
            code: o.code,
            mode: o.shelf.mode,
            listed: o.shelf.listed,
            next: o.shelf.next,
            first: o.first as usize,
        }
    }
}

// The outcome of a read, of which the first byte is told.
fn outcome_of_read(a: Answer, read: &[u8]) -> Outcome
    ensures { result ≡ record { code = a.code; first = first_read a.code read.now; shelf = a.shelf } }
{
    Outcome {
        code: a.code,
        first: first_of(a.code, read),
        shelf: a.shelf,
    }
}

// The first byte of what a read with this code left, or 0.
#[tactic(auto, unfolding(crate::specs::Bench::first_read))]
fn first_of(code: usize, read: &[u8]) -> u8
    ensures { result ≡ first_read code read.now }
{
    if code == 0 {
        read.first().copied().unwrap_or(0)
    } else {
        0
    }
}

// Makes the call that a request asks for. The data of a write are made, and those of a read are put, in bytes.
pub fn perform(
    shelf: Shelf,
    request: Request,
    array: &mut [u8],
    log: &mut [u8],
    list: &mut [u8],
    bytes: &mut [u8; 32768],
) -> Outcome
    requires { fits shelf.geometry ≡ true }
    ensures { Performed (Some request) (lent shelf array.old log.old list.old) result.code result.first
        (lent result.shelf array.new log.new list.new) }
{
    let b = shelf.geometry.b;
    match request {
        Request::Start => shelf::shelf_start(shelf, array, log, list).into(),
        Request::Write(address, count, v) => {
            let source = &mut bytes[..room::data_length(count, b)];
            source.fill(v);
            shelf::shelf_write(shelf, address, count, source, array, log, list).into()
        }
        Request::Read(address, count) => {
            let out = &mut bytes[..room::data_length(count, b)];
            let a = shelf::shelf_read(shelf, address, count, out, array, log, list);
            outcome_of_read(a, out)
        }
        Request::Fetch(address, count) => {
            let out = &mut bytes[..room::data_length(count, b)];
            let a = shelf::shelf_fetch(shelf, address, count, out, array, log, list);
            outcome_of_read(a, out)
        }
        Request::Fail(member) => shelf::shelf_fail(shelf, member, array, log, list).into(),
        Request::Resync => shelf::shelf_resync(shelf, array, log, list).into(),
        Request::Rebuild => shelf::shelf_rebuild(shelf, array, log, list).into(),
        Request::NewLog => shelf::shelf_new_log(shelf, array, log, list).into(),
        Request::FullResync => shelf::shelf_full_resync(shelf, array, log, list).into(),
    }
}
