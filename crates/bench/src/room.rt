// The room that the bench program has: a shelf, and buffers of 32,768 bytes for its array, its log and its list, which have no more
// together, and for the data of a call.
ghost use Rattle.std.specs.Prelude.{true, ◌≡◌, ◌+◌, ◌≤◌, [], Option, None};
ghost use Rattle.shelf.specs.Members.{InRange};
ghost use Rattle.shelf.specs.Lent.{Lent, lent, array_length, log_length, list_length, fresh_record, formatted};
ghost use Rattle.bench.specs.Bench.{geometry_of, fits, lent_parts, data_length, Performed};

use super::calls;
use lines::measures::Measures;
use lines::requests::Request;
use shelf::record::{Geometry, Shelf};
use std::marker::Model;

// The room in bytes.
const ROOM: usize = 32768;

// The geometry where there is no shelf, which no shelf has; the definition `geometry_of` has it for none.
const NO_GEOMETRY: Geometry = Geometry {
    d: 0,
    s: 0,
    b: 0,
    l: 0,
    h: 0,
    e: 0,
    layout: 0,
    parities: 2,
};

// A shelf's record and the buffers, of which it has as many of the first bytes as its geometry takes. Before it is set up there is no
// shelf, so that the geometry fits is a clause here, and an invariant of a session.
#[derive(Drop)]
pub struct Room {
    shelf: Shelf,
    array: [u8; ROOM],
    log: [u8; ROOM],
    list: [u8; ROOM],
    bytes: [u8; ROOM],
}

impl Model for Room {
    ghost Value = { Lent };

    ghost view = { λ r. lent_parts r.shelf r.array r.log r.list };
}

impl Room {
    // The room before there is a shelf: the record is the fresh one of the geometry for none, which takes no byte of a buffer.
    #[tactic(auto, unfolding(crate::specs::Bench::geometry_of))]
    pub fn new() -> Room
        ensures { result ≡ lent (fresh_record (geometry_of None)) [] [] [] }
    {
        Room {
            shelf: Shelf::fresh(NO_GEOMETRY),
            array: [0; ROOM],
            log: [0; ROOM],
            list: [0; ROOM],
            bytes: [0; ROOM],
        }
    }

    // Sets up a fresh shelf.
    pub fn format(&mut self, g: Geometry)
        requires { fits g ≡ true }
        ensures { self.new ≡ formatted g }
    {
        self.shelf = format_parts(g, &mut self.array, &mut self.log, &mut self.list);
    }

    // Makes the call that a request asks for on the shelf; a line that can't be read asks for none.
    #[tactic(auto, unfolding(crate::specs::Bench::Performed))]
    pub fn perform(&mut self, request: Option<Request>) -> calls::Outcome
        requires { fits self.old.shelf.geometry ≡ true }
        ensures performed { Performed request self.old result.code result.first self.new }
        ensures shelf { result.shelf ≡ self.new.shelf }
    {
        let Some(request) = request else {
            return calls::bad_line(self.shelf);
        };
        let outcome = perform_on_parts(
            self.shelf,
            request,
            &mut self.array,
            &mut self.log,
            &mut self.list,
            &mut self.bytes,
        );
        self.shelf = outcome.shelf;
        outcome
    }
}

// A fresh shelf, in as many bytes of each buffer as its geometry takes.
// The buffers come one by one: slices of two fields behind one `&mut self` get no proof, whole fields do.
fn format_parts(
    g: Geometry,
    array: &mut [u8; ROOM],
    log: &mut [u8; ROOM],
    list: &mut [u8; ROOM],
) -> Shelf
    requires { fits g ≡ true }
    ensures { lent_parts result array.new log.new list.new ≡ formatted g }
{
    let (a, l, t) = (array_length(g), log_length(g), list_length(g));
    let fresh = shelf::shelf_format(
        Shelf::fresh(g),
        &mut array[..a],
        &mut log[..l],
        &mut list[..t],
    );
    fresh.shelf
}

// Makes the call that a request asks for, on as many bytes of each buffer as the shelf's geometry takes.
fn perform_on_parts(
    shelf: Shelf,
    request: Request,
    array: &mut [u8; ROOM],
    log: &mut [u8; ROOM],
    list: &mut [u8; ROOM],
    bytes: &mut [u8; ROOM],
) -> calls::Outcome
    requires { fits shelf.geometry ≡ true }
    ensures { Performed (Some request) (lent_parts shelf array.old log.old list.old) result.code result.first
        (lent_parts result.shelf array.new log.new list.new) }
{
    let g = shelf.geometry;
    let (a, l, t) = (array_length(g), log_length(g), list_length(g));
    calls::perform(
        shelf,
        request,
        &mut array[..a],
        &mut log[..l],
        &mut list[..t],
        bytes,
    )
}

// The geometry that measures say, in the fixed layout, with two parities; where they can't be read, one that no shelf has.
#[tactic(auto, unfolding(crate::specs::Bench::geometry_of))]
pub fn geometry_of(measures: Option<Measures>) -> Geometry
    ensures { result ≡ geometry_of measures }
{
    let Some(m) = measures else {
        return NO_GEOMETRY
    };
    Geometry {
        d: m.d,
        s: m.s,
        b: m.b,
        l: m.l,
        h: m.h,
        e: m.e,
        layout: 0,
        parities: 2,
    }
}

// Whether a geometry is one that format takes, and array, log and list have room.
pub fn fits(g: Geometry) -> bool
    ensures { result ≡ fits g }
{
    !shelf::status::bad_measures(g) && array_length(g) + log_length(g) + list_length(g) <= ROOM
}

// The bytes of a shelf's array.
fn array_length(g: Geometry) -> usize
    requires { InRange g }
    ensures value { result ≡ array_length g }
    ensures upper_bound { result ≤ 4831838208 }
{
    g.array_members() * g.s * g.b
}

// The bytes of its log.
fn log_length(g: Geometry) -> usize
    requires { InRange g }
    ensures value { result ≡ log_length g }
    ensures upper_bound { result ≤ 268435456 }
{
    g.l * g.b
}

// The bytes of its list.
fn list_length(g: Geometry) -> usize
    requires { InRange g }
    ensures value { result ≡ list_length g }
    ensures upper_bound { result ≤ 66560 }
{
    4 * g.h + 16 * g.e
}

// How many bytes are lent as the data of count blocks of b bytes: all that they take, or none where there is no room for them.
#[tactic(auto, unfolding(crate::specs::Bench::data_length))]
pub fn data_length(count: usize, b: usize) -> usize
    ensures value { result ≡ data_length count b 32768 }
    ensures upper_bound { result ≤ 32768 }
{
    match count.checked_mul(b) {
        Some(n) if n <= ROOM => n,
        _ => 0,
    }
}
