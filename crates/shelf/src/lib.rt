// A record shelf: an array with two parities (RAID-6) or one, the making of which can be put off through a log and a list. The caller
// lends the record, the array, the log and the list to each call; nothing is kept between calls.
//
// Here stand the calls, which the crate `shelf_c` exports for C. Below them: `record` has the shelf record and its methods, `status`
// decides whether a call is refused and why, before anything is stored. The list of the blocks whose parity is put off is bytes:
// `words` reads and writes them as 32-bit words, `place` those of a list place, `list` finds the place of an address and tests a list for
// number 3, `entries` reads and replaces the entries of a stripe, `sources` tells from them where the stripe's blocks are to be had,
// `stale` which stripes have a listed block. `alter` drops and replaces a stripe's entries and drops those of stripes that lost their
// parity, over `moves`, which moves entries in their places, and `links`, which has slot heads and Next words follow. The calls that move
// blocks have a file each, `read`, `fetch`, `write`, `resync`, `rebuild`; a write's stripe goes by its `share` of the caller's data, and
// one that is logged by a `plan` and `log`. The contracts cite `specs/`: `Lent.antt` has the promise of every call, `Calls.antt`
// what each does.
#![tactic(auto)]

mod alter;
mod entries;
mod fetch;
mod links;
mod list;
mod log;
mod moves;
mod place;
mod plan;
mod read;
mod rebuild;
pub mod record;
mod resync;
mod share;
mod sources;
mod stale;
pub mod status;
mod words;
mod write;

ghost use Rattle.std.specs.Prelude.{◌≢◌, ◌≡◌, length};
ghost use Rattle.shelf.specs.below.Refusals.{refusal_number};
ghost use Rattle.shelf.specs.Status.{start, fail, put_back, write, read, fetch, resync, rebuild, new_log, full_resync};
ghost use Rattle.shelf.specs.Lent.{lent, format_code, format_leaves, state_of, read_buffer, fetch_buffer, told_stripe, Answered};

use record::Shelf;
use status::{Refusal, Request};

// What a call hands back: its number, 0 where it was accepted, and the record after it. The struct is that of `include/shelf.h`, so
// the number stays a number.
#[repr(C)]
#[derive(Clone, Copy)]
pub struct Answer {
    pub code: usize,
    pub shelf: Shelf,
}

// What resync hands back: its number, the stripe that it made (s where none was stale or the call is refused), and the record after it.
// The struct is that of `include/shelf.h`.
#[repr(C)]
#[derive(Clone, Copy)]
pub struct Resynced {
    pub code: usize,
    pub stripe: usize,
    pub shelf: Shelf,
}

// Each call is a function of its own for C: its check comes first, and behind it its own work.
impl Answer {
    // Of an accepted call: the record after it.
    fn accepted(shelf: Shelf) -> Answer
        ensures { result ≡ record { code = 0; shelf = shelf } }
    {
        Answer { code: 0, shelf }
    }

    // Of a refused call: its number, and the record as it came.
    fn refused(refusal: Refusal, shelf: Shelf) -> Answer
        ensures { result ≡ record { code = refusal_number refusal; shelf = shelf } }
    {
        Answer {
            code: refusal.number(),
            shelf,
        }
    }
}

impl Resynced {
    // Of an accepted resync: the stripe that it made, or s, and the record after it.
    fn accepted(stripe: usize, shelf: Shelf) -> Resynced
        ensures { result ≡ record { code = 0; stripe = stripe; shelf = shelf } }
    {
        Resynced {
            code: 0,
            stripe,
            shelf,
        }
    }

    // Of a refused resync: its number, and the record as it came.
    fn refused(refusal: Refusal, shelf: Shelf) -> Resynced
        ensures { result ≡ record { code = refusal_number refusal; stripe = shelf.geometry.s; shelf = shelf } }
    {
        Resynced {
            code: refusal.number(),
            stripe: shelf.geometry.s,
            shelf,
        }
    }
}

// Sets up a fresh shelf of the record's geometry: array and log all zero, every list word none, mode 0, nothing failed, counts zero.
// Answers 0; or 1 or 2, and then stores nothing and hands the record back.
pub fn shelf_format(shelf: Shelf, array: &mut [u8], log: &mut [u8], list: &mut [u8]) -> Answer
    ensures code_value { result.code ≡ format_code shelf.geometry (length array.old) (length log.old) (length list.old) }
    ensures list_after { lent result.shelf array.new log.new list.new ≡ format_leaves
        (lent shelf array.old log.old list.old) }
{
    let g = shelf.geometry;
    if let Err(refusal) = status::check_format(g, array.len(), log.len(), list.len()) {
        return Answer::refused(refusal, shelf);
    }
    array.fill(0);
    log.fill(0);
    list.fill(255);
    Answer::accepted(Shelf::fresh(g))
}

// Goes from mode 0 to mode 1. Answers 0; or the first of 1, 2, 3, 7, 8, 9 that applies. Stores no byte.
pub fn shelf_start(shelf: Shelf, array: &[u8], log: &[u8], list: &[u8]) -> Answer
    ensures { Answered (lent shelf array.now log.now list.now) start result.code
        (lent result.shelf array.now log.now list.now) }
{
    if let Err(refusal) = status::check(shelf, Request::Start, array.len(), log.len(), list) {
        return Answer::refused(refusal, shelf);
    }
    Answer::accepted(shelf.start())
}

// Notes that a member has failed. Answers 0; or the first of 1, 2, 3, 6, 10, 11 that applies. Stores no byte.
pub fn shelf_fail(shelf: Shelf, member: usize, array: &[u8], log: &[u8], list: &[u8]) -> Answer
    ensures { Answered (lent shelf array.now log.now list.now) (fail member) result.code
        (lent result.shelf array.now log.now list.now) }
{
    let request = Request::Fail(member);
    if let Err(refusal) = status::check(shelf, request, array.len(), log.len(), list) {
        return Answer::refused(refusal, shelf);
    }
    Answer::accepted(shelf.fail(member))
}

// Takes back the report that a member of the array has failed: clears its flag. What is proved of a shelf reached from a fresh one holds
// where the member's bytes are those that it had when it was reported. Answers 0; or the first of 1, 2, 3, 6, 12 that applies. Stores no
// byte.
pub fn shelf_put_back(shelf: Shelf, member: usize, array: &[u8], log: &[u8], list: &[u8]) -> Answer
    ensures { Answered (lent shelf array.now log.now list.now) (put_back member) result.code
        (lent result.shelf array.now log.now list.now) }
{
    let request = Request::PutBack(member);
    if let Err(refusal) = status::check(shelf, request, array.len(), log.len(), list) {
        return Answer::refused(refusal, shelf);
    }
    Answer::accepted(shelf.renew(member))
}

// Writes count blocks from an address on, out of source, of count times b bytes. Answers 0; or the first of 1, 2, 3, 4, 5, 8 that
// applies, and then stores nothing.
pub fn shelf_write(
    shelf: Shelf,
    address: usize,
    count: usize,
    source: &[u8],
    array: &mut [u8],
    log: &mut [u8],
    list: &mut [u8],
) -> Answer
    ensures { Answered (lent shelf array.old log.old list.old) (write address count source.now)
        result.code (lent result.shelf array.new log.new list.new) }
{
    let request = Request::Write(address, count, source.len());
    if let Err(refusal) = status::check(shelf, request, array.len(), log.len(), list) {
        return Answer::refused(refusal, shelf);
    }
    Answer::accepted(write::write_blocks(shelf, address, count, source, array, log, list))
}

// The plain read: reads count blocks from an address on into out, of count times b bytes, where they are all on sound disks. Looks at
// no byte of the log. Answers 0; or the first of 1, 2, 3, 4, 5, 16 that applies, and then out stays as it was. Stores no byte of the
// shelf.
pub fn shelf_read(
    shelf: Shelf,
    address: usize,
    count: usize,
    out: &mut [u8],
    array: &[u8],
    log: &[u8],
    list: &[u8],
) -> Answer
    ensures answered { Answered (lent shelf array.now log.now list.now)
        (read address count (length out.old)) result.code (lent result.shelf array.now log.now list.now) }
    ensures out_after { result.code ≡ 0 → out.new ≡ read_buffer shelf.geometry (state_of (lent shelf array.now log.now list.now)) address count }
    ensures out_unchanged { result.code ≢ 0 → out.new ≡ out.old }
{
    let request = Request::Read(address, count, out.len());
    if let Err(refusal) = status::check(shelf, request, array.len(), log.len(), list) {
        return Answer::refused(refusal, shelf);
    }
    read::read_blocks(shelf.geometry, address, count, out, array);
    Answer::accepted(shelf)
}

// The recovering read: reads count blocks from an address on into out, of count times b bytes, those on failed disks from the log or
// worked back by parity. Answers 0; or the first of 1, 2, 3, 4, 5, 14 that applies, and then out stays as it was. Stores no byte of the
// shelf.
pub fn shelf_fetch(
    shelf: Shelf,
    address: usize,
    count: usize,
    out: &mut [u8],
    array: &[u8],
    log: &[u8],
    list: &[u8],
) -> Answer
    ensures answered { Answered (lent shelf array.now log.now list.now)
        (fetch address count (length out.old)) result.code (lent result.shelf array.now log.now list.now) }
    ensures out_after { result.code ≡ 0 → out.new ≡ fetch_buffer shelf.geometry (state_of (lent shelf array.now log.now list.now)) address count }
    ensures out_unchanged { result.code ≢ 0 → out.new ≡ out.old }
{
    let request = Request::Fetch(address, count, out.len());
    if let Err(refusal) = status::check(shelf, request, array.len(), log.len(), list) {
        return Answer::refused(refusal, shelf);
    }
    fetch::fetch_blocks(shelf, address, count, out, array, log, list);
    Answer::accepted(shelf)
}

// Takes a new log into use: clears the log's flag. Answers 0; or the first of 1, 2, 3, 12, 13 that applies. Stores no byte.
pub fn shelf_new_log(shelf: Shelf, array: &[u8], log: &[u8], list: &[u8]) -> Answer
    ensures { Answered (lent shelf array.now log.now list.now) new_log result.code
        (lent result.shelf array.now log.now list.now) }
{
    if let Err(refusal) = status::check(shelf, Request::NewLog, array.len(), log.len(), list) {
        return Answer::refused(refusal, shelf);
    }
    Answer::accepted(shelf.renew(shelf.geometry.log_member()))
}

// Goes to mode 2, makes the parities of the lowest stale stripe, drops its entries, and tells the stripe. Where none is stale it stores
// nothing, goes to mode 0 and tells s. Answers 0; or the first of 1, 2, 3, 7, 8 that applies, and then stores nothing and tells s.
pub fn shelf_resync(shelf: Shelf, array: &mut [u8], log: &[u8], list: &mut [u8]) -> Resynced
    ensures answered { Answered (lent shelf array.old log.now list.old) resync result.code
        (lent result.shelf array.new log.now list.new) }
    ensures stripe_value { result.stripe ≡ told_stripe (lent shelf array.old log.now list.old) result.code }
{
    let g = shelf.geometry;
    if let Err(refusal) = status::check(shelf, Request::Resync, array.len(), log.len(), list) {
        return Resynced::refused(refusal, shelf);
    }
    let x = stale::lowest_stale(list, g, shelf.listed);
    if x >= g.s {
        return Resynced::accepted(x, shelf.in_mode(0));
    }
    let n = resync::make_stripe(array, list, g, x, shelf.listed);
    Resynced::accepted(x, shelf.in_mode(2).drop_to(n))
}

// Fills every data block on a failed member with what a fetch gives and clears the array's flags. In the stripes with a parity on a
// failed member all parities are made afresh and the listed blocks are dropped; if no block is left listed, all log records are free
// and mode 2 ends. Mode 1 remains. Answers 0; or the first of 1, 2, 3, 12, 14 that applies, and then stores nothing.
pub fn shelf_rebuild(shelf: Shelf, array: &mut [u8], log: &[u8], list: &mut [u8]) -> Answer
    ensures { Answered (lent shelf array.old log.now list.old) rebuild result.code
        (lent result.shelf array.new log.now list.new) }
{
    if let Err(refusal) = status::check(shelf, Request::Rebuild, array.len(), log.len(), list) {
        return Answer::refused(refusal, shelf);
    }
    rebuild::rebuild_array(shelf, array, log, list);
    Answer::accepted(rebuild::settle(shelf, list))
}

// Makes the parities of every stripe, empties the list and goes to mode 0. Answers 0; or the first of 1, 2, 8 that applies, and then stores
// nothing.
pub fn shelf_full_resync(shelf: Shelf, array: &mut [u8], log: &[u8], list: &mut [u8]) -> Answer
    ensures { Answered (lent shelf array.old log.now list.old) full_resync result.code
        (lent result.shelf array.new log.now list.new) }
{
    let g = shelf.geometry;
    if let Err(refusal) = status::check(shelf, Request::FullResync, array.len(), log.len(), list) {
        return Answer::refused(refusal, shelf);
    }
    stripe::parity::make_all_parity(array, g.roles(), g.s, g.b);
    list.fill(255);
    Answer::accepted(shelf.in_mode(0).drop_to(0))
}
