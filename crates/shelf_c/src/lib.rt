// The calls of the shelf for C, as include/shelf.h declares them. Each calls the library's function of the same name, whose promise is
// its own; the records that cross stand in the library.
#![tactic(auto)]

ghost use Rattle.std.specs.Prelude.{◌≢◌, ◌≡◌, length};
ghost use Rattle.shelf.specs.Status.{start, fail, put_back, write, read, fetch, resync, rebuild, new_log, full_resync};
ghost use Rattle.shelf.specs.Lent.{lent, format_code, format_leaves, state_of, read_buffer, fetch_buffer, told_stripe, Answered};

use shelf::record::Shelf;
use shelf::{Answer, Resynced};

// Sets up a fresh shelf of the record's geometry: array and log all zero, every list word none, mode 0, nothing failed, counts zero.
// Answers 0; or 1 or 2, and then stores nothing and hands the record back.
#[unsafe(no_mangle)]
pub extern "C" fn shelf_format(
    shelf: Shelf,
    array: &mut [u8],
    log: &mut [u8],
    list: &mut [u8],
) -> Answer
    ensures code_value { result.code ≡ format_code shelf.geometry (length array.old) (length log.old) (length list.old) }
    ensures list_after { lent result.shelf array.new log.new list.new ≡ format_leaves
        (lent shelf array.old log.old list.old) }
{
    shelf::shelf_format(shelf, array, log, list)
}

// Goes from mode 0 to mode 1. Answers 0; or the first of 1, 2, 3, 7, 8, 9 that applies. Stores no byte.
#[unsafe(no_mangle)]
pub extern "C" fn shelf_start(shelf: Shelf, array: &[u8], log: &[u8], list: &[u8]) -> Answer
    ensures { Answered (lent shelf array.now log.now list.now) start result.code
        (lent result.shelf array.now log.now list.now) }
{
    shelf::shelf_start(shelf, array, log, list)
}

// Notes that a member has failed. Answers 0; or the first of 1, 2, 3, 6, 10, 11 that applies. Stores no byte.
#[unsafe(no_mangle)]
pub extern "C" fn shelf_fail(
    shelf: Shelf,
    member: usize,
    array: &[u8],
    log: &[u8],
    list: &[u8],
) -> Answer
    ensures { Answered (lent shelf array.now log.now list.now) (fail member) result.code
        (lent result.shelf array.now log.now list.now) }
{
    shelf::shelf_fail(shelf, member, array, log, list)
}

// Takes back the report that a member of the array has failed: clears its flag. What is proved of a shelf reached from a fresh one holds
// where the member's bytes are those that it had when it was reported. Answers 0; or the first of 1, 2, 3, 6, 12 that applies. Stores no
// byte.
#[unsafe(no_mangle)]
pub extern "C" fn shelf_put_back(
    shelf: Shelf,
    member: usize,
    array: &[u8],
    log: &[u8],
    list: &[u8],
) -> Answer
    ensures { Answered (lent shelf array.now log.now list.now) (put_back member) result.code
        (lent result.shelf array.now log.now list.now) }
{
    shelf::shelf_put_back(shelf, member, array, log, list)
}

// Writes count blocks from an address on, out of source, of count times b bytes. Answers 0; or the first of 1, 2, 3, 4, 5, 8 that
// applies, and then stores nothing.
#[unsafe(no_mangle)]
pub extern "C" fn shelf_write(
    shelf: Shelf,
    address: usize,
    count: usize,
    source: &[u8],
    array: &mut [u8],
    log: &mut [u8],
    list: &mut [u8],
) -> Answer
    ensures { Answered (lent shelf array.old log.old list.old) (write address count source.now)
        result.code (lent result.shelf array.new log.new list.new) }
{
    shelf::shelf_write(shelf, address, count, source, array, log, list)
}

// The plain read: reads count blocks from an address on into out, of count times b bytes, where they are all on sound disks. Looks at
// no byte of the log. Answers 0; or the first of 1, 2, 3, 4, 5, 16 that applies, and then out stays as it was. Stores no byte of the
// shelf.
#[unsafe(no_mangle)]
pub extern "C" fn shelf_read(
    shelf: Shelf,
    address: usize,
    count: usize,
    out: &mut [u8],
    array: &[u8],
    log: &[u8],
    list: &[u8],
) -> Answer
    ensures answered { Answered (lent shelf array.now log.now list.now)
        (read address count (length out.old)) result.code (lent result.shelf array.now log.now list.now) }
    ensures out_after { result.code ≡ 0 → out.new ≡ read_buffer shelf.geometry (state_of (lent shelf array.now log.now list.now)) address count }
    ensures out_unchanged { result.code ≢ 0 → out.new ≡ out.old }
{
    shelf::shelf_read(shelf, address, count, out, array, log, list)
}

// The recovering read: reads count blocks from an address on into out, of count times b bytes, those on failed disks from the log or
// worked back by parity. Answers 0; or the first of 1, 2, 3, 4, 5, 14 that applies, and then out stays as it was. Stores no byte of the
// shelf.
#[unsafe(no_mangle)]
pub extern "C" fn shelf_fetch(
    shelf: Shelf,
    address: usize,
    count: usize,
    out: &mut [u8],
    array: &[u8],
    log: &[u8],
    list: &[u8],
) -> Answer
    ensures answered { Answered (lent shelf array.now log.now list.now)
        (fetch address count (length out.old)) result.code (lent result.shelf array.now log.now list.now) }
    ensures out_after { result.code ≡ 0 → out.new ≡ fetch_buffer shelf.geometry (state_of (lent shelf array.now log.now list.now)) address count }
    ensures out_unchanged { result.code ≢ 0 → out.new ≡ out.old }
{
    shelf::shelf_fetch(shelf, address, count, out, array, log, list)
}

// Takes a new log into use: clears the log's flag. Answers 0; or the first of 1, 2, 3, 12, 13 that applies. Stores no byte.
#[unsafe(no_mangle)]
pub extern "C" fn shelf_new_log(shelf: Shelf, array: &[u8], log: &[u8], list: &[u8]) -> Answer
    ensures { Answered (lent shelf array.now log.now list.now) new_log result.code
        (lent result.shelf array.now log.now list.now) }
{
    shelf::shelf_new_log(shelf, array, log, list)
}

// Goes to mode 2, makes the parities of the lowest stale stripe, drops its entries, and tells the stripe. Where none is stale it stores
// nothing, goes to mode 0 and tells s. Answers 0; or the first of 1, 2, 3, 7, 8 that applies, and then stores nothing and tells s.
#[unsafe(no_mangle)]
pub extern "C" fn shelf_resync(
    shelf: Shelf,
    array: &mut [u8],
    log: &[u8],
    list: &mut [u8],
) -> Resynced
    ensures answered { Answered (lent shelf array.old log.now list.old) resync result.code
        (lent result.shelf array.new log.now list.new) }
    ensures stripe_value { result.stripe ≡ told_stripe (lent shelf array.old log.now list.old) result.code }
{
    shelf::shelf_resync(shelf, array, log, list)
}

// Fills every data block on a failed member with what a fetch gives and clears the array's flags. In the stripes with a parity on a
// failed member all parities are made afresh and the listed blocks are dropped; if no block is left listed, all log records are free
// and mode 2 ends. Mode 1 remains. Answers 0; or the first of 1, 2, 3, 12, 14 that applies, and then stores nothing.
#[unsafe(no_mangle)]
pub extern "C" fn shelf_rebuild(
    shelf: Shelf,
    array: &mut [u8],
    log: &[u8],
    list: &mut [u8],
) -> Answer
    ensures { Answered (lent shelf array.old log.now list.old) rebuild result.code
        (lent result.shelf array.new log.now list.new) }
{
    shelf::shelf_rebuild(shelf, array, log, list)
}

// Makes the parities of every stripe, empties the list and goes to mode 0. Answers 0; or the first of 1, 2, 8 that applies, and then stores
// nothing.
#[unsafe(no_mangle)]
pub extern "C" fn shelf_full_resync(
    shelf: Shelf,
    array: &mut [u8],
    log: &[u8],
    list: &mut [u8],
) -> Answer
    ensures { Answered (lent shelf array.old log.now list.old) full_resync result.code
        (lent result.shelf array.new log.now list.new) }
{
    shelf::shelf_full_resync(shelf, array, log, list)
}
