// The entries of a stripe: what the list says of its d blocks, read from a list and put into one.
ghost use Rattle.std.specs.Prelude.{◌≡◌, ◌+◌, ◌*◌, ◌≤◌, ◌<◌, take};
ghost use Rattle.shelf.specs.Calls.{or_else};
ghost use Rattle.shelf.specs.Words.{words};
ghost use Rattle.shelf.specs.Lent.{record_at, word_of};
ghost use Rattle.shelf.specs.below.Entries.{records_of, EntriesOf, is_listed, listed_in, latest, is_missing};
ghost use Rattle.shelf.specs.below.Lists.{Measures, Lists, FirstFrom};
ghost use Rattle.shelf.specs.below.Reading.{ListReady};
ghost use Rattle.shelf.specs.below.Writing.{entry_with, packed, Relistable, Relisted};

use super::{alter, list, place, record, words};

// What the list says of a block: the log record of its original (Ori) and that of its latest value (Cur), each where it has one.
#[derive(Clone, Copy, PartialEq, Eq, Default)]
pub struct Records {
    pub ori: Option<u32>,
    pub cur: Option<u32>,
}

impl Records {
    // Whether the block is listed: it has one of the two.
    pub fn is_listed(self) -> bool
        ensures { result ≡ is_listed self }
    {
        self.ori.is_some() || self.cur.is_some()
    }

    // The log record of the block's latest value: Cur, else Ori, else none.
    pub fn latest(self) -> Option<u32>
        ensures { result ≡ latest self }
    {
        self.cur.or(self.ori)
    }

    // The block number of the block's original: that of Ori, in the log that begins at number log, else k, the array's.
    pub fn original(self, log: usize, k: usize) -> usize
        requires { log < 4294967296 }
        ensures { result ≡ or_else self.ori (λ r. log + r) k }
    {
        match self.ori {
            Some(r) => log + r as usize,
            None => k,
        }
    }

    // Whether the block's original is missing: a listed block's that lacks Ori, another's where it is lost, that is on a failed member.
    pub fn is_missing(self, lost: bool) -> bool
        ensures { result ≡ is_missing self lost }
    {
        self.ori.is_none() && (self.cur.is_some() || lost)
    }
}

// The entries of stripe x, by data index.
pub fn entries_of(shelf: record::Shelf, list: &[u8], x: usize) -> [Records; 16]
    requires list_ready { ListReady shelf list.now }
    requires x_lt_s { x < shelf.geometry.s }
    ensures { EntriesOf shelf.geometry list.now x result }
{
    let g = shelf.geometry;
    let p = list::first_from(list, g, shelf.listed, x * g.d);
    entries_from(list, g, shelf.listed, x, p)
}

// The entries of stripe x in a list of n entries that passes number 3, where p is the first place of the stripe or of one above it.
fn entries_from(list: &[u8], g: record::Geometry, n: usize, x: usize, p: usize) -> [Records; 16]
    requires measures { Measures g list.now }
    requires lists { Lists (words list.now) g n }
    requires x_lt_s { x < g.s }
    requires first_from { FirstFrom (words list.now) g.h n (x * g.d) p }
    ensures { EntriesOf g list.now x result }
{
    let mut entries = [Records::default(); 16];
    let mut q = p;
    for (i, entry) in entries[..g.d].iter_mut().enumerate() {
        (*entry, q) = said_from(list, g, n, x * g.d + i, q);
    }
    entries
}

// What a list of n entries that passes number 3 says of address a, where p is the first place whose address is a or above; and the first
// place behind it.
fn said_from(list: &[u8], g: record::Geometry, n: usize, a: usize, p: usize) -> (Records, usize)
    requires measures { Measures g list.now }
    requires lists { Lists (words list.now) g n }
    requires first_from { FirstFrom (words list.now) g.h n a p }
    ensures said { result.0 ≡ records_of (words list.now) g a }
    ensures behind { FirstFrom (words list.now) g.h n (a + 1) result.1 }
{
    let h = g.h;
    if p < n && place::address(list, h, p) as usize == a {
        let ori = record_at(place::ori(list, h, p));
        let cur = record_at(place::cur(list, h, p));
        return (Records { ori, cur }, p + 1);
    }
    (Records::default(), p)
}

// A word of the list as a log record.
#[tactic(auto, unfolding(crate::specs::Lent::record_at, crate::specs::Counting::choose))]
fn record_at(word: u32) -> Option<u32>
    ensures { result ≡ record_at word }
{
    (word != words::NONE).then_some(word)
}

// The word of the list for a log record, or for none.
fn word_of(r: Option<u32>) -> u32
    ensures { result ≡ word_of r }
{
    r.unwrap_or(words::NONE)
}

// Puts the entries in the place of stripe x's in a list of n entries that passes number 3. Answers how many entries the list then has.
pub fn relist(
    list: &mut [u8],
    g: record::Geometry,
    x: usize,
    entries: &[Records; 16],
    n: usize,
) -> usize
    requires { Relistable g x entries.now n list.old }
    ensures { Relisted g x entries.now list.old list.new result }
{
    let mut slice = [place::Entry::default(); 16];
    let c = pack_entries(entries, x * g.d, g.d, &mut slice);
    alter::replace_stripe(list, g, x, &slice[..c], n)
}

// Packs the entries of the listed ones among d blocks, whose addresses begin at base, in a slice. Answers how many they are: the table
// has room for every stripe, since nothing is on a heap.
fn pack_entries(
    entries: &[Records; 16],
    base: usize,
    d: usize,
    slice: &mut [place::Entry; 16],
) -> usize
    requires d_bound { d ≤ 16 }
    requires base_bound { base + 16 < 4294967296 }
    ensures few { result ≤ 16 }
    ensures packed { take result slice.new ≡ packed d base entries.now }
{
    let mut n: usize = 0;
    for (i, records) in entries[..d].iter().enumerate() {
        if records.is_listed() {
            slice[n] = entry_with(base + i, *records);
            n += 1;
        }
    }
    n
}

// The entry of address a that has these records.
fn entry_with(a: usize, records: Records) -> place::Entry
    requires { a < 4294967296 }
    ensures { result ≡ entry_with a records }
{
    place::Entry {
        address: a as u32,
        ori: word_of(records.ori),
        cur: word_of(records.cur),
    }
}
