// Where the blocks of a stripe are to be had: worked out once for a stripe, from its entries in the list and the roles that are on failed
// members.
ghost use Rattle.std.specs.Prelude.{◌≡◌, ◌<◌};
ghost use Rattle.stripe.specs.below.Tables.{Tabled};
ghost use Rattle.shelf.specs.below.Tables.{Tests, tested};
ghost use Rattle.shelf.specs.below.Records.{Sized, failed_role};
ghost use Rattle.shelf.specs.Members.{array_members, place_at, other_missing};
ghost use Rattle.shelf.specs.below.Reading.{ListReady, SourcesOf};

use super::{entries, record};

// Of each data block the log record that has its latest value, if one has; of each role the block number of its original, over the array with
// the log behind it, and whether the original is missing. A missing one has its number too: what is solved takes the numbers of all roles.
// The tables have room for every stripe, since nothing is on a heap.
#[derive(Clone, Copy, Default)]
pub struct Sources {
    pub latest: [Option<u32>; 16],
    pub originals: [usize; 18],
    pub missing: [bool; 18],
}

impl Sources {
    // Makes them the sources of stripe x, whose roles on failed members lost tells. Where nothing is listed they are the array's. They are
    // filled in place, whatever they were: handed back by value they are copied three times, and a fetch of small blocks beside a failed
    // member takes 1.2 to 1.7 times as long.
    pub fn look_up(&mut self, shelf: record::Shelf, list: &[u8], x: usize, lost: &[bool; 18])
        requires list_ready { ListReady shelf list.now }
        requires x_lt_s { x < shelf.geometry.s }
        requires tests { Tests (array_members shelf.geometry) (failed_role shelf x) lost.now }
        ensures { SourcesOf shelf list.now x self.new }
    {
        let g = shelf.geometry;
        self.latest = [None; 16];
        self.originals = g.roles().block_numbers(g.s, x);
        self.missing = *lost;
        if shelf.listed > 0 {
            self.take_entries(shelf, list, x);
        }
    }

    // Makes the array's own sources of stripe x those that its entries tell.
    fn take_entries(&mut self, shelf: record::Shelf, list: &[u8], x: usize)
        requires list_ready { ListReady shelf list.now }
        requires x_lt_s { x < shelf.geometry.s }
        requires tabled { Tabled (array_members shelf.geometry) (place_at shelf.geometry x) self.old.originals }
        requires tests { Tests (array_members shelf.geometry) (failed_role shelf x) self.old.missing }
        ensures { SourcesOf shelf list.now x self.new }
    {
        let g = shelf.geometry;
        let log = g.array_members() * g.s;
        let entries = entries::entries_of(shelf, list, x);
        for i in 0..g.d {
            let records = entries[i];
            self.latest[i] = records.latest();
            self.originals[i] = records.original(log, self.originals[i]);
            self.missing[i] = records.is_missing(self.missing[i]);
        }
    }
}

// The lowest missing role beside i, or i where no other is missing or there is one parity.
// `solve` of `stripe::solve::Originals` and the definition `other_missing` have i itself for no other role.
pub fn other_missing(g: record::Geometry, missing: [bool; 18], i: usize) -> usize
    requires { Sized g }
    ensures { result ≡ other_missing g (tested missing) i }
{
    if g.parities == 1 {
        return i;
    }
    for n in 0..g.array_members() {
        if n != i && missing[n] {
            return n;
        }
    }
    i
}
