// The record of a shelf: its geometry, its mode, how far the log and the list are used, and which members have failed. A call takes
// it by value and hands the new one back; the methods here make the new one.
ghost use Rattle.std.specs.Prelude.{◌≡◌, ◌≤◌, ◌<◌};
ghost use Rattle.shelf.specs.Counting.{count, any};
ghost use Rattle.shelf.specs.below.Tables.{Tests};
ghost use Rattle.shelf.specs.below.Records.{Sized, failed_role, with_mode, with_failed, with_renewed, with_listed, with_logged, with_cleared};
ghost use Rattle.shelf.specs.Members.{array_members, log_member, all_members};
ghost use Rattle.shelf.specs.Status.{array_failed, log_failed};
ghost use Rattle.shelf.specs.Calls.{parity_failed};
ghost use Rattle.shelf.specs.Lent.{flag_at, flag_from, fresh_record};

use stripe::places::Layout;

// The measures of a shelf, by the customer's letters: d data blocks a stripe (2 to 16), s stripes (1 to 65,536), blocks of b bytes
// (1 to 4,096), a log of l records (1 to 65,536), a list of h hash slots (1 to 256) and e places (1 to 4,096); the layout (0
// fixed, 1 rotating); and the number of parities (1 or 2). C gives any numbers, so that they are in range is a clause of those who use
// them (`InRange`, `Sized`) and no invariant.
#[repr(C)]
#[derive(Clone, Copy)]
pub struct Geometry {
    pub d: usize,
    pub s: usize,
    pub b: usize,
    pub l: usize,
    pub h: usize,
    pub e: usize,
    pub layout: usize,
    pub parities: usize,
}

// The record: the mode (0 normal, 1 accelerating, 2 transitional), the next free log record, the count of listed blocks, and one
// failure flag a member. Mode and layout are the numbers of `include/shelf.h`, which any caller may set to anything.
#[repr(C)]
#[derive(Clone, Copy)]
pub struct Shelf {
    pub geometry: Geometry,
    pub mode: usize,
    pub next: usize,
    pub listed: usize,
    pub failed: [bool; 19],
}

impl Geometry {
    // How many members the array has: one for each role of a stripe, data and parities.
    pub fn array_members(self) -> usize
        requires { Sized self }
        ensures { result ≡ array_members self }
    {
        self.d + self.parities
    }

    // Which member has which role in each stripe.
    pub fn roles(self) -> Layout
        requires { Sized self }
        ensures number_value { result.number ≡ self.layout }
        ensures d_value { result.d ≡ self.d }
        ensures parities_value { result.parities ≡ self.parities }
    {
        Layout {
            number: self.layout,
            d: self.d as u32,
            parities: self.parities as u32,
        }
    }

    // The log's number among the members: it comes after the array's.
    pub fn log_member(self) -> usize
        requires { Sized self }
        ensures { result ≡ log_member self }
    {
        self.array_members()
    }

    // How many members there are in all, the log included.
    pub fn all_members(self) -> usize
        requires { Sized self }
        ensures { result ≡ all_members self }
    {
        self.array_members() + 1
    }
}

// The methods that look at flags copy those first: a look into `self.failed` copies the whole record, and each call of the shelf takes
// 3 to 7 ns more.
impl Shelf {
    // The record of a fresh shelf.
    pub fn fresh(g: Geometry) -> Shelf
        ensures { result ≡ fresh_record g }
    {
        Shelf {
            geometry: g,
            mode: 0,
            next: 0,
            listed: 0,
            failed: [false; 19],
        }
    }

    // How many of the first n members have failed.
    pub fn count_failed(self, n: usize) -> usize
        requires { n ≤ 19 }
        ensures { result ≡ count n (flag_at self) }
    {
        let flags = self.failed;
        flags[..n].iter().map(|flag| usize::from(*flag)).sum()
    }

    // Whether one of the members from low on, below high, has failed.
    pub fn any_failed(self, low: usize, high: usize) -> bool
        requires low_le_high { low ≤ high }
        requires high_bound { high ≤ 19 }
        ensures { result ≡ any high (flag_from self.failed low) }
    {
        let flags = self.failed;
        // `any`, which leaves at the first, makes each call of the shelf 2 to 10 ns slower.
        flags[low..high]
            .iter()
            .fold(false, |found, flag| found | *flag)
    }

    // Whether member j has failed.
    pub fn has_failed(self, j: usize) -> bool
        requires { j < 19 }
        ensures { result ≡ flag_at self j }
    {
        let flags = self.failed;
        flags[j]
    }

    // Whether a member of the array has failed.
    pub fn array_failed(self) -> bool
        requires { Sized self.geometry }
        ensures { result ≡ array_failed self.geometry (flag_at self) }
    {
        self.any_failed(0, self.geometry.array_members())
    }

    // Whether the log has failed.
    pub fn log_failed(self) -> bool
        requires { Sized self.geometry }
        ensures { result ≡ log_failed self.geometry (flag_at self) }
    {
        self.has_failed(self.geometry.log_member())
    }

    // Whether the member that has role i in stripe x has failed.
    pub fn role_failed(self, x: usize, i: usize) -> bool
        requires sized { Sized self.geometry }
        requires i_bound { i < array_members self.geometry }
        ensures { result ≡ failed_role self x i }
    {
        self.has_failed(self.geometry.roles().member(x, i))
    }

    // Whether a parity of stripe x is on a failed member.
    pub fn parity_failed(self, x: usize) -> bool
        requires { Sized self.geometry }
        ensures { result ≡ parity_failed self.geometry (flag_at self) x }
    {
        let g = self.geometry;
        self.role_failed(x, g.d) || g.parities == 2 && self.role_failed(x, g.d + 1)
    }

    // Which roles of stripe x are on failed members, a test for each.
    pub fn failed_roles(self, x: usize) -> [bool; 18]
        requires { Sized self.geometry }
        ensures { Tests (array_members self.geometry) (failed_role self x) result }
    {
        let mut lost = [false; 18];
        for i in 0..self.geometry.array_members() {
            lost[i] = self.role_failed(x, i);
        }
        lost
    }

    // The record in another mode.
    pub fn in_mode(mut self, mode: usize) -> Shelf
        ensures { result ≡ with_mode self mode }
    {
        self.mode = mode;
        self
    }

    // The record of a started shelf: in mode 1.
    pub fn start(self) -> Shelf
        ensures { result ≡ with_mode self 1 }
    {
        self.in_mode(1)
    }

    // The record after member j failed. If it is the log, mode 1 becomes 2 when blocks are listed, else 0.
    pub fn fail(mut self, j: usize) -> Shelf
        requires sized { Sized self.geometry }
        requires j_bound { j < 19 }
        ensures { result ≡ with_failed self j }
    {
        self.failed[j] = true;
        if self.mode == 1 && j == self.geometry.log_member() {
            self.mode = if self.listed == 0 { 0 } else { 2 };
        }
        self
    }

    // The record with member j's flag cleared.
    pub fn renew(mut self, j: usize) -> Shelf
        requires { j < 19 }
        ensures { result ≡ with_renewed self j }
    {
        self.failed[j] = false;
        self
    }

    // The record with the flags of the array's members cleared.
    pub fn clear_array(mut self) -> Shelf
        requires { Sized self.geometry }
        ensures { result ≡ with_cleared self }
    {
        let members = self.geometry.array_members();
        // Of a slice of the field itself the proof lacks what `fill` leaves.
        let mut failed = self.failed;
        failed[..members].fill(false);
        self.failed = failed;
        self
    }

    // The record after entries were dropped and n are left. Where none is, all log records are free again and mode 2 ends.
    pub fn drop_to(mut self, n: usize) -> Shelf
        ensures { result ≡ with_listed self n }
    {
        self.listed = n;
        if n == 0 {
            self.next = 0;
            if self.mode == 2 {
                self.mode = 0;
            }
        }
        self
    }

    // The record after a stripe was logged: its next free log record, and n blocks listed.
    pub fn logged_to(mut self, next: usize, n: usize) -> Shelf
        ensures { result ≡ with_logged self next n }
    {
        self.next = next;
        self.listed = n;
        self
    }
}
