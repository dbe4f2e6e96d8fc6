// Missing blocks of a stripe, recovered in the stripe's own buffer, of data and parities.
//
// One working block of 4,096 zero bytes gathers the sum of a block before it is copied out. In the
// functions below, work is its first b bytes.
ghost use Rattle.std.specs.Prelude.{◌≡◌, ◌≢◌, ◌||◌, eqb, ◌+◌, ◌*◌, ◌≤◌, ◌<◌, length};
ghost use Rattle.stripe.specs.Parity.{Recoverable, recovered};
ghost use Rattle.stripe.specs.Places.{in_order};
ghost use Rattle.stripe.specs.below.Tables.{Whole, Tabled};
ghost use Rattle.stripe.specs.Calls.{each_column};

use super::solve::{Originals, Products};
use super::{blocks, parity, places};

// Recovers the members x and y of the stripe: the data first, then the parities among them, of the
// data.
pub fn recover(stripe: &mut [u8], d: usize, parities: usize, b: usize, x: usize, y: usize)
    requires whole { Whole d parities b (length stripe.old) }
    requires x_bound { x < d + parities }
    requires y_bound { y < d + parities }
    requires recoverable { Recoverable parities x y }
    ensures { stripe.new ≡ each_column (recovered d x y) (d + parities) b stripe.old }
{
    let shape = Shape {
        d,
        parities,
        b,
        numbers: places::own_numbers(d, parities),
    };
    let mut work = [0u8; 4096];
    let work = &mut work[..b];
    shape.recover_data(stripe, work, x, y);
    shape.recover_parity(stripe, work, x, y);
}

// What a stripe in a buffer of its own consists of: d data blocks and its parities, of b bytes each,
// and the block numbers of their roles. Stripe and working block come beside it: the one is lent while
// the other is stored in.
#[derive(Clone, Copy)]
struct Shape {
    d: usize,
    parities: usize,
    b: usize,
    numbers: [usize; 18],
    ghost measures: { Whole d parities b ((d + parities) * b) },
    ghost table: { Tabled (d + parities) in_order numbers },
}

impl Shape {
    ghost use Rattle.stripe.specs.Blocks.{put};
    ghost use Rattle.stripe.specs.Parity.{parity_p, parity_q, rest_p, solved};
    ghost use Rattle.stripe.specs.below.Steps.{sum_of, data_step, of_sum, parity_step};
    ghost use Rattle.stripe.specs.below.Recovery.{OwnOriginals, Workable, changed_in, replaced_in};

    // Recovers x and y where they are data.
    fn recover_data(&self, stripe: &mut [u8], work: &mut [u8], x: usize, y: usize)
        requires workable { Workable self.now stripe.old work.old }
        requires recoverable { Recoverable self.now.parities x y }
        ensures { stripe.new ≡ changed_in self.now (data_step self.now.d x y) stripe.old }
    {
        if x != y && x < self.d && y < self.d {
            self.recover_two(stripe, work, x, y);
        } else if x < self.d {
            self.recover_one(stripe, work, x, y);
        } else if y < self.d {
            self.recover_one(stripe, work, y, x);
        }
    }

    // Makes P and Q of the data, each where x or y is it.
    fn recover_parity(&self, stripe: &mut [u8], work: &mut [u8], x: usize, y: usize)
        requires workable { Workable self.now stripe.old work.old }
        requires x_bound { x < self.now.d + self.now.parities }
        requires y_bound { y < self.now.d + self.now.parities }
        ensures { stripe.new ≡ changed_in self.now (parity_step self.now.d x y) stripe.old }
    {
        match (names(x, y, self.d), names(x, y, self.d + 1)) {
            (true, true) => parity::make_own_parity(stripe, self.d, self.parities, self.b),
            (true, false) => self.make_p(stripe, work),
            (false, true) => self.make_q(stripe, work),
            (false, false) => {}
        }
    }

    // Recovers data x, where y is missing too or is x itself.
    fn recover_one(&self, stripe: &mut [u8], work: &mut [u8], x: usize, y: usize)
        requires workable { Workable self.now stripe.old work.old }
        requires x_lt_d { x < self.now.d }
        requires recoverable { Recoverable self.now.parities x y }
        ensures { stripe.new ≡ replaced_in self.now x (solved self.now.d x y) stripe.old }
    {
        let mut products = Products::new();
        self.originals(stripe).solve(work, &mut products, x, y);
        self.put(stripe, work, x);
    }

    // Recovers the data blocks x and y, which are different: the sum of both, P with the data that is
    // there, is put in y's place and taken apart.
    fn recover_two(&self, stripe: &mut [u8], work: &mut [u8], x: usize, y: usize)
        requires workable { Workable self.now stripe.old work.old }
        requires x_lt_d { x < self.now.d }
        requires y_lt_d { y < self.now.d }
        requires different { x ≢ y }
        requires le_parities { 2 ≤ self.now.parities }
        ensures { stripe.new ≡ changed_in self.now (data_step self.now.d x y) stripe.old }
    {
        self.originals(stripe).gather_rest(work, x, y);
        self.put(stripe, work, y);
        self.split_sum(stripe, work, x, y);
    }

    // Recovers data x and y, where y's place has their sum.
    fn split_sum(&self, stripe: &mut [u8], work: &mut [u8], x: usize, y: usize)
        requires workable { Workable self.now stripe.old work.old }
        requires x_lt_d { x < self.now.d }
        requires y_lt_d { y < self.now.d }
        requires le_parities { 2 ≤ self.now.parities }
        ensures { stripe.new ≡ replaced_in self.now y (sum_of x y) (replaced_in self.now x (of_sum self.now.d x y) stripe.old) }
    {
        let mut products = Products::new();
        self.originals(stripe)
            .solve_of_sum(work, &mut products, x, y);
        self.put(stripe, work, x);
        self.originals(stripe).add_block(work, y);
        self.put(stripe, work, y);
    }

    // Makes P of the data: their plain sum, as Q is their sum by weights.
    fn make_p(&self, stripe: &mut [u8], work: &mut [u8])
        requires { Workable self.now stripe.old work.old }
        ensures { stripe.new ≡ replaced_in self.now self.now.d (parity_p self.now.d) stripe.old }
    {
        work.fill(0);
        self.originals(stripe).add_data(work, self.d, self.d);
        self.put(stripe, work, self.d);
    }

    // Makes Q of the data.
    fn make_q(&self, stripe: &mut [u8], work: &mut [u8])
        requires workable { Workable self.now stripe.old work.old }
        requires le_parities { 2 ≤ self.now.parities }
        ensures { stripe.new ≡ replaced_in self.now (self.now.d + 1) (parity_q self.now.d) stripe.old }
    {
        self.originals(stripe).gather_weighted(work, self.d, self.d);
        self.put(stripe, work, self.d + 1);
    }

    // Copies work to the block of member m.
    fn put(&self, stripe: &mut [u8], work: &[u8], m: usize)
        requires workable { Workable self.now stripe.old work.now }
        requires m_bound { m < self.now.d + self.now.parities }
        ensures { stripe.new ≡ put self.now.b m work.now stripe.old }
    {
        blocks::copy_block(work, 0, stripe, m, self.b);
    }

    // The stripe as originals that are all in one buffer.
    fn originals<'a>(&'a self, stripe: &'a [u8]) -> Originals<'a>
        requires { length stripe.now ≡ (self.now.d + self.now.parities) * self.now.b }
        ensures { OwnOriginals self.now stripe.now result }
    {
        Originals {
            array: stripe,
            log: &[],
            numbers: &self.numbers,
            d: self.d,
            b: self.b,
        }
    }
}

// Whether x or y is member m.
fn names(x: usize, y: usize, m: usize) -> bool
    ensures { result ≡ (eqb x m || eqb y m) }
{
    x == m || y == m
}
