// P of a stripe, and Q where it has two parities, made where its blocks stand in an array.
//
// A stripe is taken 64 columns at a time, so that their sums are small while the data blocks are
// added to them, from the last to the first: Q by Horner's rule, which takes a doubling a block and
// no product. K is the number of parities: the compiler makes the functions once for each, so that
// those for P alone add to no other sum. The table of offsets and d are no struct: it
// would take the place of one parameter more than it brings, beside the columns of each function.
ghost use Rattle.std.specs.Prelude.{◌≡◌, List, ℕ, ◌+◌, ◌*◌, ◌≤◌, ◌<◌, length};
ghost use Rattle.stripe.specs.Places.{in_order, place, numbered, parity_made, parity_made_all};
ghost use Rattle.stripe.specs.below.Tables.{Placed, Whole, Measures, Roles};
ghost use Rattle.stripe.specs.below.Steps.{Starts, taken, plus, twice_plus, PutRow, Spans, Disjoint, SumsAt, Partly};

use super::places::{self, Layout};

// Makes the parities of every stripe of the array, of stripes stripes.
pub fn make_all_parity(array: &mut [u8], layout: Layout, stripes: usize, b: usize)
    requires le_d { 2 ≤ layout.d }
    requires stripes_bound { stripes ≤ 65536 }
    requires le_b { 1 ≤ b }
    requires b_bound { b ≤ 4096 }
    requires array_len { length array.old ≡ (layout.d + layout.parities) * stripes * b }
    ensures { array.new ≡ parity_made_all stripes (place layout.number layout.d layout.parities stripes) layout.d layout.parities b array.old }
{
    for x in 0..stripes {
        make_parity(array, layout, stripes, x, b);
    }
}

// Makes the parities of stripe x of the array, of stripes stripes.
pub fn make_parity(array: &mut [u8], layout: Layout, stripes: usize, x: usize, b: usize)
    requires { Measures layout.d layout.parities stripes x b (length array.old) }
    ensures { array.new ≡ parity_made (place layout.number layout.d layout.parities stripes x) layout.d layout.parities b array.old }
{
    if layout.parities == 1 {
        make_array::<1>(array, layout, stripes, x, b);
    } else {
        make_array::<2>(array, layout, stripes, x, b);
    }
}

// Makes the K parities of stripe x of the array. The layout is made again with K, a number that the
// compiler knows.
fn make_array<const K: usize>(array: &mut [u8], layout: Layout, stripes: usize, x: usize, b: usize)
    requires { Measures layout.d K stripes x b (length array.old) }
    ensures { array.new ≡ parity_made (place layout.number layout.d K stripes x) layout.d K b array.old }
{
    let layout = Layout {
        number: layout.number,
        d: layout.d,
        parities: K as u32,
    };
    let ns = layout.block_numbers(stripes, x);
    make_at::<K>(array, &ns, layout.d as usize, b);
}

// Makes the parities of a stripe in a buffer of its own.
pub fn make_own_parity(stripe: &mut [u8], d: usize, parities: usize, b: usize)
    requires { Whole d parities b (length stripe.old) }
    ensures { stripe.new ≡ parity_made in_order d parities b stripe.old }
{
    if parities == 1 {
        make_own::<1>(stripe, d, b);
    } else {
        make_own::<2>(stripe, d, b);
    }
}

// Makes the K parities of a stripe in a buffer of its own.
fn make_own<const K: usize>(stripe: &mut [u8], d: usize, b: usize)
    requires { Whole d K b (length stripe.old) }
    ensures { stripe.new ≡ parity_made in_order d K b stripe.old }
{
    let ns = places::own_numbers(d, K);
    make_at::<K>(stripe, &ns, d, b);
}

// Makes the K parities of the stripe whose blocks have the numbers of the table ns.
fn make_at<const K: usize>(array: &mut [u8], ns: &[usize], d: usize, b: usize)
    requires roles { Roles d K }
    requires le_b { 1 ≤ b }
    requires b_bound { b ≤ 4096 }
    requires placed { Placed (d + K) b (length array.old) ns.now }
    ensures { array.new ≡ parity_made (numbered ns.now) d K b array.old }
{
    let starts = places::block_starts(ns, d + K, b);
    make_columns::<K>(array, &starts, d, b);
}

// Makes the K parities of the stripe whose blocks start at the offsets of the table starts. The last
// chunk ends where they end, even if some of its columns are made already. That a chunk of all columns
// has less than 64 is not said where it is made: the compiler would sum it up by 8 bytes a step, and P
// and Q of blocks of 16 to 63 bytes would take up to 1.6 times as long.
fn make_columns<const K: usize>(array: &mut [u8], starts: &[usize], d: usize, b: usize)
    requires roles { Roles d K }
    requires b_bound { b ≤ 4096 }
    requires spans { Spans (d + K) b (length array.old) starts.now }
    requires disjoint { Disjoint (d + K) b starts.now }
    ensures { Partly starts.now d K b b array.old array.new }
{
    for chunk in 0..b / 64 {
        make_chunk::<K>(array, starts, d, 64 * chunk, 64);
    }
    if b % 64 != 0 {
        if b > 64 {
            make_chunk::<K>(array, starts, d, b - 64, 64);
        } else {
            make_chunk::<K>(array, starts, d, 0, b);
        }
    }
}

// Makes columns o to o + w - 1 of the K parities, where those before are made. In the promise b is
// the length of the blocks, which share no byte, and a₀ the array before the first columns.
fn make_chunk<const K: usize>(array: &mut [u8], starts: &[usize], d: usize, o: usize, w: usize)
    requires roles { Roles d K }
    requires w_bound { w ≤ 64 }
    requires spans { Spans (d + K) (o + w) (length array.old) starts.now }
    ensures { (b : ℕ) (a₀ : List ℕ) → o + w ≤ b → Disjoint (d + K) b starts.now → Partly starts.now d K b o a₀ array.old → Partly starts.now d K b (o + w) a₀ array.new }
{
    let mut p = [0; 64];
    let mut q = [0; 64];
    sum_columns::<K>(array, starts, &mut p[..w], &mut q[..w], d, o, w);
    put_row(array, starts[d] + o, &p[..w]);
    if K == 2 {
        put_row(array, starts[d + 1] + o, &q[..w]);
    }
}

// Sums up columns o to o + w - 1 of P in p and, where there is a Q, of Q in q.
fn sum_columns<const K: usize>(
    array: &[u8],
    starts: &[usize],
    p: &mut [u8],
    q: &mut [u8],
    d: usize,
    o: usize,
    w: usize,
)
    requires le_d { 1 ≤ d }
    requires p_len { length p.old ≡ w }
    requires q_len { length q.old ≡ w }
    requires spans { Spans d (o + w) (length array.now) starts.now }
    ensures { SumsAt starts.now d K array.now o w p.new q.new }
{
    let last = starts[d - 1] + o;
    p.copy_from_slice(&array[last..last + w]);
    q.copy_from_slice(&array[last..last + w]);
    for i in (0..d - 1).rev() {
        let at = starts[i] + o;
        next_row::<K>(&array[at..at + w], p, q);
    }
}

// Adds the row to p and, where there is a Q, to twice q: one index goes through the three rows.
fn next_row<const K: usize>(row: &[u8], p: &mut [u8], q: &mut [u8])
    requires p_len { length p.old ≡ length row.now }
    requires q_len { length q.old ≡ length row.now }
    ensures p_added { Starts (length row.now) p.new (plus (taken 0 row.now) p.old) }
    ensures q_added { K ≡ 2 → Starts (length row.now) q.new (twice_plus (taken 0 row.now) q.old) }
{
    for (j, v) in row.iter().enumerate() {
        p[j] ^= v;
        if K == 2 {
            q[j] = field::twice(q[j]) ^ v;
        }
    }
}

// Stores the row from at on.
fn put_row(array: &mut [u8], at: usize, row: &[u8])
    requires { at + length row.now ≤ length array.old }
    ensures { PutRow at (length row.now) row.now array.old array.new }
{
    array[at..at + row.len()].copy_from_slice(row);
}
