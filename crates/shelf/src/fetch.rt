// Blocks as a fetch gives them: those of sound disks as a read does, those of failed ones from the log, or worked back by parity from the
// originals of their stripe. Array, log and list go one by one, as C lends them.
ghost use Rattle.std.specs.Prelude.{◌≡◌, ◌+◌, ◌*◌, ◌≤◌, ◌<◌, length};
ghost use Rattle.stripe.specs.Blocks.{block, put};
ghost use Rattle.stripe.specs.Parity.{Recoverable};
ghost use Rattle.stripe.specs.Sound.{AreBytes};
ghost use Rattle.shelf.specs.Members.{array_members};
ghost use Rattle.shelf.specs.below.Tables.{Tests};
ghost use Rattle.shelf.specs.below.Records.{failed_role};
ghost use Rattle.shelf.specs.Lent.{lent, array_length, log_length, state_of, fetch_buffer};
ghost use Rattle.shelf.specs.below.Reading.{Ready, ListReady, SourcesOf, solved_block, lost_block, served_block, served_to};

use super::sources::{self, Sources};
use super::{read, record};
use stripe::solve::{Originals, Products};

// A stripe to be read, of what is lent: its number x, which of its roles are on failed members, and where its blocks are to be had. The
// array is lent beside it, since a rebuild writes to it. It is made by a literal where it is used: a constructor would copy the sources,
// which costs a rebuild of blocks of 512 bytes up to 10 % more time.
#[derive(Clone, Copy)]
pub struct View<'a> {
    pub shelf: record::Shelf,
    pub log: &'a [u8],
    pub list: &'a [u8],
    pub x: usize,
    pub lost: [bool; 18],
    pub from: &'a Sources,
    pub ghost list_ready: { ListReady shelf list.now },
    pub ghost log_len: { length log.now ≡ log_length shelf.geometry },
    pub ghost log_bytes: { AreBytes log.now },
    pub ghost x_lt_s: { x < shelf.geometry.s },
    pub ghost lost_told: { Tests (array_members shelf.geometry) (failed_role shelf x) lost },
    pub ghost sources_told: { SourcesOf shelf list.now x from.now },
}

// Room to work blocks back in, one after another: the block, and a table of products, which may be that of any pair of missing blocks.
#[derive(Drop)]
pub struct Scratch {
    pub work: [u8; 4096],
    pub products: Products,
}

impl Scratch {
    // Room that no block was worked back in yet.
    pub fn new() -> Scratch
        ensures { result.products ≡ 0 }
    {
        Scratch {
            work: [0u8; 4096],
            products: Products::new(),
        }
    }
}

// Puts the n blocks from address a on in out, one after another.
pub fn fetch_blocks(
    shelf: record::Shelf,
    a: usize,
    n: usize,
    out: &mut [u8],
    array: &[u8],
    log: &[u8],
    list: &[u8],
)
    requires ready { Ready (lent shelf array.now log.now list.now) }
    requires n_bound { a + n ≤ shelf.geometry.d * shelf.geometry.s }
    requires out_len { length out.old ≡ n * shelf.geometry.b }
    ensures { out.new ≡ fetch_buffer shelf.geometry (state_of (lent shelf array.now log.now list.now)) a n }
{
    if !shelf.array_failed() {
        read::read_blocks(shelf.geometry, a, n, out, array);
        return;
    }
    let d = shelf.geometry.d;
    let mut scratch = Scratch::new();
    let mut from = Sources::default();
    let mut j: usize = 0;
    // Each turn takes what is asked of one stripe, which at the first and the last may be less than d blocks.
    while j < n {
        let spot = read::Spot::of(a + j, d);
        let m = (d - spot.i).min(n - j);
        let lost = shelf.failed_roles(spot.x);
        from.look_up(shelf, list, spot.x, &lost);
        let view = View {
            shelf,
            log,
            list,
            x: spot.x,
            lost,
            from: &from,
        };
        view.put_blocks(spot.i, m, array, out, j, &mut scratch);
        j += m;
    }
}

impl<'a> View<'a> {
    ghost use Rattle.shelf.specs.below.Viewing.{seen};

    // Puts m blocks, from data index i on, in out, from its block j on.
    #[tactic(auto, using(crate::proofs::calls::GivenLaws::served_start, crate::proofs::calls::GivenLaws::served_more))]
    fn put_blocks(
        &self,
        i: usize,
        m: usize,
        array: &[u8],
        out: &mut [u8],
        j: usize,
        scratch: &mut Scratch,
    )
        requires array_len { length array.now ≡ array_length self.now.shelf.geometry }
        requires m_within_stripe { i + m ≤ self.now.shelf.geometry.d }
        requires m_bound { j + m ≤ 1048576 }
        requires b_in_bounds { (j + m) * self.now.shelf.geometry.b ≤ length out.old }
        ensures { out.new ≡ served_to (seen self.now array.now) self.now.x i j m out.old }
    {
        for k in 0..m {
            self.put_block(i + k, array, out, j + k, scratch);
        }
    }

    // Puts the block with data index i in out, as its block j.
    #[tactic(auto, using(crate::proofs::calls::ViewLaws::blocks_seen))]
    fn put_block(&self, i: usize, array: &[u8], out: &mut [u8], j: usize, scratch: &mut Scratch)
        requires array_len { length array.now ≡ array_length self.now.shelf.geometry }
        requires i_lt_d { i < self.now.shelf.geometry.d }
        requires b_in_bounds { j * self.now.shelf.geometry.b + self.now.shelf.geometry.b ≤ length out.old }
        ensures { out.new ≡ put self.now.shelf.geometry.b j
            (served_block (seen self.now array.now) self.now.x i) out.old }
    {
        let g = self.shelf.geometry;
        if !self.lost[i] {
            read::put_stored(g, self.x, i, out, j, array);
            return;
        }
        if let Some(r) = self.from.latest[i] {
            stripe::blocks::copy_block(self.log, r as usize, out, j, g.b);
            return;
        }
        self.recover_block(i, array, scratch);
        stripe::blocks::copy_block(&scratch.work, 0, out, j, g.b);
    }

    // Works back the block with data index i in scratch.
    #[tactic(auto, using(crate::proofs::calls::ViewLaws::works_back))]
    fn recover_block(&self, i: usize, array: &[u8], scratch: &mut Scratch)
        requires array_len { length array.now ≡ array_length self.now.shelf.geometry }
        requires i_lt_d { i < self.now.shelf.geometry.d }
        ensures { block self.now.shelf.geometry.b 0 scratch.new.work ≡
            lost_block (seen self.now array.now) self.now.x i }
    {
        let y = sources::other_missing(self.shelf.geometry, self.from.missing, i);
        self.solve_originals(i, y, array, scratch);
    }

    // Solves the block with data index i in scratch, from the stripe's originals, where role y is missing too or is i itself.
    pub fn solve_originals(&self, i: usize, y: usize, array: &[u8], scratch: &mut Scratch)
        requires array_len { length array.now ≡ array_length self.now.shelf.geometry }
        requires i_lt_d { i < self.now.shelf.geometry.d }
        requires recoverable { Recoverable self.now.shelf.geometry.parities i y }
        ensures { block self.now.shelf.geometry.b 0 scratch.new.work ≡
            solved_block (seen self.now array.now) self.now.x i y }
    {
        let products = &mut scratch.products;
        let work = &mut scratch.work;
        self.solve_in(i, y, array, work, products);
    }

    // Does so in the first b bytes of work. Both fields of a scratch go into one call here, as names of their own: lent in the call, as
    // `&mut scratch.work[..g.b]` beside `&mut scratch.products`, they get no proof.
    fn solve_in(&self, i: usize, y: usize, array: &[u8], work: &mut [u8], products: &mut Products)
        requires array_len { length array.now ≡ array_length self.now.shelf.geometry }
        requires i_lt_d { i < self.now.shelf.geometry.d }
        requires recoverable { Recoverable self.now.shelf.geometry.parities i y }
        requires b_in_bounds { self.now.shelf.geometry.b ≤ length work.old }
        ensures { block self.now.shelf.geometry.b 0 work.new ≡ solved_block (seen self.now array.now) self.now.x i y }
    {
        let g = self.shelf.geometry;
        let originals = Originals {
            array,
            log: self.log,
            numbers: &self.from.originals,
            d: g.d,
            b: g.b,
        };
        originals.solve(&mut work[..g.b], products, i, y);
    }
}
