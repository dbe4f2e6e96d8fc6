// A rebuild: every data block on a failed member is filled with what a fetch gives, stripe after stripe, and parity is made afresh in the
// stripes that had a parity on a failed member.
ghost use Rattle.std.specs.Prelude.{true, ◌≡◌, ◌<◌};
ghost use Rattle.stripe.specs.Blocks.{block};
ghost use Rattle.shelf.specs.below.Lists.{Measures, Lists};
ghost use Rattle.shelf.specs.below.Records.{Sized, failed_role};
ghost use Rattle.shelf.specs.Words.{words};
ghost use Rattle.shelf.specs.Lent.{lent};
ghost use Rattle.shelf.specs.below.Rewriting.{Rewritten};
ghost use Rattle.shelf.specs.below.Reading.{lost_block};
ghost use Rattle.shelf.specs.below.Viewing.{seen};
ghost use Rattle.shelf.specs.below.Rebuilding.{Rebuildable, Lost, FilledBelow, filled_at, filled_to, stripe_rebuilt, rebuilt_to, rebuilt_record, kept_entries};

use super::sources::{self, Sources};
use super::{alter, fetch, record};

// Rebuilds every stripe of the array, in rising order. One working block and one table of products serve them all.
#[tactic(auto, using(crate::proofs::calls::RefillLaws::rebuilt_start, crate::proofs::calls::RefillLaws::rebuilt_more))]
pub fn rebuild_array(shelf: record::Shelf, array: &mut [u8], log: &[u8], list: &[u8])
    requires { Rebuildable (lent shelf array.old log.now list.now) }
    ensures { array.new ≡ rebuilt_to (lent shelf array.old log.now list.now) shelf.geometry.s }
{
    let mut scratch = fetch::Scratch::new();
    let mut from = Sources::default();
    for x in 0..shelf.geometry.s {
        rebuild_stripe(shelf, x, array, log, list, &mut from, &mut scratch);
    }
}

// Rebuilds stripe x: fills its data blocks, then makes the parities of them where one of these was on a failed member. Its sources are
// looked up in from.
fn rebuild_stripe(
    shelf: record::Shelf,
    x: usize,
    array: &mut [u8],
    log: &[u8],
    list: &[u8],
    from: &mut Sources,
    scratch: &mut fetch::Scratch,
)
    requires rebuildable { Rebuildable (lent shelf array.old log.now list.now) }
    requires x_lt_s { x < shelf.geometry.s }
    ensures { array.new ≡ stripe_rebuilt (lent shelf array.old log.now list.now) x }
{
    let g = shelf.geometry;
    let lost = shelf.failed_roles(x);
    from.look_up(shelf, list, x, &lost);
    let view = fetch::View {
        shelf,
        log,
        list,
        x,
        lost,
        from,
    };
    fill_stripe(&view, array, scratch);
    if shelf.parity_failed(x) {
        stripe::parity::make_parity(array, g.roles(), g.s, x, g.b);
    }
}

// Fills the data blocks of the stripe that are on failed members, in rising data index.
#[tactic(auto, using(crate::proofs::calls::ViewLaws::fills))]
fn fill_stripe(view: &fetch::View, array: &mut [u8], scratch: &mut fetch::Scratch)
    requires { Rebuildable (seen view.now array.old) }
    ensures { array.new ≡ filled_to (seen view.now array.old) view.now.x view.now.shelf.geometry.d }
{
    for i in 0..view.shelf.geometry.d {
        if view.lost[i] {
            fill_block(view, i, array, scratch);
        }
    }
}

// Fills the block with data index i, which is on a failed member, from the log or by parity. Those below it are filled. The array is both
// read and written, so that a fetch's put_block, which has a buffer of its own to fill, does not serve here.
#[tactic(auto, using(crate::proofs::calls::GivenLaws::place_room, crate::proofs::calls::ViewLaws::record_room))]
fn fill_block(view: &fetch::View, i: usize, array: &mut [u8], scratch: &mut fetch::Scratch)
    requires rebuildable { Rebuildable (seen view.now array.old) }
    requires i_lt_d { i < view.now.shelf.geometry.d }
    requires filled_below { FilledBelow (seen view.now array.old) view.now.x i }
    requires failed { failed_role view.now.shelf view.now.x i ≡ true }
    ensures { array.new ≡ filled_at (seen view.now array.old) view.now.x i }
{
    let g = view.shelf.geometry;
    let k = g.roles().block_number(g.s, view.x, i);
    if let Some(r) = view.from.latest[i] {
        stripe::blocks::copy_block(view.log, r as usize, array, k, g.b);
        return;
    }
    refill_block(view, i, array, scratch);
    stripe::blocks::copy_block(&scratch.work, 0, array, k, g.b);
}

// Works back the block with data index i in scratch. Where the other missing block is one of those below it, which are filled, it is taken
// as it stands there: i stands for both, and P alone gives block i.
fn refill_block(view: &fetch::View, i: usize, array: &[u8], scratch: &mut fetch::Scratch)
    requires rebuildable { Rebuildable (seen view.now array.now) }
    requires i_lt_d { i < view.now.shelf.geometry.d }
    requires filled_below { FilledBelow (seen view.now array.now) view.now.x i }
    requires lost { Lost view.now.shelf view.now.list.now view.now.x i }
    ensures { block view.now.shelf.geometry.b 0 scratch.new.work ≡
        lost_block (seen view.now array.now) view.now.x i }
{
    let y = sources::other_missing(view.shelf.geometry, view.from.missing, i);
    view.solve_originals(i, y.max(i), array, scratch);
}

// The record after a rebuild, and the list: the array's flags clear, and the entries of the stripes with a parity on a failed member
// are dropped.
pub fn settle(shelf: record::Shelf, list: &mut [u8]) -> record::Shelf
    requires sized { Sized shelf.geometry }
    requires measures { Measures shelf.geometry list.old }
    requires lists { Lists (words list.old) shelf.geometry shelf.listed }
    ensures rewritten { Rewritten shelf.geometry (kept_entries shelf list.old) list.new result.listed }
    ensures value { result ≡ rebuilt_record shelf result.listed }
{
    let n = alter::drop_lost(list, shelf);
    let cleared = shelf.clear_array();
    cleared.drop_to(n)
}
