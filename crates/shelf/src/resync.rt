// A resynchronised stripe: its parity made, its entries dropped.
ghost use Rattle.std.specs.Prelude.{◌≡◌, ◌<◌, length};
ghost use Rattle.stripe.specs.Places.{parity_made};
ghost use Rattle.shelf.specs.Members.{InRange, place_at};
ghost use Rattle.shelf.specs.Lent.{array_length};
ghost use Rattle.shelf.specs.Words.{words};
ghost use Rattle.shelf.specs.below.Lists.{Measures, Lists};
ghost use Rattle.shelf.specs.HashList.{entries};
ghost use Rattle.shelf.specs.below.Rewriting.{Rewritten, drop_stripe};

use super::{alter, record};

// Makes the parities of stripe x of the data that stand in the array, and drops its entries from a list of n entries that passes
// number 3. Answers how many entries are left.
pub fn make_stripe(
    array: &mut [u8],
    list: &mut [u8],
    g: record::Geometry,
    x: usize,
    n: usize,
) -> usize
    requires in_range { InRange g }
    requires x_lt_s { x < g.s }
    requires array_len { length array.old ≡ array_length g }
    requires measures { Measures g list.old }
    requires lists { Lists (words list.old) g n }
    ensures array_after { array.new ≡ parity_made (place_at g x) g.d g.parities g.b array.old }
    ensures rewritten { Rewritten g (drop_stripe g.d x (entries (words list.old) g)) list.new result }
{
    stripe::parity::make_parity(array, g.roles(), g.s, x, g.b);
    alter::drop_stripe(list, g, x, n)
}
