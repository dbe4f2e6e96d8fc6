// The entries of a list, altered in their own places: taken out and put in, with the links of the others relabelled; or closed up, and
// then the chains are made anew.
ghost use Rattle.std.specs.Prelude.{true, ◌≡◌, ◌+◌, ◌*◌, ◌-◌, ◌≤◌, ◌<◌, ◌==◌, length, set, take};
ghost use Rattle.std.specs.List.{list_all, enumerate_from};
ghost use Rattle.shelf.specs.below.Records.{Sized};
ghost use Rattle.shelf.specs.Words.{words};
ghost use Rattle.shelf.specs.below.Lists.{Measures, Lists};
ghost use Rattle.shelf.specs.HashList.{address_at, entries, entry_in, put_front, encode};
ghost use Rattle.shelf.specs.below.Checking.{HasPlace};
ghost use Rattle.shelf.specs.below.Rebuilding.{parity_failed_at};
ghost use Rattle.shelf.specs.below.Rewriting.{drop_stripes, drop_stripe, nth, merged, Replaces, placed, KeptFrom, LinksKept, InPlace, NoneBehind, Filled, Gap, Put, MovedDown, MovedUp, GapMade, without};

use super::{links, list, place, record, words};

// Moves the places from q on, below n, down to place p, and lowers their Next words as far.
fn move_down(list: &mut [u8], h: usize, p: usize, q: usize, n: usize)
    requires p_le_q { p ≤ q }
    requires gap { Gap h q n (length list.old) }
    ensures { MovedDown h p (q - p) (n - (q - p)) (words list.old) (words list.new) }
{
    let k = q - p;
    for j in p..n - k {
        let x = place::entry_in(list, h, j + k);
        let y = links::down(place::next(list, h, j + k), k as u32);
        place::put(list, h, j, x, y);
    }
}

// Moves the places from p on, of m, up by c, and raises their Next words as far, the last first.
fn move_up(list: &mut [u8], h: usize, p: usize, m: usize, c: usize)
    requires p_le_m { p ≤ m }
    requires gap { Gap h p (m + c) (length list.old) }
    ensures { MovedUp h p m c p (words list.old) (words list.new) }
{
    for j in (p..m).rev() {
        let x = place::entry_in(list, h, j);
        let y = links::raised(p as u32, m as u32, c as u32, place::next(list, h, j));
        place::put(list, h, j + c, x, y);
    }
}

// Makes a gap of c places from p on in a list of m entries, which no link leads to.
fn make_gap(list: &mut [u8], h: usize, p: usize, m: usize, c: usize)
    requires p_le_m { p ≤ m }
    requires gap { Gap h p (m + c) (length list.old) }
    ensures { GapMade h p m c (words list.old) (words list.new) }
{
    links::relabel_front(
        list,
        h,
        p,
        |y| links::raised(p as u32, m as u32, c as u32, y),
    );
    move_up(list, h, p, m, c);
}

// Takes the places from p on, below q, out of a list of n entries that passes number 3. Those behind are moved down and links lowered,
// and the places left over are none.
pub fn take_out(list: &mut [u8], g: record::Geometry, p: usize, q: usize, n: usize)
    requires measures { Measures g list.old }
    requires lists { Lists (words list.old) g n }
    requires p_le_q { p ≤ q }
    requires q_le_n { q ≤ n }
    ensures { words list.new ≡ encode g (without g.h p q n (words list.old)) }
{
    let h = g.h;
    links::lower_front(list, h, p, q);
    move_down(list, h, p, q, n);
    words::fill_from(list, h + 4 * (n - (q - p)), h + 4 * n);
}

// Closes the entries of the first n places up over those of the stripes with a parity on a failed member. Answers how many are left,
// in the places from 0 on. The words behind the n places are left.
pub fn close_up_lost(list: &mut [u8], shelf: record::Shelf, n: usize) -> usize
    requires measures { Measures shelf.geometry list.old }
    requires n_le_e { n ≤ shelf.geometry.e }
    requires sized { Sized shelf.geometry }
    ensures few { result ≤ n }
    ensures others { take result (placed shelf.geometry.e (words list.new) shelf.geometry.h 0) ≡ drop_stripes shelf.geometry.d
        (parity_failed_at shelf) (take n (placed shelf.geometry.e (words list.old) shelf.geometry.h 0)) }
    ensures kept_from { KeptFrom (shelf.geometry.h + 4 * n) (words list.old) (words list.new) }
{
    let g = shelf.geometry;
    let d = g.d;
    let h = g.h;
    let mut m: usize = 0;
    for p in 0..n {
        let x = place::entry_in(list, h, p);
        if !shelf.parity_failed(x.address as usize / d) {
            place::put_entry(list, h, m, x);
            m += 1;
        }
    }
    m
}

// Puts entries of stripe x, in rising address, into a list of m entries that passes number 3 and has none of stripe x. The places
// behind them are moved up and links raised; then each new place is linked.
pub fn put_in(list: &mut [u8], g: record::Geometry, x: usize, fresh: &[place::Entry], m: usize)
    requires measures { Measures g list.old }
    requires lists { Lists (words list.old) g m }
    requires room { m + length fresh.now ≤ g.e }
    requires replaces { Replaces g x (words list.old) fresh.now }
    requires none_there { drop_stripe g.d x (entries (words list.old) g) ≡ entries (words list.old) g }
    ensures { words list.new ≡ encode g (merged fresh.now (entries (words list.old) g)) }
{
    let h = g.h;
    let c = fresh.len();
    let p = list::first_from(list, g, m, x * g.d);
    make_gap(list, h, p, m, c);
    put_places(list, h, g.e, p, fresh);
    links::link_gap(list, h, p, c);
}

// Puts entries in the places from i on. Next words and the words behind these places are left.
pub fn put_places(list: &mut [u8], h: usize, e: usize, i: usize, fresh: &[place::Entry])
    requires room { i + length fresh.now ≤ e }
    requires h_bound { h ≤ 256 }
    requires e_bound { e ≤ 4096 }
    requires list_len { length list.old ≡ 4 * (h + 4 * e) }
    ensures filled { Filled i (length fresh.now) (placed e (words list.old) h 0) (placed e (words list.new) h 0) fresh.now }
    ensures kept_from { KeptFrom (h + 4 * (i + length fresh.now)) (words list.old) (words list.new) }
    ensures links_kept { LinksKept h (words list.old) (words list.new) }
{
    for (j, x) in fresh.iter().enumerate() {
        place::put_entry(list, h, i + j, *x);
    }
}

// Whether the places from p on have the addresses of these entries.
fn have_addresses(list: &[u8], h: usize, p: usize, fresh: &[place::Entry]) -> bool
    requires gap { Gap h p (p + length fresh.now) (length list.now) }
    ensures { result ≡ list_all (λ x. address_at (words list.now) h (p + x.0) == x.1.address) (enumerate_from 0 fresh.now) }
{
    fresh
        .iter()
        .enumerate()
        .all(|(j, x)| place::address(list, h, p + j) == x.address)
}

// Whether of n listed places those from p on have the addresses of these entries, and the one behind them, where there is one, has
// an address from end on.
pub fn stand_in(
    list: &[u8],
    h: usize,
    n: usize,
    end: usize,
    p: usize,
    fresh: &[place::Entry],
) -> bool
    requires p_le_n { p ≤ n }
    requires few { length fresh.now ≤ 4096 }
    requires h_bound { h ≤ 256 }
    requires n_bound { n ≤ 4096 }
    requires n_in_bounds { 4 * (h + 4 * n) ≤ length list.now }
    ensures { result ≡ true → InPlace h n end p (words list.now) fresh.now }
{
    let q = p + fresh.len();
    q <= n
        && (q == n || place::address(list, h, q) as usize >= end)
        && have_addresses(list, h, p, fresh)
}

// Puts place p of e, behind h slot heads, in front of its slot's chain.
fn link(list: &mut [u8], h: usize, e: usize, p: usize)
    requires p_lt_e { p < e }
    requires h_nonzero { 0 < h }
    requires h_bound { h ≤ 256 }
    requires e_bound { e ≤ 4096 }
    requires list_len { length list.old ≡ 4 * (h + 4 * e) }
    ensures { words list.new ≡ put_front (words list.old) h p (entry_in (words list.old) h p) }
{
    let s = place::address(list, h, p) as usize % h;
    let n = words::word(list, s);
    place::put_next(list, h, p, n);
    words::put_word(list, s, p as u32);
}

// Makes the list of the first m places: the chains anew, and none in the places from m on, of which those from n on are none already.
pub fn relink(list: &mut [u8], g: record::Geometry, m: usize, n: usize)
    requires measures { Measures g list.old }
    requires m_le_e { m ≤ g.e }
    requires n_le_e { n ≤ g.e }
    requires none_behind { NoneBehind g.h g.e m n (words list.old) }
    ensures { words list.new ≡ encode g (take m (placed g.e (words list.old) g.h 0)) }
{
    let h = g.h;
    let e = g.e;
    words::fill_from(list, 0, h);
    words::fill_from(list, h + 4 * m, h + 4 * n);
    for p in (0..m).rev() {
        link(list, h, e, p);
    }
}
