// The links of a list, its slot heads and Next words, where places are taken out or put in.
ghost use Rattle.std.specs.Prelude.{ℕ, ◌+◌, ◌-◌, ◌*◌, ◌≤◌, ◌<◌, length};
ghost use Rattle.shelf.specs.below.Checking.{HasPlace};
ghost use Rattle.shelf.specs.Words.{words};
ghost use Rattle.shelf.specs.HashList.{next_at};
ghost use Rattle.shelf.specs.below.Rewriting.{Gap, Upward, Lowers, next_behind, Down, Up, Relabelled, FrontRelabelled, LastBelow, behind, LinkedIn};

use super::{place, words};

// The link y where the places from p on, below q, are taken out: past those of them that it leads to, and lower by their number where
// it leads behind them. The bytes behind are those of the places from p on.
fn lowered(behind: &[u8], p: u32, q: u32, y: u32) -> u32
    requires p_le_q { p ≤ q }
    requires q_bound { q ≤ 4096 }
    requires in_bounds { 16 * (q - p) ≤ length behind.now }
    requires upward { Upward (next_behind (words behind.now) p) p q }
    ensures { Lowers (next_behind (words behind.now) p) p q y result }
{
    // The links are followed, and the number of turns is not known before.
    let mut z = y;
    while z < q {
        if z < p {
            return z;
        }
        z = place::next(behind, 0, (z - p) as usize);
    }
    if z == words::NONE {
        return z;
    }
    z - (q - p)
}

// Lowers the links in the front of a list where the places from p on, below q, are taken out.
pub fn lower_front(list: &mut [u8], h: usize, p: usize, q: usize)
    requires gap { Gap h p q (length list.old) }
    requires upward { Upward (next_at (words list.old) h) p q }
    ensures { FrontRelabelled (Lowers (next_at (words list.old) h) p q) h p (words list.old) (words list.new) }
{
    let (front, behind) = list.split_at_mut(4 * (h + 4 * p));
    relabel_front(front, h, p, |y| lowered(behind, p as u32, q as u32, y));
}

// The link y lower by k, or none.
pub fn down(y: u32, k: u32) -> u32
    ensures { Down k y result }
{
    if y == words::NONE {
        return y;
    }
    y.saturating_sub(k)
}

// The link y of a list of m entries, where the places from p on are moved up by c.
pub fn raised(p: u32, m: u32, c: u32, y: u32) -> u32
    requires { m + c ≤ 4096 }
    ensures { Up p m c y result }
{
    if p <= y && y < m {
        return y + c;
    }
    y
}

// Relabels n links, which stand in each step-th word of a list from word first on.
fn relabel<F: Fn(u32) -> u32>(list: &mut [u8], first: usize, step: usize, n: usize, f: &F)
    requires callable { F.IsAlwaysCallable f.now }
    requires step_nonzero { 0 < step }
    requires in_bounds { (k : ℕ) → k < n → 4 * (first + step * k) + 4 ≤ length list.old }
    ensures { Relabelled (λ y r. (y < 4294967296) × F.post f.now y r) first step n (words list.old) (words list.new) }
{
    for k in 0..n {
        let i = first + step * k;
        let y = words::word(list, i);
        words::put_word(list, i, f(y));
    }
}

// Relabels the links in the front of a list: its h slot heads, and the Next words of the p places behind them.
pub fn relabel_front<F: Fn(u32) -> u32>(front: &mut [u8], h: usize, p: usize, f: F)
    requires callable { F.IsAlwaysCallable f }
    requires gap { Gap h p p (length front.old) }
    ensures { FrontRelabelled (λ y r. (y < 4294967296) × F.post f y r) h p (words front.old) (words front.new) }
{
    relabel(front, 0, 1, h, &f);
    relabel(front, h + 3, 4, p, &f);
}

// The last place below p of slot s, of h slots. Where a stripe's blocks are all of different slots the slot's chain is walked, else
// the places are looked at downwards.
fn last_below(list: &[u8], h: usize, p: usize, s: usize) -> Option<usize>
    requires s_lt_h { s < h }
    requires gap { Gap h p p (length list.now) }
    ensures { LastBelow h p s (words list.now) (behind result) }
{
    if h < 16 {
        return scan_below(list, h, p, s);
    }
    walk_below(list, h, p, s)
}

// The same, by the places from p down.
fn scan_below(list: &[u8], h: usize, p: usize, s: usize) -> Option<usize>
    requires s_lt_h { s < h }
    requires gap { Gap h p p (length list.now) }
    ensures { LastBelow h p s (words list.now) (behind result) }
{
    for q in (0..p).rev() {
        if place::address(list, h, q) as usize % h == s {
            return Some(q);
        }
    }
    None
}

// The same, by the slot's chain from its head on, which rises.
fn walk_below(list: &[u8], h: usize, p: usize, s: usize) -> Option<usize>
    requires s_lt_h { s < h }
    requires gap { Gap h p p (length list.now) }
    ensures { LastBelow h p s (words list.now) (behind result) }
{
    // The chain is followed, and the number of turns is not known before.
    let mut last: Option<usize> = None;
    let mut y = words::word(list, s) as usize;
    while y < p {
        if let Some(q) = last
            && y <= q
        {
            return last;
        }
        last = Some(y);
        y = place::next(list, h, y) as usize;
    }
    last
}

// Links place t, of a gap that begins at place p, into its slot's chain: behind the last place below p of the slot, or as its first where
// there is none. Those of the gap behind t are linked.
fn link_place(list: &mut [u8], h: usize, p: usize, t: usize)
    requires h_nonzero { 0 < h }
    requires p_le_t { p ≤ t }
    requires has_place { HasPlace h t (length list.old) }
    ensures { LinkedIn h p t (t + 1) (words list.old) (words list.new) }
{
    let s = place::address(list, h, t) as usize % h;
    // The word that leads to the places from p on: the slot's head, or a place's Next.
    let k = match last_below(list, h, p, s) {
        Some(q) => h + 4 * q + 3,
        None => s,
    };
    let y = words::word(list, k);
    place::put_next(list, h, t, y);
    words::put_word(list, k, t as u32);
}

// Links the c places from p on, a gap, into their slots' chains, the last first.
pub fn link_gap(list: &mut [u8], h: usize, p: usize, c: usize)
    requires h_nonzero { 0 < h }
    requires gap { Gap h p (p + c) (length list.old) }
    ensures { LinkedIn h p p (p + c) (words list.old) (words list.new) }
{
    for t in (p..p + c).rev() {
        link_place(list, h, p, t);
    }
}
