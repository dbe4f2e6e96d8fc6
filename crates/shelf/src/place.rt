// The words of a place of the list, which stand behind h slot heads: block address, Ori, Cur and Next. Each is read by a function of its
// own, whose contract says which definition of the list it meets. List, h and place are no struct: `links` reads the places of a part of
// a list, with h 0, and others read and write in turn.
ghost use Rattle.std.specs.Prelude.{◌≡◌, ◌≤◌, ◌+◌, ◌*◌, ◌<◌, length, set};
ghost use Rattle.shelf.specs.Words.{words};
ghost use Rattle.shelf.specs.HashList.{entry_in, address_at, ori_at, cur_at, next_at};
ghost use Rattle.shelf.specs.below.Checking.{HasPlace};
ghost use Rattle.shelf.specs.below.Rewriting.{put_entry, Put};

use super::words;

// What a place has of a listed block: its address, and the log records of its original (Ori) and of its latest value (Cur), or none, as the
// list's words have them.
#[derive(Clone, Copy, Default)]
pub struct Entry {
    pub address: u32,
    pub ori: u32,
    pub cur: u32,
}

// The block address in place p.
pub fn address(list: &[u8], h: usize, p: usize) -> u32
    requires { HasPlace h p (length list.now) }
    ensures { result ≡ address_at (words list.now) h p }
{
    words::word(list, h + 4 * p)
}

// The log record of the original of the block in place p, or none.
pub fn ori(list: &[u8], h: usize, p: usize) -> u32
    requires { HasPlace h p (length list.now) }
    ensures { result ≡ ori_at (words list.now) h p }
{
    words::word(list, h + 4 * p + 1)
}

// The log record of the latest value of the block in place p, or none.
pub fn cur(list: &[u8], h: usize, p: usize) -> u32
    requires { HasPlace h p (length list.now) }
    ensures { result ≡ cur_at (words list.now) h p }
{
    words::word(list, h + 4 * p + 2)
}

// The place after place p in its chain, or none.
pub fn next(list: &[u8], h: usize, p: usize) -> u32
    requires { HasPlace h p (length list.now) }
    ensures { result ≡ next_at (words list.now) h p }
{
    words::word(list, h + 4 * p + 3)
}

// The entry in place p.
pub fn entry_in(list: &[u8], h: usize, p: usize) -> Entry
    requires { HasPlace h p (length list.now) }
    ensures { result ≡ entry_in (words list.now) h p }
{
    Entry {
        address: address(list, h, p),
        ori: ori(list, h, p),
        cur: cur(list, h, p),
    }
}

// Puts y as the place after place p in its chain.
pub fn put_next(list: &mut [u8], h: usize, p: usize, y: u32)
    requires { HasPlace h p (length list.old) }
    ensures { words list.new ≡ set (words list.old) (h + 4 * p + 3) y }
{
    words::put_word(list, h + 4 * p + 3, y);
}

// Puts an entry in place p. Its Next is left.
pub fn put_entry(list: &mut [u8], h: usize, p: usize, x: Entry)
    requires { HasPlace h p (length list.old) }
    ensures { words list.new ≡ put_entry (words list.old) (h + 4 * p) x }
{
    words::put_word(list, h + 4 * p, x.address);
    words::put_word(list, h + 4 * p + 1, x.ori);
    words::put_word(list, h + 4 * p + 2, x.cur);
}

// Puts an entry in place p, and y as its Next.
pub fn put(list: &mut [u8], h: usize, p: usize, x: Entry, y: u32)
    requires { HasPlace h p (length list.old) }
    ensures { Put h p x y (words list.old) (words list.new) }
{
    put_entry(list, h, p, x);
    put_next(list, h, p, y);
}
