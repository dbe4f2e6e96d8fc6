// A line that comes byte by byte, kept in 128 bytes however long it is: a zero at the start of a field makes way for a digit that follows
// it there. A line that takes more can't be read, whatever follows. The bytes are in the line itself: nothing is on a heap.
ghost use Rattle.std.specs.Prelude.{true, ◌≡◌, ◌≢◌, ◌≤◌, ◌<◌, ◌↔◌, [], List, ℕ, Option, Some, IsTrue, take, length, slice_index, option_map};
ghost use Rattle.lines.specs.Held.{last_zero, Extends, ExtendsBy, fitting};

use std::marker::Model;

// What is kept of a line as far as it has come, the first len bytes; or nothing, where it takes more than 128.
#[derive(Drop)]
pub struct HeldLine {
    bytes: [u8; 128],
    len: Option<usize>,
}

impl Model for HeldLine {
    ghost Value = { Option (List ℕ) };

    ghost view = { λ h. option_map (λ n. take n h.bytes) h.len };

    ghost invariant = { λ h. (n : ℕ) → h.len ≡ Some n → n ≤ 128 };
}

impl HeldLine {
    // A line of which no byte has come.
    pub fn new() -> HeldLine
        ensures { result ≡ Some [] }
    {
        HeldLine {
            bytes: [0; 128],
            len: Some(0),
        }
    }

    // Forgets the line: the next byte begins another.
    pub fn clear(&mut self)
        ensures { self.new ≡ Some [] }
    {
        self.len = Some(0);
    }

    // Whether no byte of the line has come.
    pub fn is_empty(&self) -> bool
        ensures { IsTrue result ↔ (self.now ≡ Some []) }
    {
        self.len == Some(0)
    }

    // The bytes that are handed on as the line: those that are kept, or none where they do not fit.
    pub fn line(&self) -> &[u8]
        ensures value { result.now ≡ fitting self.now }
        ensures len_bound { length result.now ≤ 128 }
    {
        &self.bytes[..self.len.unwrap_or(0)]
    }

    // Takes the next byte of the line.
    pub fn push(&mut self, x: u8)
        ensures { Extends self.old x self.new }
    {
        self.len = put_byte(&mut self.bytes, self.len, x);
    }

    // Takes the bytes of a piece of the input that come before the first that ends a line, or all where none does, and answers how many
    // they are. While they come, the count of those that are kept is in a variable of its own.
    pub fn push_until(&mut self, end: u8, input: &[u8]) -> usize
        ensures extends { ExtendsBy self.old (take result input.now) self.new }
        ensures upper_bound { result ≤ length input.now }
        ensures no_end { (k : ℕ) → k < result → slice_index input.now k ≢ end }
        ensures at_end { result < length input.now → slice_index input.now result ≡ end }
    {
        let mut len = self.len;
        for (i, x) in input.iter().enumerate() {
            if *x == end {
                self.len = len;
                return i;
            }
            len = put_byte(&mut self.bytes, len, *x);
        }
        self.len = len;
        input.len()
    }
}

// Puts the next byte of a line into the bytes of which it keeps the first len, and answers how many it keeps now.
fn put_byte(bytes: &mut [u8; 128], len: Option<usize>, x: u8) -> Option<usize>
    requires { (n : ℕ) → len ≡ Some n → n ≤ 128 }
    ensures extends { Extends (option_map (λ n. take n bytes.old) len) x (option_map (λ n. take n bytes.new) result) }
    ensures upper_bound { (n : ℕ) → result ≡ Some n → n ≤ 128 }
{
    let Some(n) = len else { return None };
    if ends_in_lone_zero(&bytes[..n]) && x.is_ascii_digit() {
        bytes[n - 1] = x;
        Some(n)
    } else if n < 128 {
        bytes[n] = x;
        Some(n + 1)
    } else {
        None
    }
}

// Whether the last field of a text is one zero.
#[tactic(auto, using(crate::proofs::HeldLaws::last_none, crate::proofs::HeldLaws::last_lone, crate::proofs::HeldLaws::last_both))]
fn ends_in_lone_zero(text: &[u8]) -> bool
    ensures { result ≡ last_zero true text.now }
{
    matches!(text, [b'0'] | [.., b' ', b'0'])
}
