// Lines that are written: a name, then numbers in decimal, split by single blanks, and a newline.
ghost use Rattle.std.specs.Prelude.{◌∷◌, ◌≡◌, ◌+◌, ◌*◌, ◌≤◌, length};
ghost use Rattle.lines.specs.AnswerLines.{decimal, spelled, name_of, answer_line, format_line, columns_line};
ghost use Rattle.lines.specs.Walking.{Puts};

use super::requests::Request;

// What a line tells after a call: its number, then the shelf's mode, how many blocks are listed and its next free log record, and the
// first byte read.
#[derive(Drop)]
pub struct Answer {
    pub code: usize,
    pub mode: usize,
    pub listed: usize,
    pub next: usize,
    pub first: usize,
}

// Puts the line of an answer to a request at the start of out, and answers how long it is.
pub fn put_answer(out: &mut [u8], request: Option<Request>, a: Answer) -> usize
    requires { 128 ≤ length out.old }
    ensures { Puts out.old 0 (answer_line request a) out.new result }
{
    let at = put_word(out, name_of(request));
    let columns = [a.code, a.mode, a.listed, a.next, a.first];
    put_numbers(out, at, &columns)
}

// Puts the line of format's answer at the start of out, and answers how long it is.
pub fn put_format(out: &mut [u8], code: usize) -> usize
    requires { 128 ≤ length out.old }
    ensures { Puts out.old 0 (format_line code) out.new result }
{
    let at = put_word(out, b"format");
    let columns = [code, 0, 0, 0, 0];
    put_numbers(out, at, &columns)
}

// Puts the line of the columns' names at the start of out, and answers how long it is.
pub fn put_columns(out: &mut [u8]) -> usize
    requires { 128 ≤ length out.old }
    ensures { Puts out.old 0 columns_line out.new result }
{
    put_word(out, b"call code mode listed next first\n")
}

// The name of a request; `bad` where a line can't be read.
#[tactic(auto, unfolding(crate::specs::AnswerLines::name_of))]
fn name_of(request: Option<Request>) -> &'static [u8]
    ensures value { result.now ≡ name_of request }
    ensures len_bound { length result.now ≤ 7 }
{
    match request {
        Some(Request::Start) => b"start",
        Some(Request::Write(..)) => b"write",
        Some(Request::Read(..)) => b"read",
        Some(Request::Fetch(..)) => b"fetch",
        Some(Request::Fail(_)) => b"fail",
        Some(Request::Resync) => b"resync",
        Some(Request::Rebuild) => b"rebuild",
        Some(Request::NewLog) => b"newlog",
        Some(Request::FullResync) => b"full",
        None => b"bad",
    }
}

// Puts a word at the start of out, and answers where it ends.
fn put_word(out: &mut [u8], word: &[u8]) -> usize
    requires { length word.now ≤ length out.old }
    ensures { Puts out.old 0 word.now out.new result }
{
    let n = word.len();
    out[..n].copy_from_slice(word);
    n
}

// Puts numbers, a blank before each, and a newline into out from an index on, and answers where they end.
fn put_numbers(out: &mut [u8], from: usize, numbers: &[usize]) -> usize
    requires { from + (21 * length numbers.now + 1) ≤ length out.old }
    ensures { Puts out.old from (spelled numbers.now) out.new result }
{
    let mut at = from;
    for n in numbers {
        at = put_number(out, at, *n);
    }
    out[at] = b'\n';
    at + 1
}

// Puts a blank and a number into out from an index on, and answers where they end.
fn put_number(out: &mut [u8], at: usize, n: usize) -> usize
    requires { at + 21 ≤ length out.old }
    ensures { Puts out.old at (32 ∷ decimal n) out.new result }
{
    out[at] = b' ';
    put_decimal(out, at + 1, n)
}

// Puts a number in decimal into out from an index on, and answers where it ends. Of the text that Display writes a proof learns nothing.
fn put_decimal(out: &mut [u8], at: usize, n: usize) -> usize
    requires { at + length (decimal n) ≤ length out.old }
    ensures { Puts out.old at (decimal n) out.new result }
{
    let last = b'0' + (n % 10) as u8;
    if n < 10 {
        out[at] = last;
        return at + 1;
    }
    let end = put_decimal(out, at, n / 10);
    out[end] = last;
    end + 1
}
