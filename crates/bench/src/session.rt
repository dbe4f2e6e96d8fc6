// A session: the lines of the input, each taken in its turn, and what is written of them.
ghost use Rattle.bench.specs.Stages.{ReadyAt};

use super::room::{self, Room};
use lines::held::HeldLine;

// Which line comes next: a line of names, the measures, a second line of names, or a call; or none that is answered, since the measures
// were refused.
#[derive(Clone, Copy, PartialEq, Eq)]
pub enum Stage {
    MeasureNames,
    Measures,
    CallNames,
    Calls,
    Refused,
}

// Where a session stands: its stage, what is held of the line that is begun, and the room with its shelf. Of input and output parts are
// lent to it, and the length of a part is a clause.
#[derive(Drop)]
pub struct Session {
    stage: Stage,
    line: HeldLine,
    room: Room,
    ghost ready: { ReadyAt stage room.shelf.geometry },
}

impl Session {
    ghost use Rattle.std.specs.Prelude.{◌≡◌, ◌≤◌, length, take};
    ghost use Rattle.lines.specs.Held.{fitting};
    ghost use Rattle.bench.specs.Sessions.{Opened, Opens, Answers, Takes, Taking, Feeds, is_refused, Ends, closing, Closes};

    // A session before its first line, with no shelf.
    pub fn new() -> Session
        ensures { Opened result }
    {
        Session {
            stage: Stage::MeasureNames,
            line: HeldLine::new(),
            room: Room::new(),
        }
    }

    // Takes each line that ends in a piece of the input, in its order, puts what is written of them at the start of out, and answers how
    // much it is. What the piece has behind its last newline is held.
    pub fn feed(&mut self, input: &[u8], out: &mut [u8]) -> usize
        requires input_len_bound { length input.now ≤ 512 }
        requires out_len { length out.old ≡ 65536 }
        ensures { Feeds input.now self.old self.new result out.new }
    {
        let mut len = 0;
        let mut at = 0;
        // Each turn takes the bytes up to the next newline, however many they are.
        while at < input.len() {
            at += self.line.push_until(b'\n', &input[at..]);
            if at < input.len() {
                let end = len + 128;
                len += self.take_line(&mut out[len..end]);
                self.line.clear();
                at += 1;
            }
        }
        len
    }

    // At the end of the input takes the line that is begun, and refuses the shelf where no measures came. Puts what is written of it at the
    // start of out, and answers how much it is.
    pub fn close(&mut self, out: &mut [u8]) -> usize
        requires { 256 ≤ length out.old }
        ensures closes { Closes self.old (take result out.new) }
        ensures upper_bound { result ≤ length out.new }
    {
        let at = self.take_last(&mut out[..128]);
        let end = at + 128;
        at + self.put_closing(&mut out[at..end])
    }

    // Whether no further line is answered.
    #[tactic(auto, unfolding(crate::specs::Sessions::is_refused))]
    pub fn is_refused(&self) -> bool
        ensures { result ≡ is_refused self.now.stage }
    {
        matches!(self.stage, Stage::Refused)
    }

    // Takes the line that is begun, if a byte of it has come.
    fn take_last(&mut self, out: &mut [u8]) -> usize
        requires { length out.old ≡ 128 }
        ensures ends { Ends self.old self.new.stage self.new.room (take result out.new) }
        ensures len_bound { result ≤ 128 }
    {
        if self.line.is_empty() {
            return 0;
        }
        self.take_line(out)
    }

    // Takes the line that is held at the session's stage, puts what is written of it at the start of out, and answers how much it is.
    fn take_line(&mut self, out: &mut [u8]) -> usize
        requires { length out.old ≡ 128 }
        ensures { Taking (Takes (fitting self.old.line) self.old.stage self.old.room) self.new result out.new }
    {
        match self.stage {
            Stage::MeasureNames => {
                self.stage = Stage::Measures;
                0
            }
            Stage::Measures => self.open(out),
            Stage::CallNames => {
                self.stage = Stage::Calls;
                0
            }
            Stage::Calls => self.answer(out),
            Stage::Refused => 0,
        }
    }

    // Sets up the shelf that a line of measures says, and puts format's line at the start of out.
    fn open(&mut self, out: &mut [u8]) -> usize
        requires { length out.old ≡ 128 }
        ensures { Taking (Opens (fitting self.old.line) self.old.room) self.new result out.new }
    {
        let g = room::geometry_of(lines::measures::read_measures(self.line.line()));
        if !room::fits(g) {
            self.stage = Stage::Refused;
            return lines::answers::put_format(out, 1);
        }
        self.room.format(g);
        self.stage = Stage::CallNames;
        lines::answers::put_format(out, 0)
    }

    // Makes the call that a line asks for, and puts its answer's line at the start of out.
    fn answer(&mut self, out: &mut [u8]) -> usize
        requires stage { self.old.stage ≡ Stage.Calls }
        requires out_len { length out.old ≡ 128 }
        ensures { Taking (Answers (fitting self.old.line) self.old.room) self.new result out.new }
    {
        let request = lines::requests::read_request(self.line.line());
        let outcome = self.room.perform(request);
        lines::answers::put_answer(out, request, outcome.into())
    }

    // Puts format's refusal at the start of out where the input ends before the measures, and answers how long it is.
    #[tactic(auto, using(lines::proofs::AnswerLaws::puts_front, lines::proofs::AnswerLaws::puts_within), unfolding(crate::specs::Sessions::closing, crate::specs::Sessions::format_number))]
    fn put_closing(&self, out: &mut [u8]) -> usize
        requires { length out.old ≡ 128 }
        ensures out_after { take result out.new ≡ closing self.now.stage }
        ensures upper_bound { result ≤ 128 }
    {
        match self.stage {
            Stage::MeasureNames | Stage::Measures => lines::answers::put_format(out, 1),
            Stage::CallNames | Stage::Calls | Stage::Refused => 0,
        }
    }
}
