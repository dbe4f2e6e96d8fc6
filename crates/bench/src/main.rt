// The bench program: reads a shelf's measures and then calls from standard input, a line each, makes the calls on a shelf in memory, and
// writes a line for each answer. What lines mean is proved in the crate `lines`, what calls do in `shelf`; `session` says of each piece of
// the input which lines end in it and what is written of them. What a read brings, and that what is written arrives, no contract can say.
#![tactic(auto)]

mod calls;
mod room;
mod session;

ghost use Rattle.std.specs.Prelude.{◌≡◌, length};

use session::Session;
use std::io;
use std::io::{Read, Stdin, Stdout, Write};

// The buffers of the input, of the output, and of the session with its shelf are made once.
fn main(rt: HostRuntime) -> io::Result<()> {
    let mut input = [0; 512];
    let mut out = [0; 65536];
    let mut session = Session::new();
    run(rt.stdin(), rt.stdout(), &mut session, &mut input, &mut out)
}

// Writes the names of the columns, then takes the input piece by piece and writes what comes of each, up to the input's end or to measures
// that are refused. A read that fails counts as the end; a write that fails ends the program. The pieces are counted up to a number that
// no input reaches, since a loop has to end.
fn run(
    mut from: Stdin,
    mut to: Stdout,
    session: &mut Session,
    input: &mut [u8],
    out: &mut [u8],
) -> io::Result<()>
    requires input_len { length input.old ≡ 512 }
    requires out_len { length out.old ≡ 65536 }
{
    write_columns(&mut to, out)?;
    for _ in 0..u64::MAX {
        let n = from.read(input).unwrap_or(0);
        if n == 0 {
            let last = session.close(out);
            return to.write_all(&out[..last]);
        }
        let len = session.feed(&input[..n], out);
        to.write_all(&out[..len])?;
        if session.is_refused() {
            return Ok(());
        }
    }
    Ok(())
}

// Writes the names of the columns.
fn write_columns(to: &mut Stdout, out: &mut [u8]) -> io::Result<()>
    requires { length out.old ≡ 65536 }
{
    let n = lines::answers::put_columns(out);
    to.write_all(&out[..n])
}
