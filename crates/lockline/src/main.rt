// The line program: reads lines from standard input, serves them on one table, and writes their answers to standard output.
#![tactic(auto)]

ghost use Rattle.lockline.specs.Program.{Pours};

use session::Session;
use std::io;
use std::io::{Print, Read, Stdin, Stdout};

// How much is read at once, at most.
const PIECE_BYTES: usize = 4096;

// Feeds a piece to its end, and writes each answer.
fn pour(session: &mut Session, piece: &[u8], to: Stdout) -> io::Result<()>
    ensures { Pours piece.now session.old.line.items session.old.table result session.new.line.items session.new.table }
{
    let mut rest = piece;
    while !rest.is_empty() {
        let n = session.feed(rest);
        to.write_all(session.out.as_slice())?;
        rest = &rest[n..];
    }
    Ok(())
}

// Serves the whole input; a failed write ends it. Nothing says that an input ends, so the reads are counted, up to a number that no run uses up.
fn serve(session: &mut Session, from: Stdin, to: Stdout) -> io::Result<()> {
    let mut input = from;
    let mut piece = [0u8; PIECE_BYTES];
    for _ in 0..u64::MAX {
        // A failed read is the end of the input.
        let n = input.read(&mut piece).unwrap_or(0);
        if n == 0 {
            break;
        }
        pour(session, &piece[..n], to)?;
    }
    session.end();
    to.write_all(session.out.as_slice())
}

fn main(rt: HostRuntime) {
    let mut session = Session::new();
    let _ = serve(&mut session, rt.stdin(), rt.stdout());
}
