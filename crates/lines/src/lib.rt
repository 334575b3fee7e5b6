// Cuts the input into lines, wherever its pieces end: gathers a line from piece after piece, and has it read.
#![tactic(auto)]

ghost use Rattle.std.specs.Prelude.{◌≡◌, ◌+◌, ◌≤◌, ℕ, List, ◌++◌, is_some};
ghost use Rattle.line.specs.Format.{longest};
ghost use Rattle.lines.specs.Buffers.{Keeps, Saying, Gathers, taken};

use arrayvec::ArrayVec;
use locks::Message;

// How much is kept of a line: 128 bytes, the CR of its break, and one byte more that tells a line that is too long.
pub const LINE_BYTES: usize = 130;

// What is kept of the line that is being gathered. Any longer buffer serves as well.
pub type Line = ArrayVec<u8, LINE_BYTES>;

// Keeps more bytes of a line, as far as there is room.
pub fn keep<const N: usize>(line: &mut ArrayVec<u8, N>, bytes: &[u8])
    requires { longest + 2 ≤ N }
    ensures { (p : List ℕ) → Keeps line.old.items p → Keeps line.new.items (p ++ bytes.now) }
{
    let n = bytes.len().min(line.remaining_capacity());
    let _ = line.try_extend_from_slice(&bytes[..n]);
}

// Gathers the bytes of a piece up to the end of a line, or all of them. Answers how many it took, if the line's break was met.
pub fn gather<const N: usize>(piece: &[u8], line: &mut ArrayVec<u8, N>) -> Option<usize>
    requires { longest + 2 ≤ N }
    ensures { Gathers piece.now line.old.items line.new.items (taken result piece.now) (is_some result) }
{
    let Some(end) = piece.iter().position(|b| *b == b'\n') else {
        keep(line, piece);
        return None;
    };
    keep(line, &piece[..end]);
    Some(end + 1)
}

// Reads the line of which these bytes are kept; `last` says that it lacks its break.
pub fn said(kept: &[u8], last: bool) -> Option<Message>
    ensures { Saying last kept.now result }
{
    if last {
        return line::read_line(kept);
    }
    line::read_line(kept.strip_suffix(b"\r").unwrap_or(kept))
}
