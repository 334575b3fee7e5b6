// The note-and-write path of one stripe: note, write, restart, compact.
ghost use Rattle.std.specs.Prelude.{◌≡◌};
ghost use Rattle.runs.specs.Ages.{pair};
ghost use Rattle.stripe.specs.Piece.{extent, piece};
ghost use Rattle.note.specs.Note.{Notes};
ghost use Rattle.write.specs.Write.{Writes};
ghost use Rattle.restart.specs.Restart.{Restarts};
ghost use Rattle.compact.specs.Compact.{Compacts};

use common::Number;
use runs::{Age, Pass};
use stripe::Extent;

// Makes the age of a piece.
fn age(number: u64, pass: u64) -> Age
    ensures { result ≡ pair number pass }
{
    Age {
        number: Number(number),
        pass: Pass(pass),
    }
}

// Notes a piece: appends its entry to the log, and raises the map by it.
pub fn gil_note(
    map: &mut [u8],
    log: &mut [u8],
    first: u64,
    len: u64,
    number: u64,
    pass: u64,
    image: u64,
) -> u64
    ensures { Notes map.old log.old (extent first len number pass) image result map.new log.new }
{
    let age = age(number, pass);
    let e = Extent { first, len, age };
    common::answer(note::note(map, log, e, image))
}

// Stores the piece's bytes in the image where the map has the piece's number and pass, and answers the refusal or 0.
pub fn gil_write(
    map: &[u8],
    image: &mut [u8],
    first: u64,
    bytes: &[u8],
    number: u64,
    pass: u64,
) -> u64
    ensures { Writes map.now (piece first bytes.now number pass) image.old result image.new }
{
    common::answer(write::write(map, image, first, bytes, age(number, pass)))
}

// Fills the map with the log's map.
pub fn gil_restart(map: &mut [u8], log: &[u8]) -> u64
    ensures { Restarts map.old log.now result map.new }
{
    common::answer(restart::restart(map, log))
}

// Fills a second log with the runs of the log's map.
pub fn gil_compact(old: &[u8], new: &mut [u8]) -> u64
    ensures { Compacts old.now new.old result new.new }
{
    common::answer(compact::compact(old, new))
}
