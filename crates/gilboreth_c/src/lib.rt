// What C links: the public entries of `gilboreth`, each exported under its name and with its clauses, as libgilboreth.a. A crate is a library
// or a static library, so this one stands over it and has nothing else.
#![tactic(auto)]

ghost use Rattle.std.specs.Prelude.{false};
ghost use Rattle.locks.specs.declared.Message.TheVariants.{Request, Acknowledge, Downgrade, Release};
ghost use Rattle.message.specs.Messages.{Serves};
ghost use Rattle.list.specs.Lists.{ServesList};
ghost use Rattle.stripe.specs.Piece.{extent, piece};
ghost use Rattle.note.specs.Note.{Notes};
ghost use Rattle.write.specs.Write.{Writes};
ghost use Rattle.restart.specs.Restart.{Restarts};
ghost use Rattle.compact.specs.Compact.{Compacts};

use locks::Item;
use serve::Answer;

// Asks for a lock.
#[unsafe(no_mangle)]
pub extern "C" fn gil_request(
    table: &mut [u8],
    events: &mut [u8],
    client: u64,
    stripe: u64,
    mode: u64,
    first: u64,
    last: u64,
) -> Answer
    ensures { Serves (Request client stripe mode first last false) table.old events.old result table.new events.new }
{
    gilboreth::messages::gil_request(table, events, client, stripe, mode, first, last)
}

// Replies to a revocation.
#[unsafe(no_mangle)]
pub extern "C" fn gil_acknowledge(
    table: &mut [u8],
    events: &mut [u8],
    client: u64,
    handle: u64,
) -> Answer
    ensures { Serves (Acknowledge client handle) table.old events.old result table.new events.new }
{
    gilboreth::messages::gil_acknowledge(table, events, client, handle)
}

// Makes a canceling BW or PW lock an NBW lock.
#[unsafe(no_mangle)]
pub extern "C" fn gil_downgrade(
    table: &mut [u8],
    events: &mut [u8],
    client: u64,
    handle: u64,
) -> Answer
    ensures { Serves (Downgrade client handle) table.old events.old result table.new events.new }
{
    gilboreth::messages::gil_downgrade(table, events, client, handle)
}

// Gives a lock back, or withdraws a waiting request.
#[unsafe(no_mangle)]
pub extern "C" fn gil_release(
    table: &mut [u8],
    events: &mut [u8],
    client: u64,
    handle: u64,
) -> Answer
    ensures { Serves (Release client handle) table.old events.old result table.new events.new }
{
    gilboreth::messages::gil_release(table, events, client, handle)
}

// Asks for the locks of a list, in its order. Each answer is stored in its item.
#[unsafe(no_mangle)]
pub extern "C" fn gil_request_list(
    table: &mut [u8],
    events: &mut [u8],
    items: &mut [Item],
) -> Answer
    ensures { ServesList items.old table.old events.old result items.new table.new events.new }
{
    gilboreth::lists::gil_request_list(table, events, items)
}

// Notes a piece: appends its entry to the log, and raises the map by it.
#[unsafe(no_mangle)]
pub extern "C" fn gil_note(
    map: &mut [u8],
    log: &mut [u8],
    first: u64,
    len: u64,
    number: u64,
    pass: u64,
    image: u64,
) -> u64
    ensures { Notes map.old log.old (extent first len number pass) image result map.new log.new }
{
    gilboreth::path::gil_note(map, log, first, len, number, pass, image)
}

// Stores the piece's bytes in the image where the map has the piece's number and pass, and answers the refusal or 0.
#[unsafe(no_mangle)]
pub extern "C" fn gil_write(
    map: &[u8],
    image: &mut [u8],
    first: u64,
    bytes: &[u8],
    number: u64,
    pass: u64,
) -> u64
    ensures { Writes map.now (piece first bytes.now number pass) image.old result image.new }
{
    gilboreth::path::gil_write(map, image, first, bytes, number, pass)
}

// Fills the map with the log's map.
#[unsafe(no_mangle)]
pub extern "C" fn gil_restart(map: &mut [u8], log: &[u8]) -> u64
    ensures { Restarts map.old log.now result map.new }
{
    gilboreth::path::gil_restart(map, log)
}

// Fills a second log with the runs of the log's map.
#[unsafe(no_mangle)]
pub extern "C" fn gil_compact(old: &[u8], new: &mut [u8]) -> u64
    ensures { Compacts old.now new.old result new.new }
{
    gilboreth::path::gil_compact(old, new)
}
