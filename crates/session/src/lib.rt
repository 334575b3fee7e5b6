// A session of lines on one table: what the lines that end in a piece of the input say is served, and the answers are put down.
#![tactic(auto)]

ghost use Rattle.std.specs.Prelude.{◌≡◌, true, [], T};
ghost use Rattle.table.specs.Bytes.{sound_table_bytes};
ghost use Rattle.locks.specs.Session.{single};
ghost use Rattle.line.specs.Format.{Single};
ghost use Rattle.message.specs.Messages.{Serves};
ghost use Rattle.session.specs.Buffers.{Lent, Ready, Answers, Feeds, Ends};
ghost use Rattle.session.specs.Run.{start};

use arrayvec::ArrayVec;
use lines::Line;
use locks::Message;
use message::EVENTS_BYTES;
use serve::Answer;
use table::TABLE_BYTES;
use text::Out;

// Serves a message that comes by itself through the entry that C gets, which takes the table and the events as slices.
fn call(table: &mut [u8], events: &mut [u8], m: Message) -> Answer
    requires { T (single m) }
    ensures { Serves m table.old events.old result table.new events.new }
{
    match m {
        Message::Request {
            client,
            stripe,
            mode,
            first,
            last,
            marked: _,
        } => gilboreth::messages::gil_request(table, events, client, stripe, mode, first, last),
        Message::Acknowledge { client, handle } => {
            gilboreth::messages::gil_acknowledge(table, events, client, handle)
        }
        Message::Downgrade { client, handle } => {
            gilboreth::messages::gil_downgrade(table, events, client, handle)
        }
        Message::Release { client, handle } => {
            gilboreth::messages::gil_release(table, events, client, handle)
        }
    }
}

// Puts the answer to what a line says.
fn answer<const O: usize>(
    table: &mut [u8],
    events: &mut [u8],
    out: &mut ArrayVec<u8, O>,
    said: Option<Message>,
)
    requires { Lent table.old events.old O × Single said }
    ensures { Answers said table.old table.new out.new.items }
{
    out.clear();
    match said {
        None => text::put_bad(out),
        Some(m) => {
            let a = call(table, events, m);
            text::put_outcome(out, a.refusal, a.handle, events, a.events as usize);
        }
    }
}

// Takes the bytes of a piece up to the end of a line and answers the line, or takes them all. Answers how many it took. Any buffers that have room
// may be lent: a session lends its own.
pub fn feed<const L: usize, const O: usize>(
    piece: &[u8],
    line: &mut ArrayVec<u8, L>,
    table: &mut [u8],
    events: &mut [u8],
    out: &mut ArrayVec<u8, O>,
) -> usize
    requires { Ready L table.old events.old O }
    ensures { Feeds piece.now line.old.items table.old result line.new.items table.new out.new.items }
{
    let Some(taken) = lines::gather(piece, line) else {
        out.clear();
        return piece.len();
    };
    let said = lines::said(line.as_slice(), false);
    answer(table, events, out, said);
    line.clear();
    taken
}

// Answers the last line, if it lacks its break. What is kept of the line stays.
pub fn end<const L: usize, const O: usize>(
    line: &ArrayVec<u8, L>,
    table: &mut [u8],
    events: &mut [u8],
    out: &mut ArrayVec<u8, O>,
)
    requires { Ready L table.old events.old O }
    ensures sound { sound_table_bytes table.new ≡ true }
    ensures out { Ends line.now.items table.old out.new.items }
{
    if line.is_empty() {
        out.clear();
        return;
    }
    let said = lines::said(line.as_slice(), true);
    answer(table, events, out, said);
}

// The lock table, the events of its last call, what is kept of the line that is being gathered, and what is to be written.
#[derive(Drop)]
pub struct Session {
    pub table: [u8; TABLE_BYTES],
    pub events: [u8; EVENTS_BYTES],
    pub line: Line,
    pub out: Out,
    ghost sound: { sound_table_bytes table ≡ true },
}

impl Session {
    // Starts on the empty table, which is all zeros.
    pub fn new() -> Session
        ensures table { result.table ≡ start }
        ensures line { result.line.items ≡ [] }
        ensures out { result.out.items ≡ [] }
    {
        Session {
            table: [0; TABLE_BYTES],
            events: [0; EVENTS_BYTES],
            line: Line::new(),
            out: Out::new(),
        }
    }

    // Takes a piece as `feed` does, with the session's own buffers.
    pub fn feed(&mut self, piece: &[u8]) -> usize
        ensures { Feeds piece.now self.old.line.items self.old.table result self.new.line.items self.new.table self.new.out.items }
    {
        feed(
            piece,
            &mut self.line,
            &mut self.table,
            &mut self.events,
            &mut self.out,
        )
    }

    // Answers the last line as `end` does. What is kept of the line stays.
    pub fn end(&mut self)
        ensures line { self.new.line.items ≡ self.old.line.items }
        ensures out { Ends self.old.line.items self.old.table self.new.out.items }
    {
        end(&self.line, &mut self.table, &mut self.events, &mut self.out);
    }
}
