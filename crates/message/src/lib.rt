// A message on bytes of which nothing is known: 1 and 2 are judged, and then it is served.
#![tactic(auto)]

ghost use Rattle.std.specs.Prelude.{◌≡◌};
ghost use Rattle.common.specs.Refusals.{first_hit, answer_of};
ghost use Rattle.serve.specs.Posts.{answer_to, Lent, Gives};
ghost use Rattle.message.specs.Messages.{entry_rules, Serves};

use common::{Handle, Refusal};
use judge::{Asked, Becomes};
use locks::Message;
use serve::{Accepted, Answer};
use settle::Events;
use table::{Records, Table};

// How many bytes the event buffer has at least.
pub const EVENTS_BYTES: usize = locks::EVENTS + locks::EVENT_BYTES * table::MAX_RECORDS;

// Serves one message on a sound table.
fn serve(t: &mut Table<'_>, e: &mut Events<'_>, m: Message) -> Result<Accepted, Refusal>
    requires { Lent t.old e.old }
    ensures { Gives m t.old e.old result t.new e.new }
{
    match m {
        Message::Request {
            client,
            stripe,
            mode,
            first,
            last,
            marked,
        } => {
            let a = Asked {
                client,
                stripe,
                mode,
                first,
                last,
                marked,
            };
            serve::request(t, e, a)
        }
        Message::Acknowledge { client, handle } => {
            serve::remake(t, e, client, Handle(handle), Becomes::Canceling)
        }
        Message::Downgrade { client, handle } => {
            serve::remake(t, e, client, Handle(handle), Becomes::Nbw)
        }
        Message::Release { client, handle } => serve::release(t, e, client, Handle(handle)),
    }
}

// Judges bytes of which nothing is known by 1 and 2.
fn entry_refusal(table: &[u8], events: &[u8]) -> Result<(), Refusal>
    ensures { answer_of result ≡ first_hit (entry_rules table.now events.now) }
{
    if events.len() < EVENTS_BYTES {
        return Err(Refusal::EventBuffer);
    }
    if !sound::table_sound(table) {
        return Err(Refusal::Table);
    }
    Ok(())
}

// Judges the bytes, and serves a message on them.
fn enter(table: &mut [u8], events: &mut [u8], m: Message) -> Result<Accepted, Refusal>
    ensures { Serves m table.old events.old (answer_to result) table.new events.new }
{
    entry_refusal(table, events)?;
    let n = Records { bytes: &*table }.count();
    let mut t = Table { bytes: table, n };
    let mut e = Events {
        bytes: events,
        k: 0,
    };
    serve(&mut t, &mut e, m)
}

// Serves a message on bytes of which nothing is known.
pub fn call(table: &mut [u8], events: &mut [u8], m: Message) -> Answer
    ensures { Serves m table.old events.old result table.new events.new }
{
    enter(table, events, m).into()
}
