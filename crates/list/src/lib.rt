// A list of requests in a lent slice of descriptions: each item is served as a single request, and its answer is stored in it. The functions
// over the slice are thin: they read and store an item.
#![tactic(auto)]

ghost use Rattle.std.specs.Prelude.{◌≡◌, ◌+◌, length};
ghost use Rattle.common.specs.Counters.{width};
ghost use Rattle.common.specs.Refusals.{first_hit, answer_of};
ghost use Rattle.table.specs.Bytes.{table_of};
ghost use Rattle.table.specs.Places.{Good};
ghost use Rattle.locks.specs.Events.{Room};
ghost use Rattle.locks.specs.List.{serve_list};
ghost use Rattle.serve.specs.Posts.{answer_to, StillLent};
ghost use Rattle.list.specs.Lists.{list_rules, ServesList};
ghost use Rattle.list.specs.Posts.{outcome_of, ServesItem, Walks};

use common::{Handle, Refusal};
use locks::Item;
use serve::{Accepted, Answer};
use settle::Events;
use table::{Records, Table};

// How many bytes a list's event buffer has at least.
pub const LIST_EVENTS_BYTES: usize = locks::EVENTS + locks::EVENT_BYTES * locks::MAX_LIST_EVENTS;

// Serves one item behind the events that stand there, and hands it back with its answer in it.
fn serve_item(t: &mut Table<'_>, e: &mut Events<'_>, x: Item) -> Item
    requires { Good t.old.n t.old.bytes.now × Room (e.old.k + length (outcome_of t.old.bytes.now x).events) e.old.bytes.now }
    ensures { ServesItem e.old.k x t.old.bytes.now e.old.bytes.now result e.new.k t.new.bytes.now e.new.bytes.now × StillLent t.old e.old t.new e.new }
{
    let a = Answer::from(serve::ask(t, e, x.into()));
    Item {
        refusal: a.refusal,
        handle: a.handle,
        events: a.events,
        ..x
    }
}

// Serves the items in their order, and stores each one's answer in it.
fn serve_items(t: &mut Table<'_>, e: &mut Events<'_>, items: &mut [Item])
    requires { Good t.old.n t.old.bytes.now × Room (e.old.k + length (serve_list (table_of width t.old.bytes.now) items.old).events) e.old.bytes.now }
    ensures { Walks e.old.k items.old t.old.bytes.now e.old.bytes.now e.new.k items.new t.new.bytes.now e.new.bytes.now × StillLent t.old e.old t.new e.new }
{
    // By place, and not by `iter_mut`: must-fail/answer_in_the_next_item.edit is refused because an answer's place is said here.
    for i in 0..items.len() {
        items[i] = serve_item(t, e, items[i]);
    }
}

// Judges a list of so many items, with so much room for events, as a whole: 1, 2, 19.
fn list_refusal(t: &[u8], room: usize, count: usize) -> Result<(), Refusal>
    ensures { answer_of result ≡ first_hit (list_rules t.now room count) }
{
    if room < LIST_EVENTS_BYTES {
        return Err(Refusal::EventBuffer);
    }
    if !sound::table_sound(t) {
        return Err(Refusal::Table);
    }
    if locks::MAX_ITEMS < count {
        return Err(Refusal::Items);
    }
    Ok(())
}

// Judges the bytes and the list, serves its items, and stores how many events they gave.
fn enter(table: &mut [u8], events: &mut [u8], items: &mut [Item]) -> Result<Accepted, Refusal>
    ensures { ServesList items.old table.old events.old (answer_to result) items.new table.new events.new }
{
    list_refusal(table, events.len(), items.len())?;
    let n = Records { bytes: &*table }.count();
    let mut t = Table { bytes: table, n };
    let mut e = Events {
        bytes: events,
        k: 0,
    };
    serve_items(&mut t, &mut e, items);
    let accepted = Accepted {
        handle: Handle(0),
        events: e.k,
    };
    serve::put_count(&mut e, accepted);
    Ok(accepted)
}

// Serves a list on bytes of which nothing is known.
pub fn serve_list(table: &mut [u8], events: &mut [u8], items: &mut [Item]) -> Answer
    ensures { ServesList items.old table.old events.old result items.new table.new events.new }
{
    enter(table, events, items).into()
}
