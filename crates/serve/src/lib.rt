// A call on a sound table: its refusals, its own change, and the settling. The four messages are such calls.
#![tactic(auto)]

ghost use Rattle.std.specs.Prelude.{◌≡◌, ◌+◌, length, Ok};
ghost use Rattle.common.specs.Counters.{width};
ghost use Rattle.xdr.specs.Be.{put_be};
ghost use Rattle.table.specs.Bytes.{table_of};
ghost use Rattle.table.specs.Places.{Good};
ghost use Rattle.locks.specs.declared.Message.TheVariants.{Release};
ghost use Rattle.locks.specs.Settle.{settle};
ghost use Rattle.locks.specs.Serve.{asking, serve};
ghost use Rattle.locks.specs.Events.{Room};
ghost use Rattle.judge.specs.Posts.{asks, requests};
ghost use Rattle.serve.specs.Posts.{answer_to, Behind, EndsBehind, Ends, Lent, StillLent, Gives};

use common::{Handle, Number, Refusal};
use judge::{Asked, Becomes};
use modes::WAITING;
use settle::Events;
use table::{Lock, MARKED, Table, UNMARKED};

// What C is answered by a call: its refusal or 0, the handle that it made or named, and how many events it wrote. It is C's struct, so the
// refusal stands beside the rest; inside it is a `Result`.
#[repr(C)]
#[derive(Clone, Copy)]
pub struct Answer {
    pub refusal: u64,
    pub handle: u64,
    pub events: u64,
}

// What an accepted call answers: the handle that it made or named, 0 for a list, and how many events it wrote.
#[derive(Clone, Copy)]
pub struct Accepted {
    pub handle: Handle,
    pub events: usize,
}

// A refused call answers its number, no handle and no events.
impl From<Result<Accepted, Refusal>> for Answer {
    ghost from_gives = { λ r a. a ≡ answer_to r };

    fn from(r: Result<Accepted, Refusal>) -> Answer {
        match r {
            Ok(accepted) => Answer {
                refusal: 0,
                handle: accepted.handle.0,
                events: accepted.events as u64,
            },
            Err(refusal) => Answer {
                refusal: refusal.into(),
                handle: 0,
                events: 0,
            },
        }
    }
}

// Table and events stay two parameters, as in settling. `Lent` is one word for what a whole call is lent: a sound table, and a buffer with no events.

// Settles the changed table, writes the events behind those that stand there already, and answers the handle h. Their count is the caller's to
// store.
fn settled(t: &mut Table<'_>, e: &mut Events<'_>, h: Handle) -> Accepted
    requires { Good t.old.n t.old.bytes.now × Room (e.old.k + length (settle (table_of width t.old.bytes.now)).events) e.old.bytes.now }
    ensures { EndsBehind e.old.k h.0 (table_of width t.old.bytes.now) e.old.bytes.now (answer_to (Ok result)) e.new.k t.new.bytes.now e.new.bytes.now × StillLent t.old e.old t.new e.new }
{
    let before = e.k;
    settle::settle(t, e);
    Accepted {
        handle: h,
        events: e.k - before,
    }
}

// Stores how many events an accepted call gave.
pub fn put_count(e: &mut Events<'_>, a: Accepted)
    requires { Room 0 e.old.bytes.now }
    ensures { (e.new.bytes.now ≡ put_be 4 e.old.bytes.now 0 a.events) × (e.new.bytes.ghost_name ≡ e.old.bytes.ghost_name) × (e.new.k ≡ e.old.k) }
{
    xdr::put_number::<4>(e.bytes, 0, a.events as u64);
}

// Settles the changed table, stores how many events there are, and answers the handle h.
fn finish(t: &mut Table<'_>, e: &mut Events<'_>, h: Handle) -> Accepted
    requires { Lent t.old e.old }
    ensures { Ends h.0 (table_of width t.old.bytes.now) e.old.bytes.now (answer_to (Ok result)) t.new.bytes.now e.new.bytes.now × StillLent t.old e.old t.new e.new }
{
    let accepted = settled(t, e, h);
    put_count(e, accepted);
    accepted
}

// Makes the record of a request, which waits.
fn waiting(h: Handle, a: Asked) -> Lock
    ensures { result ≡ asking h.0 a.client a.stripe a.mode a.first a.last a.marked }
{
    Lock {
        handle: h,
        client: a.client,
        stripe: a.stripe,
        mode: a.mode,
        state: WAITING,
        number: Number(0),
        first: a.first,
        last: a.last,
        mark: if a.marked { MARKED } else { UNMARKED },
    }
}

// Adds a waiting record for a request, and settles, behind the events that stand there. Their count is the caller's to store.
pub fn ask(t: &mut Table<'_>, e: &mut Events<'_>, a: Asked) -> Result<Accepted, Refusal>
    requires { Good t.old.n t.old.bytes.now × Room (e.old.k + length (serve (table_of width t.old.bytes.now) (requests a)).events) e.old.bytes.now }
    ensures { Behind e.old.k (serve (table_of width t.old.bytes.now) (requests a)) t.old.bytes.now e.old.bytes.now (answer_to result) e.new.k t.new.bytes.now e.new.bytes.now × StillLent t.old e.old t.new e.new }
{
    judge::request_refusal(&t.listed(), a)?;
    let h = Handle(t.records().issued() + 1);
    t.put_issued(h.0);
    t.add(waiting(h, a));
    Ok(settled(t, e, h))
}

// Gives a request.
pub fn request(t: &mut Table<'_>, e: &mut Events<'_>, a: Asked) -> Result<Accepted, Refusal>
    requires { Lent t.old e.old }
    ensures { Gives (requests a) t.old e.old result t.new e.new }
{
    let accepted = ask(t, e, a)?;
    put_count(e, accepted);
    Ok(accepted)
}

// Remakes the client's record with the handle, and settles.
pub fn remake(
    t: &mut Table<'_>,
    e: &mut Events<'_>,
    client: u64,
    handle: Handle,
    to: Becomes,
) -> Result<Accepted, Refusal>
    requires { Lent t.old e.old }
    ensures { Gives (asks to client handle.0) t.old e.old result t.new e.new }
{
    let i = judge::named(&t.listed(), client, handle)?;
    let l = to.of(t.records().lock(i))?;
    t.put_lock(i, l);
    Ok(finish(t, e, handle))
}

// Removes a record, or withdraws a request, and settles.
pub fn release(
    t: &mut Table<'_>,
    e: &mut Events<'_>,
    client: u64,
    handle: Handle,
) -> Result<Accepted, Refusal>
    requires { Lent t.old e.old }
    ensures { Gives (Release client handle.0) t.old e.old result t.new e.new }
{
    let i = judge::named(&t.listed(), client, handle)?;
    t.remove(i);
    Ok(finish(t, e, handle))
}
