// Settling a lent table: the turns, then the revocations. Events are written behind those that stand in the buffer already.
#![tactic(auto)]

ghost use Rattle.std.specs.Prelude.{◌≡◌, [], ◌∷◌, ◌+◌, ◌^◌, ◌<◌, length};
ghost use Rattle.common.specs.Counters.{width};
ghost use Rattle.table.specs.Table.{waits, stripe_count};
ghost use Rattle.table.specs.Bytes.{locks_of, table_of};
ghost use Rattle.table.specs.Places.{lock_at, Shape, Good, Moded, Past, First};
ghost use Rattle.locks.specs.Conflicts.{hurries};
ghost use Rattle.locks.specs.Settle.{next_number, turn, turns, revoke, revocations, settle};
ghost use Rattle.locks.specs.Events.{Room};
ghost use Rattle.settle.specs.Posts.{granted_as, Took, Due, number_of, FirstOf, put_events, fresh, Did, Leads, revoke_at, Wanted};

use common::Number;
use conflicts::Known;
use locks::{EVENT_BYTES, EVENTS, GRANT, KIND_BYTES, REVOCATION};
use modes::{ASKED, CANCELING, GRANTED, PR, WAITING};
use table::{Lock, Table, UNMARKED};

// What an event tells of.
#[derive(Clone, Copy)]
enum Kind {
    Grant,
    Revocation,
}

impl Kind {
    // The number that stands for it in an event's bytes.
    fn number(self) -> u64
        ensures { result ≡ number_of self }
    {
        match self {
            Kind::Grant => GRANT,
            Kind::Revocation => REVOCATION,
        }
    }
}

// A buffer in which k events stand.
#[derive(Drop)]
pub struct Events<'a> {
    pub bytes: &'a mut [u8],
    pub k: usize,
}

impl<'a> Events<'a> {
    // Writes an event behind those that stand there.
    fn put(&mut self, kind: Kind, l: Lock)
        requires { Room (self.old.k + 1) self.old.bytes.now }
        ensures { (self.new.bytes.now ≡ put_events self.old.bytes.now self.old.k (record { kind = number_of kind; lock = l } ∷ [])) × (self.new.k ≡ self.old.k + 1) × (self.new.bytes.ghost_name ≡ self.old.bytes.ghost_name) }
    {
        let at = EVENTS + EVENT_BYTES * self.k;
        xdr::put_number::<4>(self.bytes, at, kind.number());
        table::put_shown(self.bytes, at + KIND_BYTES, l);
        self.k += 1;
    }
}

// Table and events stay two parameters below: each is a struct with methods of its own, and one of both would only be taken apart again. That modes
// are known (`Moded`) is a clause where a table changes, since a `Table` takes any record; lent for questions it is `Known`. A place,
// and the room for one event more, are of the call: they are said where they are asked.

// Lends a table whose modes are known for questions.
fn known<'a>(t: &'a Table<'_>) -> Known<'a>
    requires { Moded t.now.n t.now.bytes.now }
    ensures { (result.n ≡ t.now.n) × (result.records.bytes.now ≡ t.now.bytes.now) }
{
    Known {
        records: t.records(),
        n: t.n,
    }
}

// Makes of w, the record at place i, what it is granted as, with the number v.
fn granted(known: &Known<'_>, i: usize, w: Lock, v: Number) -> Lock
    requires { (i < known.now.n) × (w ≡ lock_at known.now.records.bytes.now i) × Past (hurries (lock_at known.now.records.bytes.now i)) known.now.n (locks_of width known.now.records.bytes.now) i }
    ensures { result ≡ granted_as (locks_of width known.now.records.bytes.now) w v.0 }
{
    let (state, last) = if known.hurried(i) {
        (CANCELING, w.last)
    } else if w.mark == UNMARKED {
        (GRANTED, known.reach(i))
    } else {
        (GRANTED, w.last)
    };
    table::remade(w, w.mode, state, v, last)
}

// Takes the number for w's grant: 0 for PR, else its stripe's next, which becomes its last.
fn take_number(t: &mut Table<'_>, w: Lock) -> Number
    requires { (w.stripe < stripe_count) × (next_number (table_of width t.old.bytes.now).lasts w < 256 ^ width) }
    ensures { Took t.new.n w (table_of width t.old.bytes.now) result.0 t.new.bytes.now × (t.new.n ≡ t.old.n) × (t.new.bytes.ghost_name ≡ t.old.bytes.ghost_name) }
{
    if w.mode == PR {
        return Number(0);
    }
    let s = w.stripe as usize;
    let v = Number(t.records().last_of(s).0 + 1);
    t.put_last(s, v);
    v
}

// Grants w, the record at place i, and writes its event.
fn grant(t: &mut Table<'_>, e: &mut Events<'_>, i: usize, w: Lock)
    requires { Due t.old.n i w t.old.bytes.now × Room (e.old.k + 1) e.old.bytes.now }
    ensures { Leads t.old e.old (turn i (fresh (table_of width t.old.bytes.now))) t.new e.new }
{
    let v = take_number(t, w);
    let g = granted(&known(t), i, w, v);
    t.put_lock(i, g);
    e.put(Kind::Grant, g);
}

// Takes the turn of the record at place i.
fn turn(t: &mut Table<'_>, e: &mut Events<'_>, i: usize)
    requires { Good t.old.n t.old.bytes.now × (i < t.old.n) × Room (e.old.k + length (turn i (fresh (table_of width t.old.bytes.now))).events) e.old.bytes.now }
    ensures { Leads t.old e.old (turn i (fresh (table_of width t.old.bytes.now))) t.new e.new }
{
    if t.records().state(i) != WAITING || known(t).blocked(i) {
        return;
    }
    let w = t.records().lock(i);
    grant(t, e, i, w);
}

// Takes all turns.
fn grants(t: &mut Table<'_>, e: &mut Events<'_>)
    requires { Good t.old.n t.old.bytes.now × Room (e.old.k + length (turns t.old.n (table_of width t.old.bytes.now)).events) e.old.bytes.now }
    ensures { Leads t.old e.old (turns t.old.n (table_of width t.old.bytes.now)) t.new e.new }
{
    for i in 0..t.n {
        turn(t, e, i);
    }
}

// Finds the first record that waits.
fn first_waiting(t: &Table<'_>) -> Option<usize>
    ensures { FirstOf waits t.now.n (locks_of width t.now.bytes.now) result }
{
    let r = t.records();
    (0..t.n).find(|i| r.state(*i) == WAITING)
}

// Makes r, the record at place i, asked, and writes its event.
fn ask(t: &mut Table<'_>, e: &mut Events<'_>, i: usize, r: Lock)
    requires { Wanted t.old.n i r t.old.bytes.now × Room (e.old.k + 1) e.old.bytes.now }
    ensures { Leads t.old e.old (revoke_at i (table_of width t.old.bytes.now)) t.new e.new }
{
    let q = table::remade(r, r.mode, ASKED, r.number, r.last);
    t.put_lock(i, q);
    e.put(Kind::Revocation, q);
}

// Revokes the record at place i if it is wanted; none waits before place f.
fn revoke(t: &mut Table<'_>, e: &mut Events<'_>, f: usize, i: usize)
    requires { Moded t.old.n t.old.bytes.now × Past waits t.old.n (locks_of width t.old.bytes.now) f × (i < t.old.n) × Room (e.old.k + length (revoke_at i (table_of width t.old.bytes.now)).events) e.old.bytes.now }
    ensures { Leads t.old e.old (revoke_at i (table_of width t.old.bytes.now)) t.new e.new }
{
    if t.records().state(i) != GRANTED || !known(t).pressed(f, i) {
        return;
    }
    let r = t.records().lock(i);
    ask(t, e, i, r);
}

// Revokes each record that is wanted; none waits before place f.
fn revokes(t: &mut Table<'_>, e: &mut Events<'_>, f: usize)
    requires { Moded t.old.n t.old.bytes.now × Past waits t.old.n (locks_of width t.old.bytes.now) f × Room (e.old.k + length (revocations (locks_of width t.old.bytes.now))) e.old.bytes.now }
    ensures { Leads t.old e.old (revoke (fresh (table_of width t.old.bytes.now))) t.new e.new }
{
    for i in 0..t.n {
        revoke(t, e, f, i);
    }
}

// Revokes what the waiting requests want: nothing where none waits.
fn revocations(t: &mut Table<'_>, e: &mut Events<'_>)
    requires { Moded t.old.n t.old.bytes.now × Room (e.old.k + length (revocations (locks_of width t.old.bytes.now))) e.old.bytes.now }
    ensures { Leads t.old e.old (revoke (fresh (table_of width t.old.bytes.now))) t.new e.new }
{
    if let Some(f) = first_waiting(t) {
        revokes(t, e, f);
    }
}

// Settles the table, and writes the events behind those that stand there already.
pub fn settle(t: &mut Table<'_>, e: &mut Events<'_>)
    requires { Good t.old.n t.old.bytes.now × Room (e.old.k + length (settle (table_of width t.old.bytes.now)).events) e.old.bytes.now }
    ensures { Leads t.old e.old (settle (table_of width t.old.bytes.now)) t.new e.new }
{
    grants(t, e);
    revocations(t, e);
}
