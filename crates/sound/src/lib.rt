// Says whether a lock table's bytes are sound, by every rule of document 01.
#![tactic(auto)]

ghost use Rattle.std.specs.Prelude.{◌≡◌, ◌≤◌, ◌<◌, length};
ghost use Rattle.common.specs.Counters.{width};
ghost use Rattle.common.specs.Tests.{all, pairs};
ghost use Rattle.table.specs.Table.{max_records};
ghost use Rattle.table.specs.Sound.{valid, well_marked, numbered, differ, room, stripes};
ghost use Rattle.table.specs.Bytes.{table_size, table_of, sound_table_bytes};
ghost use Rattle.table.specs.Places.{lock_at};
ghost use Rattle.sound.specs.Parts.{Sized, Tallied, Owns, each_sound, friendly, owned, smaller_yields};

use common::{EOF, HIGHEST, Handle, Number};
use modes::{BW, CANCELING, NBW, PR, WAITING};
use table::{
    Lock, MARKED, MAX_CLIENT, MAX_RECORDS, MAX_STRIPE, Records, STRIPES, TABLE_BYTES, UNMARKED,
};

// A number that no record has.
const NO_NUMBER: Number = Number(HIGHEST + 1);

// Says whether a record's mark is one that it may have.
fn is_well_marked(l: Lock) -> bool
    ensures { result ≡ well_marked l }
{
    if l.state == WAITING {
        return l.mark <= MARKED;
    }
    l.mark == UNMARKED
}

// Says whether, of a and a lock of this number, mode and state, the one with the smaller number makes way.
#[tactic(auto, unfolding(crate::specs::Parts::smaller_yields))]
fn smaller_yields(a: Lock, number: Number, mode: u64, state: u64) -> bool
    ensures { result ≡ smaller_yields a number.0 mode state }
{
    if a.number < number {
        return ((a.mode == NBW) & (a.state == CANCELING)) & ((NBW <= mode) & (mode <= BW));
    }
    ((mode == NBW) & (state == CANCELING)) & ((NBW <= a.mode) & (a.mode <= BW))
}

// The number that no other held write lock of a's stripe may have: none for a PR lock.
fn own_number(a: Lock) -> Number
    ensures { result.0 ≡ owned a }
{
    if a.mode == PR {
        return NO_NUMBER;
    }
    a.number
}

// A held record among the records of a table's bytes, with the number that it owns.
#[derive(Clone, Copy)]
struct Holder<'a> {
    records: Records<'a>,
    lock: Lock,
    own: Number,
    ghost owns: { Owns lock own.0 },
}

impl<'a> Holder<'a> {
    // Says whether the record at place j, of its stripe, has another number, if both are held write locks.
    fn differs(&self, j: usize) -> bool
        requires { (j < max_records) × ((lock_at self.now.records.bytes.now j).stripe ≡ self.now.lock.stripe) }
        ensures { result ≡ differ self.now.lock (lock_at self.now.records.bytes.now j) }
    {
        if self.records.number(j) != self.own {
            return true;
        }
        (self.records.state(j) == WAITING) | (self.records.mode(j) == PR)
    }

    // Says whether the record at place j may be there too. It reads stripe and range before anything else.
    fn befriends(&self, j: usize) -> bool
        requires { j < max_records }
        ensures { result ≡ friendly self.now.lock (lock_at self.now.records.bytes.now j) }
    {
        if self.records.stripe(j) != self.lock.stripe {
            return true;
        }
        if self.lock.last < self.records.first(j) {
            return self.differs(j);
        }
        if self.records.last(j) < self.lock.first {
            return self.differs(j);
        }
        let mode = self.records.mode(j);
        if (self.lock.mode == PR) & (mode == PR) {
            return true;
        }
        let state = self.records.state(j);
        if state == WAITING {
            return true;
        }
        let number = self.records.number(j);
        if number == self.lock.number {
            return false;
        }
        smaller_yields(self.lock, number, mode, state)
    }
}

// A table's bytes whose records are judged: how many they say there are, and how many handles are issued.
#[derive(Clone, Copy)]
struct Candidate<'a> {
    records: Records<'a>,
    n: usize,
    issued: u64,
    ghost sized: { Sized n records.bytes.now },
}

impl<'a> Candidate<'a> {
    // Says whether a record's number is one that it may have.
    fn is_numbered(&self, l: Lock) -> bool
        ensures { result ≡ numbered (table_of width self.now.records.bytes.now).lasts l }
    {
        let waits = l.state == WAITING;
        if waits | (l.mode == PR) {
            return l.number == Number(0);
        }
        if MAX_STRIPE < l.stripe {
            return false;
        }
        (Number(1) <= l.number) & (l.number <= self.records.last_of(l.stripe as usize))
    }

    // Says whether a record is valid by itself.
    fn is_valid(&self, l: Lock) -> bool
        ensures { result ≡ valid self.now.issued (table_of width self.now.records.bytes.now).lasts l }
    {
        let handle = (Handle(1) <= l.handle) & (l.handle <= Handle(self.issued));
        let range = (l.first <= l.last) & (l.last <= EOF);
        let fields = handle
            & (l.client <= MAX_CLIENT)
            & (l.stripe <= MAX_STRIPE)
            & modes::known_mode(l.mode)
            & modes::known_state(l.state)
            & range
            & is_well_marked(l);
        if !fields {
            return false;
        }
        self.is_numbered(l)
    }

    // Says whether each stripe has room for the numbers that its waiting write requests, waiters[s] for stripe s, will take.
    fn rooms(&self, waiters: &[u64]) -> bool
        requires { Tallied self.now.n waiters.now (table_of width self.now.records.bytes.now).locks }
        ensures { result ≡ all (room self.now.issued (table_of width self.now.records.bytes.now).lasts (table_of width self.now.records.bytes.now).locks) stripes }
    {
        let mut ok = true;
        for s in 0..STRIPES {
            ok &= self.records.last_of(s).0 + waiters[s] <= self.issued;
        }
        ok
    }

    // Says whether the handles rise, each record is valid by itself and each stripe has room. It reads each record once.
    fn each_sound(&self) -> bool
        ensures { result ≡ each_sound self.now.issued (table_of width self.now.records.bytes.now) }
    {
        let mut waiters = [0u64; STRIPES];
        let mut before = Handle(0);
        for i in 0..self.n {
            let l = self.records.lock(i);
            if l.handle <= before {
                return false;
            }
            if !self.is_valid(l) {
                return false;
            }
            before = l.handle;
            waiters[l.stripe as usize] += u64::from((l.state == WAITING) & (l.mode != PR));
        }
        self.rooms(&waiters)
    }

    // Says whether every two records may both be there. The search stops at the first pair that may not.
    fn all_friends(&self) -> bool
        ensures { result ≡ pairs friendly (table_of width self.now.records.bytes.now).locks }
    {
        let mut ok = true;
        'search: for i in 0..self.n {
            if self.records.state(i) == WAITING {
                continue;
            }
            let lock = self.records.lock(i);
            let holder = Holder {
                records: self.records,
                lock,
                own: own_number(lock),
            };
            for j in i + 1..self.n {
                if !holder.befriends(j) {
                    ok = false;
                    break 'search;
                }
            }
        }
        ok
    }
}

// Says whether the bytes are a sound table, as refusal 2 asks.
pub fn table_sound(t: &[u8]) -> bool
    ensures { result ≡ sound_table_bytes t.now }
{
    if t.len() != TABLE_BYTES {
        return false;
    }
    let records = Records { bytes: t };
    let n = records.count();
    if MAX_RECORDS < n {
        return false;
    }
    let all = Candidate {
        records,
        n,
        issued: records.issued(),
    };
    all.each_sound() & all.all_friends() & common::is_blank(t, table::place(n))
}
