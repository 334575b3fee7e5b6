// The lock table of one server: its records, when it is sound, and its bytes.
#![tactic(auto)]

ghost use Rattle.std.specs.Prelude.{◌≡◌, [], ◌∷◌, ◌++◌, ◌+◌, ◌-◌, ◌^◌, ◌≤◌, ◌<◌, length};
ghost use Rattle.common.specs.Counters.{width};
ghost use Rattle.xdr.specs.Layout.{fields, put_fields, size};
ghost use Rattle.table.specs.Table.{remade, with_mark, handle_of, number_of, last_of, stripe_count, max_records};
ghost use Rattle.table.specs.Bytes.{shown_layout, shown_fields, shown_of, table_size, table_of};
ghost use Rattle.table.specs.Places.{lock_place, lock_at, count_of, ShownFits, LockFits, Shape, Holds, Moded};
ghost use Rattle.table.specs.Places.{with_issued, with_last, with_lock, with_locks, without};

use common::{COUNTER_BYTES, Handle, Number};

// The highest client and stripe, how many stripes there are, and how many records at most.
pub const MAX_CLIENT: u64 = 63;

pub const MAX_STRIPE: u64 = 15;

pub const STRIPES: usize = 16;

pub const MAX_RECORDS: usize = 256;

// The marks of a record: numbers in it, as its mode and its state are.
pub const UNMARKED: u64 = 0;

pub const MARKED: u64 = 1;

// Where the fields of a record stand, one behind the other, and how many bytes they have.
const HANDLE: usize = 0;

const CLIENT: usize = HANDLE + COUNTER_BYTES;

const STRIPE: usize = CLIENT + 4;

const MODE: usize = STRIPE + 4;

const STATE: usize = MODE + 4;

const NUMBER: usize = STATE + 4;

const FIRST: usize = NUMBER + COUNTER_BYTES;

const LAST: usize = FIRST + 8;

pub const SHOWN_BYTES: usize = LAST + 8;

const MARK: usize = SHOWN_BYTES;

const RECORD_BYTES: usize = MARK + 4;

// Where the parts of a table stand, and how many bytes they have.
const ISSUED: usize = 0;

const LASTS: usize = ISSUED + COUNTER_BYTES;

const COUNT: usize = LASTS + COUNTER_BYTES * STRIPES;

const RECORDS: usize = COUNT + 4;

pub const TABLE_BYTES: usize = RECORDS + RECORD_BYTES * MAX_RECORDS;

// A lock record: waiting in state 0, held in states 1 to 3. Its mark is 1 while a marked request waits, and else 0.
#[derive(Clone, Copy)]
pub struct Lock {
    pub handle: Handle,
    pub client: u64,
    pub stripe: u64,
    pub mode: u64,
    pub state: u64,
    pub number: Number,
    pub first: u64,
    pub last: u64,
    pub mark: u64,
}

// Makes of l the held record with this mode, state, number and last byte.
pub fn remade(l: Lock, mode: u64, state: u64, number: Number, last: u64) -> Lock
    ensures { result ≡ remade l mode state number.0 last }
{
    Lock {
        mode,
        state,
        number,
        last,
        mark: UNMARKED,
        ..l
    }
}

// Makes of l the record with this mark.
fn with_mark(l: Lock, mark: u64) -> Lock
    ensures { result ≡ with_mark l mark }
{
    Lock { mark, ..l }
}

// Reads what is shown of a record in the bytes from `at` on.
#[tactic(auto, unfolding(xdr::specs::Layout::fields))]
pub fn shown_at(s: &[u8], at: usize) -> Lock
    requires { at + size (shown_layout width) ≤ length s.now }
    ensures { (result ≡ shown_of (fields (shown_layout width) s.now at 0)) × ShownFits result }
{
    Lock {
        handle: Handle(common::counter_at(s, at + HANDLE)),
        client: xdr::number_at::<4>(s, at + CLIENT),
        stripe: xdr::number_at::<4>(s, at + STRIPE),
        mode: xdr::number_at::<4>(s, at + MODE),
        state: xdr::number_at::<4>(s, at + STATE),
        number: Number(common::counter_at(s, at + NUMBER)),
        first: xdr::number_at::<8>(s, at + FIRST),
        last: xdr::number_at::<8>(s, at + LAST),
        mark: 0,
    }
}

// Stores what is shown of a record in the bytes from `at` on.
#[tactic(auto, unfolding(xdr::specs::Layout::put_fields))]
pub fn put_shown(s: &mut [u8], at: usize, l: Lock)
    requires { at + size (shown_layout width) ≤ length s.old }
    ensures { s.new ≡ put_fields (shown_layout width) s.old at 0 (shown_fields l) }
{
    common::put_counter(s, at + HANDLE, l.handle.0);
    xdr::put_number::<4>(s, at + CLIENT, l.client);
    xdr::put_number::<4>(s, at + STRIPE, l.stripe);
    xdr::put_number::<4>(s, at + MODE, l.mode);
    xdr::put_number::<4>(s, at + STATE, l.state);
    common::put_counter(s, at + NUMBER, l.number.0);
    xdr::put_number::<8>(s, at + FIRST, l.first);
    xdr::put_number::<8>(s, at + LAST, l.last);
}

// Finds where the record at place i starts, which is where i records end: by numbers of its own, as `runbytes` does by the runs'.
pub fn place(i: usize) -> usize
    requires { i ≤ max_records }
    ensures { result ≡ lock_place i }
{
    RECORDS + RECORD_BYTES * i
}

// The bytes of a table, of the right length, lent for reading. Whether their records are sound is not known.
#[derive(Clone, Copy)]
pub struct Records<'a> {
    pub bytes: &'a [u8],
    ghost size: { length bytes.now ≡ table_size width },
}

// Each reader says by its name which field it reads. They are a line each, and one for all fields would be no shorter to call.
impl<'a> Records<'a> {
    // Reads the number of records.
    pub fn count(&self) -> usize
        ensures { result ≡ count_of self.now.bytes.now }
    {
        xdr::number_at::<4>(self.bytes, COUNT) as usize
    }

    // Reads how many handles are issued.
    pub fn issued(&self) -> u64
        ensures { (result ≡ (table_of width self.now.bytes.now).issued) × (result < 256 ^ width) }
    {
        common::counter_at(self.bytes, ISSUED)
    }

    // Reads the last number of stripe s.
    pub fn last_of(&self, s: usize) -> Number
        requires { s < stripe_count }
        ensures { (result.0 ≡ last_of (table_of width self.now.bytes.now) s) × (result.0 < 256 ^ width) }
    {
        Number(common::counter_at(self.bytes, LASTS + COUNTER_BYTES * s))
    }

    // Reads the record at place i.
    pub fn lock(&self, i: usize) -> Lock
        requires { i < max_records }
        ensures { (result ≡ lock_at self.now.bytes.now i) × LockFits result }
    {
        let at = place(i);
        with_mark(
            shown_at(self.bytes, at),
            xdr::number_at::<4>(self.bytes, at + MARK),
        )
    }

    // Reads the handle of the record at place i.
    pub fn handle(&self, i: usize) -> Handle
        requires { i < max_records }
        ensures { result.0 ≡ handle_of (lock_at self.now.bytes.now i) }
    {
        Handle(common::counter_at(self.bytes, place(i) + HANDLE))
    }

    // Reads the stripe of the record at place i.
    pub fn stripe(&self, i: usize) -> u64
        requires { i < max_records }
        ensures { result ≡ (lock_at self.now.bytes.now i).stripe }
    {
        xdr::number_at::<4>(self.bytes, place(i) + STRIPE)
    }

    // Reads the mode of the record at place i.
    pub fn mode(&self, i: usize) -> u64
        requires { i < max_records }
        ensures { result ≡ (lock_at self.now.bytes.now i).mode }
    {
        xdr::number_at::<4>(self.bytes, place(i) + MODE)
    }

    // Reads the mode of the record at place i of n records whose modes are known: such a mode stands in the last byte of its field.
    pub fn known_mode(&self, n: usize, i: usize) -> u64
        requires { Moded n self.now.bytes.now × (i < n) }
        ensures { (result ≡ (lock_at self.now.bytes.now i).mode) × (1 ≤ result) × (result ≤ 4) }
    {
        self.bytes[place(i) + MODE + 3] as u64
    }

    // Reads the state of the record at place i.
    pub fn state(&self, i: usize) -> u64
        requires { i < max_records }
        ensures { result ≡ (lock_at self.now.bytes.now i).state }
    {
        xdr::number_at::<4>(self.bytes, place(i) + STATE)
    }

    // Reads the number of the record at place i.
    pub fn number(&self, i: usize) -> Number
        requires { i < max_records }
        ensures { (result.0 ≡ number_of (lock_at self.now.bytes.now i)) × (result.0 < 256 ^ width) }
    {
        Number(common::counter_at(self.bytes, place(i) + NUMBER))
    }

    // Reads the first byte of the record at place i.
    pub fn first(&self, i: usize) -> u64
        requires { i < max_records }
        ensures { result ≡ (lock_at self.now.bytes.now i).first }
    {
        xdr::number_at::<8>(self.bytes, place(i) + FIRST)
    }

    // Reads the last byte of the record at place i.
    pub fn last(&self, i: usize) -> u64
        requires { i < max_records }
        ensures { result ≡ (lock_at self.now.bytes.now i).last }
    {
        xdr::number_at::<8>(self.bytes, place(i) + LAST)
    }
}

// A table of n records, lent for reading.
#[derive(Clone, Copy)]
pub struct Listed<'a> {
    pub records: Records<'a>,
    pub n: usize,
    ghost shape: { Shape n records.bytes.now },
}

// A lent table of n records. What changes it keeps this shape. That it is sound (`Good`) is a clause where it is asked: a message changes a table
// field by field, so it is sound only between changes.
#[derive(Drop)]
pub struct Table<'a> {
    pub bytes: &'a mut [u8],
    pub n: usize,
    ghost shape: { Shape n bytes.now },
}

impl<'a> Table<'a> {
    // Lends the records for reading.
    pub fn records(&self) -> Records<'_>
        ensures { result.bytes.now ≡ self.now.bytes.now }
    {
        Records {
            bytes: &*self.bytes,
        }
    }

    // Lends the table for reading.
    pub fn listed(&self) -> Listed<'_>
        ensures { (result.records.bytes.now ≡ self.now.bytes.now) × (result.n ≡ self.now.n) }
    {
        Listed {
            records: self.records(),
            n: self.n,
        }
    }

    // Stores the record at place i.
    pub fn put_lock(&mut self, i: usize, l: Lock)
        requires { (i < self.old.n) × LockFits l }
        ensures { Holds self.new.n (with_lock (table_of width self.old.bytes.now) i l) self.new.bytes.now × (self.new.n ≡ self.old.n) × (self.new.bytes.ghost_name ≡ self.old.bytes.ghost_name) }
    {
        let at = place(i);
        let t = &mut *self.bytes;
        put_shown(t, at, l);
        xdr::put_number::<4>(t, at + MARK, l.mark);
    }

    // Stores how many handles are issued.
    pub fn put_issued(&mut self, v: u64)
        requires { v < 256 ^ width }
        ensures { Holds self.new.n (with_issued (table_of width self.old.bytes.now) v) self.new.bytes.now × (self.new.n ≡ self.old.n) × (self.new.bytes.ghost_name ≡ self.old.bytes.ghost_name) }
    {
        common::put_counter(self.bytes, ISSUED, v);
    }

    // Stores the last number of stripe s.
    pub fn put_last(&mut self, s: usize, v: Number)
        requires { (s < stripe_count) × (v.0 < 256 ^ width) }
        ensures { Holds self.new.n (with_last (table_of width self.old.bytes.now) s v.0) self.new.bytes.now × (self.new.n ≡ self.old.n) × (self.new.bytes.ghost_name ≡ self.old.bytes.ghost_name) }
    {
        common::put_counter(self.bytes, LASTS + COUNTER_BYTES * s, v.0);
    }

    // Adds the record after the n.
    pub fn add(&mut self, l: Lock)
        requires { (self.old.n < max_records) × LockFits l }
        ensures { Holds self.new.n (with_locks (table_of width self.old.bytes.now) ((table_of width self.old.bytes.now).locks ++ (l ∷ []))) self.new.bytes.now × (self.new.n ≡ self.old.n + 1) × (self.new.bytes.ghost_name ≡ self.old.bytes.ghost_name) }
    {
        let i = self.n;
        xdr::put_number::<4>(self.bytes, COUNT, i as u64 + 1);
        self.n = i + 1;
        self.put_lock(i, l);
    }

    // Takes out the record at place i: the later ones go down by one, and the last place is cleared.
    pub fn remove(&mut self, i: usize)
        requires { i < self.old.n }
        ensures { Holds self.new.n (with_locks (table_of width self.old.bytes.now) (without i (table_of width self.old.bytes.now).locks)) self.new.bytes.now × (self.new.n ≡ self.old.n - 1) × (self.new.bytes.ghost_name ≡ self.old.bytes.ghost_name) }
    {
        let last = self.n - 1;
        let t = &mut *self.bytes;
        t.copy_within(place(i + 1)..place(last + 1), place(i));
        t[place(last)..place(last + 1)].fill(0);
        xdr::put_number::<4>(t, COUNT, last as u64);
        self.n = last;
    }
}
