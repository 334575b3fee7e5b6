// The questions that settling asks of a table's bytes: whom a record conflicts with, who keeps it waiting, hurries it, cuts its range, wants it.
#![tactic(auto)]

ghost use Rattle.std.specs.Prelude.{◌≡◌, ◌≤◌, ◌<◌};
ghost use Rattle.common.specs.Counters.{width};
ghost use Rattle.common.specs.Ranges.{eof};
ghost use Rattle.common.specs.Tests.{any};
ghost use Rattle.modes.specs.Codes.{code_of};
ghost use Rattle.table.specs.Table.{waits, max_records};
ghost use Rattle.table.specs.Bytes.{table_size, locks_of};
ghost use Rattle.table.specs.Places.{lock_at, Moded, Past};
ghost use Rattle.locks.specs.Conflicts.{against, conflicts, obstacle, hurries};
ghost use Rattle.locks.specs.Settle.{widest, presses};
ghost use Rattle.conflicts.specs.Parts.{near, ignores, cut_by};

use common::EOF;
use modes::{CANCELING, Mode, WAITING};
use table::Records;

// A table of n records whose modes are known, lent for questions.
#[derive(Clone, Copy)]
pub struct Known<'a> {
    pub records: Records<'a>,
    pub n: usize,
    ghost moded: { Moded n records.bytes.now },
}

// Each question is of a place below n, or of two: these are the call's to know.
impl<'a> Known<'a> {
    // Reads the mode of the record at place i. The crate `table` alone knows in which byte it stands.
    fn mode(&self, i: usize) -> Mode
        requires { i < self.now.n }
        ensures { code_of result ≡ (lock_at self.now.records.bytes.now i).mode }
    {
        modes::mode_of(self.records.known_mode(self.n, i)).unwrap()
    }

    // Says whether the record at place j has the stripe of the one at place i, and a byte of what that asks up to l.
    // Here and below, `&` and `|` join what is cheap to ask: with `&&` and `||` there too, settling 255 waiting requests takes a third longer.
    fn near(&self, i: usize, j: usize, l: u64) -> bool
        requires { (i < self.now.n) × (j < self.now.n) }
        ensures { result ≡ near (lock_at self.now.records.bytes.now i) l (lock_at self.now.records.bytes.now j) }
    {
        let r = self.records;
        (r.stripe(i) == r.stripe(j)) & ((r.first(i) <= r.last(j)) & (r.first(j) <= l))
    }

    // Says whether the record at place j conflicts with what the one at place i asks up to l.
    fn meets(&self, i: usize, j: usize, l: u64) -> bool
        requires { (i < self.now.n) × (j < self.now.n) }
        ensures { result ≡ against (lock_at self.now.records.bytes.now i) l (lock_at self.now.records.bytes.now j) }
    {
        let r = self.records;
        self.near(i, j, l)
            && ((r.handle(i) != r.handle(j))
                & modes::conflict(self.mode(i), self.mode(j), r.state(j)))
    }

    // Says whether the record at place j conflicts with what the one at place i asks.
    fn conflicts(&self, i: usize, j: usize) -> bool
        requires { (i < self.now.n) × (j < self.now.n) }
        ensures { result ≡ conflicts (lock_at self.now.records.bytes.now i) (lock_at self.now.records.bytes.now j) }
    {
        self.meets(i, j, self.records.last(i))
    }

    // Says whether the record at place j is a canceling NBW, which the mode of the one at place i need not heed.
    fn ignores(&self, i: usize, j: usize) -> bool
        requires { (i < self.now.n) × (j < self.now.n) }
        ensures { result ≡ ignores (lock_at self.now.records.bytes.now i) (lock_at self.now.records.bytes.now j) }
    {
        self.records.state(j) == CANCELING
            && self.mode(j) == Mode::Nbw
            && !modes::conflict(self.mode(i), Mode::Nbw, CANCELING)
    }

    // Says whether the record at place j keeps the one at place i waiting.
    fn hinders(&self, i: usize, j: usize) -> bool
        requires { (i < self.now.n) × (j < self.now.n) }
        ensures { result ≡ obstacle (lock_at self.now.records.bytes.now i) (lock_at self.now.records.bytes.now j) }
    {
        let r = self.records;
        ((r.state(j) != WAITING) | (r.handle(j) < r.handle(i)))
            && !self.ignores(i, j)
            && self.conflicts(i, j)
    }

    // Says whether the record at place j is a later request for what the one at place i asks.
    fn hurrying(&self, i: usize, j: usize) -> bool
        requires { (i < self.now.n) × (j < self.now.n) }
        ensures { result ≡ hurries (lock_at self.now.records.bytes.now i) (lock_at self.now.records.bytes.now j) }
    {
        let r = self.records;
        ((r.state(j) == WAITING) & (r.handle(i) < r.handle(j))) && self.conflicts(i, j)
    }

    // Says whether the record at place j waits for what the one at place i holds.
    fn pressing(&self, i: usize, j: usize) -> bool
        requires { (i < self.now.n) × (j < self.now.n) }
        ensures { result ≡ presses (lock_at self.now.records.bytes.now i) (lock_at self.now.records.bytes.now j) }
    {
        self.records.state(j) == WAITING && self.conflicts(j, i)
    }

    // Cuts the last byte of the record at place i, m so far, down to the byte before the one at place j where they conflict.
    fn cut(&self, i: usize, j: usize, m: u64) -> u64
        requires { (i < self.now.n) × (j < self.now.n) }
        ensures { result ≡ cut_by (lock_at self.now.records.bytes.now i) m (lock_at self.now.records.bytes.now j) }
    {
        if self.meets(i, j, m) {
            self.records.first(j).saturating_sub(1)
        } else {
            m
        }
    }

    // Says whether some record keeps the one at place i waiting.
    pub fn blocked(&self, i: usize) -> bool
        requires { i < self.now.n }
        ensures { result ≡ any (obstacle (lock_at self.now.records.bytes.now i)) (locks_of width self.now.records.bytes.now) }
    {
        (0..self.n).any(|j| self.hinders(i, j))
    }

    // Says whether a later request, which stands after place i, wants what the record there asks.
    pub fn hurried(&self, i: usize) -> bool
        requires { (i < self.now.n) × Past (hurries (lock_at self.now.records.bytes.now i)) self.now.n (locks_of width self.now.records.bytes.now) i }
        ensures { result ≡ any (hurries (lock_at self.now.records.bytes.now i)) (locks_of width self.now.records.bytes.now) }
    {
        (i..self.n).any(|j| self.hurrying(i, j))
    }

    // Finds the greatest last byte for the record at place i.
    pub fn reach(&self, i: usize) -> u64
        requires { i < self.now.n }
        ensures { result ≡ widest (lock_at self.now.records.bytes.now i) eof (locks_of width self.now.records.bytes.now) }
    {
        (0..self.n).fold(EOF, |m, j| self.cut(i, j, m))
    }

    // Says whether some request waits for what the record at place i holds; none waits before place f.
    pub fn pressed(&self, f: usize, i: usize) -> bool
        requires { Past waits self.now.n (locks_of width self.now.records.bytes.now) f × (i < self.now.n) }
        ensures { result ≡ any (presses (lock_at self.now.records.bytes.now i)) (locks_of width self.now.records.bytes.now) }
    {
        (f..self.n).any(|j| self.pressing(i, j))
    }
}
