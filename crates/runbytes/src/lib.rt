// Runs in bytes: reads and stores one, and tests maps and logs.
#![tactic(auto)]

ghost use Rattle.std.specs.Prelude.{◌≡◌, true, ◌+◌, ◌≤◌, ◌<◌, ◌^◌, length, IfSome, is_some};
ghost use Rattle.common.specs.Counters.{width};
ghost use Rattle.xdr.specs.Be.{be, put_be};
ghost use Rattle.xdr.specs.Layout.{put_fields};
ghost use Rattle.runs.specs.Ages.{highest_pass};
ghost use Rattle.runs.specs.Sound.{max_runs, max_entries, all_valid, leads, apart};
ghost use Rattle.runs.specs.Valid.{Valid};
ghost use Rattle.runs.specs.Bytes.{run_layout, run_fields, log_size, runs_of, run_place, runs_end, sound_map_bytes, sound_log_bytes, appended};
ghost use Rattle.runbytes.specs.Places.{run_at};

use common::Number;
use runs::{Age, Pass, Run};

// The most runs of a map, and the most entries of a log.
pub const MAX_RUNS: usize = 1024;

pub const MAX_ENTRIES: usize = 2048;

// A run's bytes: its first byte, then its last, then its number, then its pass.
const LAST: usize = 8;

const NUMBER: usize = LAST + 8;

const PASS: usize = NUMBER + common::COUNTER_BYTES;

const RUN_BYTES: usize = PASS + 4;

// The bytes of a map and of a log: the count, and then the runs.
const COUNT_BYTES: usize = 4;

pub const MAP_SIZE: usize = COUNT_BYTES + RUN_BYTES * MAX_RUNS;

pub const LOG_SIZE: usize = COUNT_BYTES + RUN_BYTES * MAX_ENTRIES;

// Counts the runs of a map or the entries of a log.
pub fn count(s: &[u8]) -> usize
    requires { 4 ≤ length s.now }
    ensures { (result ≡ be 4 s.now 0) × (result < 2 ^ 32) }
{
    xdr::number_at::<4>(s, 0) as usize
}

// Stores the count of the runs or of the entries. Here n, and below k, is what is stored and where, and no length of the buffer.
pub fn put_count(s: &mut [u8], n: usize)
    requires { 4 ≤ length s.old }
    ensures { s.new ≡ put_be 4 s.old 0 n }
{
    xdr::put_number::<4>(s, 0, n as u64);
}

// Finds where the run at place i starts, by numbers of its own, as `table` does by its records'.
pub fn place(i: usize) -> usize
    requires { run_place width i < 2 ^ 64 }
    ensures { result ≡ run_place width i }
{
    COUNT_BYTES + RUN_BYTES * i
}

// Reads the first byte of the run at place i. The functions at a place ask for its room there: a view with the room of all counted
// runs would serve the two tests of all of them alone, since `Log::first` and `put_run` go past the count.
pub fn first_at(s: &[u8], i: usize) -> u64
    requires { run_place width (i + 1) ≤ length s.now }
    ensures { result ≡ (run_at s.now i).first }
{
    xdr::number_at::<8>(s, place(i))
}

// Reads the last byte of the run at place i.
pub fn last_at(s: &[u8], i: usize) -> u64
    requires { run_place width (i + 1) ≤ length s.now }
    ensures { result ≡ (run_at s.now i).last }
{
    xdr::number_at::<8>(s, place(i) + LAST)
}

// Reads the age of the run at place i: 4 bytes hold no pass above the highest.
pub fn age_at(s: &[u8], i: usize) -> Age
    requires { run_place width (i + 1) ≤ length s.now }
    ensures { (result ≡ (run_at s.now i).age) × (result.pass.0 ≤ highest_pass) }
{
    let at = place(i);
    Age {
        number: Number(common::counter_at(s, at + NUMBER)),
        pass: Pass(xdr::number_at::<4>(s, at + PASS)),
    }
}

// Reads the run at place i.
pub fn run_at(s: &[u8], i: usize) -> Run
    requires { run_place width (i + 1) ≤ length s.now }
    ensures { (result ≡ run_at s.now i) × (result.age.pass.0 ≤ highest_pass) }
{
    Run {
        first: first_at(s, i),
        last: last_at(s, i),
        age: age_at(s, i),
    }
}

// Stores a run at place k.
pub fn put_run(s: &mut [u8], k: usize, r: Run)
    requires { run_place width (k + 1) ≤ length s.old }
    ensures { s.new ≡ put_fields (run_layout width) s.old (run_place width k) 0 (run_fields r) }
{
    let at = place(k);
    xdr::put_number::<8>(s, at, r.first);
    xdr::put_number::<8>(s, at + LAST, r.last);
    common::put_counter(s, at + NUMBER, r.age.number.0);
    xdr::put_number::<4>(s, at + PASS, r.age.pass.0);
}

// Appends an entry to a log that has room: its bytes, and then the count.
pub fn append(log: &mut [u8], r: Run)
    requires { (length log.old ≡ log_size width) × (be 4 log.old 0 < max_entries) }
    ensures { log.new ≡ appended width log.old r }
{
    let n = count(log);
    put_run(log, n, r);
    put_count(log, n + 1);
}

// Tests that every run is valid: none falls, the greatest last byte is not past EOF, and the least number and the least pass are
// at least 1.
fn all_valid(s: &[u8]) -> bool
    requires { runs_end width s.now ≤ length s.now }
    ensures { result ≡ all_valid (runs_of width s.now) }
{
    let mut rising = true;
    let mut last: u64 = 0;
    let mut number: u64 = 1;
    let mut pass: u64 = 1;
    for i in 0..count(s) {
        let r = run_at(s, i);
        rising &= r.first <= r.last;
        last = last.max(r.last);
        number = number.min(r.age.number.0);
        pass = pass.min(r.age.pass.0);
    }
    rising & (last <= common::EOF) & (0 < number) & (0 < pass)
}

// Tests that a run ends before the next starts, and that they differ where they touch.
fn is_apart(r: Run, t: Run) -> bool
    requires { Valid r × Valid t }
    ensures { result ≡ leads r t }
{
    (r.last < t.first) & !((r.last + 1 == t.first) & runs::same(r.age, t.age))
}

// Tests that valid runs rise, without common bytes, and that touching ones differ.
fn all_apart(s: &[u8]) -> bool
    requires { (runs_end width s.now ≤ length s.now) × (all_valid (runs_of width s.now) ≡ true) }
    ensures { result ≡ apart (runs_of width s.now) }
{
    let mut ok = true;
    for i in 1..count(s) {
        ok &= is_apart(run_at(s, i - 1), run_at(s, i));
    }
    ok
}

// Tests whether the bytes are a sound map.
pub fn map_sound(s: &[u8]) -> bool
    ensures { result ≡ sound_map_bytes s.now }
{
    s.len() == MAP_SIZE
        && count(s) <= MAX_RUNS
        && all_valid(s)
        && all_apart(s)
        && common::is_blank(s, place(count(s)))
}

// Tests whether the bytes are a sound log.
pub fn log_sound(s: &[u8]) -> bool
    ensures { result ≡ sound_log_bytes s.now }
{
    s.len() == LOG_SIZE && count(s) <= MAX_ENTRIES && all_valid(s)
}

// The bytes of a sound map, lent for reading. `Map` and `Log` have a line each over the functions above, which both share; what each is known to be
// differs.
#[derive(Clone, Copy)]
pub struct Map<'a> {
    pub bytes: &'a [u8],
    ghost sound: { sound_map_bytes bytes.now ≡ true },
}

impl<'a> Map<'a> {
    // Takes bytes for a map where they are a sound one.
    pub fn of(bytes: &'a [u8]) -> Option<Map<'a>>
        ensures some { IfSome result (λ m. m.bytes.now ≡ bytes.now) }
        ensures sound { is_some result ≡ sound_map_bytes bytes.now }
    {
        if map_sound(bytes) {
            Some(Map { bytes })
        } else {
            None
        }
    }

    // Counts the runs.
    pub fn count(&self) -> usize
        ensures { (result ≡ be 4 self.now.bytes.now 0) × (result ≤ max_runs) }
    {
        count(self.bytes)
    }

    // Reads the run at place i.
    pub fn run(&self, i: usize) -> Run
        requires { i < be 4 self.now.bytes.now 0 }
        ensures { (result ≡ run_at self.now.bytes.now i) × Valid result }
    {
        run_at(self.bytes, i)
    }

    // Reads the first byte of the run at place i.
    pub fn first(&self, i: usize) -> u64
        requires { i < be 4 self.now.bytes.now 0 }
        ensures { result ≡ (run_at self.now.bytes.now i).first }
    {
        first_at(self.bytes, i)
    }
}

// The bytes of a sound log, lent for reading.
#[derive(Clone, Copy)]
pub struct Log<'a> {
    pub bytes: &'a [u8],
    ghost sound: { sound_log_bytes bytes.now ≡ true },
}

impl<'a> Log<'a> {
    // Takes bytes for a log where they are a sound one.
    pub fn of(bytes: &'a [u8]) -> Option<Log<'a>>
        ensures some { IfSome result (λ l. l.bytes.now ≡ bytes.now) }
        ensures sound { is_some result ≡ sound_log_bytes bytes.now }
    {
        if log_sound(bytes) {
            Some(Log { bytes })
        } else {
            None
        }
    }

    // Counts the entries.
    pub fn count(&self) -> usize
        ensures { (result ≡ be 4 self.now.bytes.now 0) × (result ≤ max_entries) }
    {
        count(self.bytes)
    }

    // Reads the first byte of the entry at place i, where a log has room for one.
    pub fn first(&self, i: usize) -> u64
        requires { i < max_entries }
        ensures { result ≡ (run_at self.now.bytes.now i).first }
    {
        first_at(self.bytes, i)
    }

    // Reads the entry at place i.
    pub fn entry(&self, i: usize) -> Run
        requires { i < be 4 self.now.bytes.now 0 }
        ensures { (result ≡ run_at self.now.bytes.now i) × Valid result }
    {
        run_at(self.bytes, i)
    }
}
