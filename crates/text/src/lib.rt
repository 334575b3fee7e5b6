// Prints answers: the lines of a refusal and a handle, and of the events of a call.
#![tactic(auto)]

ghost use Rattle.std.specs.Prelude.{◌≡◌, ◌+◌, ◌≤◌, ◌++◌, length};
ghost use Rattle.locks.specs.Events.{Room};
ghost use Rattle.text.specs.Text.{decimal, line_text, bad_text, kind_letter, event_text, outcome_text};
ghost use Rattle.text.specs.Text.{line_size, outcome_size};
ghost use Rattle.text.specs.Buffers.{Wrote, event_at, events_in};

use arrayvec::ArrayVec;
use locks::{EVENT_BYTES, EVENTS, KIND_BYTES};
use table::MAX_RECORDS;

// How many bytes the lines of an answer have at most: 45, and 171 for each event.
pub const OUT_BYTES: usize = 45 + 171 * MAX_RECORDS;

// What is to be written. Any buffer with room for what is put serves as well.
pub type Out = ArrayVec<u8, OUT_BYTES>;

// Puts a number in decimal.
fn put_number<const N: usize>(out: &mut ArrayVec<u8, N>, n: u64)
    requires { length out.old.items + length (decimal n) ≤ N }
    ensures { out.new.items ≡ out.old.items ++ decimal n }
{
    let mut digits = itoa::Buffer::new();
    let _ = out.try_extend_from_slice(digits.format(n).as_bytes());
}

// Puts a line: its letter, each of its numbers behind a comma, and CR LF.
fn put_line<const N: usize>(out: &mut ArrayVec<u8, N>, letter: u8, numbers: &[u64])
    requires { length out.old.items + line_size (length numbers.now) ≤ N }
    ensures { Wrote (line_size (length numbers.now)) out.old.items out.new.items (line_text letter numbers.now) }
{
    out.push(letter);
    for n in numbers {
        out.push(b',');
        put_number(out, *n);
    }
    let _ = out.try_extend_from_slice(b"\r\n");
}

// Puts the answer to a bad line.
pub fn put_bad<const N: usize>(out: &mut ArrayVec<u8, N>)
    requires { length out.old.items + line_size 0 ≤ N }
    ensures { Wrote (line_size 0) out.old.items out.new.items bad_text }
{
    put_line(out, b'?', &[]);
}

// Finds the letter of an event's line by its kind; there is no other than 1 and 2.
fn letter_of(kind: u64) -> u8
    ensures { result ≡ kind_letter kind }
{
    match kind {
        1 => b'G',
        2 => b'V',
        0 | 3..=u64::MAX => b'?',
    }
}

// Puts the line of event k of an event buffer, counted from 0: k is a place in it.
pub fn put_event<const N: usize>(out: &mut ArrayVec<u8, N>, events: &[u8], k: usize)
    requires { (length out.old.items + line_size 8 ≤ N) × Room (k + 1) events.now }
    ensures { Wrote (line_size 8) out.old.items out.new.items (event_text (event_at events.now k)) }
{
    let from = EVENTS + EVENT_BYTES * k;
    let kind = xdr::number_at::<4>(events, from);
    let l = table::shown_at(events, from + KIND_BYTES);
    let numbers = [
        l.handle.0, l.client, l.stripe, l.mode, l.state, l.number.0, l.first, l.last,
    ];
    put_line(out, letter_of(kind), &numbers);
}

// Puts the line of an answer and the lines of its n events, which stand in the event buffer: the buffer and the count are what an entry gives C.
pub fn put_outcome<const N: usize>(
    out: &mut ArrayVec<u8, N>,
    refusal: u64,
    handle: u64,
    events: &[u8],
    n: usize,
)
    requires { (length out.old.items + outcome_size n ≤ N) × Room n events.now }
    ensures { Wrote (outcome_size n) out.old.items out.new.items (outcome_text refusal handle (events_in events.now n)) }
{
    put_line(out, b'=', &[refusal, handle]);
    for k in 0..n {
        put_event(out, events, k);
    }
}
