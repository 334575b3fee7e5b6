// What the lock table and the stripe share: the two counters and their bytes, ranges of bytes, refusals, tests over lists.
#![tactic(auto)]

ghost use Rattle.std.specs.Prelude.{◌≡◌, ◌+◌, ◌^◌, ◌≤◌, ◌<◌, max, length, drop};
ghost use Rattle.std.specs.List.{fold};
ghost use Rattle.xdr.specs.Be.{be, put_be};
ghost use Rattle.common.specs.Counters.{width};
ghost use Rattle.common.specs.Tests.{zeros};
ghost use Rattle.common.specs.Cleared.{cleared};
ghost use Rattle.common.specs.Refusals.{refusal_number, answer_of};

// The last byte that a range can have.
pub const EOF: u64 = 9223372036854775807;

// The highest handle, and the highest number: what 4 bytes hold.
pub const HIGHEST: u64 = 4294967295;

// A handle names a lock record. Handles are counted over all stripes, from 1.
#[derive(Clone, Copy, PartialEq, Eq, PartialOrd, Ord)]
pub struct Handle(pub u64);

// A sequence number orders the write grants of one stripe, from 1.
#[derive(Clone, Copy, PartialEq, Eq, PartialOrd, Ord)]
pub struct Number(pub u64);

// Why a call is refused. C gets the number that document 01's list gives it.
#[derive(Clone, Copy, PartialEq, Eq)]
pub enum Refusal {
    EventBuffer = 1,
    Table = 2,
    Client = 3,
    Stripe = 4,
    Mode = 5,
    Range = 6,
    Handles = 7,
    Records = 8,
    NoRecord = 9,
    OtherClient = 10,
    State = 11,
    Map = 12,
    Log = 13,
    Piece = 14,
    Number = 15,
    Runs = 16,
    Entries = 17,
    Smaller = 18,
    Items = 19,
}

impl From<Refusal> for u64 {
    ghost from_gives = { λ r n. n ≡ refusal_number r };

    fn from(r: Refusal) -> u64 {
        r as u64
    }
}

// What C is answered by a call that answers its refusal alone: 0 where it is accepted.
pub fn answer(r: Result<(), Refusal>) -> u64
    ensures { result ≡ answer_of r }
{
    match r {
        Ok(()) => 0,
        Err(refusal) => refusal.into(),
    }
}

// How many bytes a counter has: a handle, or a number.
pub const COUNTER_BYTES: usize = 4;

// Reads the counter in the bytes from `at` on.
pub fn counter_at(s: &[u8], at: usize) -> u64
    requires { at + width ≤ length s.now }
    ensures { (result ≡ be width s.now at) × (result < 256 ^ width) }
{
    xdr::number_at::<COUNTER_BYTES>(s, at)
}

// Stores a counter in the bytes from `at` on.
pub fn put_counter(s: &mut [u8], at: usize, v: u64)
    requires { at + width ≤ length s.old }
    ensures { s.new ≡ put_be width s.old at v }
{
    xdr::put_number::<COUNTER_BYTES>(s, at, v);
}

// Takes the greatest of some bytes, or 0. It reads them all, many at once.
fn greatest(s: &[u8]) -> u8
    ensures { result ≡ fold max 0 s.now }
{
    s.iter().fold(0, |most, b| most.max(*b))
}

// Tests that the bytes from `from` on are zeros.
pub fn is_blank(s: &[u8], from: usize) -> bool
    ensures { result ≡ zeros (drop from s.now) }
{
    greatest(&s[from.min(s.len())..]) == 0
}

// Stores zeros from `from` on.
pub fn clear(s: &mut [u8], from: usize)
    ensures { s.new ≡ cleared from s.old }
{
    let from = from.min(s.len());
    s[from..].fill(0);
}
