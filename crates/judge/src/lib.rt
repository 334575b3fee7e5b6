// Judging a message on a sound table: its refusal, or the record that it names and what that becomes. Nothing is changed.
#![tactic(auto)]

ghost use Rattle.std.specs.Prelude.{◌≡◌, cond, Ok, Err};
ghost use Rattle.common.specs.Counters.{width};
ghost use Rattle.common.specs.declared.Refusal.TheVariants.{State};
ghost use Rattle.common.specs.Refusals.{first_hit, answer_of};
ghost use Rattle.table.specs.Bytes.{locks_of, table_of};
ghost use Rattle.table.specs.Places.{Good};
ghost use Rattle.locks.specs.Refusals.{request_rules};
ghost use Rattle.judge.specs.Posts.{FindsFirst, Finds, ready, becoming, asked_by};

use common::{EOF, HIGHEST, Handle, Refusal};
use locks::Item;
use modes::{ASKED, BW, CANCELING, NBW, PW};
use table::{Listed, Lock, MAX_CLIENT, MAX_RECORDS, MAX_STRIPE};

// What a request asks for. A marked request's grant ends where it asked.
#[derive(Clone, Copy)]
pub struct Asked {
    pub client: u64,
    pub stripe: u64,
    pub mode: u64,
    pub first: u64,
    pub last: u64,
    pub marked: bool,
}

// An item of a list asks as a marked request does.
impl From<Item> for Asked {
    ghost from_gives = { λ x a. a ≡ asked_by x };

    fn from(x: Item) -> Asked {
        Asked {
            client: x.client,
            stripe: x.stripe,
            mode: x.mode,
            first: x.first,
            last: x.last,
            marked: true,
        }
    }
}

// Judges a request by 3 to 8.
pub fn request_refusal(t: &Listed<'_>, a: Asked) -> Result<(), Refusal>
    ensures { answer_of result ≡ first_hit (request_rules (table_of width t.now.records.bytes.now) a.client a.stripe a.mode a.first a.last) }
{
    if MAX_CLIENT < a.client {
        return Err(Refusal::Client);
    }
    if MAX_STRIPE < a.stripe {
        return Err(Refusal::Stripe);
    }
    if !modes::known_mode(a.mode) {
        return Err(Refusal::Mode);
    }
    if a.last < a.first || EOF < a.last {
        return Err(Refusal::Range);
    }
    if HIGHEST <= t.records.issued() {
        return Err(Refusal::Handles);
    }
    if MAX_RECORDS <= t.n {
        return Err(Refusal::Records);
    }
    Ok(())
}

// Finds the place of the record with the handle h.
pub fn find(t: &Listed<'_>, h: Handle) -> Option<usize>
    ensures { FindsFirst t.now.n (locks_of width t.now.records.bytes.now) h.0 result }
{
    (0..t.n).find(|&i| t.records.handle(i) == h)
}

// Finds the client's record with the handle, and refuses by 3, 9 and 10.
pub fn named(t: &Listed<'_>, client: u64, handle: Handle) -> Result<usize, Refusal>
    requires { Good t.now.n t.now.records.bytes.now }
    ensures { Finds t.now.n (table_of width t.now.records.bytes.now) client handle.0 result }
{
    if MAX_CLIENT < client {
        return Err(Refusal::Client);
    }
    let i = find(t, handle).ok_or(Refusal::NoRecord)?;
    if t.records.lock(i).client != client {
        return Err(Refusal::OtherClient);
    }
    Ok(i)
}

// What a client's message makes of its record: an acknowledge makes an asked one canceling, a downgrade makes a canceling BW or PW one NBW.
#[derive(Clone, Copy)]
pub enum Becomes {
    Canceling,
    Nbw,
}

impl Becomes {
    // Says whether 11 lets l become that.
    pub fn ready(self, l: Lock) -> bool
        ensures { result ≡ ready self l }
    {
        match self {
            Becomes::Canceling => l.state == ASKED,
            Becomes::Nbw => l.state == CANCELING && (BW..=PW).contains(&l.mode),
        }
    }

    // Makes of l what it becomes. It is a match and no closure of the caller's: what a message asks is said by the message (`asks`).
    pub fn becoming(self, l: Lock) -> Lock
        ensures { result ≡ becoming self l }
    {
        match self {
            Becomes::Canceling => table::remade(l, l.mode, CANCELING, l.number, l.last),
            Becomes::Nbw => table::remade(l, NBW, l.state, l.number, l.last),
        }
    }

    // Makes of l what it becomes, where 11 lets it.
    pub fn of(self, l: Lock) -> Result<Lock, Refusal>
        ensures { result ≡ cond (ready self l) (Ok (becoming self l)) (Err State) }
    {
        if self.ready(l) {
            Ok(self.becoming(l))
        } else {
            Err(Refusal::State)
        }
    }
}
