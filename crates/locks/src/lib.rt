// Messages and lists of requests: refusals, a message's own change, settling, events. The rules are in specs/.
#![tactic(auto)]

use table::{MAX_RECORDS, SHOWN_BYTES};

// The kinds of an event.
pub const GRANT: u64 = 1;

pub const REVOCATION: u64 = 2;

// Where the events of a buffer stand, behind their count, and how many bytes the kind of an event and the whole of it have.
pub const EVENTS: usize = 4;

pub const KIND_BYTES: usize = 4;

pub const EVENT_BYTES: usize = KIND_BYTES + SHOWN_BYTES;

// How many items a list has at most, and how many events arise of it at most.
pub const MAX_ITEMS: usize = 64;

pub const MAX_LIST_EVENTS: usize = 2 * MAX_RECORDS;

// A message of a client. "There are four messages, each with its own fields." A marked request's grant ends where it asked.
#[derive(Clone, Copy)]
pub enum Message {
    Request {
        client: u64,
        stripe: u64,
        mode: u64,
        first: u64,
        last: u64,
        marked: bool,
    },
    Acknowledge {
        client: u64,
        handle: u64,
    },
    Downgrade {
        client: u64,
        handle: u64,
    },
    Release {
        client: u64,
        handle: u64,
    },
}

// A description of a list: what is asked, which stays, and its answer, which is stored in it. It is C's struct, so its answer is numbers.
#[repr(C)]
#[derive(Clone, Copy)]
pub struct Item {
    pub client: u64,
    pub stripe: u64,
    pub mode: u64,
    pub first: u64,
    pub last: u64,
    pub refusal: u64,
    pub handle: u64,
    pub events: u64,
}
