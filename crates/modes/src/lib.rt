// Mode codes, state codes, and table II: when an asked mode conflicts with a record's mode and state.
#![tactic(auto)]

ghost use Rattle.std.specs.Prelude.{◌≡◌, ◌≤◌};
ghost use Rattle.modes.specs.Codes.{code_of, mode_of, state_of, known_mode, known_state};
ghost use Rattle.modes.specs.Conflict.{conflict};

// The codes of the modes and of the states, as they stand in records: an unknown code must survive decoding and encoding, so a record's are numbers.
pub const PR: u64 = 1;

pub const NBW: u64 = 2;

pub const BW: u64 = 3;

pub const PW: u64 = 4;

pub const WAITING: u64 = 0;

pub const GRANTED: u64 = 1;

pub const ASKED: u64 = 2;

pub const CANCELING: u64 = 3;

// The four modes, with their codes.
#[derive(Clone, Copy, PartialEq, Eq)]
pub enum Mode {
    Pr = 1,
    Nbw = 2,
    Bw = 3,
    Pw = 4,
}

// The four states.
#[derive(Clone, Copy, PartialEq, Eq)]
pub enum State {
    Waiting,
    Granted,
    Asked,
    Canceling,
}

// Names the mode of a code, if it has one.
pub fn mode_of(code: u64) -> Option<Mode>
    ensures { result ≡ mode_of code }
{
    match code {
        1 => Some(Mode::Pr),
        2 => Some(Mode::Nbw),
        3 => Some(Mode::Bw),
        4 => Some(Mode::Pw),
        0 | 5..=u64::MAX => None,
    }
}

// Names the state of a code, if it has one.
pub fn state_of(code: u64) -> Option<State>
    ensures { result ≡ state_of code }
{
    match code {
        0 => Some(State::Waiting),
        1 => Some(State::Granted),
        2 => Some(State::Asked),
        3 => Some(State::Canceling),
        4..=u64::MAX => None,
    }
}

// Says whether a code names a mode. This and the next are a line each; one function of both enums would take a trait with its laws.
pub fn known_mode(code: u64) -> bool
    ensures { result ≡ known_mode code }
{
    mode_of(code).is_some()
}

// Says whether a code names a state.
pub fn known_state(code: u64) -> bool
    ensures { result ≡ known_state code }
{
    state_of(code).is_some()
}

// The entries of table II: no conflict, conflict, conflict unless canceling.
#[derive(Clone, Copy, PartialEq, Eq)]
pub enum Entry {
    Never,
    Always,
    Unless,
}

use Entry::{Always, Never, Unless};

// Table II. Rows: asked PR, NBW, BW, PW. Columns: held PR, NBW, BW, PW. It is lent, so that a look-up reads it in place and copies nothing.
const MATRIX: &[[Entry; 4]; 4] = &[
    [Never, Always, Always, Always],
    [Always, Unless, Always, Always],
    [Always, Unless, Always, Always],
    [Always, Always, Always, Always],
];

// Says whether an asked mode conflicts with a record's mode and state. The state is a number: only whether it is canceling matters, and where
// this is asked nothing else is known of it.
#[tactic(auto, unfolding(crate::specs::Conflict::conflict))]
pub fn conflict(asked: Mode, held: Mode, state: u64) -> bool
    ensures { result ≡ conflict (code_of asked) (code_of held) state }
{
    let a = asked as usize - 1;
    let h = held as usize - 1;
    let entry = MATRIX[a][h];
    matches!(entry, Always) | (matches!(entry, Unless) & (state != CANCELING))
}
