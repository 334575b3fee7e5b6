// Runs and their ages: what the map and the log say of each byte.
#![tactic(auto)]

ghost use Rattle.std.specs.Prelude.{◌≡◌, max, eqb, ltb};
ghost use Rattle.runs.specs.Ages.{value_of, age, Exact};

use common::Number;

// The highest pass: what its 4 bytes hold.
pub const HIGHEST_PASS: u64 = 4294967295;

// A pass tells apart what a client writes to one byte under one lock. It counts passes from 1.
#[derive(Clone, Copy, PartialEq, Eq, PartialOrd, Ord)]
pub struct Pass(pub u64);

// By what runs and pieces are judged: the number of their grant first, and the pass second.
#[derive(Clone, Copy, PartialEq, Eq, PartialOrd, Ord)]
pub struct Age {
    pub number: Number,
    pub pass: Pass,
}

// The bytes first to last, both included, at one age: a run of the map, an entry of the log, the place of a piece.
#[derive(Clone, Copy)]
pub struct Run {
    pub first: u64,
    pub last: u64,
    pub age: Age,
}

// Makes the age of a byte that is in no run: a name says more than a default would.
pub fn none() -> Age
    ensures { result ≡ age 0 }
{
    Age {
        number: Number(0),
        pass: Pass(0),
    }
}

// Tests whether an age is that of a byte in no run: the name says what is asked.
pub fn is_none(a: Age) -> bool
    ensures { result ≡ eqb (value_of a) 0 }
{
    a == none()
}

// Tests whether two ages are one. The derived comparisons speak of fields; these three say the same of two ages' one ℕ, by which maps are drawn.
pub fn same(a: Age, b: Age) -> bool
    requires { Exact a × Exact b }
    ensures { result ≡ eqb (value_of a) (value_of b) }
{
    a == b
}

// Tests whether the first age is the older one: by its number, and at equal numbers by its pass.
pub fn older(a: Age, b: Age) -> bool
    requires { Exact a × Exact b }
    ensures { result ≡ ltb (value_of a) (value_of b) }
{
    a < b
}

// Takes the later of two ages.
pub fn later(a: Age, b: Age) -> Age
    requires { Exact a × Exact b }
    ensures { result ≡ age (max (value_of a) (value_of b)) }
{
    a.max(b)
}
