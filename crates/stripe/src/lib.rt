// Note, write and restart over one stripe. The rules are in specs/.
#![tactic(auto)]

use runs::Age;

// What is told of a piece, and by what it is judged: its first byte, its length and its age.
#[derive(Clone, Copy)]
pub struct Extent {
    pub first: u64,
    pub len: u64,
    pub age: Age,
}
