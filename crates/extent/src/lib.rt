// A piece's place: what refusals 14 and 15 let note and write go on with.
#![tactic(auto)]

ghost use Rattle.std.specs.Prelude.{◌≡◌, ◌+◌, ◌^◌, ◌≤◌, ◌<◌, IfOk, [], ◌∷◌};
ghost use Rattle.common.specs.Refusals.{answer_of, rule, first_hit};
ghost use Rattle.runs.specs.Ages.{value_of, highest_pass};
ghost use Rattle.stripe.specs.Refusals.{misplaced, zero_or_above, misnumbered};

use common::Refusal;
use runs::Age;
use stripe::Extent;

// Tests whether a piece has length 0, or lies past the image or past EOF.
pub fn is_misplaced(e: Extent, image: u64) -> bool
    ensures { result ≡ misplaced e image }
{
    match e.first.checked_add(e.len) {
        Some(end) => e.len == 0 || image < end || common::EOF < end - 1,
        None => true,
    }
}

// Tests whether n is not counted from 1 to the most.
fn is_uncounted(n: u64, most: u64) -> bool
    ensures { result ≡ zero_or_above most n }
{
    !(1..=most).contains(&n)
}

// Tests whether a piece's number or its pass is 0, or above the highest.
pub fn is_misnumbered(e: Extent) -> bool
    ensures { result ≡ misnumbered e }
{
    is_uncounted(e.age.number.0, common::HIGHEST) || is_uncounted(e.age.pass.0, runs::HIGHEST_PASS)
}

// The place of a piece that a map can be asked about: its end does not wrap, and its age is that of a grant.
#[derive(Clone, Copy)]
pub struct Placed {
    pub first: u64,
    pub len: u64,
    pub age: Age,
    ghost ends: { first + len < 2 ^ 64 },
    ghost granted: { 0 < value_of age },
    ghost fits: { age.pass.0 ≤ highest_pass },
}

impl Placed {
    // Takes an extent for a place where refusals 14 and 15 let it pass.
    pub fn of(e: Extent, image: u64) -> Result<Placed, Refusal>
        ensures refusal { answer_of result ≡ first_hit (rule 14 (misplaced e image) ∷ rule 15 (misnumbered e) ∷ []) }
        ensures ok { IfOk result (λ p. (p.first ≡ e.first) × (p.len ≡ e.len) × (p.age ≡ e.age)) }
    {
        if is_misplaced(e, image) {
            return Err(Refusal::Piece);
        }
        if is_misnumbered(e) {
            return Err(Refusal::Number);
        }
        let Extent { first, len, age } = e;
        Ok(Placed { first, len, age })
    }
}
