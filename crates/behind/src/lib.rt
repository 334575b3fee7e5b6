// Refusal 18: whether the map is behind a piece, run by run.
#![tactic(auto)]

ghost use Rattle.std.specs.Prelude.{◌≡◌};
ghost use Rattle.common.specs.Counters.{width};
ghost use Rattle.runs.specs.Ages.{value_of};
ghost use Rattle.runs.specs.Valid.{Valid};
ghost use Rattle.runs.specs.Bytes.{runs_of};
ghost use Rattle.stripe.specs.Refusals.{behind};
ghost use Rattle.behind.specs.Onward.{onward};

use extent::Placed;
use runbytes::Map;
use runs::Run;

// Finds the byte to ask about after b: the one past the run, if the run is over b and not older than the piece.
fn onward(r: Run, piece: Placed, b: u64) -> u64
    requires { Valid r }
    ensures { result ≡ onward r (value_of piece.age) b }
{
    if (r.first..=r.last).contains(&b) && !runs::older(r.age, piece.age) {
        r.last + 1
    } else {
        b
    }
}

// Tests whether some byte of the piece has a smaller age in the map.
pub fn is_behind(map: &Map<'_>, piece: Placed) -> bool
    ensures { result ≡ behind (runs_of width map.now.bytes.now) (value_of piece.age) piece.first piece.len }
{
    let mut b = piece.first;
    for i in 0..map.count() {
        b = onward(map.run(i), piece, b);
    }
    b < piece.first + piece.len
}
