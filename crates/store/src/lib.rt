// Storing a piece where the map has its age.
#![tactic(auto)]

ghost use Rattle.std.specs.Prelude.{◌≡◌, [], ◌∷◌, ◌-◌, min, length};
ghost use Rattle.common.specs.Counters.{width};
ghost use Rattle.runs.specs.Ages.{value_of};
ghost use Rattle.runs.specs.Valid.{Valid};
ghost use Rattle.runs.specs.Bytes.{runs_of};
ghost use Rattle.stripe.specs.Stripe.{stored};

use extent::Placed;
use runbytes::Map;
use runs::Run;

// How many bytes of a long stretch go at once.
const BLOCK: usize = 16384;

// Copies the bytes into the part one by one, from the front on: a cut finds a front of them. The library's copy may begin at the end.
fn copy_bytes(part: &mut [u8], bytes: &[u8])
    requires { length part.old ≡ length bytes.now }
    ensures { part.new ≡ bytes.now }
{
    for i in 0..bytes.len() {
        part[i] = bytes[i];
    }
}

// Copies the bytes into the part, those of a long stretch block by block, each by the library's copy, which is the quicker one.
fn copy(part: &mut [u8], bytes: &[u8])
    requires { length part.old ≡ length bytes.now }
    ensures { part.new ≡ bytes.now }
{
    let blocks = bytes.len() / BLOCK;
    for k in 0..blocks {
        let i = BLOCK * k;
        part[i..i + BLOCK].copy_from_slice(&bytes[i..i + BLOCK]);
    }
    let i = BLOCK * blocks;
    copy_bytes(&mut part[i..], &bytes[i..]);
}

// Stores what one run lets through: the piece's bytes in the run, if it has the piece's age.
fn store_run(part: &mut [u8], bytes: &[u8], r: Run, piece: Placed)
    requires { (length part.old ≡ length bytes.now) × Valid r }
    ensures { part.new ≡ stored (r ∷ []) (value_of piece.age) piece.first bytes.now part.old }
{
    if runs::same(r.age, piece.age) {
        let len = bytes.len();
        let from = len.min(r.first.saturating_sub(piece.first) as usize);
        let to = len.min((r.last + 1).saturating_sub(piece.first) as usize);
        copy(&mut part[from..to], &bytes[from..to]);
    }
}

// Stores the piece's bytes in the part of the image that is its own, where the map has its age.
pub fn store(part: &mut [u8], bytes: &[u8], map: &Map<'_>, piece: Placed)
    requires { length part.old ≡ length bytes.now }
    ensures { part.new ≡ stored (runs_of width map.now.bytes.now) (value_of piece.age) piece.first bytes.now part.old }
{
    for i in 0..map.count() {
        store_run(part, bytes, map.run(i), piece);
    }
}
