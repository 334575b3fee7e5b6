// Write: the piece goes into the middle of the lent image.
#![tactic(auto)]

ghost use Rattle.common.specs.Refusals.{answer_of};
ghost use Rattle.stripe.specs.Piece.{piece};
ghost use Rattle.write.specs.Write.{Writes};

use common::Refusal;
use extent::Placed;
use runbytes::Map;
use runs::Age;
use stripe::Extent;

// Stores a piece's bytes in the image where the map has the piece's age.
pub fn write(
    map: &[u8],
    image: &mut [u8],
    first: u64,
    bytes: &[u8],
    age: Age,
) -> Result<(), Refusal>
    ensures { Writes map.now (piece first bytes.now age.number.0 age.pass.0) image.old (answer_of result) image.new }
{
    let map = Map::of(map).ok_or(Refusal::Map)?;
    let len = bytes.len() as u64;
    let piece = Placed::of(Extent { first, len, age }, image.len() as u64)?;
    if behind::is_behind(&map, piece) {
        return Err(Refusal::Smaller);
    }
    let at = first as usize;
    let end = at + bytes.len();
    store::store(&mut image[at..end], bytes, &map, piece);
    Ok(())
}
