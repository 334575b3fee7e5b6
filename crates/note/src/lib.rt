// Note: the piece's entry goes to the log, and the map is raised by it.
#![tactic(auto)]

ghost use Rattle.std.specs.Prelude.{◌≡◌, true, ◌≤◌, drop};
ghost use Rattle.common.specs.Counters.{width};
ghost use Rattle.common.specs.Refusals.{answer_of};
ghost use Rattle.common.specs.Tests.{zeros};
ghost use Rattle.xdr.specs.Be.{put_be};
ghost use Rattle.runs.specs.Sound.{max_runs};
ghost use Rattle.runs.specs.Bytes.{run_place, sound_map_bytes};
ghost use Rattle.note.specs.Note.{Notes};

use common::Refusal;
use extent::Placed;
use runbytes::{Log, Map};
use runs::Run;
use stripe::Extent;

// Puts the k runs that are drawn in scratch, an array, in the place of a sound map's. Past the last run of either both have zeros, so the copy ends there.
fn replace(map: &mut [u8], scratch: &[u8; runbytes::MAP_SIZE], k: usize)
    requires { (sound_map_bytes map.old ≡ true) × (k ≤ max_runs) × (zeros (drop (run_place width k) scratch.now) ≡ true) }
    ensures { map.new ≡ put_be 4 scratch.now 0 k }
{
    let most = runbytes::count(map).max(k);
    let end = runbytes::place(most);
    map[0..end].copy_from_slice(&scratch[0..end]);
    runbytes::put_count(map, k);
}

// Notes a piece: appends its entry to the log, and raises the map by it.
pub fn note(map: &mut [u8], log: &mut [u8], e: Extent, image: u64) -> Result<(), Refusal>
    ensures { Notes map.old log.old e image (answer_of result) map.new log.new }
{
    let runs = Map::of(map).ok_or(Refusal::Map)?;
    let entries = Log::of(log).ok_or(Refusal::Log)?;
    let place = Placed::of(e, image)?;
    let piece = Run {
        first: place.first,
        last: place.first + (place.len - 1),
        age: place.age,
    };
    let mut scratch = [0u8; runbytes::MAP_SIZE];
    let raised = maps::raised(&mut scratch, &runs, piece);
    if runbytes::MAX_RUNS < raised {
        return Err(Refusal::Runs);
    }
    if runbytes::MAX_ENTRIES <= entries.count() {
        return Err(Refusal::Entries);
    }
    runbytes::append(log, piece);
    replace(map, &scratch, raised);
    Ok(())
}
