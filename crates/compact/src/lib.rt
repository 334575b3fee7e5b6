// Compaction: a second log, with just the runs of a log's map.
#![tactic(auto)]

ghost use Rattle.std.specs.Prelude.{◌≡◌};
ghost use Rattle.common.specs.Refusals.{answer_of};
ghost use Rattle.compact.specs.Compact.{Compacts};

use common::Refusal;
use runbytes::Log;

// Fills `new` with a log whose entries are the runs of the map of `old`. The map is drawn in scratch, so that it is known whether a map
// has room for them before a lent byte is stored.
pub fn compact(old: &[u8], new: &mut [u8]) -> Result<(), Refusal>
    ensures { Compacts old.now new.old (answer_of result) new.new }
{
    if new.len() != runbytes::LOG_SIZE {
        return Err(Refusal::Log);
    }
    let log = Log::of(old).ok_or(Refusal::Log)?;
    let mut scratch = [0u8; runbytes::MAP_SIZE];
    let runs = rebuild::rebuilt(&mut scratch, log);
    if runbytes::MAX_RUNS < runs {
        return Err(Refusal::Runs);
    }
    new[0..runbytes::MAP_SIZE].copy_from_slice(&scratch);
    common::clear(new, runbytes::MAP_SIZE);
    runbytes::put_count(new, runs);
    Ok(())
}
