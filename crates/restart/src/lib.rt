// Restart: the map is filled from the log.
#![tactic(auto)]

ghost use Rattle.std.specs.Prelude.{◌≡◌};
ghost use Rattle.common.specs.Refusals.{answer_of};
ghost use Rattle.restart.specs.Restart.{Restarts};

use common::Refusal;
use runbytes::Log;

// Fills the map with the log's map.
pub fn restart(map: &mut [u8], log: &[u8]) -> Result<(), Refusal>
    ensures { Restarts map.old log.now (answer_of result) map.new }
{
    if map.len() != runbytes::MAP_SIZE {
        return Err(Refusal::Map);
    }
    let log = Log::of(log).ok_or(Refusal::Log)?;
    let mut scratch = [0u8; runbytes::MAP_SIZE];
    let runs = rebuild::rebuilt(&mut scratch, log);
    if runbytes::MAX_RUNS < runs {
        return Err(Refusal::Runs);
    }
    pen::fill(map, &scratch, runs);
    Ok(())
}
