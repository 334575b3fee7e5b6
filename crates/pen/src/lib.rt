// A map drawn from left to right into a scratch buffer: stretches that touch at one age are joined, and age 0 is no run.
#![tactic(auto)]

ghost use Rattle.std.specs.Prelude.{◌≡◌, ◌+◌, ◌≤◌, length, take, drop};
ghost use Rattle.common.specs.Counters.{width};
ghost use Rattle.xdr.specs.Be.{be, put_be};
ghost use Rattle.runs.specs.Ages.{value_of, Exact};
ghost use Rattle.runs.specs.Sound.{max_runs};
ghost use Rattle.runs.specs.Bytes.{map_size, runs_of};
ghost use Rattle.pen.specs.Drawing.{fresh, Fine, Fine-prop, with_runs, Flushed, Went, one};

use runbytes::{MAP_SIZE, Map};
use runs::{Age, Run};

// k runs are stored, or counted where they do not fit; from cur up to before x the age is tip.
#[derive(Clone, Copy)]
pub struct Pen {
    pub k: usize,
    pub cur: u64,
    pub tip: Age,
    pub x: u64,
}

// A map that is being drawn: the bytes of a map, in an array, since the project allocates nothing, and the pen that draws in them. An array behind a field is lent as a slice through a
// variable, since the borrow checker takes no shorter way here.
#[derive(Drop)]
pub struct Drawing<'a> {
    pub out: &'a mut [u8; MAP_SIZE],
    pub pen: Pen,
    ghost fine: { Fine pen } by { Fine-prop pen },
}

impl<'a> Drawing<'a> {
    // Starts at byte 0 with nothing drawn.
    pub fn start(out: &'a mut [u8; MAP_SIZE]) -> Drawing<'a>
        ensures fresh { (result.pen ≡ fresh) × (result.out.now ≡ out.old) }
        ensures lent { result.out.ghost_name ≡ out.entry.ghost_name }
    {
        let pen = Pen {
            k: 0,
            cur: 0,
            tip: runs::none(),
            x: 0,
        };
        Drawing { out, pen }
    }

    // Stores the pending run if it fits, and counts it.
    pub fn flush(&mut self) -> usize
        ensures stored { Flushed self.old.pen self.old.out.now self.new.out.now result }
        ensures still { (self.new.pen ≡ self.old.pen) × (self.new.out.ghost_name ≡ self.old.out.ghost_name) }
    {
        let pen = self.pen;
        if runs::is_none(pen.tip) {
            return pen.k;
        }
        if runbytes::MAX_RUNS <= pen.k {
            return pen.k + 1;
        }
        let last = pen.x - 1;
        let run = Run {
            first: pen.cur,
            last,
            age: pen.tip,
        };
        let out = &mut *self.out;
        runbytes::put_run(out, pen.k, run);
        pen.k + 1
    }

    // Draws the age a up to before q.
    pub fn push(&mut self, q: u64, a: Age)
        requires { Exact a }
        ensures went { Went self.old.pen q (one (value_of a)) self.old.out.now self.new.out.now self.new.pen }
        ensures lent { self.new.out.ghost_name ≡ self.old.out.ghost_name }
    {
        let pen = self.pen;
        if q <= pen.x {
            return;
        }
        if runs::same(a, pen.tip) {
            self.pen.x = q;
            return;
        }
        let k = self.flush();
        self.pen = Pen {
            k,
            cur: pen.x,
            tip: a,
            x: q,
        };
    }

    // Stores n runs of a map as they stand: those from place `from` on go to place k and on.
    pub fn keep(&mut self, k: usize, map: &Map<'_>, from: usize, n: usize)
        requires { (k + n ≤ max_runs) × (from + n ≤ be 4 map.now.bytes.now 0) }
        ensures stored { self.new.out.now ≡ with_runs self.old.out.now k (take n (drop from (runs_of width map.now.bytes.now))) }
        ensures still { (self.new.pen ≡ self.old.pen) × (self.new.out.ghost_name ≡ self.old.out.ghost_name) }
    {
        for i in 0..n {
            let out = &mut *self.out;
            runbytes::put_run(out, k + i, map.run(from + i));
        }
    }
}

// Fills the map with the k runs that are drawn in scratch, an array: k is how much of it is drawn.
pub fn fill(map: &mut [u8], scratch: &[u8; MAP_SIZE], k: usize)
    requires { length map.old ≡ map_size width }
    ensures { map.new ≡ put_be 4 scratch.now 0 k }
{
    map.copy_from_slice(scratch);
    runbytes::put_count(map, k);
}
