// Draws the map of a log: sweeps over its bytes, with a list of the entries that have begun, in order of age.
#![tactic(auto)]

ghost use Rattle.std.specs.Prelude.{◌≡◌, ◌≤◌, ◌<◌, length};
ghost use Rattle.common.specs.Counters.{width};
ghost use Rattle.common.specs.Ranges.{eof};
ghost use Rattle.xdr.specs.Be.{be};
ghost use Rattle.runs.specs.Map.{map_of};
ghost use Rattle.runs.specs.Bytes.{runs_of};
ghost use Rattle.order.specs.Places.{first_at, age_at, Below, Rising, Sorted};
ghost use Rattle.pen.specs.Drawing.{Stored};

use arrayvec::ArrayVec;
use pen::Drawing;
use runbytes::{Log, MAP_SIZE, MAX_ENTRIES};
use runs::Age;

// The entries of a log as a sweep meets them. The first `taken` of the order have begun; those of them that have not ended stand in
// `begun`, in order of age.
#[derive(Drop)]
struct Sweep<'a> {
    log: Log<'a>,
    order: &'a [u16],
    begun: ArrayVec<u16, MAX_ENTRIES>,
    taken: usize,
    ghost ordered: { Below order.now (length order.now) (be 4 log.bytes.now 0) },
    ghost listed: { Below begun.items (length begun.items) (be 4 log.bytes.now 0) },
    ghost rising: { Rising (age_at log.bytes.now) begun.items 0 (length begun.items) },
}

// One age up to before `end`.
#[derive(Clone, Copy)]
struct Stretch {
    age: Age,
    end: u64,
}

impl<'a> Sweep<'a> {
    ghost use Rattle.rebuild.specs.Sweeping.{Sweeping, next_of, Ready, stretch_of};

    // Starts at byte 0 with nothing begun.
    fn start(log: Log<'a>, order: &'a [u16]) -> Sweep<'a>
        requires long { length order.now ≡ be 4 log.bytes.now 0 }
        requires sorted { Sorted (first_at log.bytes.now) order.now 0 (be 4 log.bytes.now 0) }
        ensures { Sweeping log.entry.bytes.now result 0 }
    {
        Sweep {
            log,
            order,
            begun: ArrayVec::new(),
            taken: 0,
        }
    }

    // Finds where the next entry of the order begins: past EOF where there is none, since that is a border too.
    fn next_first(&self) -> u64
        ensures { result ≡ next_of self.now }
    {
        match self.order.get(self.taken) {
            Some(&i) => self.log.entry(usize::from(i)).first,
            None => common::EOF + 1,
        }
    }

    // Takes in every entry that begins at x or before: it stands in the list behind all of no greater age. How many are taken is kept, since
    // `next_first` asks it too.
    fn take_in(&mut self, x: u64)
        requires { Sweeping self.old.log.bytes.now self.old x × (x ≤ eof) }
        ensures { Sweeping self.old.log.bytes.now self.new x × (x < next_of self.new) }
    {
        while let Some(&i) = self.order.get(self.taken) {
            if x < self.log.entry(usize::from(i)).first {
                break;
            }
            order::put_by_age(&self.log, &mut self.begun, i);
            self.taken += 1;
        }
    }

    // Drops from the end of the list what has ended before x.
    fn drop_ended(&mut self, x: u64)
        requires { Sweeping self.old.log.bytes.now self.old x × (x < next_of self.old) }
        ensures { Ready self.old.log.bytes.now self.new x }
    {
        while let Some(&i) = self.begun.last() {
            if x <= self.log.entry(usize::from(i)).last {
                break;
            }
            self.begun.pop();
        }
    }

    // Finds what is drawn next: the age of the last of the list, which is the greatest, up to its end or to where the next entry begins.
    fn owned(&self) -> Stretch
        ensures { result ≡ stretch_of self.now.log.bytes.now self.now.begun.items (next_of self.now) }
    {
        let next = self.next_first();
        match self.begun.last() {
            Some(&i) => {
                let top = self.log.entry(usize::from(i));
                Stretch {
                    age: top.age,
                    end: next.min(top.last + 1),
                }
            }
            None => Stretch {
                age: runs::none(),
                end: next,
            },
        }
    }
}

// Draws the map of a log, and counts its runs. The loop counts nothing: the pen says where the next stretch starts.
pub fn rebuilt(out: &mut [u8; MAP_SIZE], log: Log<'_>) -> usize
    ensures { Stored (map_of (runs_of width log.entry.bytes.now)) out.old out.new result }
{
    let mut drawing = Drawing::start(out);
    let mut places = [0u16; MAX_ENTRIES];
    sort::by_first(&log, &mut places);
    let order = &places[0..log.count()];
    let mut sweep = Sweep::start(log, order);
    while drawing.pen.x <= common::EOF {
        sweep.take_in(drawing.pen.x);
        sweep.drop_ended(drawing.pen.x);
        let owned = sweep.owned();
        drawing.push(owned.end, owned.age);
    }
    drawing.flush()
}
