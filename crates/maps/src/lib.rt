// Draws the map of a map and a piece.
#![tactic(auto)]

ghost use Rattle.std.specs.Prelude.{◌≡◌, [], ◌∷◌, suc, ◌+◌, ◌-◌, ◌≤◌, take, drop};
ghost use Rattle.common.specs.Counters.{width};
ghost use Rattle.common.specs.Ranges.{eof};
ghost use Rattle.xdr.specs.Be.{be};
ghost use Rattle.runs.specs.Ages.{value_of, Exact};
ghost use Rattle.runs.specs.Owner.{owner};
ghost use Rattle.runs.specs.Map.{raise};
ghost use Rattle.runs.specs.Bytes.{runs_of};
ghost use Rattle.runs.specs.Valid.{Valid};
ghost use Rattle.pen.specs.Drawing.{fresh, with_runs, Added, Went, Stored};
ghost use Rattle.maps.specs.Untouched.{under, Begun, Ended, pen_at, start_of};

use pen::{Drawing, Pen};
use runbytes::{MAP_SIZE, Map};
use runs::{Age, Run};

// Draws the age m up to before q, across the piece: before it, inside it at the greater age, and after it.
fn cross(d: &mut Drawing<'_>, q: u64, m: Age, piece: Run)
    requires { Exact m × Valid piece }
    ensures went { Went d.old.pen q (under piece (value_of m)) d.old.out.now d.new.out.now d.new.pen }
    ensures lent { d.new.out.ghost_name ≡ d.old.out.ghost_name }
{
    d.push(q.min(piece.first), m);
    d.push(q.min(piece.last + 1), runs::later(piece.age, m));
    d.push(q, m);
}

// Draws the age m up to before q, raised to the piece's where that is greater.
fn span(d: &mut Drawing<'_>, q: u64, m: Age, piece: Run)
    requires { Exact m × Valid piece }
    ensures went { Went d.old.pen q (under piece (value_of m)) d.old.out.now d.new.out.now d.new.pen }
    ensures lent { d.new.out.ghost_name ≡ d.old.out.ghost_name }
{
    if q <= piece.first || piece.last < d.pen.x {
        d.push(q, m);
    } else {
        cross(d, q, m, piece);
    }
}

// Draws up to the end of a run of the map, raised by the piece.
fn draw_run(d: &mut Drawing<'_>, r: Run, piece: Run)
    requires { Valid r × Valid piece }
    ensures went { Went d.old.pen (r.last + 1) (owner (piece ∷ r ∷ [])) d.old.out.now d.new.out.now d.new.pen }
    ensures lent { d.new.out.ghost_name ≡ d.old.out.ghost_name }
{
    span(d, r.first, runs::none(), piece);
    span(d, r.last + 1, r.age, piece);
}

// Counts the runs of a map that start at or before the byte x; the first `from` of them do. std's `partition_point` goes over a slice
// of elements, and the runs are bytes, so the search stands here.
fn begun(map: &Map<'_>, from: usize, x: u64) -> usize
    requires { from ≤ be 4 map.now.bytes.now 0 }
    ensures { Begun map.now.bytes.now from x result }
{
    let mut low = from;
    let mut high = map.count();
    while low < high {
        let middle = (low + high) / 2;
        if map.first(middle) <= x {
            low = middle + 1;
        } else {
            high = middle;
        }
    }
    low
}

// Counts runs of a map that end before the byte x: all that start at or before it, but for the last of these.
fn ended(map: &Map<'_>, x: u64) -> usize
    ensures { Ended map.now.bytes.now x result }
{
    begun(map, 0, x).saturating_sub(1)
}

// Finds where the run at place i of a map starts: past EOF where there is none, which is a border like any other, so an Option says no more.
fn start_at(map: &Map<'_>, i: usize) -> u64
    requires { i ≤ be 4 map.now.bytes.now 0 }
    ensures { (result ≡ start_of (drop i (runs_of width map.now.bytes.now))) × (result ≤ suc eof) }
{
    if i < map.count() {
        map.first(i)
    } else {
        common::EOF + 1
    }
}

// Keeps the runs before place i of a map; the last of them is pending. The place is the call's: a map has many.
fn skip(d: &mut Drawing<'_>, map: &Map<'_>, i: usize)
    requires { (d.old.pen ≡ fresh) × (i ≤ be 4 map.now.bytes.now 0) }
    ensures kept { (d.new.pen ≡ pen_at map.now.bytes.now i) × (d.new.out.now ≡ with_runs d.old.out.now 0 (take (i - 1) (runs_of width map.now.bytes.now))) }
    ensures lent { d.new.out.ghost_name ≡ d.old.out.ghost_name }
{
    if i == 0 {
        return;
    }
    let k = i - 1;
    d.keep(0, map, 0, k);
    let r = map.run(k);
    d.pen = Pen {
        k,
        cur: r.first,
        tip: r.age,
        x: r.last + 1,
    };
}

// Keeps the runs from place i of a map on, behind k others, if they fit, and counts them.
fn rest(d: &mut Drawing<'_>, k: usize, map: &Map<'_>, i: usize) -> usize
    requires { (i ≤ be 4 map.now.bytes.now 0) × (k ≤ suc eof) }
    ensures added { Added (drop i (runs_of width map.now.bytes.now)) k d.old.out.now d.new.out.now result }
    ensures lent { d.new.out.ghost_name ≡ d.old.out.ghost_name }
{
    let n = map.count() - i;
    let total = k + n;
    if runbytes::MAX_RUNS < total {
        return total;
    }
    d.keep(k, map, i, n);
    total
}

// Draws a map raised by a piece, and counts its runs. Only the runs that the piece may meet or touch are drawn anew.
pub fn raised(out: &mut [u8; MAP_SIZE], map: &Map<'_>, piece: Run) -> usize
    requires { Valid piece }
    ensures { Stored (raise piece (runs_of width map.now.bytes.now)) out.old out.new result }
{
    let from = ended(map, piece.first);
    let to = begun(map, from, piece.last + 1);
    let mut d = Drawing::start(out);
    skip(&mut d, map, from);
    for i in from..to {
        draw_run(&mut d, map.run(i), piece);
    }
    span(&mut d, start_at(map, to), runs::none(), piece);
    let k = d.flush();
    rest(&mut d, k, map, to)
}
