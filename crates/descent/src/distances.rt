// A lower bound on the moves that are still needed, by location alone, so that a search turns back where fewer are left: 0
// at an error location, 1 where an edge could overrun, else one more than where an edge leads. Passes lower distances until
// one finds nothing to lower. That such a pass comes is not proved: without it all become 0, which turns nothing back. Nor
// is anything asked of a location: a distance past the end of the table is 0.
ghost use Rattle.std.specs.Prelude.{◌≡◌, true, ◌≤◌, ◌<◌, T, length, replicate};
ghost use Rattle.semantics.specs.Layout.{index_limit};
ghost use Rattle.semantics.specs.Chart.{error_location};
ghost use Rattle.semantics.specs.Encoding.{decode};
ghost use Rattle.descent.specs.Rows.{edge_of, IsEdge};
ghost use Rattle.descent.specs.Distances.{Distances, distance_in, from_anywhere, move_of, NearBy, KindsAllow, EdgesAllow};

use chart::{Chart, EdgeRow};
use semantics::{EdgeId, LocationId};
use transfer::Move;

// More moves than any search makes.
const FAR: usize = semantics::MOST_MOVES + 1;

// ---- the table

// The distance of a location; 0 past the end.
pub fn distance(dist: &[usize], l: LocationId) -> usize
    ensures { result ≡ distance_in dist.now l.0 }
{
    dist.get(l.0).copied().unwrap_or(0)
}

// The distance of a location is no more than `most` then. Whether it was not before.
fn lower(dist: &mut [usize], l: LocationId, most: usize) -> bool
    ensures { result ≡ true → (dist.new ≡ dist.old) × (distance_in dist.old l.0 ≤ most) }
{
    if most < distance(dist, l) {
        dist[l.0] = most;
        return false;
    }
    true
}

// ---- what a kind and an edge allow at most

fn by_kind(chart: &Chart, l: LocationId) -> usize
    requires { l.0 < index_limit }
    ensures { T (error_location (decode chart.now).locs l.0) → result ≡ 0 }
{
    if chart::is_error_location(chart.words(), l) {
        return 0;
    }
    FAR
}

// The edge's abstract move where nothing is known but its location: a fault where it could overrun by its operands'
// declared ranges, no successor where it never passes.
fn from_anywhere(chart: &Chart, edge: EdgeRow) -> Move
    requires { IsEdge chart.now edge }
    ensures { result ≡ move_of (from_anywhere (decode chart.now) (edge_of chart.now edge).edge) }
{
    let words = chart.words();
    let width = state::layout_of(words).width();
    let mut row = [words::TOP; state::MOST_WIDTH];
    let mut next = [0i32; state::MOST_WIDTH];
    state::set_location(&mut row, chart::edge_from(words, edge));
    transfer::successor(words, edge, &row[..width], &mut next[..width])
}

fn by_edge(chart: &Chart, edge: EdgeRow, dist: &[usize]) -> usize
    requires { IsEdge chart.now edge }
    ensures { distance_in dist.now (edge_of chart.now edge).edge.from ≤ result → NearBy chart.now dist.now (edge_of chart.now edge).edge }
{
    match from_anywhere(chart, edge) {
        Move::Blocked => FAR,
        Move::Fault => 1,
        Move::Successor => {
            let next = distance(dist, chart::edge_to(chart.words(), edge));
            next.min(semantics::MOST_MOVES) + 1
        }
    }
}

// ---- lowering

// Each location by its kind. Whether none was lowered.
fn lower_by_kinds(chart: &Chart, dist: &mut [usize]) -> bool
    ensures { result ≡ true → KindsAllow chart.now dist.new }
{
    let mut still = true;
    for location in 0..chart::location_count(chart.words()) {
        let l = LocationId(location);
        still &= lower(dist, l, by_kind(chart, l));
    }
    still
}

// Each edge's location by the edge, from the last edge to the first: a chart is mostly written from its start on, and
// distances come from its ends. Whether none was lowered.
fn lower_by_edges(chart: &Chart, dist: &mut [usize]) -> bool
    ensures { result ≡ true → (dist.new ≡ dist.old) × EdgesAllow chart.now dist.new }
{
    let words = chart.words();
    let first = chart::first_edge(words);
    let mut still = true;
    for number in (1..=chart::edge_count(words)).rev() {
        let edge = chart::edge_of(first, EdgeId(number));
        let most = by_edge(chart, edge, dist);
        still &= lower(dist, chart::edge_from(words, edge), most);
    }
    still
}

// ---- the distances of a chart

// A table of distances that no run undercuts. The first pass settles those up to 1, and each further one those of a move
// more: of so many passes the last, if not an earlier one, finds nothing to lower.
pub fn measure(chart: &Chart, dist: &mut [usize])
    ensures { Distances (decode chart.now) (distance_in dist.new) }
{
    dist.fill(FAR);
    for _ in 0..FAR {
        if lower_by_kinds(chart, dist) & lower_by_edges(chart, dist) {
            return;
        }
    }
    dist.fill(0);
}
