// The edges that leave a location, chained in file order in lent numbers, so that an iteration looks at the edges of
// its location and not at every edge. `heads` has for each location the number of the first edge that leaves it,
// `nexts` for each edge that of the next one that leaves the same location; one more than the count of edges stands for
// none. Past the end of either a number is 0, which passes over nothing: so nothing is asked of a location or of the
// count of edges.
ghost use Rattle.std.specs.Prelude.{◌≡◌, ◌-◌, ◌<◌, ◌≤◌, max, get_or};
ghost use Rattle.semantics.specs.Layout.{index_limit};
ghost use Rattle.transfer.specs.Transfer.{edge_at};
ghost use Rattle.analysis.specs.Chains.{from_at, Passed, Chained};

use chart::EdgeRow;
use semantics::{EdgeId, LocationId};
use words::numbers;

// Chains all edges, from the last to the first.
pub fn chain(chart: &[i32], edges: usize, heads: &mut [usize], nexts: &mut [usize])
    requires { Chained chart.now edges heads.old nexts.old × (edge_at chart.now edges < index_limit) }
    ensures { Chained chart.now 0 heads.new nexts.new }
{
    let first = chart::first_edge(chart);
    for number in (1..=edges).rev() {
        let edge = chart::edge_of(first, EdgeId(number));
        let l = chart::edge_from(chart, edge).0;
        let head = numbers::number_in(heads, l);
        numbers::put(nexts, number - 1, head);
        numbers::put(heads, l, number);
    }
}

// The first edge to look at, for a location.
pub fn first(heads: &[usize], l: LocationId) -> EdgeId
    ensures { result.0 ≡ max 1 (get_or heads.now l.0 0) }
{
    EdgeId(1).max(EdgeId(numbers::number_in(heads, l.0)))
}

// The edge to look at next. The chain of this one serves if it leaves the location.
pub fn next(chart: &[i32], edge: EdgeRow, nexts: &[usize], l: LocationId) -> EdgeId
    requires { Passed chart.now (from_at chart.now (edge.id.0 - 1)) edge.id.0 (get_or nexts.now (edge.id.0 - 1) 0 - 1) × (edge.at ≡ edge_at chart.now (edge.id.0 - 1)) × (1 ≤ edge.id.0) × (edge.id.0 < index_limit) }
    ensures later { edge.id.0 < result.0 }
    ensures passed { Passed chart.now l.0 edge.id.0 (result.0 - 1) }
{
    let after = edge.id.after();
    if chart::edge_from(chart, edge) != l {
        return after;
    }
    after.max(EdgeId(numbers::number_in(nexts, edge.id.0 - 1)))
}
