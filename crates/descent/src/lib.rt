// Is there a real run into an error location, or one that overruns? (request 2.3) Going down one move at a time with the moves
// left falling. A state is a row of words as in a table, each word a known value; a move is the transfer of `transfer`, which
// on known values is a run's own, but for `in`.
#![tactic(auto)]

ghost use Rattle.std.specs.Prelude.{◌≡◌, ◌∷◌, ◌*◌, ◌≤◌, ◌<◌, suc, T, pos, length};
ghost use Rattle.semantics.specs.Layout.{index_limit, most_edges, most_moves};
ghost use Rattle.semantics.specs.Lists.{In};
ghost use Rattle.semantics.specs.Encoding.{decode, well_formed};
ghost use Rattle.semantics.specs.Memory.{width};
ghost use Rattle.semantics.specs.Search.{found, attempt, first_run, Choice, choose, interval, inputs, move, explicit};
ghost use Rattle.descent.specs.Distances.{Distances, distances_prop, distance_in};
ghost use Rattle.descent.specs.Rows.{state_of, Concrete, edge_of, IsEdge, Movable, Advanced};
ghost use Rattle.descent.specs.Trails.{last_move, answer_of, Went, by_input, by_edge, from_step, Going, Deepening, Holds};

use chart::{Chart, EdgeRow, Kind, Which};
use semantics::EdgeId;
use transfer::Move;

pub mod distances;
pub mod starts;

// How a run ends: at an error location, or with a move that overruns.
#[derive(Clone, Copy)]
pub enum End {
    AtError,
    Overrun(EdgeId),
}

// The moves of a run, and how it ends.
#[derive(Clone, Copy)]
pub struct Run {
    pub moves: usize,
    pub end: End,
}

// What every part of the descent goes by: the chart, its words at hand, and distances that none of its runs undercuts.
#[derive(Clone, Copy)]
struct Guide<'a> {
    chart: &'a Chart<'a>,
    words: &'a [i32],
    dist: &'a [usize],
    ghost same: { words.now ≡ chart.now },
    ghost formed: { T (well_formed chart.now) },
    ghost near: { Distances (decode chart.now) (distance_in dist.now) } by { distances_prop (decode chart.now) (distance_in dist.now) },
}

// ---- one move

// The least and the most that the edge may read: p and q of an `in`; for the others 0 alone, which is not looked at.
fn input_range(chart: &[i32], edge: EdgeRow) -> (i32, i32)
    requires { edge.at < index_limit }
    ensures { inputs (edge_of chart.now edge).edge.op ≡ interval result.0 result.1 }
{
    match chart::edge_kind(chart, edge) {
        Kind::In => (
            chart::edge_operand(chart, edge, Which::First).value,
            chart::edge_operand(chart, edge, Which::Second).value,
        ),
        _ => (0, 0),
    }
}

// The move of the row by the edge, z read by an `in`, its successor into `out`.
fn advance(guide: &Guide, edge: EdgeRow, z: i32, row: &[i32], out: &mut [i32]) -> Move
    requires { Movable guide.now.chart.now edge z row.now out.old }
    ensures { Advanced (decode guide.now.chart.now) (move (decode guide.now.chart.now) (choose (edge_of guide.now.chart.now edge) z) (state_of row.now)) out.new result }
{
    let moved = transfer::successor(guide.words, edge, row, out);
    if let Kind::In = chart::edge_kind(guide.words, edge) {
        state::set_value(out, chart::edge_target(guide.words, edge), z);
    }
    moved
}

// ---- going down

// With no move left: whether the row stands at an error location.
fn at_end(guide: &Guide, row: &[i32]) -> Option<End>
    requires { Concrete (decode guide.now.chart.now) row.now }
    ensures { result ≡ answer_of (found (explicit (decode guide.now.chart.now)) 0 (state_of row.now)) }
{
    if transfer::is_error(guide.words, row) {
        return Some(End::AtError);
    }
    None
}

// With `left` moves left after it, a move that overruns is a find if it is the last.
fn last_move(left: usize, edge: EdgeId) -> Option<End>
    ensures { result ≡ last_move left edge }
{
    if left != 0 {
        return None;
    }
    Some(End::Overrun(edge))
}

// The edge that brought a state, and the state's row.
fn put_step(path: &mut [i32], edge: EdgeId, row: &[i32])
    requires { (length path.old ≡ suc (length row.now)) × (edge.0 ≤ most_edges) }
    ensures { path.new ≡ pos edge.0 ∷ row.now }
{
    path[0] = edge.0 as i32;
    path[1..].copy_from_slice(row);
}

// The first run of `left` moves from the row. The states that it leads to go to the path, each after its edge, once it is
// found; where there is none the path stays as it is. A branch is cut where fewer moves are left than the distance: it holds
// no run.
#[cycle(by_edge_by_input_go_down_go_on)]
fn go_down(guide: &Guide, row: &[i32], left: usize, path: &mut [i32]) -> Option<End>
    requires { Going guide.now.chart.now row.now left path.old }
    ensures { Went (found (explicit (decode guide.now.chart.now)) left (state_of row.now)) path.old path.new result }
{
    if left < distances::distance(guide.dist, state::location_of(row)) {
        return None;
    }
    if left == 0 {
        return at_end(guide, row);
    }
    let first = chart::first_edge(guide.words);
    for number in 1..=chart::edge_count(guide.words) {
        let edge = chart::edge_of(first, EdgeId(number));
        if let Some(end) = by_edge(guide, row, edge, left - 1, path) {
            return Some(end);
        }
    }
    None
}

// The first by this edge and then `left` moves.
#[cycle(by_edge_by_input_go_down_go_on)]
fn by_edge(guide: &Guide, row: &[i32], edge: EdgeRow, left: usize, path: &mut [i32]) -> Option<End>
    requires { Going guide.now.chart.now row.now (suc left) path.old × IsEdge guide.now.chart.now edge }
    ensures { Went (by_edge (decode guide.now.chart.now) left (state_of row.now) (edge_of guide.now.chart.now edge)) path.old path.new result }
{
    if chart::edge_from(guide.words, edge) != state::location_of(row) {
        return None;
    }
    let (low, high) = input_range(guide.words, edge);
    for z in low..=high {
        if let Some(end) = by_input(guide, row, edge, z, left, path) {
            return Some(end);
        }
    }
    None
}

// The first by this edge that reads z and then `left` moves.
#[cycle(by_edge_by_input_go_down_go_on)]
fn by_input(
    guide: &Guide,
    row: &[i32],
    edge: EdgeRow,
    z: i32,
    left: usize,
    path: &mut [i32],
) -> Option<End>
    requires { Going guide.now.chart.now row.now (suc left) path.old × IsEdge guide.now.chart.now edge × In z (inputs (edge_of guide.now.chart.now edge).edge.op) }
    ensures { Went (by_input (decode guide.now.chart.now) left (state_of row.now) (edge_of guide.now.chart.now edge) z) path.old path.new result }
{
    let width = row.len();
    let mut next = [0i32; state::MOST_WIDTH];
    match advance(guide, edge, z, row, &mut next[..width]) {
        Move::Blocked => None,
        Move::Fault => last_move(left, edge.id),
        Move::Successor => go_on(guide, edge.id, &next[..width], left, path),
    }
}

// The first of `left` moves from the row, a state that the edge has just brought.
#[cycle(by_edge_by_input_go_down_go_on)]
fn go_on(guide: &Guide, edge: EdgeId, row: &[i32], left: usize, path: &mut [i32]) -> Option<End>
    requires { Going guide.now.chart.now row.now (suc left) path.old × (edge.0 ≤ most_edges) }
    ensures { (a : Choice) → a.edge.no ≡ edge.0 → Went (from_step (decode guide.now.chart.now) left a (state_of row.now)) path.old path.new result }
{
    let width = row.len();
    let (step, rest) = path.split_at_mut(width + 1);
    let end = go_down(guide, row, left, rest)?;
    put_step(step, edge, row);
    Some(end)
}

// ---- from the starting states

// The first run of so many moves: from the starting states in turn, counted up in the row lent, which is then where it begins.
fn attempt(guide: &Guide, moves: usize, start: &mut [i32], path: &mut [i32]) -> Option<Run>
    requires { Deepening guide.now.chart.now moves start.old path.old }
    ensures { Holds (decode guide.now.chart.now) (attempt (explicit (decode guide.now.chart.now)) moves) start.new path.new result }
{
    starts::first_start(guide.chart, start);
    loop {
        if let Some(end) = go_down(guide, start, moves, path) {
            return Some(Run { moves, end });
        }
        if !starts::next_start(guide.chart, start) {
            return None;
        }
    }
}

// The first of the shortest runs of at most k moves: none of 0 moves, then none of 1, and so on.
fn deepen(guide: &Guide, k: usize, start: &mut [i32], path: &mut [i32]) -> Option<Run>
    requires { Deepening guide.now.chart.now k start.old path.old × (k ≤ most_moves) }
    ensures { Holds (decode guide.now.chart.now) (first_run (explicit (decode guide.now.chart.now)) k) start.new path.new result }
{
    for moves in 0..=k {
        if let Some(run) = attempt(guide, moves, start, path) {
            return Some(run);
        }
    }
    None
}

// The same, with the distances measured first: the row of its first state, and the states after it in the path, each after
// the edge that brought it.
pub fn first_run(chart: &Chart, k: usize, start: &mut [i32], path: &mut [i32]) -> Option<Run>
    requires { (k ≤ most_moves) × (length start.old ≡ width (decode chart.now)) × (k * suc (width (decode chart.now)) ≤ length path.old) }
    ensures in_form { T (well_formed chart.now) }
    ensures found { Holds (decode chart.now) (first_run (explicit (decode chart.now)) k) start.new path.new result }
{
    let mut dist = [0usize; semantics::MOST_LOCATIONS];
    distances::measure(chart, &mut dist);
    let guide = Guide {
        chart,
        words: chart.words(),
        dist: &dist,
    };
    deepen(&guide, k, start, path)
}
