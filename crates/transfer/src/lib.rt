// The transfer of an edge of the encoded chart on a row of words, the test of an error location, and the initial row.
#![tactic(auto)]

ghost use Rattle.std.specs.Prelude.{◌≡◌, true, ◌+◌, ◌<◌, length};
ghost use Rattle.std.specs.Int.{w32};
ghost use Rattle.std.proofs.Common.{SFits};
ghost use Rattle.semantics.specs.Layout.{operation_place, index_limit};
ghost use Rattle.semantics.specs.Chart.{holds};
ghost use Rattle.semantics.specs.Operations.{the_relation};
ghost use Rattle.semantics.specs.Constants.{turned, at_least, at_most, other_than, satisfying};
ghost use Rattle.semantics.specs.Encoding.{count};
ghost use Rattle.state.specs.Rows.{layout_of, width_of};
ghost use Rattle.transfer.specs.Transfer.{step_of, Narrow, range_at, in_range_at, results_by, operand_by, span_at, assign_result, assign_at, compute_at, input_at, refine_by, assume_at, op_by, post_at, error_row, initial_row};

use chart::{EdgeRow, Kind, OperandWords, Which};
use semantics::{Arithmetic, LocationId, Relation, Span};

// What a transfer answers, as the rules' `Step`: no successor; a fault, which is an overrun (request 2.1); or a successor,
// which stands in the row lent.
#[derive(Clone, Copy, PartialEq, Eq)]
pub enum Move {
    Blocked,
    Fault,
    Successor,
}

// ---- values

// The range of variable k.
fn range_of(chart: &[i32], k: usize) -> Span
    requires { k < index_limit }
    ensures range { result ≡ range_at chart.now k }
    ensures narrow { Narrow result }
{
    Span {
        low: i64::from(chart::variable_low(chart, k)),
        high: i64::from(chart::variable_high(chart, k)),
    }
}

// Whether z lies in the range of variable k; if so it is a word.
fn in_range(chart: &[i32], k: usize, z: i64) -> bool
    requires { k < index_limit }
    ensures ranged { result ≡ in_range_at chart.now k z }
    ensures narrow { result ≡ true → SFits w32 z }
{
    let range = range_of(chart, k);
    (range.low <= z) & (z <= range.high)
}

// ---- operands

// The word of an operand: a number, or a variable's word.
fn operand(operand: OperandWords, row: &[i32]) -> i32
    ensures { result ≡ operand_by operand.tag operand.value row.now }
{
    if operand.is_number() {
        return operand.value;
    }
    state::value_at(row, operand.variable())
}

// What variable k may be where its word is x: that number, or at top any number of its range. Of an operand that is a
// number, which in a chart in form is not top, k says nothing.
fn span_of(chart: &[i32], k: usize, x: i32) -> Span
    requires { k < index_limit }
    ensures span { result ≡ span_at chart.now k x }
    ensures narrow { Narrow result }
{
    if x == words::TOP {
        return range_of(chart, k);
    }
    Span {
        low: i64::from(x),
        high: i64::from(x),
    }
}

// What the operation makes of a number of each, the two taken independently.
fn results(s: Arithmetic, a: Span, b: Span) -> Span
    requires { Narrow a × Narrow b }
    ensures { result ≡ results_by s a b }
{
    match s {
        Arithmetic::Add => Span {
            low: a.low + b.low,
            high: a.high + b.high,
        },
        Arithmetic::Sub => Span {
            low: a.low - b.high,
            high: a.high - b.low,
        },
    }
}

// ---- the operations of an edge, on the row

// Variable k becomes a result that may be any number of the span: top, or the one number that it is. A fault where some
// number of the span lies outside k's range.
#[tactic(auto, unfolding(crate::specs::Transfer::assign_result))]
fn assign_result(chart: &[i32], k: usize, top: bool, span: Span, row: &mut [i32]) -> Move
    requires { k < index_limit }
    ensures { step_of result row.new ≡ assign_result chart.now k top span row.old }
{
    if !(in_range(chart, k, span.low) & in_range(chart, k, span.high)) {
        return Move::Fault;
    }
    if top {
        state::set_value(row, k, words::TOP);
        return Move::Successor;
    }
    let x = span.low as i32;
    state::set_value(row, k, x);
    Move::Successor
}

#[tactic(auto, unfolding(crate::specs::Transfer::assign_at))]
fn assign(chart: &[i32], edge: EdgeRow, row: &mut [i32]) -> Move
    requires { edge.at < index_limit }
    ensures { step_of result row.new ≡ assign_at chart.now edge.at row.old }
{
    let k = chart::edge_target(chart, edge);
    let first = chart::edge_operand(chart, edge, Which::First);
    let a = operand(first, row);
    let span = span_of(chart, first.variable(), a);
    assign_result(chart, k, a == words::TOP, span, row)
}

#[tactic(auto, unfolding(crate::specs::Transfer::compute_at))]
fn compute(chart: &[i32], edge: EdgeRow, s: Arithmetic, row: &mut [i32]) -> Move
    requires { edge.at < index_limit }
    ensures { step_of result row.new ≡ compute_at s chart.now edge.at row.old }
{
    let k = chart::edge_target(chart, edge);
    let first = chart::edge_operand(chart, edge, Which::First);
    let second = chart::edge_operand(chart, edge, Which::Second);
    let a = operand(first, row);
    let b = operand(second, row);
    let span = results(
        s,
        span_of(chart, first.variable(), a),
        span_of(chart, second.variable(), b),
    );
    assign_result(chart, k, (a == words::TOP) | (b == words::TOP), span, row)
}

// A value from p up to q: known only where they are the same.
#[tactic(auto, unfolding(crate::specs::Transfer::input_at))]
fn input(chart: &[i32], edge: EdgeRow, row: &mut [i32]) -> Move
    requires { edge.at < index_limit }
    ensures { step_of result row.new ≡ input_at chart.now edge.at row.old }
{
    let k = chart::edge_target(chart, edge);
    let p = chart::edge_operand(chart, edge, Which::First).value;
    let q = chart::edge_operand(chart, edge, Which::Second).value;
    let x = state::join_word(p, q);
    state::set_value(row, k, x);
    Move::Successor
}

// ---- `if`

// Whether the relation holds. Each relation is one comparison, so a table or an `Ordering` between would be no plainer.
fn holds(rel: Relation, a: i32, b: i32) -> bool
    ensures { result ≡ holds (the_relation rel) a b }
{
    match rel {
        Relation::Eq => a == b,
        Relation::Ne => a != b,
        Relation::Lt => a < b,
        Relation::Le => a <= b,
        Relation::Gt => a > b,
        Relation::Ge => a >= b,
    }
}

// The relation from the other side. The match is the table itself: an array would hold the six turned relations
// without those that they are turned from.
fn turned(rel: Relation) -> Relation
    ensures { the_relation result ≡ turned (the_relation rel) }
{
    match rel {
        Relation::Eq => Relation::Eq,
        Relation::Ne => Relation::Ne,
        Relation::Lt => Relation::Gt,
        Relation::Le => Relation::Ge,
        Relation::Gt => Relation::Lt,
        Relation::Ge => Relation::Le,
    }
}

// The numbers of the range from z on; here and below low is above high where there are none.
fn at_least(z: i64, range: Span) -> Span
    ensures { result ≡ at_least z range }
{
    Span {
        low: range.low.max(z),
        ..range
    }
}

// And those up to z.
fn at_most(z: i64, range: Span) -> Span
    ensures { result ≡ at_most z range }
{
    Span {
        high: range.high.min(z),
        ..range
    }
}

// From the first to the last number of the range other than z.
fn other_than(z: i64, range: Span) -> Span
    requires { SFits w32 z }
    ensures { result ≡ other_than z range }
{
    if range.low == z {
        return at_least(z + 1, range);
    }
    if range.high == z {
        return at_most(z - 1, range);
    }
    range
}

// From the first to the last number of the range that stands in the relation to z; with `ne`, z itself may lie between them.
fn satisfying(rel: Relation, z: i64, range: Span) -> Span
    requires { SFits w32 z }
    ensures { result ≡ satisfying (the_relation rel) z range }
{
    match rel {
        Relation::Eq => at_least(z, at_most(z, range)),
        Relation::Ne => other_than(z, range),
        Relation::Lt => at_most(z - 1, range),
        Relation::Le => at_most(z, range),
        Relation::Gt => at_least(z + 1, range),
        Relation::Ge => at_least(z, range),
    }
}

// Variable k, at top, stands in the relation to x, which is known (request 2.6): no successor where no number of its range
// does; known where a single one does, else top as it is.
#[tactic(auto, unfolding(crate::specs::Transfer::refine_by))]
fn refine(chart: &[i32], rel: Relation, k: usize, x: i32, row: &mut [i32]) -> Move
    requires { k < index_limit }
    ensures { step_of result row.new ≡ refine_by chart.now (the_relation rel) k x row.old }
{
    let left = satisfying(rel, i64::from(x), range_of(chart, k));
    if left.high < left.low {
        return Move::Blocked;
    }
    let low = left.low as i32;
    let high = left.high as i32;
    let v = state::join_word(low, high);
    state::set_value(row, k, v);
    Move::Successor
}

// The relation between the target and an operand: a test where both are known, what it says of the one at top, or nothing
// where neither is known.
#[tactic(auto, unfolding(crate::specs::Transfer::assume_at, crate::specs::Transfer::tested_by))]
fn assume(chart: &[i32], rel: Relation, edge: EdgeRow, row: &mut [i32]) -> Move
    requires { edge.at < index_limit }
    ensures { step_of result row.new ≡ assume_at chart.now (the_relation rel) edge.at row.old }
{
    let k = chart::edge_target(chart, edge);
    let x = state::value_at(row, k);
    let other = chart::edge_operand(chart, edge, Which::First);
    let y = operand(other, row);
    if (x == words::TOP) & (y == words::TOP) {
        return Move::Successor;
    }
    if x == words::TOP {
        return refine(chart, rel, k, y, row);
    }
    if y == words::TOP {
        return refine(chart, turned(rel), other.variable(), x, row);
    }
    if holds(rel, x, y) {
        return Move::Successor;
    }
    Move::Blocked
}

// ---- every operation

// The operation of the edge.
fn apply(chart: &[i32], edge: EdgeRow, row: &mut [i32]) -> Move
    requires { edge.at < index_limit }
    ensures { step_of result row.new ≡ op_by (count chart.now (edge.at + operation_place)) chart.now edge.at row.old }
{
    match chart::edge_kind(chart, edge) {
        Kind::Skip => Move::Successor,
        Kind::Set => assign(chart, edge, row),
        Kind::Compute(s) => compute(chart, edge, s, row),
        Kind::In => input(chart, edge, row),
        Kind::If(rel) => assume(chart, rel, edge, row),
    }
}

// ---- the transfer

// The move of the row by the edge, its successor into `out`.
#[tactic(auto, unfolding(crate::specs::Transfer::post_at))]
pub fn successor(chart: &[i32], edge: EdgeRow, row: &[i32], out: &mut [i32]) -> Move
    requires { (0 < length row.now) × (length out.old ≡ length row.now) × (edge.at < index_limit) }
    ensures { step_of result out.new ≡ post_at chart.now edge.at row.now }
{
    let from = chart::edge_from(chart, edge);
    if from == state::location_of(row) {
        out.copy_from_slice(row);
        let to = chart::edge_to(chart, edge);
        state::set_location(out, to);
        return apply(chart, edge, out);
    }
    Move::Blocked
}

// Whether the row stands at an error location.
#[tactic(auto, unfolding(crate::specs::Transfer::error_row))]
pub fn is_error(chart: &[i32], row: &[i32]) -> bool
    ensures { result ≡ error_row chart.now row.now }
{
    chart::is_error_location(chart, state::location_of(row))
}

// The row of the initial abstract state. The start is location 0.
#[tactic(auto, unfolding(crate::specs::Transfer::initial_row))]
pub fn initial(chart: &[i32], out: &mut [i32])
    requires { length out.old ≡ width_of (layout_of chart.now) }
    ensures { out.new ≡ initial_row chart.now }
{
    let n = chart::variable_count(chart);
    state::set_location(out, LocationId(0));
    for k in 0..n {
        state::set_value(out, k, chart::variable_init(chart, k));
    }
}
