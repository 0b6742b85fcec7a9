// The starting states of a chart as rows, one after the other: "by starting values ascending, variable 0 first" (request
// 2.3). And whether a chart is too wide to search, which is refusal 31.
ghost use Rattle.std.specs.Prelude.{◌≡◌, ◌<◌, T, ltb, ◌-ℤ◌, length, drop};
ghost use Rattle.semantics.specs.Layout.{index_limit, most_starts};
ghost use Rattle.semantics.specs.Lists.{some_of};
ghost use Rattle.semantics.specs.Encoding.{edge_in, decode};
ghost use Rattle.semantics.specs.Search.{size};
ghost use Rattle.semantics.specs.RunListing.{wide_input, init_count, start_count, too_wide};
ghost use Rattle.state.specs.Rows.{layout_of, width_of};
ghost use Rattle.descent.specs.Starts.{Starts, First, Next, variable_in, first_value, rises, words_limit};

use chart::{Chart, EdgeRow};
use semantics::{EdgeId, LocationId, MOST_INPUTS, MOST_STARTS};

// ---- one variable

// The first value that variable k starts with: its initial value, or the lowest of its range where that is any.
fn first_value(chart: &[i32], k: usize) -> i32
    requires { k < index_limit }
    ensures { result ≡ first_value (variable_in chart.now k).lo (variable_in chart.now k).init }
{
    let init = chart::variable_init(chart, k);
    if init == words::TOP {
        return chart::variable_low(chart, k);
    }
    init
}

// Whether variable k may start with a value after x.
fn can_rise(chart: &[i32], k: usize, x: i32) -> bool
    requires { k < index_limit }
    ensures { result ≡ rises (variable_in chart.now k).hi (variable_in chart.now k).init x }
{
    chart::variable_init(chart, k) == words::TOP && x < chart::variable_high(chart, k)
}

// How many numbers p..q has; a range of `i32` does not say.
pub fn size(p: i32, q: i32) -> usize
    ensures size { result ≡ size (q -ℤ p) }
    ensures small { result < words_limit }
{
    if q < p {
        return 0;
    }
    let gap = i64::from(q) - i64::from(p);
    gap as usize + 1
}

// How many values variable k may start with.
fn start_values(chart: &[i32], k: usize) -> usize
    requires { k < index_limit }
    ensures count { result ≡ init_count (variable_in chart.now k).lo (variable_in chart.now k).hi (variable_in chart.now k).init }
    ensures small { result < words_limit }
{
    if chart::variable_init(chart, k) != words::TOP {
        return 1;
    }
    size(
        chart::variable_low(chart, k),
        chart::variable_high(chart, k),
    )
}

// ---- one after the other

// The first starting state.
pub fn first_start(chart: &Chart, row: &mut [i32])
    requires { length row.old ≡ width_of (layout_of chart.now) }
    ensures { First (decode chart.now) row.new }
{
    let words = chart.words();
    state::set_location(row, LocationId(0));
    for k in 0..chart::variable_count(words) {
        state::set_value(row, k, first_value(words, k));
    }
}

// The starting state after the row's, if there is one: the last variable that may start with a value after its own goes up
// by one, and those after it are put back to their first. If there is none, every variable is put back.
pub fn next_start(chart: &Chart, row: &mut [i32]) -> bool
    requires { Starts (decode chart.now) row.old }
    ensures { Next (decode chart.now) row.old row.new result }
{
    let words = chart.words();
    for k in (0..chart::variable_count(words)).rev() {
        let x = state::value_at(row, k);
        if can_rise(words, k, x) {
            state::set_value(row, k, x + 1);
            return true;
        }
        let first = first_value(words, k);
        state::set_value(row, k, first);
    }
    false
}

// ---- refusal 31

// Whether the edge is an `in` of too many values: one that reads nothing has 0 alone.
fn is_wide(chart: &[i32], edge: EdgeRow) -> bool
    requires { edge.at < index_limit }
    ensures { result ≡ wide_input (edge_in (drop edge.at chart.now)).op }
{
    let (low, high) = super::input_range(chart, edge);
    MOST_INPUTS < size(low, high)
}

// Whether some edge is.
fn has_wide_input(chart: &Chart) -> bool
    ensures { result ≡ some_of (λ g. wide_input g.op) (decode chart.now).edges }
{
    let words = chart.words();
    let first = chart::first_edge(words);
    for number in 1..=chart::edge_count(words) {
        if is_wide(words, chart::edge_of(first, EdgeId(number))) {
            return true;
        }
    }
    false
}

// Whether there are too many starting states. The count cannot come down again, and so stays small.
fn has_many_starts(chart: &Chart) -> bool
    ensures { result ≡ ltb most_starts (start_count (decode chart.now).vars) }
{
    let words = chart.words();
    let mut starts = 1;
    for k in 0..chart::variable_count(words) {
        starts *= start_values(words, k);
        if MOST_STARTS < starts {
            return true;
        }
    }
    false
}

pub fn is_too_wide(chart: &Chart) -> bool
    ensures { result ≡ too_wide (decode chart.now) }
{
    has_wide_input(chart) | has_many_starts(chart)
}
