// The tests of 11 to 14, form rule 21: whether lent words and a record are an analysis of a chart, and the refusals that
// calls share: 11, 12, 13; 20, 14, 21. Leaves look at one row or one part of the words; the counts are tested first,
// since they bound what is read after. What looks at a row or a table asks that it has enough words, since 14 is judged
// before 21; all else is total.
#![tactic(auto)]

ghost use Rattle.std.specs.Prelude.{◌≡◌, ◌&&◌, ◌||◌, ◌*◌, ◌<◌, ◌≤◌, IfOk, eqb, ltb, length, drop};
ghost use Rattle.semantics.specs.Lists.{all, all_pairs, all_of};
ghost use Rattle.semantics.specs.Chart.{eq_z, within};
ghost use Rattle.semantics.specs.Layout.{top_word, counts_size, variable_size, index_limit, most_slots};
ghost use Rattle.semantics.specs.Algorithm.{allowed};
ghost use Rattle.semantics.specs.Encoding.{several, var_in, decode};
ghost use Rattle.semantics.specs.Memory.{width, capacity_ok, value_ok, below, row_ok, slots_ok, joins, locations, origin_ok, origins_ok, origin_in, origins_in, states_in, each_once, is_alarm, empty_if_safe, lent_tests, record_tests, analysis_ok};
ghost use Rattle.semantics.specs.Outcomes.{refusal, budget_ok, too_few, asked_cases, size_of, form_of};
ghost use Rattle.semantics.specs.Refusals.{refusal_of};
ghost use Rattle.state.specs.Rows.{Placed, tail_of};
ghost use Rattle.checks.specs.Form.{lent, ChartLayout, Enough};

use chart::Chart;
use semantics::{Analysis, EdgeId, LocationId, Mode, Refusal, Settings, SlotId, Verdict};
use state::{Layout, SlotRow};

// ---- the reached table

// Top, or a value of the range.
fn value_ok(lo: i32, hi: i32, x: i32) -> bool
    ensures { result ≡ (eq_z x top_word || within lo hi x) }
{
    (x == words::TOP) | words::lies_within(lo, hi, x)
}

// Whether each value is one of its variable.
fn values_ok(chart: &[i32], values: &[i32]) -> bool
    requires { length values.now ≤ index_limit }
    ensures { result ≡ all_pairs value_ok (several var_in variable_size (length values.now) (drop counts_size chart.now)) values.now }
{
    for (i, x) in values.iter().enumerate() {
        if !value_ok(
            chart::variable_low(chart, i),
            chart::variable_high(chart, i),
            *x,
        ) {
            return false;
        }
    }
    true
}

// A row: its location and its values.
fn row_ok(chart: &[i32], row: &[i32]) -> bool
    requires { (length row.now ≡ width (decode chart.now)) × (length row.now ≤ index_limit) }
    ensures { result ≡ row_ok (decode chart.now) row.now }
{
    let location = state::location_word(row);
    words::is_below(chart::location_count(chart), location) & values_ok(chart, state::values(row))
}

// Whether the edge is one of the chart, and leads from one location to the other.
fn edge_joins(chart: &Chart, edge: EdgeId, from: LocationId, to: LocationId) -> bool
    ensures { result ≡ joins (decode chart.now) edge.0 from.0 to.0 }
{
    let words = chart.words();
    if edge.is_none() || !edge.is_within(chart::edge_count(words)) {
        return false;
    }
    let row = chart::edge_of(chart::first_edge(words), edge);
    (chart::edge_from(words, row) == from) & (chart::edge_to(words, row) == to)
}

// The slots in use of a table, which has the layout that the chart gives it.
#[derive(Clone, Copy)]
struct InUse<'a> {
    chart: &'a Chart<'a>,
    layout: Layout,
    table: &'a [i32],
    used: usize,
    ghost laid: { ChartLayout chart.now layout },
    ghost fits: { used * layout.stride ≤ length table.now },
}

impl<'a> InUse<'a> {
    // The words of their states and origins, each by itself.
    fn slots_ok(&self) -> bool
        ensures { result ≡ slots_ok (decode self.now.chart.now) self.now.used self.now.table.now }
    {
        let words = self.chart.words();
        for id in 0..self.used {
            let slot = self.layout.slot(SlotId(id));
            let row = row_ok(words, state::row_of(self.layout, self.table, slot));
            let tail = state::tail_ok(state::tail_of(self.layout, self.table, slot));
            if !(row & tail) {
                return false;
            }
        }
        true
    }

    // The origin of one: slot 0 has 65,535 and 0, any other a parent below it and an edge that joins their locations.
    fn origin_ok(&self, slot: SlotRow) -> bool
        requires { Placed self.now.layout slot × (slot.id.0 < self.now.used) }
        ensures { result ≡ origin_ok (decode self.now.chart.now) (locations (states_in (decode self.now.chart.now) self.now.used self.now.table.now)) slot.id.0 (origin_in (tail_of self.now.layout slot.id.0 self.now.table.now)) }
    {
        let tail = state::tail_of(self.layout, self.table, slot);
        let parent = state::origin_parent(tail);
        let edge = state::origin_edge(tail);
        if slot.id.0 == 0 {
            return (parent.0 == semantics::NO_SLOT) & edge.is_none();
        }
        if !parent.is_below(slot.id.0) {
            return false;
        }
        let from = state::location_of(state::row_of(
            self.layout,
            self.table,
            self.layout.slot(parent),
        ));
        let to = state::location_of(state::row_of(self.layout, self.table, slot));
        edge_joins(self.chart, edge, from, to)
    }

    // The origin of each.
    fn origins_ok(&self) -> bool
        ensures { result ≡ origins_ok (decode self.now.chart.now) (locations (states_in (decode self.now.chart.now) self.now.used self.now.table.now)) 0 (origins_in (decode self.now.chart.now) self.now.used self.now.table.now) }
    {
        for id in 0..self.used {
            if !self.origin_ok(self.layout.slot(SlotId(id))) {
                return false;
            }
        }
        true
    }
}

// ---- the waitlist

// Slots in use, each named once: where one is named it is marked, so that one marked already is named twice.
fn waits_ok(list: &[i32], used: usize) -> bool
    requires { used ≤ most_slots }
    ensures { result ≡ (all (below used) list.now && each_once list.now) }
{
    let mut marks = [false; semantics::MOST_SLOTS];
    for x in list {
        if !words::is_below(used, *x) {
            return false;
        }
        let slot = words::magnitude(*x);
        if marks[slot] {
            return false;
        }
        marks[slot] = true;
    }
    true
}

// ---- the words lent

// The tests of a table and a waitlist, by the record's three counts.
fn lent_ok(chart: &Chart, table: &[i32], list: &[i32], a: Analysis) -> bool
    requires { Enough chart.now a.capacity table.now list.now × (a.capacity ≤ most_slots) }
    ensures { result ≡ all_of (lent_tests (decode chart.now) a.capacity a.used a.waiting table.now list.now) }
{
    let capacity = a.capacity as usize;
    if a.used > capacity || a.waiting > a.used {
        return false;
    }
    let layout = state::layout_of(chart.words());
    let slots = InUse {
        chart,
        layout,
        table,
        used: a.used,
    };
    let from = layout.slot(SlotId(a.used)).at;
    let to = capacity * layout.stride;
    slots.slots_ok()
        & slots.origins_ok()
        & waits_ok(&list[..a.waiting], a.used)
        & words::all_zero(&table[from..to])
        & words::all_zero(&list[a.waiting..capacity])
}

// ---- the record

// Of all verdicts this alone has an edge, and a path.
pub fn is_alarm(v: Verdict) -> bool
    ensures { result ≡ is_alarm v }
{
    v == Verdict::Alarm
}

// Safe with nothing waiting, or another verdict with something.
fn empty_if_safe(v: Verdict, waiting: usize) -> bool
    ensures { result ≡ empty_if_safe v waiting }
{
    (v == Verdict::Safe) == (waiting == 0)
}

// The settings that 12 lets pass.
fn is_allowed(settings: Settings) -> bool
    ensures { result ≡ allowed settings.merge settings.stop }
{
    (settings.merge == Mode::Join) | (settings.stop == Mode::Sep)
}

// No edge, or an alarm's.
fn edge_allowed(edge: EdgeId, v: Verdict) -> bool
    ensures { result ≡ (eqb edge.0 0 || is_alarm v) }
{
    edge.is_none() | is_alarm(v)
}

// The tests of a record alone, for a chart of so many edges.
fn record_ok(a: Analysis, edges: usize) -> bool
    ensures { result ≡ all_of (record_tests edges a) }
{
    (a.iterations <= semantics::MOST_ITERATIONS)
        & a.edge.is_within(edges)
        & edge_allowed(a.edge, a.verdict)
        & (1..=semantics::MOST_SLOTS as u32).contains(&a.capacity)
        & is_allowed(a.settings)
        & empty_if_safe(a.verdict, a.waiting)
}

// ---- the tests of 11, 13, 14 and 21

// A capacity that 11 lets pass.
fn capacity_ok(capacity: i32) -> bool
    ensures { result ≡ capacity_ok capacity }
{
    (1..=semantics::MOST_SLOTS as i32).contains(&capacity)
}

// A budget that 13 lets pass.
pub fn budget_ok(budget: i32) -> bool
    ensures { result ≡ budget_ok budget }
{
    (0..=semantics::MOST_ITERATIONS as i32).contains(&budget)
}

// Fewer words are lent than the capacity takes (14).
fn too_few(chart: &Chart, capacity: u32, table_length: usize, list_length: usize) -> bool
    ensures { result ≡ too_few (decode chart.now) capacity table_length list_length }
{
    let slots = capacity as usize;
    let stride = state::layout_of(chart.words()).stride;
    (table_length < slots * stride) | (list_length < slots)
}

// Form rule 21: the record first, since its capacity bounds the slots. That the words lent are enough (14) is judged before.
fn analysis_ok(chart: &Chart, table: &[i32], list: &[i32], a: Analysis) -> bool
    requires { Enough chart.now a.capacity table.now list.now }
    ensures { result ≡ analysis_ok (decode chart.now) (lent table.now list.now a) }
{
    record_ok(a, chart::edge_count(chart.words())) && lent_ok(chart, table, list, a)
}

// ---- the refusals that calls share

// 11, 12, 13: the first that refuses what a go line or a beginning asks.
pub fn asked_refusal(settings: Settings, capacity: i32, budget: i32) -> Result<(), Refusal>
    ensures { refusal_of result ≡ refusal (asked_cases settings capacity budget) }
{
    if !capacity_ok(capacity) {
        return Err(Refusal::BadCapacity);
    }
    if !is_allowed(settings) {
        return Err(Refusal::BadSettings);
    }
    if !budget_ok(budget) {
        return Err(Refusal::BadBudget);
    }
    Ok(())
}

// 20, 14: the first that refuses a call with a capacity and so many table and list words; else the words are the chart's.
pub fn size_refusal(
    words: &[i32],
    capacity: u32,
    table_length: usize,
    list_length: usize,
) -> Result<Chart<'_>, Refusal>
    ensures refused { refusal_of result ≡ refusal (size_of words.now capacity table_length list_length) }
    ensures chart { IfOk result (λ chart. chart ≡ words.now) }
{
    let chart = Chart::new(words)?;
    if too_few(&chart, capacity, table_length, list_length) {
        return Err(Refusal::FewWords);
    }
    Ok(chart)
}

// 20, 14, 21: the first that refuses a call on an analysis; else the words are the chart's.
pub fn form_refusal<'a>(
    words: &'a [i32],
    a: Analysis,
    table: &[i32],
    list: &[i32],
) -> Result<Chart<'a>, Refusal>
    ensures refused { refusal_of result ≡ refusal (form_of words.now (lent table.now list.now a)) }
    ensures chart { IfOk result (λ chart. chart ≡ words.now) }
{
    let chart = size_refusal(words, a.capacity, table.len(), list.len())?;
    if !analysis_ok(&chart, table, list, a) {
        return Err(Refusal::BadAnalysis);
    }
    Ok(chart)
}
