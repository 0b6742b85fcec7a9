// The algorithm over lent words: a successor's arrival, the edges of an iteration in file order, the iteration, the run
// of iterations and the start. Record and counts go by value. Table, list and links stay arguments of their own: the
// borrow checker covers no call that lends two fields of a struct behind a `&mut`, so that with such a struct (tried in
// merge_by and arrive) each function would first take the three out, and promise that they stay the same three.
#![tactic(auto)]

ghost use Rattle.std.specs.Prelude.{◌≡◌, ℕ, ◌+◌, ◌-◌, ◌*◌, ◌<◌, ◌≤◌, min, ◌++◌, length};
ghost use Rattle.semantics.specs.Layout.{most_iterations, index_limit, origin_size};
ghost use Rattle.semantics.specs.Algorithm.{arrive, visit, visit_all, takers, brought, iteration, run, start};
ghost use Rattle.semantics.specs.Tidy.{Allowed};
ghost use Rattle.semantics.specs.Encoding.{edge_count};
ghost use Rattle.state.specs.Rows.{word_limit, width_of, most_width, layout_of, rows_of, origins_of};
ghost use Rattle.waitlist.specs.Waits.{waits};
ghost use Rattle.reached.specs.Links.{chains_of, Linked};
ghost use Rattle.transfer.specs.Transfer.{edges_from, edge_at, post_at, initial_row};
ghost use Rattle.progress.specs.Progress.{rows_only, load_of};
ghost use Rattle.analysis.specs.Loaded.{Outlined, Ready, Merged, domain_of, Progressed, Noted, Resumable, Loaded};

use chart::{Chart, EdgeRow};
use progress::Progress;
use reached::links;
use semantics::{Analysis, EdgeId, Mode, Settings, SlotId};
use state::Layout;
use transfer::Move;

mod outgoing;

// What an iteration asks of its chart: the layout of the table, edge 1, how many edges there are, and their chains.
#[derive(Clone, Copy)]
struct Outline<'a> {
    chart: &'a [i32],
    layout: Layout,
    first: EdgeRow,
    edges: usize,
    heads: &'a [usize],
    nexts: &'a [usize],
    ghost outlined: { Outlined chart.now layout first edges heads.now nexts.now },
}

// The merge of a successor with each slot, by the setting. How many slots are waiting then.
fn merge_by(
    layout: Layout,
    a: Analysis,
    e: &[i32],
    table: &mut [i32],
    list: &mut [i32],
    links: &[usize],
) -> usize
    requires { Ready layout a table.old list.old e.now links.now }
    ensures { Merged layout a e.now table.old list.old table.new list.new result }
{
    match a.settings.merge {
        Mode::Sep => a.waiting,
        Mode::Join => reached::merge_slots(layout, table, a.used, e, list, a.waiting, links),
    }
}

// A successor that is at no error location: merge, then stop, then store, with the slot and the edge that brought it. After
// a join the test against the join of its slots is the test against one slot, so one test serves both ways to stop. The
// list has a word for each slot.
fn arrive(
    layout: Layout,
    a: Analysis,
    e: &[i32],
    parent: SlotId,
    edge: EdgeId,
    table: &mut [i32],
    list: &mut [i32],
    links: &mut [usize],
) -> Progress
    requires { Ready layout a table.old list.old e.now links.old × (parent.0 < word_limit) × (edge.0 < word_limit) }
    ensures { Noted layout a.used table.old parent.0 edge.0 table.new list.new links.new result (arrive rows_only a.settings (length list.old) e.now (rows_of layout a.used table.old) (waits a.waiting list.old)) }
{
    let count = merge_by(layout, a, e, table, list, links);
    if reached::covered(layout, table, a.used, e, links) {
        return progress::went_on(a.used, count);
    }
    if a.used < list.len() {
        let new = SlotId(a.used);
        reached::store_slot(layout, table, new, e, parent, edge);
        links::add(links, new, state::location_of(e));
        let more = waitlist::append(list, count, new);
        return progress::went_on(a.used + 1, more);
    }
    progress::table_full(a.used, count)
}

// One edge, with the copy of the taken state and its slot. `next` is a row lent for the successor.
fn visit(
    outline: &Outline,
    edge: EdgeRow,
    a: Analysis,
    slot: SlotId,
    copy: &[i32],
    next: &mut [i32],
    table: &mut [i32],
    list: &mut [i32],
    links: &mut [usize],
) -> Progress
    requires { Ready outline.now.layout a table.old list.old copy.now links.old × (length next.old ≡ length copy.now) × (edge.at < index_limit) × (slot.0 < word_limit) × (edge.id.0 < word_limit) }
    ensures { Noted outline.now.layout a.used table.old slot.0 edge.id.0 table.new list.new links.new result (visit (domain_of outline.now.chart.now) a.settings (length list.old) edge.id.0 (post_at outline.now.chart.now edge.at copy.now) (rows_of outline.now.layout a.used table.old) (waits a.waiting list.old)) }
{
    match transfer::successor(outline.chart, edge, copy, next) {
        Move::Blocked => progress::went_on(a.used, a.waiting),
        Move::Fault => progress::alarm_by(edge.id, a.used, a.waiting),
        Move::Successor => {
            if transfer::is_error(outline.chart, next) {
                return progress::alarm_by(edge.id, a.used, a.waiting);
            }
            arrive(outline.layout, a, next, slot, edge.id, table, list, links)
        }
    }
}

// The edges in file order, each with the copy. Those that the chain of its location passes over would change nothing: so
// the loop goes from link to link, and not over a range.
fn visit_all(
    outline: &Outline,
    a: Analysis,
    slot: SlotId,
    copy: &[i32],
    table: &mut [i32],
    list: &mut [i32],
    links: &mut [usize],
) -> Progress
    requires { Ready outline.now.layout a table.old list.old copy.now links.old × (slot.0 < word_limit) }
    ensures progressed { Progressed outline.now.layout table.new list.new links.new result (visit_all (domain_of outline.now.chart.now) a.settings (length list.old) copy.now (edges_from 0 outline.now.edges) (rows_of outline.now.layout a.used table.old) (waits a.waiting list.old)) }
    ensures origins { origins_of outline.now.layout result.used table.new ≡ origins_of outline.now.layout a.used table.old ++ brought slot.0 (takers (domain_of outline.now.chart.now) a.settings (length list.old) copy.now (edges_from 0 outline.now.edges) (rows_of outline.now.layout a.used table.old) (waits a.waiting list.old)) }
{
    let width = copy.len();
    let mut next = [0i32; state::MOST_WIDTH];
    let mut at = a;
    let location = state::location_of(copy);
    let mut id = outgoing::first(outline.heads, location);
    while id.is_within(outline.edges) {
        let edge = chart::edge_of(outline.first, id);
        let p = visit(
            outline,
            edge,
            at,
            slot,
            copy,
            &mut next[..width],
            table,
            list,
            links,
        );
        if p.exit.has_ended() {
            return p;
        }
        at = progress::with_counts(at, p.used, p.waiting);
        id = outgoing::next(outline.chart, edge, outline.nexts, location);
    }
    progress::went_on(at.used, at.waiting)
}

// One iteration.
fn iteration(
    outline: &Outline,
    a: Analysis,
    table: &mut [i32],
    list: &mut [i32],
    links: &mut [usize],
) -> Analysis
    requires { Resumable outline.now.layout outline.now.edges a table.old list.old × (a.iterations < most_iterations) × (0 < a.waiting) × Linked (chains_of outline.now.layout a.used table.old) links.old }
    ensures loaded { Loaded outline.now.layout outline.now.edges result table.new list.new (iteration (domain_of outline.now.chart.now) (edges_from 0 outline.now.edges) (load_of outline.now.layout a table.old list.old)) }
    ensures iterations { result.iterations ≡ a.iterations + 1 }
    ensures linked { Linked (chains_of outline.now.layout result.used table.new) links.new }
{
    let slot = waitlist::take_slot(a.settings.order, list, a.waiting);
    let mut row = [0i32; state::MOST_WIDTH];
    let copy = &mut row[..outline.layout.width()];
    reached::get_row(outline.layout, table, slot, copy);
    let taken = progress::with_counts(a, a.used, a.waiting - 1);
    let p = visit_all(outline, taken, slot, copy, table, list, links);
    progress::finish(a, slot, p, list)
}

// Iterations until a verdict, `most` at most.
fn play(
    outline: &Outline,
    a: Analysis,
    most: u32,
    table: &mut [i32],
    list: &mut [i32],
    links: &mut [usize],
) -> Analysis
    requires { Resumable outline.now.layout outline.now.edges a table.old list.old × (a.iterations + most ≤ most_iterations) × Linked (chains_of outline.now.layout a.used table.old) links.old }
    ensures { Loaded outline.now.layout outline.now.edges result table.new list.new (run (domain_of outline.now.chart.now) (edges_from 0 outline.now.edges) most (load_of outline.now.layout a table.old list.old)) }
{
    let mut at = a;
    for _ in 0..most {
        if semantics::has_verdict(at.verdict) {
            return at;
        }
        at = iteration(outline, at, table, list, links);
    }
    at
}

// Iterations until a verdict, until the budget is spent, or until the most were played, over any words that stand as a
// chart's: the layout and the count of edges are given.
pub fn run_core(
    chart: &[i32],
    edges: usize,
    layout: Layout,
    a: Analysis,
    budget: u32,
    table: &mut [i32],
    list: &mut [i32],
) -> Analysis
    requires { Resumable layout edges a table.old list.old × (a.iterations ≤ most_iterations) × (width_of layout ≤ most_width) × (edge_at chart.now edges < index_limit) }
    ensures { Loaded layout edges result table.new list.new (run (domain_of chart.now) (edges_from 0 edges) (min budget (most_iterations - a.iterations)) (load_of layout a table.old list.old)) }
{
    // the number past the last edge stands for none
    let mut heads = [edges + 1; semantics::MOST_LOCATIONS];
    let mut nexts = [0usize; semantics::MOST_EDGES];
    outgoing::chain(chart, edges, &mut heads, &mut nexts);
    let outline = Outline {
        chart,
        layout,
        first: chart::first_edge(chart),
        edges,
        heads: &heads,
        nexts: &nexts,
    };
    let mut links = [links::NONE; links::SIZE];
    links::link_all(layout, table, a.used, &mut links);
    let most = budget.min(semantics::MOST_ITERATIONS - a.iterations);
    play(&outline, a, most, table, list, &mut links)
}

// The same over a chart in form, with its own layout and all its edges.
pub fn resume(
    chart: &Chart,
    a: Analysis,
    budget: u32,
    table: &mut [i32],
    list: &mut [i32],
) -> Analysis
    requires { Resumable (layout_of chart.now) (edge_count chart.now) a table.old list.old × (a.iterations ≤ most_iterations) }
    ensures { Loaded (layout_of chart.now) (edge_count chart.now) result table.new list.new (run (domain_of chart.now) (edges_from 0 (edge_count chart.now)) (min budget (most_iterations - a.iterations)) (load_of (layout_of chart.now) a table.old list.old)) }
{
    let chart = chart.words();
    let layout = state::layout_of(chart);
    let edges = chart::edge_count(chart);
    run_core(chart, edges, layout, a, budget, table, list)
}

// An analysis begins with the initial state, in the row lent, in slot 0, waiting.
pub fn start_core(
    chart: &[i32],
    layout: Layout,
    settings: Settings,
    capacity: u32,
    table: &mut [i32],
    list: &mut [i32],
    row: &[i32],
) -> Analysis
    requires { (0 < length row.now) × (length row.now ≡ width_of layout) × (layout.stride ≡ width_of layout + origin_size) × (0 < capacity) × (capacity < index_limit) × (length table.old ≡ capacity * layout.stride) × (length list.old ≡ capacity) × Allowed settings }
    ensures { (last : ℕ) → Loaded layout last result table.new list.new (start (domain_of chart.now) settings capacity row.now) }
{
    words::fill_zero(table);
    words::fill_zero(list);
    reached::store_slot(
        layout,
        table,
        SlotId(0),
        row,
        SlotId(semantics::NO_SLOT),
        EdgeId(0),
    );
    let count = waitlist::append(list, 0, SlotId(0));
    let error = transfer::is_error(chart, row);
    progress::first_record(settings, capacity, count, error)
}

// The same over a chart in form, with its own layout and the row of its initial state.
pub fn start(
    chart: &Chart,
    settings: Settings,
    capacity: u32,
    table: &mut [i32],
    list: &mut [i32],
) -> Analysis
    requires { (0 < capacity) × (capacity < index_limit) × (length table.old ≡ capacity * (layout_of chart.now).stride) × (length list.old ≡ capacity) × Allowed settings }
    ensures { (last : ℕ) → Loaded (layout_of chart.now) last result table.new list.new (start (domain_of chart.now) settings capacity (initial_row chart.now)) }
{
    let chart = chart.words();
    let layout = state::layout_of(chart);
    let mut lent = [0i32; state::MOST_WIDTH];
    let row = &mut lent[..layout.width()];
    transfer::initial(chart, row);
    start_core(chart, layout, settings, capacity, table, list, row)
}
