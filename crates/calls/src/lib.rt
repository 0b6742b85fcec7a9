// The public calls begin and run. Each judges all it is given in the documents' order; a refused call writes nothing.
#![tactic(auto)]

ghost use Rattle.std.specs.Prelude.{◌≡◌, ◌≤◌, IfOk, T, pos, nat_abs, length};
ghost use Rattle.semantics.specs.Layout.{most_slots};
ghost use Rattle.semantics.specs.declared.Analysis.{Analysis};
ghost use Rattle.semantics.specs.Algorithm.{allowed};
ghost use Rattle.semantics.specs.Encoding.{decode};
ghost use Rattle.semantics.specs.Memory.{load};
ghost use Rattle.semantics.specs.Refusals.{refusal_of, answer_of};
ghost use Rattle.semantics.specs.Outcomes.{refusal, size_of, form_of, put_in, begun, resumed, begin_cases, begin_outcome, run_cases, run_outcome};
ghost use Rattle.checks.specs.Form.{lent, Enough, InForm};
ghost use Rattle.calls.specs.Calls.{Ends, EndsCalled};

use chart::Chart;
use semantics::{Analysis, Refusal, Settings};

// 11, 12, 13, 20, 14: the first that refuses a beginning; else the words are the chart's.
fn begin_refusal(
    words: &[i32],
    settings: Settings,
    capacity: i32,
    budget: i32,
    table_length: usize,
    list_length: usize,
) -> Result<Chart<'_>, Refusal>
    ensures refused { refusal_of result ≡ refusal (begin_cases settings capacity budget (size_of words.now (nat_abs capacity) table_length list_length)) }
    ensures chart { IfOk result (λ chart. chart ≡ words.now) }
{
    checks::asked_refusal(settings, capacity, budget)?;
    checks::size_refusal(words, capacity as u32, table_length, list_length)
}

// 13, 20, 14, 21, 22, 23: the first that refuses a run; else the words are the chart's.
fn run_refusal<'a>(
    words: &'a [i32],
    budget: i32,
    a: Analysis,
    table: &[i32],
    list: &[i32],
) -> Result<Chart<'a>, Refusal>
    ensures refused { refusal_of result ≡ refusal (run_cases budget (form_of words.now (lent table.now list.now a)) a.verdict a.iterations) }
    ensures chart { IfOk result (λ chart. chart ≡ words.now) }
{
    if !checks::budget_ok(budget) {
        return Err(Refusal::BadBudget);
    }
    let chart = checks::form_refusal(words, a, table, list)?;
    if semantics::has_verdict(a.verdict) {
        return Err(Refusal::HasVerdict);
    }
    if a.iterations == semantics::MOST_ITERATIONS {
        return Err(Refusal::Spent);
    }
    Ok(chart)
}

// A beginning that no refusal stopped: the start, and the run after it, in the words of the capacity. After a start at an
// error location the run plays nothing.
fn begin_through(
    chart: &Chart,
    settings: Settings,
    capacity: u32,
    budget: u32,
    table: &mut [i32],
    list: &mut [i32],
) -> Analysis
    requires { T (allowed settings.merge settings.stop) × (1 ≤ capacity) × (capacity ≤ most_slots) × Enough chart.now capacity table.old list.old }
    ensures { (a : Analysis) → put_in (decode chart.now) (begun (decode chart.now) settings (pos capacity) (pos budget)) (lent table.old list.old a) ≡ lent table.new list.new result }
{
    let slots = capacity as usize;
    let size = slots * state::layout_of(chart.words()).stride;
    let table = &mut table[..size];
    let list = &mut list[..slots];
    let a = analysis::start(chart, settings, capacity, table, list);
    analysis::resume(chart, a, budget, table, list)
}

// A run that no refusal stopped, in the words of the capacity.
fn run_through(
    chart: &Chart,
    budget: u32,
    a: Analysis,
    table: &mut [i32],
    list: &mut [i32],
) -> Analysis
    requires { InForm chart.now (lent table.old list.old a) }
    ensures { put_in (decode chart.now) (resumed (decode chart.now) (pos budget) (load (decode chart.now) (lent table.old list.old a))) (lent table.old list.old a) ≡ lent table.new list.new result }
{
    let slots = a.capacity as usize;
    let size = slots * state::layout_of(chart.words()).stride;
    analysis::resume(chart, a, budget, &mut table[..size], &mut list[..slots])
}

// Begins an analysis, the initial state in slot 0, waiting, and plays iterations until a verdict or until the budget is
// spent. A record from before is not looked at.
pub fn begin(
    chart: &[i32],
    settings: Settings,
    capacity: i32,
    budget: i32,
    table: &mut [i32],
    list: &mut [i32],
) -> Result<Analysis, Refusal>
    ensures { (a : Analysis) → EndsCalled (begin_outcome chart.now settings capacity budget (lent table.old list.old a)) a result table.new list.new }
{
    let chart = begin_refusal(chart, settings, capacity, budget, table.len(), list.len())?;
    Ok(begin_through(
        &chart,
        settings,
        capacity as u32,
        budget as u32,
        table,
        list,
    ))
}

// Plays iterations until a verdict, until the budget is spent, or until 60,000 were played; the record by value.
pub fn run_by_value(
    chart: &[i32],
    budget: i32,
    a: Analysis,
    table: &mut [i32],
    list: &mut [i32],
) -> Result<Analysis, Refusal>
    ensures { EndsCalled (run_outcome chart.now budget (lent table.old list.old a)) a result table.new list.new }
{
    let chart = run_refusal(chart, budget, a, table, list)?;
    Ok(run_through(&chart, budget as u32, a, table, list))
}

// The same with the record lent, which is advanced in place.
pub fn run(
    chart: &[i32],
    budget: i32,
    a: &mut Analysis,
    table: &mut [i32],
    list: &mut [i32],
) -> Result<(), Refusal>
    ensures { Ends (run_outcome chart.now budget (lent table.old list.old a.old)) (answer_of result) a.new table.new list.new }
{
    *a = run_by_value(chart, budget, *a, table, list)?;
    Ok(())
}
