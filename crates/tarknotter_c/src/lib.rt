// The calls for C, and for Rust by C's convention: each is the call of its name in `tarknotter`, under the same clauses. A
// slice arrives as a pointer and a length.
#![tactic(auto)]

ghost use Rattle.std.specs.Prelude.{◌≡◌};
ghost use Rattle.semantics.specs.Encoding.{well_formed};
ghost use Rattle.semantics.specs.Outcomes.{read_outcome, run_outcome, listing_outcome, path_outcome, search_outcome};
ghost use Rattle.checks.specs.Form.{lent};
ghost use Rattle.tarknotter.specs.Replies.{as_reply};
ghost use Rattle.tarknotter.specs.Records.{analysis_in};
ghost use Rattle.tarknotter.specs.Calls.{begin_by_codes, EndsByCodes};

use tarknotter::{Called, Record, Reply};

// A chart file's bytes into the words of the encoded chart.
#[unsafe(no_mangle)]
pub extern "C" fn tarknotter_read(text: &[u8], words: &mut [i32]) -> Reply
    ensures reply { result ≡ as_reply (read_outcome text.now words.old).answer }
    ensures words { words.new ≡ (read_outcome text.now words.old).words }
{
    tarknotter::tarknotter_read(text, words)
}

// Whether the words begin with the encoding of a chart that reading can produce.
#[unsafe(no_mangle)]
pub extern "C" fn tarknotter_well_formed(words: &[i32]) -> bool
    ensures { result ≡ well_formed words.now }
{
    tarknotter::tarknotter_well_formed(words)
}

// Begins an analysis and plays iterations, as many as the budget allows. The record is the one before, which a refused
// call leaves.
#[unsafe(no_mangle)]
pub extern "C" fn tarknotter_begin(
    chart: &[i32],
    merge: u32,
    stop: u32,
    order: u32,
    capacity: i32,
    budget: i32,
    record: Record,
    table: &mut [i32],
    list: &mut [i32],
) -> Called
    ensures { EndsByCodes (begin_by_codes chart.now merge stop order capacity budget (lent table.old list.old (analysis_in «record»))) «record» result table.new list.new }
{
    tarknotter::tarknotter_begin(
        chart, merge, stop, order, capacity, budget, record, table, list,
    )
}

// Plays iterations until a verdict, until the budget is spent, or until 60,000 were played.
#[unsafe(no_mangle)]
pub extern "C" fn tarknotter_run(
    chart: &[i32],
    budget: i32,
    record: Record,
    table: &mut [i32],
    list: &mut [i32],
) -> Called
    ensures { EndsByCodes (run_outcome chart.now budget (lent table.old list.old (analysis_in «record»))) «record» result table.new list.new }
{
    tarknotter::tarknotter_run(chart, budget, record, table, list)
}

// Writes the listing of an analysis and answers its length.
#[unsafe(no_mangle)]
pub extern "C" fn tarknotter_listing(
    chart: &[i32],
    record: Record,
    table: &[i32],
    list: &[i32],
    space: &mut [u8],
) -> Reply
    ensures reply { result ≡ as_reply (listing_outcome chart.now (lent table.now list.now (analysis_in «record»)) space.old).answer }
    ensures space { space.new ≡ (listing_outcome chart.now (lent table.now list.now (analysis_in «record»)) space.old).space }
{
    tarknotter::tarknotter_listing(chart, record, table, list, space)
}

// Writes the path to the alarm of an analysis and answers its length.
#[unsafe(no_mangle)]
pub extern "C" fn tarknotter_path(
    chart: &[i32],
    record: Record,
    table: &[i32],
    list: &[i32],
    space: &mut [u8],
) -> Reply
    ensures reply { result ≡ as_reply (path_outcome chart.now (lent table.now list.now (analysis_in «record»)) space.old).answer }
    ensures space { space.new ≡ (path_outcome chart.now (lent table.now list.now (analysis_in «record»)) space.old).space }
{
    tarknotter::tarknotter_path(chart, record, table, list, space)
}

// Writes a shortest run of at most k moves into an error location or an overrun, or that there is none, and answers its
// length.
#[unsafe(no_mangle)]
pub extern "C" fn tarknotter_search(chart: &[i32], k: i32, space: &mut [u8]) -> Reply
    ensures reply { result ≡ as_reply (search_outcome chart.now k space.old).answer }
    ensures space { space.new ≡ (search_outcome chart.now k space.old).space }
{
    tarknotter::tarknotter_search(chart, k, space)
}
