// Is there a real run? (request 2.3): the public call, and the text of what was found. A piece is written as far as it fits and
// counted whole, so that one function measures the text and writes it.
#![tactic(auto)]

ghost use Rattle.std.specs.Prelude.{◌≡◌, [], ◌∷◌, ◌++◌, suc, ◌-◌, ◌*◌, ◌≤◌, min, T, length, IfOk};
ghost use Rattle.semantics.specs.Layout.{most_moves};
ghost use Rattle.semantics.specs.Text.{bytes, decimal, line_of};
ghost use Rattle.semantics.specs.Encoding.{decode, well_formed};
ghost use Rattle.semantics.specs.Memory.{width};
ghost use Rattle.semantics.specs.Search.{explicit, first_run};
ghost use Rattle.semantics.specs.RunListing.{state_text, run_text, moves_ok};
ghost use Rattle.semantics.specs.Outcomes.{refusal, search_outcome};
ghost use Rattle.semantics.specs.Refusals.{refusal_of, listed_of};
ghost use Rattle.descent.specs.Rows.{state_of, Concrete};
ghost use Rattle.descent.specs.Trails.{Holds};
ghost use Rattle.writer.specs.Writing.{Put, limit};
ghost use Rattle.writer.specs.Writers.{Writes};
ghost use Rattle.search.specs.RunLines.{Rows, rows_text, states_text};
ghost use Rattle.search.specs.Refusals.{early_cases, shown};
ghost use Rattle.search.specs.Held.{holds_prop};

use chart::Chart;
use descent::{End, Run};
use semantics::{EdgeId, Refusal};
use writer::Writer;

// What a search for at most k moves found, in words: the run's first state, and the states after it in the path.
#[derive(Clone, Copy)]
struct Found<'a> {
    chart: &'a Chart<'a>,
    k: usize,
    run: Option<Run>,
    start: &'a [i32],
    path: &'a [i32],
    ghost formed: { T (well_formed chart.now) },
    ghost held: { Holds (decode chart.now) (first_run (explicit (decode chart.now)) k) start.now path.now run } by { holds_prop (decode chart.now) (first_run (explicit (decode chart.now)) k) start.now path.now run },
}

// The line of a state: the edge that brought it, its location's name and its values.
fn put_state(out: &mut Writer, found: &Found, by: EdgeId, row: &[i32])
    requires { Concrete (decode found.now.chart.now) row.now }
    ensures { Writes (state_text (decode found.now.chart.now) by.0 (state_of row.now)) out.old out.new }
{
    out.decimal(by.0);
    listing::put_name(out, found.chart, state::location_of(row));
    listing::put_values(out, state::values(row));
    out.byte(semantics::LF);
}

// The lines of the states in the first rows of the path.
fn put_rows(out: &mut Writer, found: &Found, rows: usize)
    requires { Rows (decode found.now.chart.now) rows found.now.path.now }
    ensures { Writes (rows_text (decode found.now.chart.now) rows found.now.path.now) out.old out.new }
{
    let width = state::layout_of(found.chart.words()).width();
    let mut left = found.path;
    for _done in 0..rows {
        let (row, after) = left.split_at(width + 1);
        put_state(out, found, EdgeId(words::number_at(row, 0)), &row[1..]);
        left = after;
    }
}

// The count of moves, the first state, and so many states after it.
fn put_states(out: &mut Writer, found: &Found, moves: usize, rows: usize)
    requires { Concrete (decode found.now.chart.now) found.now.start.now × Rows (decode found.now.chart.now) rows found.now.path.now }
    ensures { Writes (states_text (decode found.now.chart.now) moves rows found.now.start.now found.now.path.now) out.old out.new }
{
    out.bytes(b"run");
    listing::put_number(out, moves);
    out.byte(semantics::LF);
    put_state(out, found, EdgeId(0), found.start);
    put_rows(out, found, rows);
}

// An edge alone on its line.
fn put_edge(out: &mut Writer, edge: EdgeId)
    ensures { Writes (line_of (decimal edge.0) []) out.old out.new }
{
    out.decimal(edge.0);
    out.byte(semantics::LF);
}

// No run of at most k moves.
fn put_none(out: &mut Writer, k: usize)
    ensures { Writes (line_of (bytes "none") (decimal k ∷ [])) out.old out.new }
{
    out.bytes(b"none");
    listing::put_number(out, k);
    out.byte(semantics::LF);
}

// A run whose last move, by the edge, overruns: that move counts and leads to no state.
fn put_overrun(out: &mut Writer, found: &Found, moves: usize, edge: EdgeId)
    requires { Concrete (decode found.now.chart.now) found.now.start.now × Rows (decode found.now.chart.now) (moves - 1) found.now.path.now × (1 ≤ moves) }
    ensures { Writes (states_text (decode found.now.chart.now) moves (moves - 1) found.now.start.now found.now.path.now ++ line_of (decimal edge.0) []) out.old out.new }
{
    put_states(out, found, moves, moves - 1);
    put_edge(out, edge);
}

// What was found.
fn put_found(out: &mut Writer, found: &Found)
    ensures { Writes (run_text (decode found.now.chart.now) found.now.k) out.old out.new }
{
    let Some(run) = found.run else {
        return put_none(out, found.k);
    };
    match run.end {
        End::AtError => put_states(out, found, run.moves, run.moves),
        End::Overrun(edge) => put_overrun(out, found, run.moves, edge),
    }
}

// Writes it as far as it fits, and answers how long it is.
fn write_run(found: &Found, space: &mut [u8]) -> usize
    ensures { Put 0 (run_text (decode found.now.chart.now) found.now.k) space.old space.new result }
{
    let mut out = Writer::new(space);
    put_found(&mut out, found);
    out.at()
}

// How long the text is; it is written nowhere.
fn run_length(found: &Found) -> usize
    ensures { min result limit ≡ min (length (run_text (decode found.now.chart.now) found.now.k)) limit }
{
    write_run(found, &mut [0u8; 0])
}

// ---- the call

// A count of moves that 30 lets pass.
pub fn moves_ok(k: i32) -> bool
    ensures { result ≡ moves_ok k }
{
    (0 <= k) & (k <= semantics::MOST_MOVES as i32)
}

// The chart, if none of 30, 20 and 31, in that order, refuses a search. 30 and 20 are both asked before the first refuses, so
// that their order stands in the tests below alone.
fn refusal_before<'a>(chart: &'a [i32], k: i32) -> Result<Chart<'a>, Refusal>
    ensures refused { refusal_of result ≡ refusal (early_cases k chart.now) }
    ensures chart { IfOk result (λ x. x ≡ chart.now) }
{
    let fits = moves_ok(k);
    let formed = Chart::new(chart);
    if !fits {
        return Err(Refusal::BadMoves);
    }
    let formed = formed?;
    if descent::starts::is_too_wide(&formed) {
        return Err(Refusal::TooWide);
    }
    Ok(formed)
}

// Writes what was found and answers its length, or refuses by 15 and writes nothing.
fn show_run(found: &Found, space: &mut [u8]) -> Result<usize, Refusal>
    ensures answer { listed_of result ≡ (shown (run_text (decode found.now.chart.now) found.now.k) space.old).answer }
    ensures space { space.new ≡ (shown (run_text (decode found.now.chart.now) found.now.k) space.old).space }
{
    if space.len() < run_length(found) {
        return Err(Refusal::FewBytes);
    }
    Ok(write_run(found, space))
}

// Searches, in words lent for a run, and shows what was found.
fn search_in(
    chart: &Chart,
    k: usize,
    start: &mut [i32],
    path: &mut [i32],
    space: &mut [u8],
) -> Result<usize, Refusal>
    requires { (k ≤ most_moves) × (length start.old ≡ width (decode chart.now)) × (k * suc (width (decode chart.now)) ≤ length path.old) }
    ensures answer { listed_of result ≡ (shown (run_text (decode chart.now) k) space.old).answer }
    ensures space { space.new ≡ (shown (run_text (decode chart.now) k) space.old).space }
{
    let run = descent::first_run(chart, k, start, path);
    let found = Found {
        chart,
        k,
        run,
        start,
        path,
    };
    show_run(&found, space)
}

// Searches for a run of at most k moves into an error location or an overrun, writes what it found and answers its length, or
// refuses and writes nothing.
pub fn search(chart: &[i32], k: i32, space: &mut [u8]) -> Result<usize, Refusal>
    ensures answer { listed_of result ≡ (search_outcome chart.now k space.old).answer }
    ensures space { space.new ≡ (search_outcome chart.now k space.old).space }
{
    let chart = refusal_before(chart, k)?;
    let width = state::layout_of(chart.words()).width();
    let mut start = [0i32; state::MOST_WIDTH];
    let mut path = [0i32; semantics::MOST_MOVES * (state::MOST_WIDTH + 1)];
    search_in(
        &chart,
        words::magnitude(k),
        &mut start[..width],
        &mut path,
        space,
    )
}
