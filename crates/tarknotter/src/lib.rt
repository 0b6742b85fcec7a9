// The library's boundary: the calls for programs in other languages, on numbers and slices, under plain names. Each call
// is thin over the crate that does its work; the crate `tarknotter_c` exports them.
#![tactic(auto)]

ghost use Rattle.std.specs.Prelude.{◌≡◌, ◌-◌, ◌<◌, min, length, slice_get, Some};
ghost use Rattle.semantics.specs.Encoding.{well_formed};
ghost use Rattle.semantics.specs.Outcomes.{fine, refused_by, read_outcome, run_outcome, listing_outcome, path_outcome, search_outcome};
ghost use Rattle.semantics.specs.Refusals.{number_of, answer_of, listed_of, read_of};
ghost use Rattle.checks.specs.Form.{lent};
ghost use Rattle.tarknotter.specs.Replies.{as_reply};
ghost use Rattle.tarknotter.specs.Records.{record_of, settings_in, settings_named, codes_named, analysis_in};
ghost use Rattle.tarknotter.specs.Calls.{begin_by_codes, record_said, EndsByCodes};

use semantics::{Analysis, EdgeId, Mode, Order, Refusal, RefusedAt, Settings, Verdict};

// What a call answers, with the layout of C: 0 and line 0 with the length of a listing, path or run, or the refusal's
// number and line.
#[repr(C)]
#[derive(Clone, Copy)]
pub struct Reply {
    pub number: u32,
    pub line: usize,
    pub length: usize,
}

// `semantics::Analysis` with the layout of C, its settings and verdict as codes: merge and stop 0 sep, 1 join; order 0
// old, 1 new; verdict 0 unfinished, 1 safe, 2 alarm, 3 out of room.
#[repr(C)]
#[derive(Clone, Copy)]
pub struct Record {
    pub merge: u32,
    pub stop: u32,
    pub order: u32,
    pub capacity: u32,
    pub iterations: u32,
    pub used: usize,
    pub waiting: usize,
    pub verdict: u32,
    pub edge: usize,
}

// What a call answers, and the record as it leaves it.
#[repr(C)]
#[derive(Clone, Copy)]
pub struct Called {
    pub reply: Reply,
    pub record: Record,
}

// ---- the reply

impl Reply {
    fn fine(length: usize) -> Reply
        ensures { result ≡ as_reply (fine length) }
    {
        Reply {
            number: 0,
            line: 0,
            length,
        }
    }

    fn refused(refusal: Refusal, line: usize) -> Reply
        ensures { result ≡ as_reply (refused_by (number_of refusal) line) }
    {
        Reply {
            number: refusal.into(),
            line,
            length: 0,
        }
    }
}

impl From<Result<(), RefusedAt>> for Reply {
    ghost from_gives = { λ said reply. reply ≡ as_reply (read_of said) };

    fn from(said: Result<(), RefusedAt>) -> Reply {
        match said {
            Ok(()) => Reply::fine(0),
            Err(e) => Reply::refused(e.refusal, e.line),
        }
    }
}

// A listing, path or run is answered by its length.
impl From<Result<usize, Refusal>> for Reply {
    ghost from_gives = { λ said reply. reply ≡ as_reply (listed_of said) };

    fn from(said: Result<usize, Refusal>) -> Reply {
        match said {
            Ok(length) => Reply::fine(length),
            Err(refusal) => Reply::refused(refusal, 0),
        }
    }
}

// ---- the record written

// The code of a mode, an order or a verdict is its place among the variants.
impl From<Analysis> for Record {
    ghost from_gives = { λ a r. r ≡ record_of a };

    fn from(a: Analysis) -> Record {
        Record {
            merge: a.settings.merge as u32,
            stop: a.settings.stop as u32,
            order: a.settings.order as u32,
            capacity: a.capacity,
            iterations: a.iterations,
            used: a.used,
            waiting: a.waiting,
            verdict: a.verdict as u32,
            edge: a.edge.0,
        }
    }
}

// ---- the record read

const MODES: [Mode; 2] = [Mode::Sep, Mode::Join];

const ORDERS: [Order; 2] = [Order::Old, Order::New];

const VERDICTS: [Verdict; 4] = [Verdict::Open, Verdict::Safe, Verdict::Alarm, Verdict::Full];

// What a code names: the one of these at its place. A code that names nothing is read as the last.
fn named<T: Copy>(all: &[T], code: u32) -> T
    requires { 0 < length all.now }
    ensures { slice_get all.now (min code (length all.now - 1)) ≡ Some result }
{
    all[(code as usize).min(all.len() - 1)]
}

fn settings_in(merge: u32, stop: u32, order: u32) -> Settings
    ensures { result ≡ settings_in merge stop order }
{
    Settings {
        merge: named(&MODES, merge),
        stop: named(&MODES, stop),
        order: named(&ORDERS, order),
    }
}

// Whether each of the codes names a setting.
fn settings_named(merge: u32, stop: u32, order: u32) -> bool
    ensures { result ≡ settings_named merge stop order }
{
    (merge < 2) & (stop < 2) & (order < 2)
}

// Whether each code of the record names something.
fn codes_named(r: &Record) -> bool
    ensures { result ≡ codes_named r.now }
{
    settings_named(r.merge, r.stop, r.order) & (r.verdict < 4)
}

// The iterations, or a count that form rule 21 refuses where a code names nothing.
fn iterations_in(r: &Record) -> u32
    ensures { result ≡ (analysis_in r.now).iterations }
{
    if codes_named(r) {
        return r.iterations;
    }
    semantics::MOST_ITERATIONS + 1
}

impl From<Record> for Analysis {
    ghost from_gives = { λ r a. a ≡ analysis_in r };

    fn from(r: Record) -> Analysis {
        Analysis {
            settings: settings_in(r.merge, r.stop, r.order),
            capacity: r.capacity,
            iterations: iterations_in(&r),
            used: r.used,
            waiting: r.waiting,
            verdict: named(&VERDICTS, r.verdict),
            edge: EdgeId(r.edge),
        }
    }
}

// ---- the calls

// What a call answers, with the record before where it refuses.
fn answered(before: Record, called: Result<Analysis, Refusal>) -> Called
    ensures reply { result.reply ≡ as_reply (answer_of called) }
    ensures record { result.record ≡ record_said before called }
{
    Called {
        reply: called.map(|_| 0).into(),
        record: called.map_or(before, Record::from),
    }
}

// A chart file's bytes into the words of the encoded chart.
pub fn tarknotter_read(text: &[u8], words: &mut [i32]) -> Reply
    ensures reply { result ≡ as_reply (read_outcome text.now words.old).answer }
    ensures words { words.new ≡ (read_outcome text.now words.old).words }
{
    reader::read(text, words).into()
}

// Whether the words begin with the encoding of a chart that reading can produce.
pub fn tarknotter_well_formed(words: &[i32]) -> bool
    ensures { result ≡ well_formed words.now }
{
    chart::well_formed(words)
}

// Begins an analysis and plays iterations, as many as the budget allows. The record is the one before, which a refused
// call leaves.
pub fn tarknotter_begin(
    chart: &[i32],
    merge: u32,
    stop: u32,
    order: u32,
    capacity: i32,
    budget: i32,
    record: Record,
    table: &mut [i32],
    list: &mut [i32],
) -> Called
    ensures { EndsByCodes (begin_by_codes chart.now merge stop order capacity budget (lent table.old list.old (analysis_in «record»))) «record» result table.new list.new }
{
    if !settings_named(merge, stop, order) {
        return answered(record, Err(Refusal::Malformed));
    }
    let settings = settings_in(merge, stop, order);
    answered(
        record,
        calls::begin(chart, settings, capacity, budget, table, list),
    )
}

// Plays iterations until a verdict, until the budget is spent, or until 60,000 were played.
pub fn tarknotter_run(
    chart: &[i32],
    budget: i32,
    record: Record,
    table: &mut [i32],
    list: &mut [i32],
) -> Called
    ensures { EndsByCodes (run_outcome chart.now budget (lent table.old list.old (analysis_in «record»))) «record» result table.new list.new }
{
    answered(
        record,
        calls::run_by_value(chart, budget, record.into(), table, list),
    )
}

// Writes the listing of an analysis and answers its length.
pub fn tarknotter_listing(
    chart: &[i32],
    record: Record,
    table: &[i32],
    list: &[i32],
    space: &mut [u8],
) -> Reply
    ensures reply { result ≡ as_reply (listing_outcome chart.now (lent table.now list.now (analysis_in «record»)) space.old).answer }
    ensures space { space.new ≡ (listing_outcome chart.now (lent table.now list.now (analysis_in «record»)) space.old).space }
{
    listing::listing(chart, record.into(), table, list, space).into()
}

// Writes the path to the alarm of an analysis and answers its length.
pub fn tarknotter_path(
    chart: &[i32],
    record: Record,
    table: &[i32],
    list: &[i32],
    space: &mut [u8],
) -> Reply
    ensures reply { result ≡ as_reply (path_outcome chart.now (lent table.now list.now (analysis_in «record»)) space.old).answer }
    ensures space { space.new ≡ (path_outcome chart.now (lent table.now list.now (analysis_in «record»)) space.old).space }
{
    listing::path(chart, record.into(), table, list, space).into()
}

// Writes a shortest run of at most k moves into an error location or an overrun, or that there is none, and answers its
// length.
pub fn tarknotter_search(chart: &[i32], k: i32, space: &mut [u8]) -> Reply
    ensures reply { result ≡ as_reply (search_outcome chart.now k space.old).answer }
    ensures space { space.new ≡ (search_outcome chart.now k space.old).space }
{
    search::search(chart, k, space).into()
}
