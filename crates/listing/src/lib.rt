// The listing of an analysis, and the path to its alarm: texts written into lent bytes, and the public calls. A piece is
// written as far as it fits and counted whole, so that one function measures a text and writes it.
#![tactic(auto)]

ghost use Rattle.std.specs.Prelude.{◌≡◌, true, false, not, ltb, List, map, ℕ, ◌≤◌, ◌<◌, IfOk, T, nat_abs, length, take, drop, set, replicate};
ghost use Rattle.semantics.specs.Layout.{most_slots};
ghost use Rattle.semantics.specs.Text.{decimal};
ghost use Rattle.semantics.specs.Encoding.{val, decode};
ghost use Rattle.semantics.specs.Memory.{load, is_alarm};
ghost use Rattle.semantics.specs.Listing.{mode_text, order_text, verdict_text, loc_text, val_text, mark, header_text};
ghost use Rattle.semantics.specs.Path.{parent_of, way_to, path_header, path_line};
ghost use Rattle.semantics.specs.Outcomes.{refusal, form_of, listing_of, path_of, listing_outcome, path_outcome};
ghost use Rattle.semantics.specs.Refusals.{refusal_of, listed_of};
ghost use Rattle.state.specs.Rows.{layout_of};
ghost use Rattle.checks.specs.Form.{lent, InForm};
ghost use Rattle.writer.specs.Writing.{Put, limit};
ghost use Rattle.writer.specs.Writers.{Writes};
ghost use Rattle.listing.specs.Pieces.{tabbed, values_text, marked};
ghost use Rattle.listing.specs.Views.{has_text, view_text, view_outcome};

use chart::Chart;
use semantics::{Analysis, LocationId, Mode, Order, Refusal, SlotId, Verdict, View};
use state::Layout;
use writer::Writer;

// A field that is not a line's first: a tab, and its bytes.
fn put_field(out: &mut Writer, field: &[u8])
    ensures { Writes (tabbed field.now) out.old out.new }
{
    out.byte(semantics::TAB);
    out.bytes(field);
}

pub fn put_number(out: &mut Writer, n: usize)
    ensures { Writes (tabbed (decimal n)) out.old out.new }
{
    out.byte(semantics::TAB);
    out.decimal(n);
}

// ---- the first lines

// What a line says by a word.
trait Word {
    ghost text: { Self → List ℕ };

    fn word(self) -> &'static [u8]
        ensures { result.now ≡ text self };
}

impl Word for Mode {
    ghost text = { mode_text };

    fn word(self) -> &'static [u8] {
        match self {
            Mode::Sep => b"sep",
            Mode::Join => b"join",
        }
    }
}

impl Word for Order {
    ghost text = { order_text };

    fn word(self) -> &'static [u8] {
        match self {
            Order::Old => b"old",
            Order::New => b"new",
        }
    }
}

impl Word for Verdict {
    ghost text = { verdict_text };

    fn word(self) -> &'static [u8] {
        match self {
            Verdict::Open => b"open",
            Verdict::Safe => b"safe",
            Verdict::Alarm => b"alarm",
            Verdict::Full => b"room",
        }
    }
}

fn put_header(out: &mut Writer, a: Analysis)
    ensures { Writes (header_text a) out.old out.new }
{
    out.bytes(b"walk");
    put_field(out, a.settings.merge.word());
    put_field(out, a.settings.stop.word());
    put_field(out, a.settings.order.word());
    put_field(out, a.verdict.word());
    put_number(out, a.iterations as usize);
    put_number(out, a.used);
    put_number(out, a.edge.0);
    out.byte(semantics::LF);
}

// The first line of a path.
fn put_path_header(out: &mut Writer, analysis: Analysis)
    ensures { Writes (path_header analysis.settings.merge analysis.edge.0) out.old out.new }
{
    out.bytes(b"path");
    put_field(out, analysis.settings.merge.word());
    put_number(out, analysis.edge.0);
    out.byte(semantics::LF);
}

// ---- the fields of a slot's line

// The name of a location, after its tab.
pub fn put_name(out: &mut Writer, chart: &Chart, l: LocationId)
    ensures { Writes (tabbed (loc_text (decode chart.now).locs l.0)) out.old out.new }
{
    let name = chart::name(chart.words(), l);
    out.byte(semantics::TAB);
    for w in name {
        out.byte(chart::byte_of(*w));
    }
}

// A value, or `*` for top, after its tab.
fn put_value(out: &mut Writer, w: i32)
    ensures { Writes (tabbed (val_text (val w))) out.old out.new }
{
    out.byte(semantics::TAB);
    if w == words::TOP {
        return out.byte(b'*');
    }
    out.signed(w);
}

// The values of a row.
pub fn put_values(out: &mut Writer, values: &[i32])
    ensures { Writes (values_text values.now) out.old out.new }
{
    for w in values {
        put_value(out, *w);
    }
}

// Whether the slot waits, after its tab.
fn put_mark(out: &mut Writer, waiting: bool)
    ensures { Writes (tabbed (mark waiting)) out.old out.new }
{
    put_field(out, if waiting { b"w" } else { b"-" });
}

// Marks a slot; none past the marks.
fn set_mark(marks: &mut [bool], slot: usize)
    ensures { marks.new ≡ set marks.old slot true }
{
    // `get_mut` was tried: of a slice it promises nothing afterwards, so the proof did not close.
    if slot < marks.len() {
        marks[slot] = true;
    }
}

// Which slots are in the list.
fn marks_of(list: &[i32]) -> [bool; semantics::MOST_SLOTS]
    ensures { result ≡ marked (replicate most_slots false) (map nat_abs list.now) }
{
    let mut marks = [false; semantics::MOST_SLOTS];
    for w in list {
        set_mark(&mut marks, words::magnitude(*w));
    }
    marks
}

// ---- an analysis in form

// The words of an analysis in form, how its slots stand in the table, and which of them wait.
#[derive(Drop)]
struct Held<'a> {
    chart: Chart<'a>,
    table: &'a [i32],
    list: &'a [i32],
    analysis: Analysis,
    layout: Layout,
    marks: [bool; semantics::MOST_SLOTS],
    ghost in_form: { InForm chart (lent table.now list.now analysis) },
    ghost laid: { layout ≡ layout_of chart },
    ghost marked: { marks ≡ marked (replicate most_slots false) (map nat_abs (take analysis.waiting list.now)) },
}

impl<'a> Held<'a> {
    ghost use Rattle.listing.specs.Shown.{memory, origins, slot_line};

    // 20, 14, 21: the first that refuses.
    fn new(
        words: &'a [i32],
        analysis: Analysis,
        table: &'a [i32],
        list: &'a [i32],
    ) -> Result<Held<'a>, Refusal>
        ensures refused { refusal_of result ≡ refusal (form_of words.now (lent table.now list.now analysis)) }
        ensures chart { IfOk result (λ held. held.chart ≡ words.now) }
        ensures memory { IfOk result (λ held. memory held ≡ lent table.now list.now analysis) }
    {
        let chart = checks::form_refusal(words, analysis, table, list)?;
        Ok(Held {
            chart,
            table,
            list,
            analysis,
            layout: state::layout_of(words),
            marks: marks_of(&list[..analysis.waiting]),
        })
    }

    // The line of a slot.
    #[tactic(auto, using(crate::proofs::Shown::in_table))]
    fn put_slot(&self, out: &mut Writer, id: SlotId)
        requires { id.0 < self.now.analysis.used }
        ensures { Writes (slot_line self.now id.0) out.old out.new }
    {
        let row = state::row_of(self.layout, self.table, self.layout.slot(id));
        out.decimal(id.0);
        put_name(out, &self.chart, state::location_of(row));
        put_values(out, state::values(row));
        put_mark(out, self.marks[id.0]);
        out.byte(semantics::LF);
    }

    // The listing: the first line, and the lines of the slots in use.
    fn put_listing(&self, out: &mut Writer)
        ensures { Writes (listing_of (decode self.now.chart) (memory self.now)) out.old out.new }
    {
        put_header(out, self.analysis);
        for id in 0..self.analysis.used {
            self.put_slot(out, SlotId(id));
        }
    }

    // A slot's line after the edge that brought it.
    #[tactic(auto, using(crate::proofs::Shown::in_table))]
    fn put_step(&self, out: &mut Writer, id: SlotId)
        requires { id.0 < self.now.analysis.used }
        ensures { Writes (path_line (decode self.now.chart) (load (decode self.now.chart) (memory self.now)) id.0) out.old out.new }
    {
        let tail = state::tail_of(self.layout, self.table, self.layout.slot(id));
        out.decimal(state::origin_edge(tail).0);
        out.byte(semantics::TAB);
        self.put_slot(out, id);
    }

    // The slot that it came from.
    #[tactic(auto, using(crate::proofs::Shown::in_table))]
    fn parent(&self, id: SlotId) -> SlotId
        requires { id.0 < self.now.analysis.used }
        ensures { result.0 ≡ parent_of (origins self.now) id.0 }
    {
        state::origin_parent(state::tail_of(self.layout, self.table, self.layout.slot(id)))
    }

    // The slots from slot 0 to the one given, each after its parent, at the end of the places lent; where they begin there.
    fn trace_back(&self, to: SlotId, way: &mut [usize]) -> usize
        requires { (to.0 < self.now.analysis.used) × (self.now.analysis.used ≤ length way.old) }
        ensures inside { result ≤ length way.new }
        ensures way { drop result way.new ≡ way_to (origins self.now) to.0 to.0 }
    {
        // No plainer by a `for`: a place is taken for each slot until slot 0, and the last one taken is the answer.
        let mut at = way.len() - 1;
        let mut slot = to;
        way[at] = to.0;
        while slot.0 != 0 {
            slot = self.parent(slot);
            at -= 1;
            way[at] = slot.0;
        }
        at
    }

    // The path: its first line, and the lines of the slots from slot 0 to the one that is taken next.
    fn put_path(&self, out: &mut Writer)
        requires { T (is_alarm self.now.analysis.verdict) }
        ensures { Writes (path_of (decode self.now.chart) (memory self.now)) out.old out.new }
    {
        put_path_header(out, self.analysis);
        let waiting = &self.list[..self.analysis.waiting];
        let taken = waitlist::next_slot(self.analysis.settings.order, waiting);
        let mut way = [0usize; semantics::MOST_SLOTS];
        let first = self.trace_back(taken, &mut way);
        let slots = &way[first..];
        for id in slots {
            self.put_step(out, SlotId(*id));
        }
    }

    fn put(&self, out: &mut Writer, view: View)
        requires { T (has_text view self.now.analysis.verdict) }
        ensures { Writes (view_text view (decode self.now.chart) (memory self.now)) out.old out.new }
    {
        match view {
            View::Listing => self.put_listing(out),
            View::Path => self.put_path(out),
        }
    }

    // Writes the text as far as it fits, and answers how long it is.
    fn write(&self, view: View, space: &mut [u8]) -> usize
        requires { T (has_text view self.now.analysis.verdict) }
        ensures { Put 0 (view_text view (decode self.now.chart) (memory self.now)) space.old space.new result }
    {
        let mut out = Writer::new(space);
        self.put(&mut out, view);
        out.at()
    }

    // Whether the text fits into so many bytes; it is measured only where a text might not.
    fn fits(&self, view: View, room: usize) -> bool
        requires { T (has_text view self.now.analysis.verdict) × (room < limit) }
        ensures { result ≡ not (ltb room (length (view_text view (decode self.now.chart) (memory self.now)))) }
    {
        semantics::LISTING_BYTES <= room || self.write(view, &mut []) <= room
    }
}

// Whether there is such a text: a path needs an alarm.
fn has_text(view: View, verdict: Verdict) -> bool
    ensures { result ≡ has_text view verdict }
{
    matches!(view, View::Listing) | matches!(verdict, Verdict::Alarm)
}

// ---- the public calls

// Writes a text of an analysis and answers its length; or refuses and writes nothing, by the first of 20, 14, 21, of a path
// 24, then 15.
pub fn show(
    view: View,
    chart: &[i32],
    a: Analysis,
    table: &[i32],
    list: &[i32],
    space: &mut [u8],
) -> Result<usize, Refusal>
    ensures answer { listed_of result ≡ (view_outcome view chart.now (lent table.now list.now a) space.old).answer }
    ensures space { space.new ≡ (view_outcome view chart.now (lent table.now list.now a) space.old).space }
{
    let held = Held::new(chart, a, table, list)?;
    if !has_text(view, a.verdict) {
        return Err(Refusal::NoAlarm);
    }
    if !held.fits(view, space.len()) {
        return Err(Refusal::FewBytes);
    }
    Ok(held.write(view, space))
}

// The listing of an analysis.
pub fn listing(
    chart: &[i32],
    a: Analysis,
    table: &[i32],
    list: &[i32],
    space: &mut [u8],
) -> Result<usize, Refusal>
    ensures answer { listed_of result ≡ (listing_outcome chart.now (lent table.now list.now a) space.old).answer }
    ensures space { space.new ≡ (listing_outcome chart.now (lent table.now list.now a) space.old).space }
{
    show(View::Listing, chart, a, table, list, space)
}

// The path to the alarm of an analysis.
pub fn path(
    chart: &[i32],
    a: Analysis,
    table: &[i32],
    list: &[i32],
    space: &mut [u8],
) -> Result<usize, Refusal>
    ensures answer { listed_of result ≡ (path_outcome chart.now (lent table.now list.now a) space.old).answer }
    ensures space { space.new ≡ (path_outcome chart.now (lent table.now list.now a) space.old).space }
{
    show(View::Path, chart, a, table, list, space)
}
