// From input bytes to output bytes: all of the walk program but its reading and writing.
#![tactic(auto)]

ghost use Rattle.std.specs.Prelude.{◌≡◌, List, ◌++◌, ℕ, min, T, length, take, drop};
ghost use Rattle.semantics.specs.Layout.{listing_bytes};
ghost use Rattle.semantics.specs.Encoding.{decode, well_formed};
ghost use Rattle.semantics.specs.Listing.{refused_text};
ghost use Rattle.semantics.specs.Refusals.{number_of};
ghost use Rattle.semantics.specs.Program.{explored, shown, output, search_output, command};
ghost use Rattle.writer.specs.Writing.{Put};
ghost use Rattle.writer.specs.Writers.{Writes};
ghost use Rattle.program.specs.Asked.{asking};
ghost use Rattle.program.specs.Responded.{Accepted, Answered, Printed, Buffered, Arguments, at_line_0, said_at_line_0};

use go_line::Go;
use semantics::{Command, Refusal, RefusedAt, View};
use writer::Writer;

mod go_line;

// The words lent suffice for every chart and every capacity: 3,163, 2,816 and 256.
const CHART_SIZE: usize = chart::CHART_SIZE;

const TABLE_SIZE: usize = semantics::MOST_SLOTS * state::MOST_STRIDE;

const LIST_SIZE: usize = semantics::MOST_SLOTS;

// The most that the program reads of its input: a go line, a chart, and one byte more that tells a chart too long. What
// stands past these 32,833 bytes changes nothing, which `respond_to` says.
pub const INPUT: usize = go_line::GO_LINE_BYTES + reader::MOST_BYTES + 1;

// 0 where no line applies.
fn at_line_0(refusal: Refusal) -> RefusedAt
    ensures { result ≡ at_line_0 refusal }
{
    RefusedAt { refusal, line: 0 }
}

// The line of a refusal.
fn put_line(out: &mut Writer, e: RefusedAt)
    ensures { Writes (refused_text (number_of e.refusal) e.line) out.old out.new }
{
    out.bytes(b"refused\t");
    out.decimal(u32::from(e.refusal) as usize);
    out.byte(semantics::TAB);
    out.decimal(e.line);
    out.byte(semantics::LF);
}

fn put_refusal(out: &mut [u8], e: RefusedAt) -> usize
    ensures { Put 0 (refused_text (number_of e.refusal) e.line) out.old out.new result }
{
    let mut out = Writer::new(out);
    put_line(&mut out, e);
    out.at()
}

// What is to be shown of an accepted chart: a path is refused where there is no alarm. Nothing else is refused, since the
// go line was accepted and the words and bytes lent are enough.
fn show(view: View, chart: &[i32], go: Go, out: &mut [u8]) -> Result<usize, Refusal>
    requires { T (well_formed chart.now) × (length out.old ≡ listing_bytes) × Accepted go }
    ensures { Answered (shown view (decode chart.now) (explored (decode chart.now) (asking go))) out.old (said_at_line_0 result) out.new }
{
    let mut table = [0i32; TABLE_SIZE];
    let mut list = [0i32; LIST_SIZE];
    let a = calls::begin(
        chart,
        go.settings,
        go.capacity,
        go.budget,
        &mut table,
        &mut list,
    )?;
    listing::show(view, chart, a, &table, &list, out)
}

// The answer to an input: the go line's refusal, or the chart's, or what is to be shown of it.
fn answer(view: View, input: &[u8], out: &mut [u8]) -> Result<usize, RefusedAt>
    requires { length out.old ≡ listing_bytes }
    ensures { Answered (output view input.now) out.old result out.new }
{
    let (go, chart) = go_line::read(input).map_err(at_line_0)?;
    let mut words = [0i32; CHART_SIZE];
    reader::read(chart, &mut words)?;
    show(view, &words, go, out).map_err(at_line_0)
}

// What the program prints for an input: its bytes at the front of those lent, and how many they are.
pub fn respond(view: View, input: &[u8], out: &mut [u8; semantics::LISTING_BYTES]) -> usize
    ensures count { result ≡ length (output view input.now) }
    ensures bytes { out.new ≡ output view input.now ++ drop (length (output view input.now)) out.old }
{
    match answer(view, input, out) {
        Ok(length) => length,
        Err(e) => put_refusal(out, e),
    }
}

// ---- a search

// The answer to a chart without a go line, asked for a run of at most k moves, k a text: no number is 6, and one that is
// out of range 30, before the chart is read; then its refusal, or its run, or 31.
fn search_answer(k: &[u8], chart: &[u8], out: &mut [u8]) -> Result<usize, RefusedAt>
    requires { length out.old ≡ listing_bytes }
    ensures { Answered (search_output k.now chart.now) out.old result out.new }
{
    let moves = text::number(k).ok_or(at_line_0(Refusal::Malformed))?;
    if !search::moves_ok(moves) {
        return Err(at_line_0(Refusal::BadMoves));
    }
    let mut held = [0i32; CHART_SIZE];
    reader::read(chart, &mut held)?;
    search::search(&held, moves, out).map_err(at_line_0)
}

// What the program prints for a chart without a go line, asked for a run of at most k moves, k a text.
pub fn respond_search(k: &[u8], chart: &[u8], out: &mut [u8; semantics::LISTING_BYTES]) -> usize
    ensures count { result ≡ length (search_output k.now chart.now) }
    ensures bytes { out.new ≡ search_output k.now chart.now ++ drop (length (search_output k.now chart.now)) out.old }
{
    match search_answer(k, chart, out) {
        Ok(length) => length,
        Err(refused) => put_refusal(out, refused),
    }
}

// ---- by what the system was asked to read

// The bytes of a buffer that were read, by their count; one above the buffer's size says that it is full.
fn front(bytes: &[u8], count: usize) -> &[u8]
    ensures { result.now ≡ take (min count (length bytes.now)) bytes.now }
{
    &bytes[..count.min(bytes.len())]
}

// What the program prints, by the buffer that it read into and the count of bytes read: a count below the size says that
// the input is at its end. The output is that of every input of which this can have been read.
pub fn respond_to(
    view: View,
    buffer: &[u8; INPUT],
    count: usize,
    out: &mut [u8; semantics::LISTING_BYTES],
) -> usize
    ensures { (input : List ℕ) → Buffered input buffer.now count → Printed (output view input) out.old out.new result }
{
    respond(view, front(buffer, count), out)
}

// The same of a search, whose buffer has the chart alone.
pub fn respond_search_to(
    k: &[u8],
    buffer: &[u8; INPUT],
    count: usize,
    out: &mut [u8; semantics::LISTING_BYTES],
) -> usize
    ensures { (chart : List ℕ) → Buffered chart buffer.now count → Printed (search_output k.now chart) out.old out.new result }
{
    respond_search(k, front(buffer, count), out)
}

// ---- the arguments

// The bytes of the first argument that are looked at: more than any word of a command has.
pub const ARGUMENT: usize = 8;

// What the program's arguments ask: how many there are, and the first of them, by the buffer that it was read into and its
// length. One that is longer than the buffer is handed on as an empty one, which is no command either.
pub fn command(count: usize, buffer: &[u8; ARGUMENT], length: usize) -> Command
    ensures { (args : List (List ℕ)) → Arguments args count buffer.now length → result ≡ command args }
{
    match (count, front(buffer, length)) {
        (0, _) => Command::Show(View::Listing),
        (1, b"path") => Command::Show(View::Path),
        (1, b"help") => Command::Help,
        (2, b"search") => Command::Search,
        _ => Command::Unknown,
    }
}
