// `E from to operation ..`: the line is judged, and its row stored.
ghost use Rattle.std.specs.Prelude.{◌≡◌};
ghost use Rattle.semantics.specs.Text.{fields};
ghost use Rattle.semantics.specs.Operations.{the_operation};
ghost use Rattle.semantics.specs.Reading.{SoFar, field_count, edge_line};
ghost use Rattle.text.specs.Fields.{the_word, field_at, res_by};
ghost use Rattle.reader.specs.Answers.{edge_of};
ghost use Rattle.reader.specs.Lines.{op_read, edge_fields};
ghost use Rattle.reader.specs.Drafts.{Holds, LineJudged};

use super::draft::Draft;
use super::operation;
use semantics::{LocationId, MOST_EDGES, Operation, Refusal};
use text::line::Line;
use text::{Action, Field};

// What an E line says.
#[derive(Clone, Copy)]
struct Edge {
    from: LocationId,
    to: LocationId,
    op: Operation,
}

// How many fields a line with this operation has.
fn field_count(action: Option<Action>) -> usize
    ensures { result ≡ field_count (the_word action) }
{
    match action {
        None => 4,
        Some(Action::Set) => 6,
        Some(_) => 7,
    }
}

// The locations, then the operation.
fn judged(
    draft: &Draft,
    from: &[u8],
    to: &[u8],
    action: Option<Action>,
    line: &Line,
    word: Field,
) -> Result<Edge, Refusal>
    requires { word ≡ field_at line.now.bytes.now 3 }
    ensures { res_by edge_of result ≡ edge_fields draft.now.tally.locs (op_read draft.now.rows draft.now.tally.vars action (fields line.now.bytes.now)) from.now to.now }
{
    let from = text::location_field(draft.tally.locs, from)?;
    let to = text::location_field(draft.tally.locs, to)?;
    let op = operation::read(action, draft, line, word)?;
    Ok(Edge { from, to, op })
}

// An E line. How many fields it has goes by its operation, so that this is read first.
pub fn read_line(draft: &mut Draft, line: &Line, kind: Field) -> Result<(), Refusal>
    requires { kind ≡ field_at line.now.bytes.now 0 }
    ensures { (s : SoFar) → Holds draft.old s → LineJudged result (edge_line s (fields line.now.bytes.now)) draft.new }
{
    if MOST_EDGES <= draft.tally.edges {
        return Err(Refusal::WrongCount);
    }
    if !line.form.has_at_least(4) {
        return Err(Refusal::WrongFields);
    }
    let from = text::field_after(line.bytes, kind);
    let to = text::field_after(line.bytes, from);
    let word = text::field_after(line.bytes, to);
    let action = text::op_word_field(text::field_bytes(line.bytes, word))?;
    if line.form.fields != field_count(action) {
        return Err(Refusal::WrongFields);
    }
    let edge = judged(
        draft,
        text::field_bytes(line.bytes, from),
        text::field_bytes(line.bytes, to),
        action,
        line,
        word,
    )?;
    let end = draft.used_words();
    chart::put_edge(&mut draft.rows, end, edge.from, edge.to, edge.op);
    draft.tally.edges += 1;
    Ok(())
}
