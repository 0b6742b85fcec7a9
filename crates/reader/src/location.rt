// `L name kind`: the line is judged, and its row stored.
ghost use Rattle.std.specs.Prelude.{◌≡◌, T, ◌<◌};
ghost use Rattle.semantics.specs.Layout.{most_locations};
ghost use Rattle.semantics.specs.Text.{fields, name_ok};
ghost use Rattle.semantics.specs.Reading.{SoFar, loc_line};
ghost use Rattle.text.specs.Fields.{field_at, res};
ghost use Rattle.reader.specs.Lines.{loc_judged, loc_named};
ghost use Rattle.reader.specs.Drafts.{Holds, LineJudged};

use super::draft::{Draft, NUMBERS_PLACE};
use semantics::{MOST_LOCATIONS, Refusal};
use text::Field;
use text::line::Line;

// All the fields: their count, then the name, then the kind, which is the answer.
fn judged(line: &Line, name: Field) -> Result<bool, Refusal>
    requires { name ≡ field_at line.now.bytes.now 1 }
    ensures { res result ≡ loc_judged (fields line.now.bytes.now) }
{
    if !line.form.has(3) {
        return Err(Refusal::WrongFields);
    }
    if !text::name_ok(text::field_bytes(line.bytes, name)) {
        return Err(Refusal::Malformed);
    }
    let kind = text::field_after(line.bytes, name);
    text::kind_field(text::field_bytes(line.bytes, kind))
}

// A location, if its name is new; the name's number is kept, so that it is computed once.
fn named(draft: &mut Draft, error: bool, name: &[u8]) -> Result<(), Refusal>
    requires { T (name_ok name.now) × (draft.old.tally.locs < most_locations) × (draft.old.tally.edges ≡ 0) }
    ensures { (s : SoFar) → Holds draft.old s → LineJudged result (loc_named s name.now error) draft.new }
{
    let first = chart::rows_size(draft.tally.vars, 0, 0);
    let at = draft.used_words();
    chart::put_location(&mut draft.rows, at, error, name);
    let rows: &[i32] = &draft.rows;
    let number = chart::name_number(&rows[at..]);
    let end = NUMBERS_PLACE + draft.tally.locs;
    if !chart::name_differs(
        &rows[at..],
        number,
        &rows[first..],
        &rows[NUMBERS_PLACE..end],
    ) {
        return Err(Refusal::NamedTwice);
    }
    draft.rows[end] = number;
    draft.tally.locs += 1;
    Ok(())
}

// An L line, which stands before every E.
pub fn read_line(draft: &mut Draft, line: &Line, kind: Field) -> Result<(), Refusal>
    requires { kind ≡ field_at line.now.bytes.now 0 }
    ensures { (s : SoFar) → Holds draft.old s → LineJudged result (loc_line s (fields line.now.bytes.now)) draft.new }
{
    if draft.tally.edges != 0 {
        return Err(Refusal::WrongKind);
    }
    if MOST_LOCATIONS <= draft.tally.locs {
        return Err(Refusal::WrongCount);
    }
    let name = text::field_after(line.bytes, kind);
    let error = judged(line, name)?;
    named(draft, error, text::field_bytes(line.bytes, name))
}
