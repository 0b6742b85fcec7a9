// `V name lo hi init`: the line is judged, and its row stored.
ghost use Rattle.std.specs.Prelude.{◌≡◌, T, ◌<◌};
ghost use Rattle.semantics.specs.Layout.{most_variables};
ghost use Rattle.semantics.specs.Text.{fields, name_ok};
ghost use Rattle.semantics.specs.Reading.{SoFar, var_line};
ghost use Rattle.text.specs.Fields.{field_at, res_by};
ghost use Rattle.reader.specs.Answers.{var_of};
ghost use Rattle.reader.specs.Lines.{var_fields, var_judged, var_named};
ghost use Rattle.reader.specs.Drafts.{Holds, LineJudged};

use super::draft::Draft;
use semantics::{MOST_VARIABLES, Refusal};
use text::Field;
use text::line::Line;

// The three words of a variable's row.
#[derive(Clone, Copy)]
struct VarRow {
    lo: i32,
    hi: i32,
    init: i32,
}

// The name, then the numbers.
fn fields_judged(name: &[u8], lo: &[u8], hi: &[u8], init: &[u8]) -> Result<VarRow, Refusal>
    ensures { res_by var_of result ≡ var_fields name.now lo.now hi.now init.now }
{
    if !text::name_ok(name) {
        return Err(Refusal::Malformed);
    }
    let lo = text::number_field(lo)?;
    let hi = text::number_field(hi)?;
    if hi < lo {
        return Err(Refusal::OutOfRange);
    }
    let init = text::init_field(lo, hi, init)?;
    Ok(VarRow { lo, hi, init })
}

// All the fields: their count, then what they say.
fn judged(line: &Line, name: Field) -> Result<VarRow, Refusal>
    requires { name ≡ field_at line.now.bytes.now 1 }
    ensures { res_by var_of result ≡ var_judged (fields line.now.bytes.now) }
{
    if !line.form.has(5) {
        return Err(Refusal::WrongFields);
    }
    let lo = text::field_after(line.bytes, name);
    let hi = text::field_after(line.bytes, lo);
    let init = text::field_after(line.bytes, hi);
    fields_judged(
        text::field_bytes(line.bytes, name),
        text::field_bytes(line.bytes, lo),
        text::field_bytes(line.bytes, hi),
        text::field_bytes(line.bytes, init),
    )
}

// A variable, if its name is new. The name is kept as a location's is, so that one function looks for both.
fn named(draft: &mut Draft, v: VarRow, name: &[u8]) -> Result<(), Refusal>
    requires { T (name_ok name.now) × (draft.old.tally.vars < most_variables) × (draft.old.tally.locs ≡ 0) × (draft.old.tally.edges ≡ 0) }
    ensures { (s : SoFar) → Holds draft.old s → LineJudged result (var_named s name.now (var_of v)) draft.new }
{
    let vars = draft.tally.vars;
    let at = chart::LOCATION_SIZE * vars;
    chart::put_location(&mut draft.names, at, false, name);
    let names: &[i32] = &draft.names;
    if !chart::name_is_new(&names[at..], names, vars) {
        return Err(Refusal::NamedTwice);
    }
    let end = draft.used_words();
    chart::put_variable(&mut draft.rows, end, v.lo, v.hi, v.init);
    draft.tally.vars += 1;
    Ok(())
}

// A V line, which stands before every L and E.
pub fn read_line(draft: &mut Draft, line: &Line, kind: Field) -> Result<(), Refusal>
    requires { kind ≡ field_at line.now.bytes.now 0 }
    ensures { (s : SoFar) → Holds draft.old s → LineJudged result (var_line s (fields line.now.bytes.now)) draft.new }
{
    let t = draft.tally;
    if t.locs != 0 || t.edges != 0 {
        return Err(Refusal::WrongKind);
    }
    if MOST_VARIABLES <= t.vars {
        return Err(Refusal::WrongCount);
    }
    let name = text::field_after(line.bytes, kind);
    let v = judged(line, name)?;
    named(draft, v, text::field_bytes(line.bytes, name))
}
