// The operation of an E line: what follows the two locations. A draft's rows begin with the variables' ranges.
ghost use Rattle.std.specs.Prelude.{◌≡◌};
ghost use Rattle.semantics.specs.Operations.{the_operation};
ghost use Rattle.semantics.specs.Text.{fields};
ghost use Rattle.text.specs.Fields.{field_at, res_by};
ghost use Rattle.reader.specs.Lines.{input_fields, op_fields, op_read};

use super::draft::Draft;
use semantics::{Operation, Refusal};
use text::line::Line;
use text::{Action, Field};

// Numbers p and q with p <= q, inside the range of v.
fn input(rows: &[i32], v: u8, p: &[u8], q: &[u8]) -> Result<Operation, Refusal>
    ensures { res_by the_operation result ≡ input_fields rows.now v p.now q.now }
{
    let k = usize::from(v);
    let p = text::number_field(p)?;
    if !chart::in_var_range(rows, k, p) {
        return Err(Refusal::OutOfRange);
    }
    let q = text::number_field(q)?;
    if !(chart::in_var_range(rows, k, q) & (p <= q)) {
        return Err(Refusal::OutOfRange);
    }
    Ok(Operation::In(v, p, q))
}

// The two fields after the target v; `set` has only the first.
fn after_target(
    action: Action,
    v: u8,
    draft: &Draft,
    f: &[u8],
    g: &[u8],
) -> Result<Operation, Refusal>
    ensures { res_by the_operation result ≡ op_fields draft.now.rows draft.now.tally.vars action v f.now g.now }
{
    let vars = draft.tally.vars;
    match action {
        Action::Set => {
            let a = text::operand_field(vars, f)?;
            Ok(Operation::Set(v, a))
        }
        Action::Compute(s) => {
            let a = text::operand_field(vars, f)?;
            let b = text::operand_field(vars, g)?;
            Ok(Operation::Compute(s, v, a, b))
        }
        Action::In => input(&draft.rows, v, f, g),
        Action::If => {
            let relation = text::rel_field(f)?;
            let a = text::operand_field(vars, g)?;
            Ok(Operation::If(v, relation, a))
        }
    }
}

// The fields after the operation's word.
pub fn read(
    action: Option<Action>,
    draft: &Draft,
    line: &Line,
    word: Field,
) -> Result<Operation, Refusal>
    requires { word ≡ field_at line.now.bytes.now 3 }
    ensures { res_by the_operation result ≡ op_read draft.now.rows draft.now.tally.vars action (fields line.now.bytes.now) }
{
    let Some(action) = action else {
        return Ok(Operation::Skip);
    };
    let target = text::field_after(line.bytes, word);
    let v = text::target_field(draft.tally.vars, text::field_bytes(line.bytes, target))?;
    let first = text::field_after(line.bytes, target);
    let second = text::field_after(line.bytes, first);
    after_target(
        action,
        v,
        draft,
        text::field_bytes(line.bytes, first),
        text::field_bytes(line.bytes, second),
    )
}
