// Reading the go line of the walk program: what it asks, and the chart's bytes after it, or why it is refused.
ghost use Rattle.std.specs.Prelude.{◌≡◌};
ghost use Rattle.semantics.specs.Lists.{all};
ghost use Rattle.semantics.specs.Text.{fields};
ghost use Rattle.semantics.specs.Reading.{nth};
ghost use Rattle.semantics.specs.Program.{mode_field, order_field, amounts, go_fields, line_byte};
ghost use Rattle.text.specs.Fields.{number_said, res, res_by};
ghost use Rattle.text.specs.Places.{form_of};
ghost use Rattle.program.specs.Asked.{asking, GoRead};

use semantics::{Mode, Order, Refusal, Settings};
use text::lines::Form;

// The most bytes of a go line, with its LF.
pub const GO_LINE_BYTES: usize = 64;

// What the go line asks.
#[derive(Clone, Copy)]
pub struct Go {
    pub settings: Settings,
    pub capacity: i32,
    pub budget: i32,
}

#[tactic(auto, unfolding(text::specs::Fields::res_by))]
fn mode_field(f: &[u8]) -> Result<Mode, Refusal>
    ensures { res result ≡ mode_field f.now }
{
    match f {
        b"sep" => Ok(Mode::Sep),
        b"join" => Ok(Mode::Join),
        _ => Err(Refusal::Malformed),
    }
}

#[tactic(auto, unfolding(text::specs::Fields::res_by))]
fn order_field(f: &[u8]) -> Result<Order, Refusal>
    ensures { res result ≡ order_field f.now }
{
    match f {
        b"old" => Ok(Order::Old),
        b"new" => Ok(Order::New),
        _ => Err(Refusal::Malformed),
    }
}

// The bytes of a field, which is found from the first on, each from where the last ended.
#[tactic(auto, using(text::proofs::LineFields::field_lies_at))]
fn field(line: &[u8], k: usize) -> &[u8]
    ensures { result.now ≡ nth (fields line.now) k }
{
    let mut at = text::first_field(line);
    for _ in 0..k {
        at = text::field_after(line, at);
    }
    text::field_bytes(line, at)
}

// Capacity and budget, numbers in form only, then their sizes: 11, 12, 13.
#[tactic(auto, unfolding(text::specs::Fields::res_by, text::specs::Fields::number_said, semantics::specs::Reading::if_ok))]
fn amounts(settings: Settings, capacity: Option<i32>, budget: Option<i32>) -> Result<Go, Refusal>
    ensures { res_by asking result ≡ amounts settings (number_said capacity) (number_said budget) }
{
    let capacity = capacity.ok_or(Refusal::Malformed)?;
    let budget = budget.ok_or(Refusal::Malformed)?;
    checks::asked_refusal(settings, capacity, budget)?;
    Ok(Go {
        settings,
        capacity,
        budget,
    })
}

// The line without its LF, by 5 and what follows it.
#[tactic(auto, using(crate::proofs::CutAmounts::amounts_cut), unfolding(text::specs::Fields::res_by, semantics::specs::Reading::if_ok, semantics::specs::Reading::check))]
fn go_fields(line: &[u8], form: Form) -> Result<Go, Refusal>
    requires { form ≡ form_of line.now }
    ensures { res_by asking result ≡ go_fields (fields line.now) }
{
    if !form.has(6) {
        return Err(Refusal::WrongFields);
    }
    if !text::same_bytes(field(line, 0), b"go") {
        return Err(Refusal::Malformed);
    }
    let settings = Settings {
        merge: mode_field(field(line, 1))?,
        stop: mode_field(field(line, 2))?,
        order: order_field(field(line, 3))?,
    };
    let capacity = text::number(field(line, 4));
    let budget = text::number(field(line, 5));
    amounts(settings, capacity, budget)
}

// A tab, or 0x21..0x7E: what may stand before the LF.
fn is_line_byte(b: u8) -> bool
    ensures { result ≡ line_byte b }
{
    (b == semantics::TAB) | b.is_ascii_graphic()
}

fn bytes_ok(line: &[u8]) -> bool
    ensures { result ≡ all line_byte line.now }
{
    line.iter().all(|b| is_line_byte(*b))
}

// The input's first line is judged; the chart is what follows its LF.
#[tactic(auto, using(crate::proofs::FirstLine::end_within, crate::proofs::FirstLine::rest_is, crate::proofs::FirstLine::judged), unfolding(semantics::specs::Reading::check, text::specs::Fields::res_by))]
pub fn read(input: &[u8]) -> Result<(Go, &[u8]), Refusal>
    ensures { GoRead input.now result }
{
    let shape = text::lines::measure(input, 0);
    let line = &input[..shape.end];
    if (GO_LINE_BYTES < input.len()) & (GO_LINE_BYTES <= shape.end) {
        return Err(Refusal::TooLong);
    }
    if !bytes_ok(line) {
        return Err(Refusal::BadByte);
    }
    if shape.end == input.len() {
        return Err(Refusal::OpenLine);
    }
    let go = go_fields(line, shape.form)?;
    Ok((go, &input[shape.end + 1..]))
}
