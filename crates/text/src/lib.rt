// Reading pieces of a text: its lines, the fields of a line, and what one field says or by which number it is refused.
#![tactic(auto, using(crate::proofs::Digits::cut_numbers, crate::proofs::FieldTests::number_known), unfolding(crate::specs::Fields::field_at, crate::specs::Fields::natural_read, crate::specs::Fields::number_read, crate::specs::Fields::number_said, crate::specs::Fields::res_by, semantics::specs::Text::digits, semantics::specs::Text::natural_of, semantics::specs::Text::number_of, semantics::specs::Reading::check, semantics::specs::Reading::if_ok, semantics::specs::Reading::number_field, semantics::specs::Reading::location_field, semantics::specs::Reading::target_field, semantics::specs::Reading::operand_field, semantics::specs::Reading::init_field, semantics::specs::Reading::kind_field, semantics::specs::Reading::rel_field, semantics::specs::Reading::op_word_field))]

ghost use Rattle.std.specs.Prelude.{◌≡◌, ℕ, suc, ◌≤◌, length, get_or};
ghost use Rattle.semantics.specs.Layout.{byte_limit};
ghost use Rattle.semantics.specs.Lists.{all};
ghost use Rattle.semantics.specs.Text.{between, same_bytes, fields, name_byte, name_ok, digits, natural_of, nonnegative, number_of};
ghost use Rattle.semantics.specs.Encoding.{val};
ghost use Rattle.semantics.specs.Operations.{the_operand, the_relation};
ghost use Rattle.semantics.specs.Reading.{nth, number_field, below_or, location_field, target_field, operand_field, init_field, kind_field, rel_field, op_word_field};
ghost use Rattle.text.specs.Fields.{field_from, field_at, natural_read, number_read, number_said, res, res_by, the_word};

use semantics::{Arithmetic, LocationId, Operand, Refusal, Relation};

pub mod line;
pub mod lines;

// `==` under the clause that callers cite: the definitions' own test.
pub fn same_bytes(a: &[u8], b: &[u8]) -> bool
    ensures { result ≡ same_bytes a.now b.now }
{
    a == b
}

// ---- the fields of a line, left to right

// Where a field of a line lies: line[start..end].
#[derive(Clone, Copy)]
pub struct Field {
    pub start: usize,
    pub end: usize,
}

// The field that begins at a place: it ends at the next tab, or with the line.
fn field_from(line: &[u8], at: usize) -> Field
    requires { at ≤ length line.now }
    ensures { result ≡ field_from line.now at }
{
    let rest = &line[at..];
    let size = rest.iter().position(|b| *b == semantics::TAB);
    Field {
        start: at,
        end: at + size.unwrap_or(rest.len()),
    }
}

pub fn first_field(line: &[u8]) -> Field
    ensures { result ≡ field_at line.now 0 }
{
    field_from(line, 0)
}

// The field after one, from the place after the tab that ends it; empty past the last.
pub fn field_after(line: &[u8], f: Field) -> Field
    ensures { (k : ℕ) → f ≡ field_at line.now k → result ≡ field_at line.now (suc k) }
{
    field_from(line, f.end.saturating_add(1).min(line.len()))
}

// The bytes of a field, as a part of the line.
pub fn field_bytes(line: &[u8], f: Field) -> &[u8]
    requires { (f.start ≤ f.end) × (f.end ≤ length line.now) }
    ensures { (k : ℕ) → f ≡ field_at line.now k → result.now ≡ nth (fields line.now) k }
{
    &line[f.start..f.end]
}

// The most bytes of a name.
const MOST_NAME_BYTES: usize = 16;

// A letter, a digit or a hyphen.
fn is_name_byte(b: u8) -> bool
    ensures { result ≡ name_byte b }
{
    b.is_ascii_alphanumeric() | (b == b'-')
}

// 1 to 16 such bytes.
pub fn name_ok(f: &[u8]) -> bool
    ensures { result ≡ name_ok f.now }
{
    (1..=MOST_NAME_BYTES).contains(&f.len()) && f.iter().all(|b| is_name_byte(*b))
}

// Beyond this no test tells two numbers apart; cut there, digits of any length never overflow.
const NUMBER_CUT: u32 = 100_000;

// The number that digits write, cut; 0 where there are none.
fn digits_in(f: &[u8]) -> Option<u32>
    ensures { result ≡ natural_read (digits 0 f.now) }
{
    let mut n = 0;
    for b in f {
        if !b.is_ascii_digit() {
            return None;
        }
        n = (n * 10 + u32::from(*b - b'0')).min(NUMBER_CUT);
    }
    Some(n)
}

// No branch on a byte, so that several are looked at at once.
fn all_digits(f: &[u8]) -> bool
    ensures { result ≡ all (between 48 57) f.now }
{
    f.iter().fold(true, |ok, b| ok & b.is_ascii_digit())
}

// So many digits that do not begin with 0 reach the cut.
const CUT_DIGITS: usize = 6;

// Digits that do not begin with 0. How large they are is worked out only of those below the cut.
fn positive_in(f: &[u8]) -> Option<u32>
    requires { get_or f.now 0 0 ≡ 48 → ⊥ }
    ensures { result ≡ natural_read (digits 0 f.now) }
{
    if f.len() < CUT_DIGITS {
        return digits_in(f);
    }
    all_digits(f).then_some(NUMBER_CUT)
}

// 0, or digits that do not begin with 0.
fn natural_in(f: &[u8]) -> Option<u32>
    ensures { result ≡ natural_read (natural_of f.now) }
{
    if *f.first()? != b'0' {
        return positive_in(f);
    }
    (f.len() == 1).then_some(0)
}

// A number, where no `-` may stand.
fn unsigned(f: &[u8]) -> Option<i32>
    ensures { result ≡ number_read (nonnegative (natural_of f.now)) }
{
    i32::try_from(natural_in(f)?).ok()
}

// A number of any length, with or without `-`, its magnitude cut. There is no `-0`.
pub fn number(f: &[u8]) -> Option<i32>
    ensures { result ≡ number_read (number_of f.now) }
{
    let Some(digits) = f.strip_prefix(b"-") else {
        return unsigned(f);
    };
    let n = unsigned(digits)?;
    (n != 0).then_some(-n)
}

// ---- fields: what the field says, or why it is refused

// The operations that have a target.
#[derive(Clone, Copy)]
pub enum Action {
    Set,
    Compute(Arithmetic),
    In,
    If,
}

// Malformed, or outside of -32,768..32,767.
pub fn number_field(f: &[u8]) -> Result<i32, Refusal>
    ensures { res result ≡ number_field f.now }
{
    let z = number(f).ok_or(Refusal::Malformed)?;
    if !words::is_small(z) {
        return Err(Refusal::OutOfRange);
    }
    Ok(z)
}

// A number from 0 up to, not including, `count`: malformed, or another number. Here and below, the bound of `count` keeps
// what is read to a byte, and under the cut: a number that was cut is refused as the number itself is.
fn below(count: usize, n: Option<i32>) -> Result<u8, Refusal>
    requires { count ≤ byte_limit }
    ensures { res result ≡ below_or count (number_said n) }
{
    let z = n.ok_or(Refusal::Malformed)?;
    let k = u8::try_from(z).ok();
    k.filter(|k| usize::from(*k) < count)
        .ok_or(Refusal::NotThere)
}

// One of `count` locations.
pub fn location_field(count: usize, f: &[u8]) -> Result<LocationId, Refusal>
    requires { count ≤ byte_limit }
    ensures { res_by (λ (l : LocationId). l.0) result ≡ location_field count f.now }
{
    let k = below(count, number(f))?;
    Ok(LocationId(usize::from(k)))
}

// One of `count` variables, as `$k`.
pub fn target_field(count: usize, f: &[u8]) -> Result<u8, Refusal>
    requires { count ≤ byte_limit }
    ensures { res result ≡ target_field count f.now }
{
    let digits = f.strip_prefix(b"$").ok_or(Refusal::Malformed)?;
    below(count, unsigned(digits))
}

// A number or `$k`.
pub fn operand_field(count: usize, f: &[u8]) -> Result<Operand, Refusal>
    requires { count ≤ byte_limit }
    ensures { res_by the_operand result ≡ operand_field count f.now }
{
    if f.starts_with(b"$") {
        return Ok(Operand::Variable(target_field(count, f)?));
    }
    Ok(Operand::Number(number_field(f)?))
}

// The word of an initial value: for `*`, the word of top.
pub fn init_field(lo: i32, hi: i32, f: &[u8]) -> Result<i32, Refusal>
    ensures { res_by val result ≡ init_field lo hi f.now }
{
    if same_bytes(f, b"*") {
        return Ok(words::TOP);
    }
    let z = number_field(f)?;
    if !words::lies_within(lo, hi, z) {
        return Err(Refusal::OutOfRange);
    }
    Ok(z)
}

// Whether the location is an error location.
pub fn kind_field(f: &[u8]) -> Result<bool, Refusal>
    ensures { res result ≡ kind_field f.now }
{
    match f {
        b"o" => Ok(false),
        b"e" => Ok(true),
        _ => Err(Refusal::Malformed),
    }
}

// One of the six relation words.
pub fn rel_field(f: &[u8]) -> Result<Relation, Refusal>
    ensures { res_by the_relation result ≡ rel_field f.now }
{
    match f {
        b"eq" => Ok(Relation::Eq),
        b"ne" => Ok(Relation::Ne),
        b"lt" => Ok(Relation::Lt),
        b"le" => Ok(Relation::Le),
        b"gt" => Ok(Relation::Gt),
        b"ge" => Ok(Relation::Ge),
        _ => Err(Refusal::Malformed),
    }
}

// One of the six operation words; `skip` has no target, and so no action.
pub fn op_word_field(f: &[u8]) -> Result<Option<Action>, Refusal>
    ensures { res_by the_word result ≡ op_word_field f.now }
{
    match f {
        b"set" => Ok(Some(Action::Set)),
        b"add" => Ok(Some(Action::Compute(Arithmetic::Add))),
        b"sub" => Ok(Some(Action::Compute(Arithmetic::Sub))),
        b"in" => Ok(Some(Action::In)),
        b"if" => Ok(Some(Action::If)),
        b"skip" => Ok(None),
        _ => Err(Refusal::Malformed),
    }
}
