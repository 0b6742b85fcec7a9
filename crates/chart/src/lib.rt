// The encoded chart: its layout, its check, and the functions that write and read its rows. Who uses a chart asks here,
// and knows no word by its place. docs/memory.md shows the layout.
#![tactic(auto)]

ghost use Rattle.semantics.specs.declared.Refusal.TheVariants.{BadChart};
ghost use Rattle.std.specs.Prelude.{List, ℤ, IsOk, IfOk, IfErr, ◌↔◌, T, ◌≡◌, true, not, ◌∷◌, map, ◌+◌, ◌-◌, ◌*◌, ◌<◌, ◌≤◌, pos, nat_abs, length, take, drop, ◌&&◌};
ghost use Rattle.std.specs.List.{zip};
ghost use Rattle.semantics.specs.Lists.{all};
ghost use Rattle.semantics.specs.Text.{same_bytes};
ghost use Rattle.semantics.specs.Chart.{eq_z};
ghost use Rattle.semantics.specs.Layout.{counts_size, variable_size, name_size, location_size, edge_size, variable_at, high_place, init_place, to_place, operation_place, target_place, first_tag_place, first_value_place, second_tag_place, second_value_place, ge_code, number_tag, index_limit, most_variables, most_locations, most_edges};
ghost use Rattle.semantics.specs.Encoding.{word_at, count, val, kind_word, rel_code, tag, operand_word, var_words, loc_words, op_words, edge_words, init_ok, var_in, var_ok, name_in, loc_in, several, distinct_names, decode, well_formed, variable_count, location_count, edge_count};
ghost use Rattle.semantics.specs.Operations.{the_operand, the_relation, the_operation};
ghost use Rattle.semantics.specs.Listing.{loc_text};
ghost use Rattle.chart.specs.Encoded.{rows, is_at_most, name_word, counts_fine, locations_at, edges_at, location_fine, operand_fine, ranged, two_fine, one_fine, input_fine, operands_fine, operation_fine, edge_fine, rows_fine, byte_of, name_number, other_row};
ghost use Rattle.chart.specs.Kinds.{relation_of, kind_of, code_of, tag_place, value_place};
ghost use Rattle.chart.specs.Rows.{stored, rows_size, the_variable, the_location, the_edge};

use semantics::{
    Arithmetic, EdgeId, LocationId, MOST_EDGES, MOST_LOCATIONS, MOST_VARIABLES, Operand, Operation,
    Refusal, Relation,
};
use std::marker::Model;

// ---- the layout, under the names of semantics/specs/Layout

// Sizes in words.
pub const COUNTS_SIZE: usize = 3;

const VARIABLE_SIZE: usize = 3;

// A name has 16 bytes at most, and a byte takes a word.
const NAME_SIZE: usize = 16;

pub const LOCATION_SIZE: usize = 1 + NAME_SIZE;

const EDGE_SIZE: usize = 8;

// Of an edge's words those of its operation.
const OPERATION_SIZE: usize = 6;

// The rows of the largest chart, 3,160 words, and with the counts before them.
pub const ROWS_SIZE: usize = VARIABLE_SIZE * MOST_VARIABLES
    + LOCATION_SIZE * MOST_LOCATIONS
    + EDGE_SIZE * MOST_EDGES;

pub const CHART_SIZE: usize = COUNTS_SIZE + ROWS_SIZE;

// The counts' places.
const VARIABLES_PLACE: usize = 0;

const LOCATIONS_PLACE: usize = 1;

const EDGES_PLACE: usize = 2;

// The places in a variable's row,
const LOW_PLACE: usize = 0;

const HIGH_PLACE: usize = 1;

const INIT_PLACE: usize = 2;

// in a location's,
const KIND_PLACE: usize = 0;

const NAME_PLACE: usize = 1;

// and in an edge's.
const FROM_PLACE: usize = 0;

const TO_PLACE: usize = 1;

const OPERATION_PLACE: usize = 2;

const TARGET_PLACE: usize = 3;

const FIRST_TAG_PLACE: usize = 4;

const FIRST_VALUE_PLACE: usize = 5;

const SECOND_TAG_PLACE: usize = 6;

const SECOND_VALUE_PLACE: usize = 7;

// The kinds of a location.
const ORDINARY_KIND: i32 = 0;

const ERROR_KIND: i32 = 1;

// The codes of operations; an `if` has one for each relation. Above this crate they are a `Kind`.
const SKIP_CODE: usize = 0;

const SET_CODE: usize = 1;

const ADD_CODE: usize = 2;

const SUB_CODE: usize = 3;

const IN_CODE: usize = 4;

const EQ_CODE: usize = 5;

const NE_CODE: usize = 6;

const LT_CODE: usize = 7;

const LE_CODE: usize = 8;

const GT_CODE: usize = 9;

const GE_CODE: usize = 10;

// The tags of an operand.
const NUMBER_TAG: i32 = 0;

const VARIABLE_TAG: i32 = 1;

// ---- one word

// A number from 0 up to n.
fn is_at_most(n: usize, w: i32) -> bool
    ensures { result ≡ is_at_most n w }
{
    (0 <= w) & (words::magnitude(w) <= n)
}

// ---- rows

// The row's words from a place on.
fn store_words(rows: &mut [i32], at: usize, row: &[i32])
    requires { at + length row.now ≤ length rows.old }
    ensures { rows.new ≡ stored at row.now rows.old }
{
    rows[at..at + row.len()].copy_from_slice(row);
}

// Row i, of N words.
fn row_at<const N: usize>(words: &[i32], i: usize) -> &[i32; N]
    requires { N * i + N ≤ length words.now }
    ensures { result.now ≡ take N (drop (N * i) words.now) }
{
    words[N * i..].first_chunk::<N>().unwrap()
}

// ---- the counts, and where the rows stand

// The counts, and the rows after them.
pub fn put_chart(chart: &mut [i32], vars: usize, locations: usize, edges: usize, rows: &[i32])
    requires { (vars ≤ most_variables) × (locations ≤ most_locations) × (edges ≤ most_edges) × (counts_size + length rows.now ≤ length chart.old) }
    ensures { chart.new ≡ stored 0 (pos vars ∷ pos locations ∷ pos edges ∷ rows.now) chart.old }
{
    store_words(chart, 0, &[vars as i32, locations as i32, edges as i32]);
    store_words(chart, COUNTS_SIZE, rows);
}

// The words of so many rows.
pub fn rows_size(vars: usize, locations: usize, edges: usize) -> usize
    requires { (vars < index_limit) × (locations < index_limit) × (edges < index_limit) }
    ensures { result ≡ rows_size vars locations edges }
{
    VARIABLE_SIZE * vars + LOCATION_SIZE * locations + EDGE_SIZE * edges
}

pub fn variable_count(chart: &[i32]) -> usize
    ensures count { result ≡ variable_count chart.now }
    ensures small { result < index_limit }
{
    words::number_at(chart, VARIABLES_PLACE)
}

pub fn location_count(chart: &[i32]) -> usize
    ensures count { result ≡ location_count chart.now }
    ensures small { result < index_limit }
{
    words::number_at(chart, LOCATIONS_PLACE)
}

pub fn edge_count(chart: &[i32]) -> usize
    ensures count { result ≡ edge_count chart.now }
    ensures small { result < index_limit }
{
    words::number_at(chart, EDGES_PLACE)
}

// Where the words of the locations begin, and those of the edges.
fn locations_at(chart: &[i32]) -> usize
    ensures place { result ≡ locations_at chart.now }
    ensures small { result ≤ variable_at index_limit }
{
    COUNTS_SIZE + VARIABLE_SIZE * variable_count(chart)
}

fn edges_at(chart: &[i32]) -> usize
    ensures place { result ≡ edges_at chart.now }
    ensures small { result ≤ variable_at index_limit + location_size * index_limit }
{
    locations_at(chart) + LOCATION_SIZE * location_count(chart)
}

// How many words the chart takes.
fn chart_size(chart: &[i32]) -> usize
    ensures { result ≡ edges_at chart.now + edge_size * edge_count chart.now }
{
    edges_at(chart) + EDGE_SIZE * edge_count(chart)
}

// Whether there are 0 to 8 variables, 1 to 64 locations and 0 to 256 edges.
#[tactic(auto, unfolding(crate::specs::Encoded::counts_fine))]
fn counts_fine(chart: &[i32]) -> bool
    ensures { result ≡ counts_fine chart.now }
{
    let v = words::word_at(chart, VARIABLES_PLACE);
    let l = words::word_at(chart, LOCATIONS_PLACE);
    let e = words::word_at(chart, EDGES_PLACE);
    is_at_most(MOST_VARIABLES, v)
        & is_at_most(MOST_LOCATIONS, l)
        & (1 <= words::magnitude(l))
        & is_at_most(MOST_EDGES, e)
}

// ---- variables

// A variable's row: its range, and the word of its initial value.
pub fn put_variable(rows: &mut [i32], at: usize, lo: i32, hi: i32, init: i32)
    requires { at + variable_size ≤ length rows.old }
    ensures { rows.new ≡ stored at (var_words (the_variable lo hi init)) rows.old }
{
    store_words(rows, at, &[lo, hi, init]);
}

// The accessors are total on the words. They ask for a bound on a number or a place only to keep a sum from wrapping.

// A variable's range, and its initial value.
pub fn variable_low(chart: &[i32], k: usize) -> i32
    requires { k < index_limit }
    ensures { result ≡ word_at chart.now (variable_at k) }
{
    words::word_at(chart, COUNTS_SIZE + VARIABLE_SIZE * k)
}

pub fn variable_high(chart: &[i32], k: usize) -> i32
    requires { k < index_limit }
    ensures { result ≡ word_at chart.now (variable_at k + high_place) }
{
    words::word_at(chart, COUNTS_SIZE + VARIABLE_SIZE * k + HIGH_PLACE)
}

pub fn variable_init(chart: &[i32], k: usize) -> i32
    requires { k < index_limit }
    ensures { result ≡ word_at chart.now (variable_at k + init_place) }
{
    words::word_at(chart, COUNTS_SIZE + VARIABLE_SIZE * k + INIT_PLACE)
}

// Whether a number lies in the range of a variable.
#[tactic(auto, unfolding(crate::specs::Encoded::ranged))]
pub fn in_var_range(vars: &[i32], k: usize, w: i32) -> bool
    requires { k < index_limit }
    ensures { result ≡ ranged vars.now k w }
{
    let at = VARIABLE_SIZE * k;
    words::lies_within(
        words::word_at(vars, at),
        words::word_at(vars, at + HIGH_PLACE),
        w,
    )
}

// An initial value: top, or a number in the range.
fn init_word_ok(lo: i32, hi: i32, init: i32) -> bool
    ensures { result ≡ init_ok lo hi (val init) }
{
    init == words::TOP || (words::is_small(init) & words::lies_within(lo, hi, init))
}

// A variable's words: its range, and its initial value.
fn var_row_ok(row: &[i32; VARIABLE_SIZE]) -> bool
    ensures { result ≡ var_ok (var_in row.now) }
{
    let [lo, hi, init] = *row;
    words::is_small(lo) & words::is_small(hi) & (lo <= hi) & init_word_ok(lo, hi, init)
}

// The words of n variables.
fn vars_ok(vars: &[i32], n: usize) -> bool
    requires { variable_size * n ≤ length vars.now }
    ensures { result ≡ all var_ok (several var_in variable_size n vars.now) }
{
    let mut ok = true;
    for i in 0..n {
        ok = ok & var_row_ok(row_at(vars, i));
    }
    ok
}

// ---- locations

// A location's row: its kind, and its name with 0 after it.
pub fn put_location(rows: &mut [i32], at: usize, error: bool, name: &[u8])
    requires { (length name.now ≤ name_size) × (at + location_size ≤ length rows.old) }
    ensures { rows.new ≡ stored at (loc_words (the_location error name.now)) rows.old }
{
    let mut row = [0; LOCATION_SIZE];
    row[KIND_PLACE] = i32::from(error);
    for (i, byte) in name.iter().enumerate() {
        row[NAME_PLACE + i] = i32::from(*byte);
    }
    store_words(rows, at, &row);
}

// Whether the location's kind is that of an error location.
pub fn is_error_location(chart: &[i32], l: LocationId) -> bool
    requires { l.0 < index_limit }
    ensures { result ≡ eq_z (word_at chart.now (locations_at chart.now + location_size * l.0)) (kind_word true) }
{
    words::word_at(chart, locations_at(chart) + LOCATION_SIZE * l.0) == ERROR_KIND
}

// The length of a name, whose words begin those given: it ends before a 0, and after 16 bytes at the latest.
fn name_length(words: &[i32]) -> usize
    ensures { result ≡ length (name_in name_size words.now) }
{
    words
        .iter()
        .take(NAME_SIZE)
        .position(|w| *w == 0)
        .unwrap_or(words.len().min(NAME_SIZE))
}

// The words of a location's name, a byte each; none where there is no such location.
pub fn name(chart: &[i32], l: LocationId) -> &[i32]
    ensures { map nat_abs result.now ≡ loc_text (decode chart.now).locs l.0 }
{
    if location_count(chart) <= l.0 {
        return &[];
    }
    let at = locations_at(chart) + LOCATION_SIZE * l.0 + NAME_PLACE;
    match chart.get(at..) {
        Some(words) => &words[..name_length(words)],
        None => &[],
    }
}

// The byte in a word of a name; 0 where the word is no byte.
pub fn byte_of(w: i32) -> u8
    ensures { result ≡ byte_of (nat_abs w) }
{
    u8::try_from(words::magnitude(w)).unwrap_or(0)
}

// A letter, a digit or `-`. By `|` alone, so that a name is looked at without a branch; `is_ascii_alphanumeric` asks for a
// byte, which a word need not be.
#[tactic(auto, unfolding(crate::specs::Encoded::name_word))]
fn is_name_word(w: i32) -> bool
    ensures { result ≡ name_word w }
{
    words::lies_within(65, 90, w)
        | words::lies_within(97, 122, w)
        | words::lies_within(48, 57, w)
        | (w == 45)
}

// A location's words: its kind, the bytes of its name, and 0 after them.
fn location_fine(row: &[i32; LOCATION_SIZE]) -> bool
    ensures { result ≡ location_fine row.now }
{
    let kind = row[KIND_PLACE];
    let words = &row[NAME_PLACE..];
    let (name, after) = words.split_at(name_length(words));
    ((kind == ORDINARY_KIND) | (kind == ERROR_KIND))
        & (1 <= name.len())
        & name.iter().fold(true, |ok, w| ok & is_name_word(*w))
        & words::all_zero(after)
}

// The words of n locations.
fn locations_fine(locations: &[i32], n: usize) -> bool
    requires { location_size * n ≤ length locations.now }
    ensures { result ≡ all location_fine (rows location_size n locations.now) }
{
    let mut ok = true;
    for i in 0..n {
        ok = ok & location_fine(row_at(locations, i));
    }
    ok
}

// Whether two locations have one name. By place, as in `name_number`, and not by an iterator: what is past the end of a
// row is read as 0.
fn same_name(a: &[i32], b: &[i32]) -> bool
    ensures { result ≡ same_bytes (loc_in a.now).name (loc_in b.now).name }
{
    for i in 0..NAME_SIZE {
        let x = words::number_at(a, i + NAME_PLACE);
        let y = words::number_at(b, i + NAME_PLACE);
        if x != y {
            return false;
        }
        if x == 0 {
            return true;
        }
    }
    true
}

// Whether none of n locations has the name of the one given. Where they are few, as the names of variables are, the words
// are looked at straight away; `name_differs` goes by numbers.
pub fn name_is_new(row: &[i32], locations: &[i32], n: usize) -> bool
    requires { location_size * n ≤ length locations.now }
    ensures { result ≡ all (λ m. not (same_bytes (loc_in row.now).name m.name)) (several loc_in location_size n locations.now) }
{
    let mut ok = true;
    for i in 0..n {
        ok = ok & !same_name(row, row_at::<LOCATION_SIZE>(locations, i));
    }
    ok
}

// A number for the name in a location's words. Equal names have equal numbers: where two numbers differ, no word of the
// names needs a look. Each byte doubles what the bytes before it make, so that all 16 stay far below what a word holds.
pub fn name_number(row: &[i32]) -> i32
    ensures { result ≡ name_number row.now }
{
    let mut n = 0;
    for i in 0..NAME_SIZE {
        let w = words::word_at(row, i + NAME_PLACE);
        if w == 0 {
            return n as i32;
        }
        n = 2 * n + usize::from(byte_of(w));
    }
    n as i32
}

// Whether the other row has the name of the one given: only where the numbers of the two names are equal are the words
// looked at.
fn has_name(row: &[i32], number: i32, other: &[i32], other_number: i32) -> bool
    ensures { result ≡ eq_z number other_number && same_bytes (loc_in row.now).name (loc_in other.now).name }
{
    number == other_number && same_name(row, other)
}

// Whether none of as many rows has the name of the one given, by the number of that name and those that stand for theirs.
fn differs(row: &[i32], number: i32, locations: &[i32], numbers: &[i32]) -> bool
    requires { location_size * length numbers.now ≤ length locations.now }
    ensures { result ≡ all (other_row row.now number) (zip (several (take location_size) location_size (length numbers.now) locations.now) numbers.now) }
{
    let mut ok = true;
    for i in 0..numbers.len() {
        let other = row_at::<LOCATION_SIZE>(locations, i);
        ok = ok & !has_name(row, number, other, numbers[i]);
    }
    ok
}

// Whether none of the locations has the name of the one given, by the number of that name and those of their names.
pub fn name_differs(row: &[i32], number: i32, locations: &[i32], numbers: &[i32]) -> bool
    requires { location_size * length numbers.now ≤ length locations.now }
    ensures { number ≡ name_number row.now → numbers.now ≡ several name_number location_size (length numbers.now) locations.now → result ≡ all (λ m. not (same_bytes (loc_in row.now).name m.name)) (several loc_in location_size (length numbers.now) locations.now) }
{
    differs(row, number, locations, numbers)
}

// Whether no two of as many locations have one name, by the numbers of their names.
fn all_differ(locations: &[i32], numbers: &[i32]) -> bool
    requires { (location_size * length numbers.now ≤ length locations.now) × (numbers.now ≡ several name_number location_size (length numbers.now) locations.now) }
    ensures { result ≡ distinct_names (several loc_in location_size (length numbers.now) locations.now) }
{
    let mut ok = true;
    for i in 0..numbers.len() {
        let row = row_at::<LOCATION_SIZE>(locations, i);
        let after = &locations[LOCATION_SIZE * (i + 1)..];
        ok = ok & differs(row, numbers[i], after, &numbers[i + 1..]);
    }
    ok
}

// Whether no two of n locations have one name.
fn names_differ(locations: &[i32], n: usize) -> bool
    requires { (location_size * n ≤ length locations.now) × (n ≤ most_locations) }
    ensures { result ≡ distinct_names (several loc_in location_size n locations.now) }
{
    let mut numbers = [0; MOST_LOCATIONS];
    for i in 0..n {
        numbers[i] = name_number(row_at::<LOCATION_SIZE>(locations, i));
    }
    all_differ(locations, &numbers[..n])
}

// ---- edges

// What an edge's operation does, without its target and its operands.
#[derive(Clone, Copy, PartialEq, Eq)]
pub enum Kind {
    Skip,
    Set,
    Compute(Arithmetic),
    In,
    If(Relation),
}

#[tactic(auto, unfolding(crate::specs::Kinds::relation_of))]
fn relation_of(code: usize) -> Relation
    ensures { result ≡ relation_of code }
{
    match code {
        EQ_CODE => Relation::Eq,
        NE_CODE => Relation::Ne,
        LT_CODE => Relation::Lt,
        LE_CODE => Relation::Le,
        GT_CODE => Relation::Gt,
        _ => Relation::Ge,
    }
}

#[tactic(auto, unfolding(crate::specs::Kinds::kind_of))]
fn kind_of(code: usize) -> Kind
    ensures { result ≡ kind_of code }
{
    match code {
        SKIP_CODE => Kind::Skip,
        SET_CODE => Kind::Set,
        ADD_CODE => Kind::Compute(Arithmetic::Add),
        SUB_CODE => Kind::Compute(Arithmetic::Sub),
        IN_CODE => Kind::In,
        _ => Kind::If(relation_of(code)),
    }
}

// The word of its code.
impl From<Kind> for i32 {
    ghost from_gives = { λ kind word. word ≡ pos (code_of kind) };

    fn from(kind: Kind) -> i32 {
        let code = match kind {
            Kind::Skip => SKIP_CODE,
            Kind::Set => SET_CODE,
            Kind::Compute(Arithmetic::Add) => ADD_CODE,
            Kind::Compute(Arithmetic::Sub) => SUB_CODE,
            Kind::In => IN_CODE,
            Kind::If(Relation::Eq) => EQ_CODE,
            Kind::If(Relation::Ne) => NE_CODE,
            Kind::If(Relation::Lt) => LT_CODE,
            Kind::If(Relation::Le) => LE_CODE,
            Kind::If(Relation::Gt) => GT_CODE,
            Kind::If(Relation::Ge) => GE_CODE,
        };
        code as i32
    }
}

// Which of an edge's two operands.
#[derive(Clone, Copy, PartialEq, Eq)]
pub enum Which {
    First,
    Second,
}

impl Which {
    // Where its two words stand in the row.
    fn tag_place(self) -> usize
        ensures place { result ≡ tag_place self }
        ensures within { result < edge_size }
    {
        match self {
            Which::First => FIRST_TAG_PLACE,
            Which::Second => SECOND_TAG_PLACE,
        }
    }

    fn value_place(self) -> usize
        ensures place { result ≡ value_place self }
        ensures within { result < edge_size }
    {
        match self {
            Which::First => FIRST_VALUE_PLACE,
            Which::Second => SECOND_VALUE_PLACE,
        }
    }
}

// The two words of an operand: what it is, and its number, or k of `$k`.
#[derive(Clone, Copy)]
pub struct OperandWords {
    pub tag: i32,
    pub value: i32,
}

impl OperandWords {
    pub fn is_number(self) -> bool
        ensures { result ≡ eq_z self.tag number_tag }
    {
        self.tag == NUMBER_TAG
    }

    // The variable that it names, if it names one.
    pub fn variable(self) -> usize
        ensures number { result ≡ nat_abs self.value }
        ensures small { result < index_limit }
    {
        words::magnitude(self.value)
    }
}

impl From<Operand> for OperandWords {
    ghost from_gives = { λ a words. (words.tag ≡ tag (the_operand a)) × (words.value ≡ operand_word (the_operand a)) };

    fn from(a: Operand) -> OperandWords {
        match a {
            Operand::Number(z) => OperandWords {
                tag: NUMBER_TAG,
                value: z,
            },
            Operand::Variable(k) => OperandWords {
                tag: VARIABLE_TAG,
                value: i32::from(k),
            },
        }
    }
}

// An operation's words: its code, its target and its two operands; 0 where it has none.
fn op_words(op: Operation) -> [i32; OPERATION_SIZE]
    ensures { result ≡ op_words (the_operation op) }
{
    match op {
        Operation::Skip => [i32::from(Kind::Skip), 0, 0, 0, 0, 0],
        Operation::Set(v, a) => {
            let a = OperandWords::from(a);
            [i32::from(Kind::Set), i32::from(v), a.tag, a.value, 0, 0]
        }
        Operation::Compute(s, v, a, b) => {
            let a = OperandWords::from(a);
            let b = OperandWords::from(b);
            [
                i32::from(Kind::Compute(s)),
                i32::from(v),
                a.tag,
                a.value,
                b.tag,
                b.value,
            ]
        }
        Operation::In(v, p, q) => {
            [
                i32::from(Kind::In),
                i32::from(v),
                NUMBER_TAG,
                p,
                NUMBER_TAG,
                q,
            ]
        }
        Operation::If(v, r, a) => {
            let a = OperandWords::from(a);
            [i32::from(Kind::If(r)), i32::from(v), a.tag, a.value, 0, 0]
        }
    }
}

// An edge's row: from, to, and the operation's words.
pub fn put_edge(rows: &mut [i32], at: usize, from: LocationId, to: LocationId, op: Operation)
    requires { (from.0 < most_locations) × (to.0 < most_locations) × (at + edge_size ≤ length rows.old) }
    ensures { rows.new ≡ stored at (edge_words (the_edge from.0 to.0 op)) rows.old }
{
    let [
        code,
        target,
        first_tag,
        first_value,
        second_tag,
        second_value,
    ] = op_words(op);
    let row = [
        from.0 as i32,
        to.0 as i32,
        code,
        target,
        first_tag,
        first_value,
        second_tag,
        second_value,
    ];
    store_words(rows, at, &row);
}

// An edge: its number, and where its words stand. The two are carried along together, so that no accessor has to count.
#[derive(Clone, Copy)]
pub struct EdgeRow {
    pub id: EdgeId,
    pub at: usize,
}

// Edge 1, whether there is one or not.
pub fn first_edge(chart: &[i32]) -> EdgeRow
    ensures id { result.id.0 ≡ 1 }
    ensures place { result.at ≡ edges_at chart.now }
{
    EdgeRow {
        id: EdgeId(1),
        at: edges_at(chart),
    }
}

// An edge by its number, from the first.
pub fn edge_of(first: EdgeRow, id: EdgeId) -> EdgeRow
    requires { (first.at < index_limit) × (1 ≤ id.0) × (id.0 ≤ index_limit) }
    ensures id { result.id.0 ≡ id.0 }
    ensures place { result.at ≡ first.at + edge_size * (id.0 - 1) }
{
    EdgeRow {
        id,
        at: first.at + EDGE_SIZE * (id.0 - 1),
    }
}

// The locations that it leaves and goes to, what its operation does, the variable that it sets or tests, and its operands.
pub fn edge_from(chart: &[i32], edge: EdgeRow) -> LocationId
    ensures location { result.0 ≡ count chart.now edge.at }
    ensures small { result.0 < index_limit }
{
    LocationId(words::number_at(chart, edge.at))
}

pub fn edge_to(chart: &[i32], edge: EdgeRow) -> LocationId
    requires { edge.at < index_limit }
    ensures location { result.0 ≡ count chart.now (edge.at + to_place) }
    ensures small { result.0 < index_limit }
{
    LocationId(words::number_at(chart, edge.at + TO_PLACE))
}

// The code of its operation, and what it stands for.
pub fn edge_operation(chart: &[i32], edge: EdgeRow) -> usize
    requires { edge.at < index_limit }
    ensures code { result ≡ count chart.now (edge.at + operation_place) }
    ensures small { result < index_limit }
{
    words::number_at(chart, edge.at + OPERATION_PLACE)
}

pub fn edge_kind(chart: &[i32], edge: EdgeRow) -> Kind
    requires { edge.at < index_limit }
    ensures { result ≡ kind_of (count chart.now (edge.at + operation_place)) }
{
    kind_of(edge_operation(chart, edge))
}

pub fn edge_target(chart: &[i32], edge: EdgeRow) -> usize
    requires { edge.at < index_limit }
    ensures number { result ≡ count chart.now (edge.at + target_place) }
    ensures small { result < index_limit }
{
    words::number_at(chart, edge.at + TARGET_PLACE)
}

pub fn edge_operand(chart: &[i32], edge: EdgeRow, which: Which) -> OperandWords
    requires { edge.at < index_limit }
    ensures tag { result.tag ≡ word_at chart.now (edge.at + tag_place which) }
    ensures value { result.value ≡ word_at chart.now (edge.at + value_place which) }
{
    OperandWords {
        tag: words::word_at(chart, edge.at + which.tag_place()),
        value: words::word_at(chart, edge.at + which.value_place()),
    }
}

// One of the two operands in a row.
fn operand_of(row: &[i32; EDGE_SIZE], which: Which) -> OperandWords
    ensures tag { result.tag ≡ word_at row.now (tag_place which) }
    ensures value { result.value ≡ word_at row.now (value_place which) }
{
    OperandWords {
        tag: row[which.tag_place()],
        value: row[which.value_place()],
    }
}

// An operand: a number, or one of v variables.
#[tactic(auto, unfolding(crate::specs::Encoded::operand_fine))]
fn operand_fine(v: usize, operand: OperandWords) -> bool
    ensures { result ≡ operand_fine v operand.tag operand.value }
{
    if operand.is_number() {
        return words::is_small(operand.value);
    }
    (operand.tag == VARIABLE_TAG) & words::is_below(v, operand.value)
}

// The operands of `add` and `sub`.
#[tactic(auto, unfolding(crate::specs::Encoded::two_fine))]
fn two_fine(v: usize, row: &[i32; EDGE_SIZE]) -> bool
    ensures { result ≡ two_fine v row.now }
{
    operand_fine(v, operand_of(row, Which::First)) & operand_fine(v, operand_of(row, Which::Second))
}

// The operand of an assignment or a test; the second's words are 0.
#[tactic(auto, unfolding(crate::specs::Encoded::one_fine))]
fn one_fine(v: usize, row: &[i32; EDGE_SIZE]) -> bool
    ensures { result ≡ one_fine v row.now }
{
    operand_fine(v, operand_of(row, Which::First))
        & (row[SECOND_TAG_PLACE] == 0)
        & (row[SECOND_VALUE_PLACE] == 0)
}

// The two numbers of `in`; the operands' tags are 0.
#[tactic(auto, unfolding(crate::specs::Encoded::input_fine))]
fn input_fine(vars: &[i32], row: &[i32; EDGE_SIZE]) -> bool
    ensures { result ≡ input_fine vars.now row.now }
{
    let k = words::magnitude(row[TARGET_PLACE]);
    let p = row[FIRST_VALUE_PLACE];
    let q = row[SECOND_VALUE_PLACE];
    (row[FIRST_TAG_PLACE] == NUMBER_TAG)
        & (row[SECOND_TAG_PLACE] == NUMBER_TAG)
        & words::is_small(p)
        & in_var_range(vars, k, p)
        & words::is_small(q)
        & in_var_range(vars, k, q)
        & (p <= q)
}

// An edge's operation: its target and its operands; for `skip` all 0.
fn operation_fine(vars: &[i32], v: usize, row: &[i32; EDGE_SIZE]) -> bool
    ensures { result ≡ operation_fine vars.now v row.now }
{
    let target = words::is_below(v, row[TARGET_PLACE]);
    match kind_of(words::magnitude(row[OPERATION_PLACE])) {
        Kind::Skip => words::all_zero(&row[TARGET_PLACE..]),
        Kind::Compute(_) => target & two_fine(v, row),
        Kind::In => target & input_fine(vars, row),
        Kind::Set | Kind::If(_) => target & one_fine(v, row),
    }
}

// An edge's words, where there are v variables and l locations.
#[tactic(auto, unfolding(crate::specs::Encoded::edge_fine))]
fn edge_fine(vars: &[i32], v: usize, l: usize, row: &[i32; EDGE_SIZE]) -> bool
    ensures { result ≡ edge_fine vars.now v l row.now }
{
    words::is_below(l, row[FROM_PLACE])
        & words::is_below(l, row[TO_PLACE])
        & is_at_most(GE_CODE, row[OPERATION_PLACE])
        & operation_fine(vars, v, row)
}

// The words of n edges.
fn edges_fine(vars: &[i32], v: usize, l: usize, edges: &[i32], n: usize) -> bool
    requires { edge_size * n ≤ length edges.now }
    ensures { result ≡ all (edge_fine vars.now v l) (rows edge_size n edges.now) }
{
    let mut ok = true;
    for i in 0..n {
        ok = ok & edge_fine(vars, v, l, row_at(edges, i));
    }
    ok
}

// ---- the check

// All rows, once the counts are known to be in order.
fn rows_fine(chart: &[i32]) -> bool
    requires { (edges_at chart.now + edge_size * edge_count chart.now ≤ length chart.now) × (location_count chart.now ≤ most_locations) }
    ensures { result ≡ rows_fine chart.now }
{
    let v = variable_count(chart);
    let l = location_count(chart);
    let vars = &chart[COUNTS_SIZE..];
    let locations = &chart[locations_at(chart)..];
    let edges = &chart[edges_at(chart)..];
    vars_ok(vars, v)
        & locations_fine(locations, l)
        & names_differ(locations, l)
        & edges_fine(vars, v, l, edges, edge_count(chart))
}

// Whether the words begin with the encoding of a chart that reading can produce: else the refusal is 20.
pub fn well_formed(chart: &[i32]) -> bool
    ensures { result ≡ well_formed chart.now }
{
    if !counts_fine(chart) {
        return false;
    }
    chart_size(chart) <= chart.len() && rows_fine(chart)
}

// The words of a chart in form, which only `Chart::new` makes: who is given one need not ask again. A clause sees the words.
#[derive(Drop)]
pub struct Chart<'a> {
    words: &'a [i32],
}

impl<'a> Model for Chart<'a> {
    ghost Value = { List ℤ };

    ghost view = { λ chart. chart.words.now };

    ghost invariant = { λ chart. T (well_formed chart.words.now) };
}

impl<'a> Chart<'a> {
    // The words, if they begin with the encoding of a chart: else it refuses by 20.
    pub fn new(words: &'a [i32]) -> Result<Chart<'a>, Refusal>
        ensures in_form { IsOk result ↔ T (well_formed words.now) }
        ensures same { IfOk result (λ chart. chart ≡ words.now) }
        ensures refused { IfErr result (λ refusal. refusal ≡ BadChart) }
    {
        if well_formed(words) {
            return Ok(Chart { words });
        }
        Err(Refusal::BadChart)
    }

    pub fn words(&self) -> &[i32]
        ensures words { result.now ≡ self.now }
        ensures in_form { T (well_formed self.now) }
    {
        self.words
    }
}
