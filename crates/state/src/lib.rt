// One abstract state as a row of words, its location and then one word a variable: where each stands, in a row and in a
// table, and after it what first brought the slot; order, join and merge. No other crate reads or writes a slot by place.
// The locations of two rows are compared as words, not as ids: nothing is asked of a row's form, and a word and its
// negation say the same id.
#![tactic(auto)]

ghost use Rattle.std.specs.Prelude.{◌≡◌, MatchOption, true, false, ◌&&◌, not, ◌+◌, ◌-◌, ◌*◌, ◌<◌, ◌≤◌, eqb, length};
ghost use Rattle.std.specs.Int.Signed.{non_neg};
ghost use Rattle.semantics.specs.Lists.{all};
ghost use Rattle.semantics.specs.Layout.{index_limit, place_limit, origin_size};
ghost use Rattle.semantics.specs.Encoding.{word_at};
ghost use Rattle.semantics.specs.Memory.{origin_in};
ghost use Rattle.state.specs.Rows.{layout_of, width_of, Placed, row_of, tail_of, tail_words, location_word, location_in, values_of, value_at, id_word, with_location, with_value, word_leq, word_join, words_leq, same_words, same_place, row_leq, row_join, row_merge};

use semantics::{EdgeId, LocationId, SlotId};

// ---- where the words stand

// The words before the values: the location's.
const HEAD: usize = 1;

// The words of a variable.
const VALUE: usize = 1;

// The most words of a state.
pub const MOST_WIDTH: usize = HEAD + VALUE * semantics::MOST_VARIABLES;

// The words after a state: parent and edge of its origin.
const ORIGIN: usize = 2;

// The most words of a slot.
pub const MOST_STRIDE: usize = MOST_WIDTH + ORIGIN;

// How the slots of a table stand in its words. A slot begins `stride` words after the one before it; its state is the
// first words of it, `width` of them, and its origin is the rest.
#[derive(Clone, Copy)]
pub struct Layout {
    pub head: usize,
    pub value: usize,
    pub variables: usize,
    pub stride: usize,
}

impl Layout {
    // The words of a state.
    pub fn width(self) -> usize
        requires { width_of self < place_limit }
        ensures { result ≡ width_of self }
    {
        self.head + self.value * self.variables
    }

    // A slot by its id.
    pub fn slot(self, id: SlotId) -> SlotRow
        requires { id.0 * self.stride < place_limit }
        ensures id { result.id.0 ≡ id.0 }
        ensures placed { Placed self result }
    {
        SlotRow {
            id,
            at: id.0 * self.stride,
        }
    }

    // The slot after it: id and place step together.
    pub fn after(self, slot: SlotRow) -> SlotRow
        requires { Placed self slot × (slot.id.0 + 1 < place_limit) × (slot.at + self.stride < place_limit) }
        ensures id { result.id.0 ≡ slot.id.0 + 1 }
        ensures placed { Placed self result }
    {
        let id = slot.id;
        SlotRow {
            id: id.after(),
            at: slot.at + self.stride,
        }
    }
}

// A slot: its id, and the place of its first word. The two are carried along together, so that no place is ever divided
// to find its slot; only `Layout::slot` and `Layout::after` make one.
#[derive(Clone, Copy)]
pub struct SlotRow {
    pub id: SlotId,
    pub at: usize,
}

// The state in a slot.
pub fn row_of(layout: Layout, table: &[i32], slot: SlotRow) -> &[i32]
    requires { Placed layout slot × (slot.at + width_of layout ≤ length table.now) }
    ensures row { result.now ≡ row_of layout slot.id.0 table.now }
    ensures long { length result.now ≡ width_of layout }
{
    &table[slot.at..slot.at + layout.width()]
}

// What a slot holds past its state: the words of its origin.
pub fn tail_of(layout: Layout, table: &[i32], slot: SlotRow) -> &[i32]
    requires { Placed layout slot × (width_of layout ≤ layout.stride) × (slot.at + layout.stride ≤ length table.now) }
    ensures tail { result.now ≡ tail_of layout slot.id.0 table.now }
    ensures long { length result.now ≡ layout.stride - width_of layout }
{
    &table[slot.at + layout.width()..slot.at + layout.stride]
}

// The layout of a chart's tables: slot follows slot.
pub fn layout_of(chart: &[i32]) -> Layout
    ensures layout { result ≡ layout_of chart.now }
    ensures small { width_of result ≤ index_limit }
{
    let variables = chart::variable_count(chart);
    Layout {
        head: HEAD,
        value: VALUE,
        variables,
        stride: HEAD + VALUE * variables + ORIGIN,
    }
}

// Where the location's word stands in a row.
const LOCATION_PLACE: usize = 0;

// The word of a row's location; 0 in an empty row.
pub fn location_word(row: &[i32]) -> i32
    ensures { result ≡ location_word row.now }
{
    words::word_at(row, LOCATION_PLACE)
}

// The location of a row.
pub fn location_of(row: &[i32]) -> LocationId
    ensures location { result.0 ≡ location_in row.now }
    ensures small { result.0 < index_limit }
{
    LocationId(words::number_at(row, LOCATION_PLACE))
}

// The values of a row, a word each.
pub fn values(row: &[i32]) -> &[i32]
    requires { 0 < length row.now }
    ensures { result.now ≡ values_of row.now }
{
    &row[HEAD..]
}

// The value of variable k; 0 where there is none.
pub fn value_at(row: &[i32], k: usize) -> i32
    requires { k < index_limit }
    ensures { result ≡ value_at row.now k }
{
    words::word_at(row, k + HEAD)
}

// The word that a slot holds for an id; 0 for one that no word can hold.
fn id_word(n: usize) -> i32
    ensures { result ≡ id_word n }
{
    i32::try_from(n).unwrap_or(0)
}

// The row stands at the location then.
pub fn set_location(row: &mut [i32], l: LocationId)
    requires { 0 < length row.old }
    ensures { row.new ≡ with_location row.old l.0 }
{
    row[LOCATION_PLACE] = id_word(l.0);
}

// Variable k becomes x; nothing where there is none.
pub fn set_value(row: &mut [i32], k: usize, x: i32)
    requires { k < index_limit }
    ensures { row.new ≡ with_value row.old k x }
{
    // `get_mut` was tried: of a slice it promises no word afterwards, so the proof did not close.
    let i = k + HEAD;
    if i < row.len() {
        row[i] = x;
    }
}

// ---- the origin

const PARENT_PLACE: usize = 0;

const EDGE_PLACE: usize = 1;

// The slot that first brought it.
pub fn origin_parent(tail: &[i32]) -> SlotId
    ensures parent { result.0 ≡ (origin_in tail.now).parent }
    ensures small { result.0 < index_limit }
{
    SlotId(words::number_at(tail, PARENT_PLACE))
}

// The edge that did.
pub fn origin_edge(tail: &[i32]) -> EdgeId
    ensures edge { result.0 ≡ (origin_in tail.now).edge }
    ensures small { result.0 < index_limit }
{
    EdgeId(words::number_at(tail, EDGE_PLACE))
}

// Whether neither word is negative.
pub fn tail_ok(tail: &[i32]) -> bool
    requires { length tail.now ≡ origin_size }
    ensures { result ≡ all non_neg tail.now }
{
    tail.iter().all(|word| 0 <= *word)
}

// The slot was first brought by these.
pub fn set_origin(tail: &mut [i32], parent: SlotId, edge: EdgeId)
    requires { length tail.old ≡ origin_size }
    ensures { tail.new ≡ tail_words parent.0 edge.0 }
{
    tail.copy_from_slice(&[id_word(parent.0), id_word(edge.0)]);
}

// ---- order, join and merge

// Whether the word x lies under y: they are equal, or y is top.
fn leq_word(x: i32, y: i32) -> bool
    ensures { result ≡ word_leq x y }
{
    (x == y) | (y == words::TOP)
}

// The join of two words: equal words stay, all else becomes top.
pub fn join_word(x: i32, y: i32) -> i32
    ensures { result ≡ word_join x y }
{
    if x == y {
        return y;
    }
    words::TOP
}

// The place of the first word that tells the row e apart from s, the location or a value that does not lie under that of
// s; none where e lies under s.
pub fn first_over(e: &[i32], s: &[i32]) -> Option<usize>
    requires { (length s.now ≡ length e.now) × (0 < length e.now) }
    ensures { MatchOption result (row_leq e.now s.now ≡ true) (λ i. (i < length e.now) × (row_leq e.now s.now ≡ false)) }
{
    if e[LOCATION_PLACE] != s[LOCATION_PLACE] {
        return Some(LOCATION_PLACE);
    }
    let over = values(e)
        .iter()
        .zip(values(s))
        .position(|(x, y)| !leq_word(*x, *y))?;
    Some(over + HEAD)
}

// Whether the word at a place tells the row e apart from s, a row of the same location.
pub fn told_apart(e: &[i32], s: &[i32], i: usize) -> bool
    requires { (length s.now ≡ length e.now) × (i < length e.now) }
    ensures { result ≡ (same_place e.now s.now && not (word_leq (word_at e.now i) (word_at s.now i))) }
{
    (e[LOCATION_PLACE] == s[LOCATION_PLACE]) & !leq_word(e[i], s[i])
}

// Joins e into s, a row of the same location. Whether s is the same as before.
fn join_row(s: &mut [i32], e: &[i32]) -> bool
    requires { (length s.old ≡ length e.now) × (0 < length e.now) }
    ensures same { result ≡ same_words (row_join e.now s.old) s.old }
    ensures row { s.new ≡ row_join e.now s.old }
{
    let mut same = true;
    for i in HEAD..s.len() {
        let joined = join_word(e[i], s[i]);
        same &= joined == s[i];
        s[i] = joined;
    }
    same
}

// Joins e into s where the locations agree. Whether s is the same as before.
pub fn merge_row(s: &mut [i32], e: &[i32]) -> bool
    requires { (length s.old ≡ length e.now) × (0 < length e.now) }
    ensures same { result ≡ same_words (row_merge e.now s.old) s.old }
    ensures row { s.new ≡ row_merge e.now s.old }
{
    if e[LOCATION_PLACE] != s[LOCATION_PLACE] {
        return true;
    }
    join_row(s, e)
}
