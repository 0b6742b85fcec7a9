// Signed 32-bit words: total reads, tests and copies that every table is built on.
#![tactic(auto)]

ghost use Rattle.std.specs.Prelude.{◌≡◌, ◌<◌, pos, nat_abs, length, get_or, replicate};
ghost use Rattle.semantics.specs.Layout.{index_limit};
ghost use Rattle.semantics.specs.Lists.{some_of};
ghost use Rattle.semantics.specs.Chart.{eq_z, within, small};
ghost use Rattle.semantics.specs.Encoding.{count};
ghost use Rattle.semantics.specs.Memory.{below, zeros};

pub mod numbers;

// The least and the most number of a chart: document 01 has them from −32,768 to 32,767.
const LEAST_NUMBER: i32 = -32768;

const MOST_NUMBER: i32 = 32767;

// The word for top: document 01's unspecific, which no variable can hold.
pub const TOP: i32 = 32768;

// The word at a place; 0 past the end.
pub fn word_at(s: &[i32], i: usize) -> i32
    ensures { result ≡ get_or s.now i (pos 0) }
{
    s.get(i).copied().unwrap_or(0)
}

// The number that a word says, whatever its sign.
pub fn magnitude(w: i32) -> usize
    ensures number { result ≡ nat_abs w }
    ensures small { result < index_limit }
{
    w.unsigned_abs() as usize
}

// The number at a place.
pub fn number_at(s: &[i32], i: usize) -> usize
    ensures number { result ≡ count s.now i }
    ensures small { result < index_limit }
{
    magnitude(word_at(s, i))
}

// ---- one word

pub fn lies_within(lo: i32, hi: i32, w: i32) -> bool
    ensures { result ≡ within lo hi w }
{
    (lo <= w) & (w <= hi)
}

// A number of a chart.
pub fn is_small(w: i32) -> bool
    ensures { result ≡ small w }
{
    lies_within(LEAST_NUMBER, MOST_NUMBER, w)
}

// A number from 0 up to, not including, n.
pub fn is_below(n: usize, w: i32) -> bool
    ensures { result ≡ below n w }
{
    (0 <= w) & (magnitude(w) < n)
}

// ---- all words

pub fn fill_zero(s: &mut [i32])
    ensures { s.new ≡ replicate (length s.old) (pos 0) }
{
    s.fill(0);
}

// Whether the word is one of those given.
pub fn contains(s: &[i32], x: i32) -> bool
    ensures { result ≡ some_of (eq_z x) s.now }
{
    s.contains(&x)
}

// No branch on a word, so that several are looked at at once: unused words are many and nearly always all 0.
pub fn all_zero(s: &[i32]) -> bool
    ensures { result ≡ zeros s.now }
{
    s.iter().fold(true, |ok, w| ok & (*w == 0))
}
