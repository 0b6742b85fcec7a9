// Lent numbers, as places and ids are: a total read and a total write.
ghost use Rattle.std.specs.Prelude.{◌≡◌, get_or, set};

// The number at a place; 0 past the end.
pub fn number_in(s: &[usize], i: usize) -> usize
    ensures { result ≡ get_or s.now i 0 }
{
    s.get(i).copied().unwrap_or(0)
}

// A number is put at a place; past the end nothing is. By a test and not by `get_mut`, which was tried: nothing told that
// the numbers are as they were where it answers `None`.
pub fn put(s: &mut [usize], i: usize, x: usize)
    ensures { s.new ≡ set s.old i x }
{
    if i < s.len() {
        s[i] = x;
    }
}
