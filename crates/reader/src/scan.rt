// What is judged of the file as a whole: its bytes, and the LF of its last line.
ghost use Rattle.std.specs.Prelude.{◌≡◌, eqb, count_by};
ghost use Rattle.semantics.specs.Lists.{all};
ghost use Rattle.semantics.specs.Reading.{byte_ok, bad_byte_line, open_line};
ghost use Rattle.reader.specs.Answers.{found};

// Tab, LF, or one of 0x21..0x7E.
fn byte_ok(b: u8) -> bool
    ensures { result ≡ byte_ok b }
{
    (b == semantics::TAB) | (b == semantics::LF) | b.is_ascii_graphic()
}

// No branch on a byte, so that several are looked at at once.
fn bytes_ok(text: &[u8]) -> bool
    ensures { result ≡ all byte_ok text.now }
{
    text.iter().fold(true, |ok, b| ok & byte_ok(*b))
}

// How many lines a text ends.
fn ended_lines(text: &[u8]) -> usize
    ensures { result ≡ count_by (λ b. eqb b 10) text.now }
{
    let mut n = 0;
    for i in 0..text.len() {
        if text[i] == semantics::LF {
            n += 1;
        }
    }
    n
}

// The line of the first byte that no chart has. It is looked for only where there is one.
pub fn bad_byte(text: &[u8]) -> Option<usize>
    ensures { found result ≡ bad_byte_line 1 text.now }
{
    if bytes_ok(text) {
        return None;
    }
    let at = text.iter().position(|b| !byte_ok(*b))?;
    Some(1 + ended_lines(&text[..at]))
}

// The last line, where it lacks its LF.
pub fn open_line(text: &[u8]) -> Option<usize>
    ensures { found result ≡ open_line 0 10 text.now }
{
    if *text.last()? == semantics::LF {
        return None;
    }
    Some(1 + ended_lines(text))
}
