// A reader that goes down a text line by line.
ghost use Rattle.std.specs.Prelude.{◌≡◌, ◌&&◌, ◌+◌, ◌-◌, length, eqb, leb};
ghost use Rattle.std.specs.Iterator.{at_most};
ghost use Rattle.text.specs.Places.{shape_of, ended_after};
ghost use Rattle.text.specs.Lines.{LineRead};

use super::line::Line;

// The lent text, and the reader's place in it: where the next line begins.
#[derive(Clone, Copy)]
pub struct Reader<'a> {
    pub text: &'a [u8],
    pub at: usize,
}

// How a line is cut into fields: how many there are, and whether none of them is empty.
#[derive(Clone, Copy)]
pub struct Form {
    pub fields: usize,
    pub filled: bool,
}

impl Form {
    // So many fields, none of them empty.
    pub fn has(self, count: usize) -> bool
        ensures { result ≡ (eqb self.fields count && self.filled) }
    {
        (self.fields == count) & self.filled
    }

    // So many or more, none of them empty.
    pub fn has_at_least(self, count: usize) -> bool
        ensures { result ≡ (leb count self.fields && self.filled) }
    {
        (count <= self.fields) & self.filled
    }
}

// Where a line ends, and its form.
#[derive(Clone, Copy)]
pub struct Shape {
    pub end: usize,
    pub form: Form,
}

// A line that ends after the byte `last`: one more empty field where that is a tab.
fn ended(end: usize, fields: usize, filled: bool, last: u8) -> Shape
    ensures { result ≡ ended_after end fields filled last }
{
    Shape {
        end,
        form: Form {
            fields,
            filled: filled & (last != semantics::TAB),
        },
    }
}

// The line that begins at a place, in one pass. Before its first byte a field begins, as after a tab.
pub fn measure(text: &[u8], at: usize) -> Shape
    ensures { result ≡ shape_of text.now at }
{
    let mut fields = 1;
    let mut filled = true;
    let mut last = semantics::TAB;
    let rest = &text[at.min(text.len())..];
    for (n, b) in rest.iter().enumerate() {
        if *b == semantics::LF {
            return ended(at + n, fields, filled, last);
        }
        fields += usize::from(*b == semantics::TAB);
        filled &= !((last == semantics::TAB) & (*b == semantics::TAB));
        last = *b;
    }
    ended(at + rest.len(), fields, filled, last)
}

// A reader at the start of a text.
pub fn open<'a>(text: &'a [u8]) -> Reader<'a>
    ensures { (result.text ≡ text.entry) × (result.at ≡ 0) }
{
    Reader { text, at: 0 }
}

impl<'a> Iterator for Reader<'a> {
    type Item = Line<'a>;

    ghost remaining = { λ r. at_most (length r.text.now + 1 - r.at) };

    ghost next_gives = { λ old line new. LineRead old.text.now old.at line new.at × (new.text ≡ old.text) };

    // The line at the reader's place, past which it goes; none at the end of the text.
    fn next(&mut self) -> Option<Line<'a>> {
        if self.text.len() <= self.at {
            return None;
        }
        let shape = measure(self.text, self.at);
        let bytes = &self.text[self.at..shape.end];
        self.at = shape.end + 1;
        Some(Line {
            bytes,
            form: shape.form,
        })
    }
}
