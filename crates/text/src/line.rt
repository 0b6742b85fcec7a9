// One line of a text, as a reader hands it out.
ghost use Rattle.std.specs.Prelude.{◌≡◌};
ghost use Rattle.text.specs.Places.{form_of};

use super::lines::Form;

// A line without its LF, and how it is cut into fields.
#[derive(Clone, Copy)]
pub struct Line<'a> {
    pub bytes: &'a [u8],
    pub form: Form,
    ghost measured: { form ≡ form_of bytes.now },
}
