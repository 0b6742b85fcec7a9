// Reading a chart file: from its bytes to the words of the encoded chart, or the refusal and its line. In this crate
// `rows` are the chart's, that is the encoded chart but for its three counts, and past their room the numbers by which
// the locations' names are compared; and `names` are rows with the variables' names, which are looked for and not encoded.
#![tactic(auto, using(text::proofs::LineFields::field_lies_at), unfolding(text::specs::Fields::res_by, semantics::specs::Reading::check, semantics::specs::Reading::if_ok))]

ghost use Rattle.std.specs.Prelude.{◌≡◌};
ghost use Rattle.semantics.specs.Text.{fields};
ghost use Rattle.semantics.specs.Chart.{Chart};
ghost use Rattle.semantics.specs.Reading.{SoFar, judge, at_end, nothing_read};
ghost use Rattle.semantics.specs.Outcomes.{held_by, read_outcome};
ghost use Rattle.semantics.specs.Refusals.{read_of};
ghost use Rattle.reader.specs.ReadSoFar.{Rows, lines_judged};
ghost use Rattle.reader.specs.Drafts.{Holds, LineJudged, LinesRead};

mod draft;
mod edge;
mod location;
mod operation;
mod scan;
mod variable;

use chart::COUNTS_SIZE;
use draft::Draft;
use semantics::{Refusal, RefusedAt};
use text::line::Line;

// Refusal 1: the most bytes of a chart file.
pub const MOST_BYTES: usize = 32768;

// A refusal where no line applies.
fn no_line(refusal: Refusal) -> RefusedAt
    ensures { result ≡ record { refusal = refusal; line = 0 } }
{
    RefusedAt { refusal, line: 0 }
}

// One line, by its kind.
fn judge_line(draft: &mut Draft, line: &Line) -> Result<(), Refusal>
    ensures { (s : SoFar) → Holds draft.old s → LineJudged result (judge s (fields line.now.bytes.now)) draft.new }
{
    let first = text::first_field(line.bytes);
    match text::field_bytes(line.bytes, first) {
        b"V" => variable::read_line(draft, line, first),
        b"L" => location::read_line(draft, line, first),
        b"E" => edge::read_line(draft, line, first),
        _ => Err(Refusal::WrongKind),
    }
}

// All the lines, one after the other.
fn judge_lines(text: &[u8], draft: &mut Draft) -> Result<(), RefusedAt>
    requires { Holds draft.old nothing_read }
    ensures { LinesRead text.now result draft.new }
{
    for (n, line) in text::lines::open(text).enumerate() {
        judge_line(draft, &line).map_err(|refusal| RefusedAt {
            refusal,
            line: n + 1,
        })?;
    }
    Ok(())
}

// After the last line: the rows to the words lent, after their counts, where there is a location and the words are enough.
fn copy_out(draft: &Draft, words: &mut [i32]) -> Result<(), RefusedAt>
    ensures answered { (c : Chart) → Rows draft.now.tally draft.now.rows c → read_of result ≡ (held_by (at_end c) words.old).answer }
    ensures written { (c : Chart) → Rows draft.now.tally draft.now.rows c → words.new ≡ (held_by (at_end c) words.old).words }
{
    let t = draft.tally;
    if t.locs == 0 {
        return Err(no_line(Refusal::WrongCount));
    }
    let size = draft.used_words();
    if words.len() < size + COUNTS_SIZE {
        return Err(no_line(Refusal::FewWords));
    }
    chart::put_chart(words, t.vars, t.locs, t.edges, &draft.rows[..size]);
    Ok(())
}

// All the lines. The rows are held apart until the last line is judged, so that a refusal has written nothing.
fn read_lines(text: &[u8], words: &mut [i32]) -> Result<(), RefusedAt>
    ensures answered { read_of result ≡ (held_by (lines_judged text.now) words.old).answer }
    ensures written { words.new ≡ (held_by (lines_judged text.now) words.old).words }
{
    let mut draft = Draft::new();
    judge_lines(text, &mut draft)?;
    copy_out(&draft, words)
}

// A chart file's bytes into the words of the encoded chart: the answer, and every word at exit. The bytes are judged
// first, then the LF of the last line, then the lines.
pub fn read(text: &[u8], words: &mut [i32]) -> Result<(), RefusedAt>
    ensures answered { read_of result ≡ (read_outcome text.now words.old).answer }
    ensures written { words.new ≡ (read_outcome text.now words.old).words }
{
    if MOST_BYTES < text.len() {
        return Err(no_line(Refusal::TooLong));
    }
    if let Some(line) = scan::bad_byte(text) {
        return Err(RefusedAt {
            refusal: Refusal::BadByte,
            line,
        });
    }
    if let Some(line) = scan::open_line(text) {
        return Err(RefusedAt {
            refusal: Refusal::OpenLine,
            line,
        });
    }
    read_lines(text, words)
}
