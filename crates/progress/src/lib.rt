// The record of an analysis, and how it advances: where it starts, the counts between two edges of an iteration, and the
// end of the iteration, where a slot that is put back is all that changes in the words.
#![tactic(auto)]

ghost use Rattle.std.specs.Prelude.{◌≡◌, ◌<◌};
ghost use Rattle.semantics.specs.Layout.{most_iterations};
ghost use Rattle.semantics.specs.Algorithm.{first_verdict};
ghost use Rattle.waitlist.specs.Waits.{Admits};
ghost use Rattle.progress.specs.Progress.{first_record, with_counts, went_on, alarm_by, table_full, has_ended, advanced, VerdictBy, Finished};

use semantics::{Analysis, EdgeId, Settings, SlotId, Verdict};

// How the edges of an iteration, or some of them, end.
#[derive(Clone, Copy, PartialEq, Eq)]
pub enum Exit {
    On,
    // By this edge.
    Alarm(EdgeId),
    Full,
}

impl Exit {
    // Whether an edge has ended the iteration: none after it is played.
    pub fn has_ended(self) -> bool
        ensures { result ≡ has_ended self }
    {
        !matches!(self, Exit::On)
    }
}

// The state between two edges: how the last ended, and the counts of slots in use and waiting.
#[derive(Clone, Copy)]
pub struct Progress {
    pub exit: Exit,
    pub used: usize,
    pub waiting: usize,
}

// ---- the start

// The verdict of a start: alarm where the initial state is at an error location.
fn first_verdict(error: bool) -> Verdict
    ensures { result ≡ first_verdict error }
{
    if error { Verdict::Alarm } else { Verdict::Open }
}

// The record of an analysis that starts: slot 0 is in use, so many wait.
pub fn first_record(settings: Settings, capacity: u32, waiting: usize, error: bool) -> Analysis
    ensures { result ≡ first_record settings capacity waiting error }
{
    Analysis {
        settings,
        capacity,
        iterations: 0,
        used: 1,
        waiting,
        verdict: first_verdict(error),
        edge: EdgeId(0),
    }
}

// ---- between two edges

// The record with other counts.
pub fn with_counts(a: Analysis, used: usize, waiting: usize) -> Analysis
    ensures { result ≡ with_counts a used waiting }
{
    Analysis { used, waiting, ..a }
}

// No edge so far has met an error or a full table.
pub fn went_on(used: usize, waiting: usize) -> Progress
    ensures { result ≡ went_on used waiting }
{
    Progress {
        exit: Exit::On,
        used,
        waiting,
    }
}

// An edge raises the alarm.
pub fn alarm_by(edge: EdgeId, used: usize, waiting: usize) -> Progress
    ensures { result ≡ alarm_by edge used waiting }
{
    Progress {
        exit: Exit::Alarm(edge),
        used,
        waiting,
    }
}

// A successor finds no slot.
pub fn table_full(used: usize, waiting: usize) -> Progress
    ensures { result ≡ table_full used waiting }
{
    Progress {
        exit: Exit::Full,
        used,
        waiting,
    }
}

// ---- the end of an iteration

// The verdict after an iteration that met no error and no full table.
fn verdict_of(waiting: usize) -> Verdict
    ensures { VerdictBy waiting result }
{
    if waiting == 0 {
        Verdict::Safe
    } else {
        Verdict::Open
    }
}

// The record after one iteration more.
fn advanced(a: Analysis, used: usize, waiting: usize, verdict: Verdict, edge: EdgeId) -> Analysis
    requires { a.iterations < most_iterations }
    ensures { result ≡ advanced a used waiting verdict edge }
{
    Analysis {
        iterations: a.iterations + 1,
        used,
        waiting,
        verdict,
        edge,
        ..a
    }
}

// The end of an iteration that took the slot.
pub fn finish(a: Analysis, slot: SlotId, p: Progress, list: &mut [i32]) -> Analysis
    requires { Admits list.old p.waiting slot.0 × (a.iterations < most_iterations) }
    ensures { Finished a slot.0 p list.old result list.new }
{
    let (verdict, edge) = match p.exit {
        Exit::On => return advanced(a, p.used, p.waiting, verdict_of(p.waiting), EdgeId(0)),
        Exit::Alarm(edge) => (Verdict::Alarm, edge),
        Exit::Full => (Verdict::Full, EdgeId(0)),
    };
    let waiting = waitlist::put_back(a.settings.order, list, p.waiting, slot);
    advanced(a, p.used, waiting, verdict, edge)
}
