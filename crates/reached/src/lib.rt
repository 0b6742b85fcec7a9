// The reached table in lent words, slot after slot, each a state and after it what first brought the slot: that is written
// with the state when the slot is taken, and no other function here touches it. Cover and merge look at the slots of the
// successor's location alone, from link to link (`links`), each slot with its id and the place of its words together.
#![tactic(auto)]

ghost use Rattle.std.specs.Prelude.{◌≡◌, ◌++◌, ◌+◌, ◌*◌, ◌<◌, ◌≤◌, length, take, drop};
ghost use Rattle.semantics.specs.Lists.{some_of};
ghost use Rattle.semantics.specs.Layout.{index_limit, origin_size};
ghost use Rattle.semantics.specs.Tidy.{Queue};
ghost use Rattle.state.specs.Rows.{row_leq, rows_merge, rows_of, tail_words, Placed, Laid};
ghost use Rattle.waitlist.specs.Waits.{waits, Stored};
ghost use Rattle.reached.specs.Reached.{lies_from, rewaits};
ghost use Rattle.reached.specs.Links.{chains_of, Linked};

use semantics::{EdgeId, SlotId};
use state::{Layout, SlotRow};

pub mod links;

// Merges the row e into each slot in use; each slot that changes waits again. How many are waiting then. Slots of another
// location would not change: the links pass over them. Seven parameters stay: a struct of them would be made for the one call
// of it, and `Scan` below has its table to read, not to write.
pub fn merge_slots(
    layout: Layout,
    table: &mut [i32],
    used: usize,
    e: &[i32],
    list: &mut [i32],
    waiting: usize,
    links: &[usize],
) -> usize
    requires laid { Laid layout used e.now table.old }
    requires waits { Stored list.old waiting (waits waiting list.old) × Queue used (waits waiting list.old) × (used ≤ length list.old) × (length list.old < index_limit) }
    requires linked { Linked (chains_of layout used table.old) links.now }
    ensures table { table.new ≡ rows_merge e.now layout used table.old }
    ensures waits { Stored list.new result (rewaits e.now 0 (rows_of layout used table.old) (waits waiting list.old)) }
{
    let l = state::location_of(e);
    let mut count = waiting;
    let mut id = links::first(links, l);
    // No index is counted: the ids go along the links.
    while id.is_below(used) {
        let slot = layout.slot(id);
        let at = state::location_of(state::row_of(layout, table, slot));
        let same = state::merge_row(&mut table[slot.at..slot.at + e.len()], e);
        count = waitlist::wait_unless(same, list, count, id);
        id = links::next(links, id, at, l);
    }
    count
}

// What is looked through for a slot that a row lies under: the slots in use of a table, and the links between them.
#[derive(Clone, Copy)]
struct Scan<'a> {
    layout: Layout,
    table: &'a [i32],
    used: usize,
    e: &'a [i32],
    links: &'a [usize],
    ghost laid: { Laid layout used e.now table.now },
    ghost few: { used < index_limit },
    ghost linked: { Linked (chains_of layout used table.now) links.now },
}

impl Scan<'_> {
    ghost use Rattle.reached.specs.Scanned.{lies_after};

    // The last of the slots from this one on that the word at place i tells the row apart from: it lies under none of those
    // after it up to there. Slots of one location that follow each other mostly differ in one word, which is then looked at
    // first.
    fn pass(&self, i: usize, slot: SlotRow) -> SlotRow
        requires { (i < length self.now.e.now) × Placed self.now.layout slot × (slot.id.0 < self.now.used) }
        ensures slot { Placed self.now.layout result × (slot.id.0 ≤ result.id.0) × (result.id.0 < self.now.used) }
        ensures apart { lies_after self.now slot.id.0 ≡ lies_after self.now result.id.0 }
    {
        let mut last = slot;
        for _ in slot.id.0 + 1..self.used {
            let next = self.layout.after(last);
            if !state::told_apart(self.e, state::row_of(self.layout, self.table, next), i) {
                return last;
            }
            last = next;
        }
        last
    }

    // The slot to look at after this one, which the word at place i tells the row apart from: past those after it that this
    // word tells apart too, along the links.
    fn on_from(&self, i: usize, slot: SlotRow) -> SlotId
        requires { (i < length self.now.e.now) × Placed self.now.layout slot × (slot.id.0 < self.now.used) }
        ensures later { slot.id.0 < result.0 }
        ensures apart { lies_after self.now slot.id.0 ≡ lies_from self.now.layout self.now.used self.now.e.now self.now.table.now result.0 }
    {
        let last = self.pass(i, slot);
        let at = state::location_of(state::row_of(self.layout, self.table, last));
        links::next(self.links, last.id, at, state::location_of(self.e))
    }
}

// Whether the row e lies under a slot in use; it lies under none of another location.
pub fn covered(layout: Layout, table: &[i32], used: usize, e: &[i32], links: &[usize]) -> bool
    requires laid { Laid layout used e.now table.now × (used < index_limit) }
    requires linked { Linked (chains_of layout used table.now) links.now }
    ensures { result ≡ some_of (row_leq e.now) (rows_of layout used table.now) }
{
    let scan = Scan {
        layout,
        table,
        used,
        e,
        links,
    };
    let mut id = links::first(links, state::location_of(e));
    // No index is counted: the ids go along the links.
    while id.is_below(used) {
        let slot = layout.slot(id);
        match state::first_over(e, state::row_of(layout, table, slot)) {
            None => return true,
            Some(i) => id = scan.on_from(i, slot),
        }
    }
    false
}

// The row e takes a slot, brought by a slot and an edge.
pub fn store_slot(
    layout: Layout,
    table: &mut [i32],
    slot: SlotId,
    e: &[i32],
    parent: SlotId,
    edge: EdgeId,
)
    requires { (slot.0 * layout.stride + layout.stride ≤ length table.old) × (layout.stride ≡ length e.now + origin_size) }
    ensures { table.new ≡ take (slot.0 * layout.stride) table.old ++ ((e.now ++ tail_words parent.0 edge.0) ++ drop layout.stride (drop (slot.0 * layout.stride) table.old)) }
{
    let from = layout.slot(slot).at;
    let tail = from + e.len();
    table[from..tail].copy_from_slice(e);
    state::set_origin(&mut table[tail..from + layout.stride], parent, edge);
}

// Copies the row of a slot out.
pub fn get_row(layout: Layout, table: &[i32], slot: SlotId, out: &mut [i32])
    requires { slot.0 * layout.stride + length out.old ≤ length table.now }
    ensures { out.new ≡ take (length out.old) (drop (slot.0 * layout.stride) table.now) }
{
    let from = layout.slot(slot).at;
    out.copy_from_slice(&table[from..from + out.len()]);
}
