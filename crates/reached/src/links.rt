// The slots of a location, linked in slot order in lent numbers, so that cover and merge look at the slots of the
// successor's location and not at every slot. For each location the numbers have its first slot, then for each location
// its last one, then for each slot the next one of the same location; a number above every slot stands for none. Past the
// end a number is 0, which passes over nothing: so nothing is asked of the count of slots.
ghost use Rattle.std.specs.Prelude.{◌≡◌, List, [], ◌∷◌, ◌++◌, ℕ, ◌+◌, ◌*◌, ◌<◌, ◌≤◌, ltb, length, get_or};
ghost use Rattle.semantics.specs.Layout.{index_limit, most_locations};
ghost use Rattle.semantics.specs.Lists.{pick};
ghost use Rattle.state.specs.Rows.{width_of};
ghost use Rattle.reached.specs.Links.{chain_of, chains_of, next_place, Passed, Linked};

use semantics::{LocationId, SlotId};
use state::Layout;
use words::numbers;

// Where the last slots and the next slots begin.
const LASTS: usize = semantics::MOST_LOCATIONS;

const NEXTS: usize = LASTS + semantics::MOST_LOCATIONS;

// How many numbers there are, and the one that stands for no slot.
pub const SIZE: usize = NEXTS + semantics::MOST_SLOTS;

pub const NONE: usize = 2147483649;

// The chain of a location. One that no chart has shares that of location 0.
fn chain_of(l: LocationId) -> usize
    ensures chain { result ≡ chain_of l.0 }
    ensures small { result < most_locations }
{
    if l.0 < semantics::MOST_LOCATIONS {
        return l.0;
    }
    0
}

// Where a slot is put: after the last slot of its chain, or, with none before it, as the first.
fn place_for(slot: SlotId, last: SlotId, chain: usize) -> usize
    requires { slot.0 < index_limit }
    ensures { result ≡ pick (ltb last.0 slot.0) (next_place last.0) chain }
{
    if last < slot {
        return NEXTS + last.0;
    }
    chain
}

// The slot that was just taken, one more than were linked so far, joins the chain of its location.
pub fn add(links: &mut [usize], slot: SlotId, l: LocationId)
    requires { slot.0 < index_limit }
    ensures { (cs : List ℕ) → length cs ≡ slot.0 → Linked cs links.old → Linked (cs ++ (chain_of l.0 ∷ [])) links.new }
{
    let chain = chain_of(l);
    let last = numbers::number_in(links, LASTS + chain);
    let place = place_for(slot, SlotId(last), chain);
    numbers::put(links, place, slot.0);
    numbers::put(links, LASTS + chain, slot.0);
}

// Links all slots in use.
pub fn link_all(layout: Layout, table: &[i32], used: usize, links: &mut [usize])
    requires { Linked [] links.old × (width_of layout ≤ layout.stride) × (used * layout.stride ≤ length table.now) × (used < index_limit) }
    ensures { Linked (chains_of layout used table.now) links.new }
{
    for id in 0..used {
        let slot = layout.slot(SlotId(id));
        let row = state::row_of(layout, table, slot);
        add(links, slot.id, state::location_of(row));
    }
}

// The first slot to look at, for a location.
pub fn first(links: &[usize], l: LocationId) -> SlotId
    ensures { (cs : List ℕ) → Linked cs links.now → Passed cs (chain_of l.0) 0 result.0 }
{
    SlotId(numbers::number_in(links, chain_of(l)))
}

// The slot to look at next, after one of location `at`. Its link serves if that is the location.
pub fn next(links: &[usize], slot: SlotId, at: LocationId, l: LocationId) -> SlotId
    requires { slot.0 < index_limit }
    ensures later { slot.0 < result.0 }
    ensures passed { (cs : List ℕ) → Linked cs links.now → slot.0 < length cs → get_or cs slot.0 0 ≡ chain_of at.0 → Passed cs (chain_of l.0) (slot.0 + 1) result.0 }
{
    let after = slot.after();
    if at != l {
        return after;
    }
    after.max(SlotId(numbers::number_in(links, NEXTS + slot.0)))
}
