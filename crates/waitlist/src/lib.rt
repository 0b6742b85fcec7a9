// The waitlist in lent words: its slot numbers, longest waiting first, then zeros. Each function is given the count of
// slots that wait. A function that puts a slot on the list or takes a named one off returns the count after it; the
// take of the next slot returns that slot, and leaves one fewer.
// The bounds only keep a slot's number in a word: a list of fewer than `index_limit` words names none that does not fit.
// List and count stay two parameters: the count is a field of `Analysis`, whose layout the C interface fixes, and a struct of
// the two would hold it once more. Tried with the fact `Stored` in it: append and take_slot prove and ask for `Stored` no
// longer, but ensure that the reference and the length stay, which a slice lent does by itself. So would each function of
// `reached`, `progress` and `analysis` that is lent the list on the way.
#![tactic(auto)]

ghost use Rattle.std.specs.Prelude.{◌≡◌, ◌∷◌, [], ◌++◌, map, ◌+◌, ◌-◌, ◌<◌, ◌≤◌, eqb, pos, nat_abs, length, take, drop, replicate};
ghost use Rattle.semantics.specs.Layout.{index_limit};
ghost use Rattle.semantics.specs.Lists.{pick, some_of};
ghost use Rattle.semantics.specs.Tidy.{Distinct};
ghost use Rattle.semantics.specs.Algorithm.{without, put_back, wait};
ghost use Rattle.waitlist.specs.Waits.{waits, Stored, Admits, next_place, others, TakenFrom, NextBy};

use semantics::{Order, SlotId};

// The word that says a slot.
fn slot_word(slot: SlotId) -> i32
    requires { slot.0 + 1 < index_limit }
    ensures { result ≡ pos slot.0 }
{
    slot.0 as i32
}

// Whether the slot is waiting.
fn contains(list: &[i32], count: usize, slot: SlotId) -> bool
    requires { Stored list.now count (waits count list.now) × (slot.0 + 1 < index_limit) }
    ensures { result ≡ some_of (eqb slot.0) (waits count list.now) }
{
    words::contains(&list[..count], slot_word(slot))
}

// The slot joins the waitlist at its end.
pub fn append(list: &mut [i32], count: usize, slot: SlotId) -> usize
    requires { Stored list.old count (waits count list.old) × (count < length list.old) × (slot.0 + 1 < index_limit) }
    ensures { Stored list.new result (waits count list.old ++ (slot.0 ∷ [])) }
{
    list[count] = slot_word(slot);
    count + 1
}

// The slot waits: it joins the waitlist unless it is on it.
fn wait(list: &mut [i32], count: usize, slot: SlotId) -> usize
    requires { Admits list.old count slot.0 }
    ensures { Stored list.new result (wait slot.0 (waits count list.old)) }
{
    if contains(list, count, slot) {
        return count;
    }
    append(list, count, slot)
}

// The same, unless the flag says that its abstract state is the same as before.
pub fn wait_unless(same: bool, list: &mut [i32], count: usize, slot: SlotId) -> usize
    requires { Admits list.old count slot.0 }
    ensures { Stored list.new result (pick same (waits count list.old) (wait slot.0 (waits count list.old))) }
{
    if same {
        return count;
    }
    wait(list, count, slot)
}

// The place in the list, which so many slots wait on, of the slot that is next by the order.
fn next_place(order: Order, count: usize) -> usize
    requires { 0 < count }
    ensures { result ≡ next_place order count }
{
    match order {
        Order::Old => 0,
        Order::New => count - 1,
    }
}

// Takes the slot at a place off the list. Only the words in use move.
fn take_out(list: &mut [i32], count: usize, at: usize)
    requires { Stored list.old count (waits count list.old) × (at < count) }
    ensures { Stored list.new (count - 1) (others at (waits count list.old)) }
{
    list.copy_within(at + 1..count, at);
    list[count - 1] = 0;
}

// The slot that is next by the order; the words that wait are lent alone.
pub fn next_slot(order: Order, list: &[i32]) -> SlotId
    requires { 0 < length list.now }
    ensures { NextBy order (map nat_abs list.now) result.0 }
{
    SlotId(words::number_at(list, next_place(order, list.len())))
}

// Takes the slot that is next by the order.
pub fn take_slot(order: Order, list: &mut [i32], count: usize) -> SlotId
    requires { Stored list.old count (waits count list.old) × (0 < count) }
    ensures { TakenFrom order (waits count list.old) result.0 list.new (count - 1) }
{
    let at = next_place(order, count);
    let slot = SlotId(words::number_at(list, at));
    take_out(list, count, at);
    slot
}

// Takes the slot out of the waitlist, if it is on it.
fn remove(list: &mut [i32], count: usize, slot: SlotId) -> usize
    requires { Stored list.old count (waits count list.old) × Distinct (waits count list.old) × (slot.0 + 1 < index_limit) }
    ensures { Stored list.new result (without slot.0 (waits count list.old)) }
{
    let word = slot_word(slot);
    match list[..count].iter().position(|x| *x == word) {
        Some(at) => {
            take_out(list, count, at);
            count - 1
        }
        None => count,
    }
}

// The slot joins the waitlist at its front.
fn prepend(list: &mut [i32], count: usize, slot: SlotId) -> usize
    requires { Stored list.old count (waits count list.old) × (count < length list.old) × (slot.0 + 1 < index_limit) }
    ensures { Stored list.new result (slot.0 ∷ waits count list.old) }
{
    list.copy_within(..count, 1);
    list[0] = slot_word(slot);
    count + 1
}

// The slot goes back, or is moved, to the place that is taken next.
pub fn put_back(order: Order, list: &mut [i32], count: usize, slot: SlotId) -> usize
    requires { Admits list.old count slot.0 }
    ensures { Stored list.new result (put_back order slot.0 (waits count list.old)) }
{
    let others = remove(list, count, slot);
    match order {
        Order::Old => prepend(list, others, slot),
        Order::New => append(list, others, slot),
    }
}
