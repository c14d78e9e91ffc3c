//! Steps that bring a heap in order.
ghost use Rattle.std.specs.Prelude.{◌≡◌, ◌+◌, ◌*◌, ◌<◌, ℕ, IsPermutation, length, vec_len, vec_capacity};
ghost use Rattle.react_timers.specs.Ordered.{IsChild, KeepsBelow, IsOrdered, IsOrderedAbove};

use crate::entry::Entry;

/// Moves the entry at `at` up, until its parent is no later.
pub(crate) fn rise(items: &mut Vec<Entry>, mut at: usize)
    requires within { at < vec_len items.old }
    requires above { IsOrderedAbove items.old.items at (vec_len items.old) }
    ensures ordered { IsOrdered items.new.items 0 (vec_len items.new) }
    ensures moved { IsPermutation items.old.items items.new.items }
    ensures len { vec_len items.new ≡ vec_len items.old }
    ensures capacity { vec_capacity items.new ≡ vec_capacity items.old }
{
    while at > 0 {
        let parent = (at - 1) / 2;
        let entry = items[at];
        let over = items[parent];
        if !entry.is_sooner(&over) {
            return;
        }
        items.swap(at, parent);
        at = parent;
    }
}

/// The sooner child of the entry at `at`.
fn sooner_child(items: &[Entry], at: usize) -> usize
    requires { at * 2 + 1 < length items.now }
    ensures child { IsChild at result × (result < length items.now) }
    ensures best { (k : ℕ) → IsChild at k → k < length items.now → KeepsBelow items.now result k }
{
    let left = 2 * at + 1;
    let right = left + 1;
    if right == items.len() {
        return left;
    }
    let entry = items[right];
    let other = items[left];
    if entry.is_sooner(&other) { right } else { left }
}

/// Moves the entry at `at` down, until no child is sooner.
pub(crate) fn sink(items: &mut Vec<Entry>, mut at: usize)
    requires below { IsOrdered items.old.items (at + 1) (vec_len items.old) }
    ensures ordered { IsOrdered items.new.items at (vec_len items.new) }
    ensures moved { IsPermutation items.old.items items.new.items }
    ensures len { vec_len items.new ≡ vec_len items.old }
    ensures capacity { vec_capacity items.new ≡ vec_capacity items.old }
{
    while at < items.len() / 2 {
        let child = sooner_child(items, at);
        let entry = items[child];
        let over = items[at];
        if !entry.is_sooner(&over) {
            return;
        }
        items.swap(at, child);
        at = child;
    }
}

/// Brings all entries in order, in linear time.
pub(crate) fn order(items: &mut Vec<Entry>)
    ensures ordered { IsOrdered items.new.items 0 (vec_len items.new) }
    ensures moved { IsPermutation items.old.items items.new.items }
    ensures len { vec_len items.new ≡ vec_len items.old }
    ensures capacity { vec_capacity items.new ≡ vec_capacity items.old }
{
    let mut at = items.len() / 2;
    while at > 0 {
        at -= 1;
        sink(items, at);
    }
}
