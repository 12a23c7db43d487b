//! Replacement of a part of a vector in place, without an allocation.

ghost use Rattle.std.specs.Prelude.{◌≡◌, ◌++◌, ◌+◌, ◌-◌, ◌≤◌, [], length, take, drop, vec_capacity, vec_len};

/// Replaces the `cut` items from `at` on by the items of `put`, and moves the replaced items to the empty vector
/// `gone`. Allocates no memory.
pub(crate) fn exchange<T: Drop>(
    items: &mut Vec<T>,
    at: usize,
    cut: usize,
    put: &mut Vec<T>,
    gone: &mut Vec<T>,
)
    requires places { at + cut ≤ length items.old.items }
    requires room { vec_len items.old + vec_len put.old ≤ vec_capacity items.old }
    requires hole { cut ≤ vec_capacity gone.old }
    requires empty { gone.old.items ≡ [] }
    ensures items { items.new.items ≡ take at items.old.items ++ (put.old.items ++ drop (at + cut) items.old.items) }
    ensures gone { gone.new.items ≡ take cut (drop at items.old.items) }
{
    let behind = items.len() - (at + cut);
    items.rotate_left(at + cut);
    move_last(items, cut, gone);
    let _ = items.append(put);
    items.rotate_left(behind);
}

// Moves the last `count` items to an empty vector with room for them.
fn move_last<T: Drop>(from: &mut Vec<T>, count: usize, to: &mut Vec<T>)
    requires within { count ≤ vec_len from.old }
    requires room { count ≤ vec_capacity to.old }
    requires empty { to.old.items ≡ [] }
    ensures rest { from.new.items ≡ take (vec_len from.old - count) from.old.items }
    ensures moved { to.new.items ≡ drop (vec_len from.old - count) from.old.items }
    ensures capacity { vec_capacity from.new ≡ vec_capacity from.old }
{
    let left = from.len() - count;
    while from.len() > left {
        if let Some(item) = from.pop() {
            let _ = to.push(item);
        }
    }
    to.reverse();
}
