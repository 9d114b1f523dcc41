//! Insertion into a list.
ghost use Rattle.std.specs.Prelude.{◌≡◌, ◌≤◌, ◌<◌, ◌+◌};
ghost use Rattle.std.specs.List.{insert};
ghost use Rattle.std.specs.Vec.{vec_capacity, vec_len};

/// Inserts at a place, within reserved capacity, as push and rotate: that compiles to one `memmove`, while
/// `Vec::insert` moves the elements one by one.
pub(crate) fn insert_at<T>(items: &mut Vec<T>, at: usize, item: T)
    requires within { at ≤ vec_len items.old }
    requires headroom { vec_len items.old < vec_capacity items.old }
    ensures items { items.new.items ≡ insert items.old.items at item }
    ensures len { vec_len items.new ≡ vec_len items.old + 1 }
    ensures capacity { vec_capacity items.new ≡ vec_capacity items.old }
{
    items.push_reserved(item);
    items[at..].rotate_right(1);
}
