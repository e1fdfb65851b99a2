// Ranges of list items, moved without allocation.
ghost use Rattle.std.specs.Prelude.{◌≡◌, ◌≤◌, ◌+◌, ◌++◌, [], vec_len, vec_capacity};
ghost use Rattle.std.specs.List.{remove_range, splice};

/// Moves the items of `other` to the end of `list`, which has room for them.
pub fn move_after<T>(list: &mut Vec<T>, other: &mut Vec<T>)
    requires { vec_len list.old + vec_len other.old ≤ vec_capacity list.old }
    ensures list { list.new.items ≡ list.old.items ++ other.old.items }
    ensures other { other.new.items ≡ [] }
{
    let _moved = list.append(other);
}

/// Removes the items in `start..end` from the list, as far as it has them.
pub fn cut<T: Drop>(list: &mut Vec<T>, start: usize, end: usize)
    requires { start ≤ end }
    ensures items { list.new.items ≡ remove_range list.old.items start end }
    ensures room { vec_capacity list.new ≡ vec_capacity list.old }
{
    let count = list.len();
    list.drain(start.min(count)..end.min(count));
}

/// Replaces the items in `start..end` by those of `other`, as far as the list has them. The list has
/// room for all of them.
pub fn put_in<T: Drop>(list: &mut Vec<T>, start: usize, end: usize, other: Vec<T>)
    requires order { start ≤ end }
    requires room { vec_len list.old + vec_len other ≤ vec_capacity list.old }
    ensures { list.new.items ≡ splice list.old.items start end other.items }
{
    let mut other = other;
    let count = other.len();
    cut(list, start, end);
    let start = start.min(list.len());
    move_after(list, &mut other);
    list[start..].rotate_right(count);
}
