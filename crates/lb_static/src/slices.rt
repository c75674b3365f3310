//! Parts of slices.

ghost use Rattle.std.specs.Prelude.{◌≡◌, take, drop};

/// The items from place `first` on, at most `count`.
pub fn part_of<T>(items: &[T], first: usize, count: usize) -> &[T]
    ensures { result.now ≡ take count (drop first items.now) }
{
    let rest = &items[first.min(items.len())..];
    &rest[..count.min(rest.len())]
}
