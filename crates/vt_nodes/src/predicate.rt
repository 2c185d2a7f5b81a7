//! Tests of items.

ghost use Rattle.std.specs.Prelude.{◌≡◌, Bool};
ghost use Rattle.std.specs.Option.{option_copied};
ghost use Rattle.vt_nodes.specs.inside.First.{item_fails};

/// A test of items, such as whether a letter has a certain stamp.
pub trait Predicate<T> {
    /// Whether this item passes: what contracts see of the test.
    ghost passes: { Self → T → Bool };

    /// Whether the item passes.
    fn test(&self, item: &T) -> bool
        ensures { result ≡ passes self.now item.now };
}

/// Whether there is an item, and it fails the test.
pub(crate) fn fails<T, P: Predicate<T>>(test: &P, item: Option<&T>) -> bool
    ensures { result ≡ item_fails (P.passes test.now) (option_copied item.entry) }
{
    match item {
        Some(item) => !test.test(item),
        None => false,
    }
}
