//! Lists for contracts alone.

ghost use Rattle.std.specs.Prelude.{◌≡◌, List};
ghost use base.Fml.{ftrue};

use std::marker::{Model, PhantomData};

/// A list that contracts alone see: a value takes no space. An invariant of its owner ties it to what is stored. So the owner may
/// keep the items in another order, and may drop some.
pub struct Seen<T> {
    mark: PhantomData<*mut T>,
    /// The items.
    pub ghost items: { List T },
}

impl<T> Model for Seen<T> {
    ghost also_owns = { λ _. ftrue };
}

// It owns nothing, so it may go to another thread.
unsafe impl<T> Send for Seen<T> {}

impl<T> Drop for Seen<T> {
    fn drop(self) {
        let Seen { mark: _ } = self;
    }
}

impl<T> Seen<T> {
    /// The list that the caller picks.
    pub fn picked() -> Seen<T>
        ghost list: { List T }
        ensures { result.items ≡ list }
    {
        Seen { mark: PhantomData }
    }
}
