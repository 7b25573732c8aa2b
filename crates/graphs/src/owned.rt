ghost use Rattle.std.specs.Prelude.{◌≡◌};

use std::marker::Model;

/// A list for the public field of a value that owns it: contracts see its items and nothing of its room.
#[derive(Debug, Drop)]
pub struct Owned<T> {
    items: Vec<T>,
}

impl<T> Model for Owned<T> {
    ghost use Rattle.std.specs.Prelude.{List};

    ghost Value = { List T };

    ghost view = { λ a. a.items.items };
}

impl<T> Owned<T> {
    /// The items of a vector, in its order. Takes no memory.
    pub fn from_vec(items: Vec<T>) -> Owned<T>
        ensures { result ≡ items.items }
    {
        Owned { items }
    }

    /// Gives the vector back. Takes no memory.
    pub fn into_vec(self) -> Vec<T>
        ensures { result.items ≡ self }
    {
        let Owned { items } = self;
        items
    }

    /// The items in order.
    pub fn as_slice(&self) -> &[T]
        ensures { result.now ≡ self.now }
    {
        self.items.as_slice()
    }
}
