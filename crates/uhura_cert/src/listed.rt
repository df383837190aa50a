//! Lists that contracts see as such.
use std::marker::Model;

/// The things of a list, in its order.
#[derive(Drop)]
pub struct Listed<T> {
    things: Vec<T>,
}

impl<T> Model for Listed<T> {
    ghost use Rattle.std.specs.Prelude.{List};

    ghost Value = { List T };

    ghost view = { λ l. l.things.items };
}

impl<T> Listed<T> {
    ghost use Rattle.std.specs.Prelude.{◌≡◌};

    /// The list of a `Vec`. It takes no memory.
    pub fn from_vec(things: Vec<T>) -> Listed<T>
        ensures { result ≡ things.items }
    {
        Listed { things }
    }

    /// The things as a slice.
    pub fn as_slice(&self) -> &[T]
        ensures { result.now ≡ self.now }
    {
        self.things.as_slice()
    }
}
