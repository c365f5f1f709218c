//! Values that are held while something else is read.
ghost use Rattle.std.specs.Prelude.{◌≡◌};

use std::marker::Model;

/// A value that is dropped by one call, however many parts it has. Contracts see the value.
pub struct Held<T: Drop> {
    value: T,
}

impl<T: Drop> Drop for Held<T> {
    fn drop(self) {
        let Held { value: _ } = self;
    }
}

impl<T: Drop> Model for Held<T> {
    ghost Value = { T };

    ghost coded = { T.code };

    ghost view = { λ h. h.value };
}

impl<T: Drop> Held<T> {
    pub fn new(value: T) -> Held<T>
        ensures { result ≡ value }
    {
        Held { value }
    }

    pub fn get(&self) -> &T
        ensures { result.now ≡ self.now }
    {
        &self.value
    }

    pub fn release(self) -> T
        ensures { result ≡ self }
    {
        let Held { value } = self;
        value
    }
}
