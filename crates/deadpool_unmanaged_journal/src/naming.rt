//! What stands for an object in a journal.
ghost use Rattle.std.specs.Prelude.{◌≡◌};

use deadpool_parts::tables::Numbered;

/// What stands for an object of type `T` in a journal.
pub trait Naming<T> {
    type Name: Copy + Drop;

    ghost name_of: { T → Self.Name };

    fn name(value: &T) -> Self::Name
        ensures { result ≡ name_of value.now };
}

/// What stands for an object that has no name. It is printed as `_`.
#[derive(Clone, Copy, Debug, PartialEq, Eq)]
pub struct Unnamed;

/// Objects have no names. An entry says whether one was taken or given.
pub struct Nameless;

impl<T> Naming<T> for Nameless {
    type Name = Unnamed;

    ghost name_of = { λ _. record {} };

    fn name(_value: &T) -> Unnamed {
        Unnamed
    }
}

/// Each object has its number as its name.
pub struct ByNumber;

impl<T: Numbered> Naming<T> for ByNumber {
    type Name = usize;

    ghost name_of = { T.number_of };

    fn name(value: &T) -> usize {
        value.number()
    }
}
