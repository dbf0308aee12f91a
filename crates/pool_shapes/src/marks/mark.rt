//! What a lane shows over some columns.
ghost use Rattle.std.specs.Prelude.{◌≡◌, ◌↔◌, IsTrue};

/// What a lane may show.
pub trait Shown: Copy {
    /// Whether it is the same as another.
    fn is_same(self, other: Self) -> bool
        ensures { IsTrue result ↔ (self ≡ other) };
}

/// Says what its lane shows from one column up to, but not including, another.
#[derive(Clone, Copy, Debug)]
pub struct Mark<T> {
    pub shows: T,
    pub from: usize,
    pub to: usize,
}
