//! Which pool an error came from.
use std::fmt;

/// An error under the name of the pool that it came from. It is printed as `pool orders: Pool has been closed`.
#[derive(Debug, Drop)]
pub struct Named<'a, E> {
    pub name: &'a str,
    pub error: E,
}

impl<E: fmt::Display> fmt::Display for Named<'_, E> {
    ghost use Rattle.deadpool_settings.specs.Texts.{named_text};

    ghost output = { named_text E.output };

    fn fmt<W: fmt::Write>(&self, f: &mut fmt::Formatter<W>) -> fmt::Result {
        let name = self.name;
        let error = &self.error;
        write!(f, "pool {name}: {error}")
    }
}
