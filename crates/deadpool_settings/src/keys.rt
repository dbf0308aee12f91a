//! The keys that a configuration may have, and the first one that it has beside them.
ghost use Rattle.std.specs.Prelude.{◌≡◌, option_map};
ghost use Rattle.serde_json.specs.View.{view};
ghost use Rattle.deadpool_settings.specs.Keys.{has_key, unknown_key};

use serde_json::Value;

/// The objects that a configuration consists of.
#[derive(Clone, Copy)]
pub(crate) enum Section {
    /// A managed pool's.
    Managed,
    /// The timeouts in it.
    Timeouts,
    /// An unmanaged pool's.
    Unmanaged,
}

impl Section {
    /// Whether such an object may have this key.
    pub(crate) fn has(self, key: &str) -> bool
        ensures { result ≡ has_key self key.now }
    {
        match self {
            Section::Managed => is_managed_key(key),
            Section::Timeouts => matches!(key, "wait" | "create" | "recycle"),
            Section::Unmanaged => matches!(key, "max_size" | "timeout" | "max_waiting"),
        }
    }

    /// The first key of an object, in the order of the bytes, that it may not have.
    pub(crate) fn unknown_key(self, value: &Value) -> Option<&str>
        ensures { option_map (λ key. key.now) result
            ≡ unknown_key (has_key self) (view value.now) }
    {
        let members = value.as_object()?;
        for (key, _member) in members.iter() {
            if !self.has(key.as_str()) {
                return Some(key.as_str());
            }
        }
        None
    }
}

fn is_managed_key(key: &str) -> bool
    ensures { result ≡ has_key Section.Managed key.now }
{
    matches!(
        key,
        "max_size" | "timeouts" | "queue_mode" | "min_idle" | "max_waiting"
    )
}
