//! Where a configuration is at fault, and why. Each text is the `output` of its `Display`.
ghost use Rattle.std.specs.Prelude.{◌≡◌, ◌++◌, Some, IfOk, IfErr};
ghost use Rattle.serde_json.specs.Find.{get};
ghost use Rattle.serde_json.specs.Read.{read as read_text};
ghost use Rattle.serde_json.specs.View.{view};
ghost use Rattle.deadpool_settings.specs.Faults.{IsUnknownAt, IsUnread, number_why};
ghost use Rattle.deadpool_settings.specs.Texts.{why_text};

use serde_json::Value;
use std::alloc::Global;
use std::borrow::CowStr;
use std::fmt;

/// What is wrong with a key of a configuration, or with what stands there.
#[derive(Clone, Copy, Debug, PartialEq, Eq)]
pub enum Why {
    /// The value is no object.
    NoObject,
    /// The key has to be there.
    Missing,
    /// The value is no number.
    NoNumber,
    /// The value is a number, and no whole one that a `usize` can have.
    OutOfRange,
    /// The value is neither null nor a duration.
    NoDuration,
    /// The value is not the name of a queue mode.
    NoQueueMode,
    /// No pool has such a key.
    Unknown,
}

impl Why {
    // What its `Display` writes.
    fn text(self) -> &'static str
        ensures { result.now ≡ why_text self }
    {
        match self {
            Why::NoObject => "no object",
            Why::Missing => "missing",
            Why::NoNumber => "no number",
            Why::OutOfRange => "no whole number from 0 to 18446744073709551615",
            Why::NoDuration => "no duration",
            Why::NoQueueMode => "neither Fifo nor Lifo",
            Why::Unknown => "no key of a pool",
        }
    }
}

impl fmt::Display for Why {
    ghost use Rattle.std.specs.Prelude.{Some};
    ghost use Rattle.deadpool_settings.specs.Texts.{why_text};

    ghost output = { λ why. Some (why_text why) };

    fn fmt<W: fmt::Write>(&self, f: &mut fmt::Formatter<W>) -> fmt::Result {
        f.write_str(self.text())
    }
}

/// The first fault of a configuration that is read strictly.
#[derive(Debug, Drop)]
pub struct Fault {
    /// The key, behind that of the object that it is in and a dot: `timeouts.wait`. It is empty for
    /// the configuration itself.
    pub path: CowStr<'static>,
    /// What is wrong there.
    pub why: Why,
}

/// Path and reason, as in `timeouts.wait: no duration`; for the configuration itself the reason.
impl fmt::Display for Fault {
    ghost use Rattle.std.specs.Prelude.{Some};
    ghost use Rattle.deadpool_settings.specs.Texts.{fault_text};

    ghost output = { λ fault. Some (fault_text fault) };

    fn fmt<W: fmt::Write>(&self, f: &mut fmt::Formatter<W>) -> fmt::Result {
        let path = self.path.as_str();
        let why = self.why;
        if path.is_empty() {
            return write!(f, "{why}");
        }
        write!(f, "{path}: {why}")
    }
}

/// Why a value or a text was not read as a configuration.
#[derive(Debug, Drop)]
pub enum StrictError {
    /// It has a fault.
    Fault(Fault),
    /// The text is not JSON.
    NotJson(serde_json::Error),
    /// The text, or the path of an unknown key, found no memory.
    OutOfMemory,
}

impl fmt::Display for StrictError {
    ghost use Rattle.deadpool_settings.specs.Texts.{strict_error_text};

    ghost output = { strict_error_text };

    fn fmt<W: fmt::Write>(&self, f: &mut fmt::Formatter<W>) -> fmt::Result {
        match self {
            StrictError::Fault(fault) => write!(f, "{fault}"),
            StrictError::NotJson(cause) => write!(f, "{cause}"),
            StrictError::OutOfMemory => f.write_str("Out of memory"),
        }
    }
}

/// An unknown key of the object that this leads to, or no memory for its path.
pub(crate) fn unknown(alloc: Global, within: &str, key: &str) -> StrictError
    ensures { IsUnknownAt (within.now ++ key.now) result }
{
    match format!(in alloc; "{within}{key}") {
        Ok(path) => StrictError::Fault(Fault {
            path: CowStr::Owned(path),
            why: Why::Unknown,
        }),
        Err(_) => StrictError::OutOfMemory,
    }
}

/// Why what stands at a key of an object is no number that a `usize` can have.
pub(crate) fn number_why(value: &Value, key: &str) -> Why
    ensures { result ≡ number_why (get key.now (view value.now)) }
{
    match value.get(key) {
        Some(found) if found.is_number() => Why::OutOfRange,
        _ => Why::NoNumber,
    }
}

/// The value that a text is in JSON.
pub(crate) fn parsed(alloc: Global, text: &str) -> Result<Value, StrictError>
    ensures ok { IfOk result (λ value. read_text text.now ≡ Some (view value)) }
    ensures err { IfErr result (IsUnread (read_text text.now)) }
{
    match Value::from_str(alloc, text) {
        Ok(value) => Ok(value),
        Err(cause) if cause.is_memory() => Err(StrictError::OutOfMemory),
        Err(cause) => Err(StrictError::NotJson(cause)),
    }
}
