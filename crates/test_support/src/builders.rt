//! Builders of pools.
use std::test::Fail;

/// The builder with one more hook, if there was memory for it.
pub fn added<B: Drop, H: Drop>(builder: Result<B, (B, H)>) -> Result<B, Fail> {
    match builder {
        Ok(builder) => Ok(builder),
        Err(_) => Err(Fail::new("no memory for a hook")),
    }
}
