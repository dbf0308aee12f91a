//! The manager and the hooks of a script, which share its answers.
use deadpool_managed::{Hook, NoHook};
use pool_scripts::{Answers, Kind, ScriptHook, ScriptManager};
use std::alloc::{AllocError, Global};
use std::rc::Rc;

/// The answers of a script.
pub type SharedAnswers = Rc<Answers, Global>;

pub type Told = ScriptManager<SharedAnswers>;

pub type ToldHook = ScriptHook<SharedAnswers>;

/// All is accepted.
pub fn no_answers(alloc: Global) -> Result<SharedAnswers, AllocError> {
    Ok(Rc::new(alloc, Answers::new(alloc))?)
}

/// A manager of these answers.
pub fn manager_of(answers: &SharedAnswers) -> Result<Told, AllocError> {
    Ok(ScriptManager::new(answers.clone()?))
}

/// The hook of these answers that is asked what is of this kind.
pub fn hook_of(answers: &SharedAnswers, kind: Kind) -> Result<Hook<NoHook, ToldHook>, AllocError> {
    Ok(Hook::async_fn(ScriptHook::new(answers.clone()?, kind)))
}
