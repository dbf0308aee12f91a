//! What calls and polls come to that are made while too little memory is left.

/// With how many amounts of memory a call is tried at most.
pub const TRIES: usize = 2_000;

/// What a call came to.
#[derive(Clone, Copy, Debug, PartialEq, Eq)]
pub enum Came {
    Refused,
    Made,
    /// Neither of them.
    Wrong,
}

impl Came {
    pub fn of<T: Drop, E: Drop>(called: Result<T, E>) -> Self {
        match called {
            Ok(_) => Came::Made,
            Err(_) => Came::Refused,
        }
    }

    pub fn of_some<T: Drop, E: Drop>(called: Result<Option<T>, E>) -> Self {
        match called {
            Ok(Some(_)) => Came::Made,
            Ok(None) => Came::Wrong,
            Err(_) => Came::Refused,
        }
    }
}

/// What a poll of a future came to.
#[derive(Clone, Copy, Debug, PartialEq, Eq)]
pub enum Polled {
    Pending,
    /// It found no memory.
    Refused,
    /// It gave an object, which was dropped then.
    Served,
    Failed,
}

impl Polled {
    /// What the call came to that was to wait.
    pub fn came(self) -> Came {
        match self {
            Polled::Pending => Came::Made,
            Polled::Refused => Came::Refused,
            Polled::Served | Polled::Failed => Came::Wrong,
        }
    }
}
