//! The tables of a trial: lists with room for what is appended, and lists by rising number.
ghost use Rattle.std.specs.Prelude.{◌≡◌, ◌==◌, ◌<◌, ◌≤◌, ◌+◌, ◌++◌, ◌∷◌, [], nat_lt, vec_len, vec_capacity};
ghost use Rattle.std.specs.List.{position};
ghost use Rattle.deadpool_parts.specs.Numbered.{with_numbered, find_numbered, without_numbered};

/// What has a number.
pub trait Numbered {
    ghost use Rattle.std.specs.Prelude.{ℕ};

    ghost number_of: { Self → ℕ };

    fn number(&self) -> usize
        ensures { result ≡ number_of self.now };
}

/// Appends an entry. There has to be room for it.
pub fn append<T: Drop>(entries: &mut Vec<T>, entry: T)
    requires { vec_len entries.old < vec_capacity entries.old }
    ensures items { entries.new.items ≡ entries.old.items ++ entry ∷ [] }
    ensures len { vec_len entries.new ≡ vec_len entries.old + 1 }
    ensures capacity { vec_capacity entries.old ≤ vec_capacity entries.new }
{
    match entries.push(entry) {
        Ok(()) => {}
        Err(_) => unreachable!(),
    }
}

/// Where the first that has the number is.
pub fn index_of<T: Numbered>(items: &Vec<T>, number: usize) -> Option<usize>
    ensures { result ≡ position (λ item. T.number_of item == number) items.now.items }
{
    items.iter().position(|item| item.number() == number)
}

// Where the first with a greater number is.
fn index_above<T: Numbered>(items: &Vec<T>, number: usize) -> Option<usize>
    ensures { result ≡ position (λ item. nat_lt number (T.number_of item)) items.now.items }
{
    items.iter().position(|item| item.number() > number)
}

/// Takes out the first that has the number, if there is one.
pub fn take_out<T: Numbered + Drop>(items: &mut Vec<T>, number: usize) -> Option<T>
    ensures item { result ≡ find_numbered T.number_of number items.old.items }
    ensures items { items.new.items ≡ without_numbered T.number_of number items.old.items }
    ensures capacity { vec_capacity items.new ≡ vec_capacity items.old }
{
    match index_of(items, number) {
        Some(at) => Some(items.remove(at)),
        None => None,
    }
}

/// Puts one in before the first with a greater number. There has to be room for it.
pub fn put_in<T: Numbered + Drop>(items: &mut Vec<T>, item: T)
    requires { vec_len items.old < vec_capacity items.old }
    ensures items { items.new.items ≡ with_numbered T.number_of item items.old.items }
    ensures capacity { vec_capacity items.old ≤ vec_capacity items.new }
{
    let at = index_above(items, item.number()).unwrap_or(items.len());
    match items.insert(at, item) {
        Ok(()) => {}
        Err(_) => unreachable!(),
    }
}
