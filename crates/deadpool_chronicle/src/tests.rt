//! Two callers in threads of their own add to one history, and then a third one.
ghost use Rattle.std.specs.Prelude.{◌≡◌, ◌<◌, [], ◌∷◌};
ghost use Rattle.deadpool_chronicle.specs.History.{calls_by};

use crate::{Author, Beginning, Blank, Caller, Chronicle, Says};
use std::marker::Brand;
use std::sync::{Mutex, Wait};
use std::thread::{Threads, join};

// The entry is the number.
struct Number;

impl Says<(), u64, u64> for Number {
    ghost use Rattle.std.specs.Prelude.{◌≡◌};

    ghost entry = { λ _ reply _ e. e ≡ reply };
}

// The entry is a number that the call has not at hand: one below a limit.
struct Below;

impl Says<u64, (), u64> for Below {
    ghost use Rattle.std.specs.Prelude.{◌<◌};

    ghost entry = { λ limit _ _ e. e < limit };
}

type Shared<H> = Mutex<Author<u64, H>>;

fn note_two<H: Chronicle, R: Wait>(
    rt: &R,
    history: &Shared<H>,
    mut me: Caller<u64, H>,
    first: u64,
    second: u64,
) -> Caller<u64, H>
    requires { me.mine ≡ [] }
    ensures { result.mine ≡ first ∷ second ∷ [] }
{
    history
        .lock(rt)
        .note::<(), u64, Number>(&mut me, &(), &first);
    history
        .lock(rt)
        .note::<(), u64, Number>(&mut me, &(), &second);
    me
}

// Whichever came first, the history has of each what it added, once and in its order.
fn both<H: Chronicle + Send + Sync, R: Threads + Wait + Sync>(
    rt: &R,
    blank: Blank,
) -> (Author<u64, H>, Caller<u64, H>, Caller<u64, H>)
    requires { blank.names ≡ H.names }
    ensures one { calls_by result.1.number result.0.log ≡ 1 ∷ 2 ∷ [] }
    ensures two { calls_by result.2.number result.0.log ≡ 3 ∷ 4 ∷ [] }
{
    let (mut author, mut first) = blank.open::<u64, H>();
    let second = author.admit(&mut first);
    let third = author.admit(&mut first);
    let history = Mutex::new(author);
    let (mut one, mut two) = join(
        rt,
        || -> Caller<u64, H>
            requires { second.mine ≡ [] }
            ensures { result.mine ≡ 1 ∷ 2 ∷ [] }
        { note_two(rt, &history, second, 1, 2) },
        || -> Caller<u64, H>
            requires { third.mine ≡ [] }
            ensures { result.mine ≡ 3 ∷ 4 ∷ [] }
        { note_two(rt, &history, third, 3, 4) },
    );
    let mut author = history.into_inner();
    author.audit(&mut one);
    author.audit(&mut two);
    (author, one, two)
}

// An entry that stands for a value which nobody has.
fn note_below<H: Chronicle>(author: &mut Author<u64, H>, me: &mut Caller<u64, H>)
    requires { me.old.mine ≡ [] }
    ensures { (e : _) × ((e < 10) × (me.new.mine ≡ e ∷ [])) }
{
    author.note::<u64, (), Below>(me, &10, &());
}

// Once both are done, a third caller comes.
fn three<H: Chronicle + Send + Sync, R: Threads + Wait + Sync>(rt: &R, blank: Blank)
    requires { blank.names ≡ H.names }
{
    let (mut author, mut one, _two) = both::<H, R>(rt, blank);
    let mut third = author.admit(&mut one);
    note_below(&mut author, &mut third);
    let seen = third.seen();
    author.above(&seen.again());
}

#[test]
fn callers_share_a_history(rt: HostRuntime) {
    let blank = Blank::new();
    three::<Brand, _>(&rt, blank);
}

#[test]
fn tokens_take_no_bytes(rt: HostRuntime) {
    let held = (
        size_of::<Author<u64, Brand>>(),
        size_of::<Caller<u64, Brand>>(),
    );
    let known = (size_of::<Beginning<u64, Brand>>(), size_of::<Blank>());
    assert_eq!(rt; (held, known), ((0, 0), (0, 0)));
}
