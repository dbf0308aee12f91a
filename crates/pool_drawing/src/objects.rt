//! Where each object of a trial is.
use crate::{MOST_OBJECTS, Stock, Stop};
use deadpool_managed::{AsyncHook, Manager, SyncHook};
use deadpool_trial::{Trial, unmanaged};
use pool_shapes::marks::{Place, Shape, Shown, Stage};

/// Where an object is, and for which get it is kept, if it is idle and is kept for one.
#[derive(Clone, Copy, Debug, PartialEq, Eq)]
pub struct Whereabouts {
    pub place: Place,
    pub kept_for: Option<usize>,
}

impl Whereabouts {
    /// There, and not kept.
    pub fn of(place: Place) -> Whereabouts {
        Whereabouts {
            place,
            kept_for: None,
        }
    }
}

impl Shown for Whereabouts {
    fn is_same(self, other: Whereabouts) -> bool {
        self == other
    }
}

/// Puts where each object is in place of what was there: that of the first number first. An object of which nothing is
/// seen any more was given up, and none is kept. Gives what there is.
pub fn show_objects<M: Manager, F: SyncHook<M>, A: AsyncHook<M>, C: Drop>(
    trial: &Trial<M, F, A, C>,
    first: usize,
    shapes: &[Shape],
    places: &mut Vec<Whereabouts>,
) -> Result<Stock, Stop> {
    clear(places);
    let mut idle = 0usize;
    for at in 0..usize::MAX {
        match trial.idle_at(at) {
            Some(number) => put(places, first, number, Place::Idle)?,
            None => break,
        }
        idle = at.saturating_add(1);
    }
    let prepared = show_held(first, shapes, places)?;
    let mut out = 0usize;
    for at in 0..usize::MAX {
        match trial.out_at(at) {
            Some(number) => put(places, first, number, Place::Out)?,
            None => break,
        }
        out = at.saturating_add(1);
    }
    let counts = trial.counts();
    Ok(Stock {
        out: out.saturating_add(prepared),
        idle,
        granted: counts.granted,
        waiting: counts.waiting,
    })
}

/// The same for an unmanaged pool, whose first object has the number 0.
pub fn show_unmanaged_objects<T: Drop>(
    trial: &unmanaged::Trial<T>,
    shapes: &[Shape],
    places: &mut Vec<Whereabouts>,
) -> Result<Stock, Stop> {
    clear(places);
    let mut idle = 0usize;
    for at in 0..usize::MAX {
        match trial.idle_at(at) {
            Some(number) => put(places, 0, number, Place::Idle)?,
            None => break,
        }
        idle = at.saturating_add(1);
    }
    let _offered = show_held(0, shapes, places)?;
    let mut out = 0usize;
    for at in 0..usize::MAX {
        match trial.out_at(at) {
            Some(number) => put(places, 0, number, Place::Out)?,
            None => break,
        }
        out = at.saturating_add(1);
    }
    let counts = trial.counts();
    Ok(Stock {
        out,
        idle,
        granted: counts.gets_granted.saturating_add(counts.adds_granted),
        waiting: counts.gets_waiting.saturating_add(counts.adds_waiting),
    })
}

fn clear(places: &mut Vec<Whereabouts>) {
    for place in places {
        *place = Whereabouts::of(Place::GivenUp);
    }
}

// The objects that parties have. Gives how many of them are prepared or offered.
fn show_held(first: usize, shapes: &[Shape], places: &mut Vec<Whereabouts>) -> Result<usize, Stop> {
    let mut held = 0usize;
    for shape in shapes {
        if let Some(number) = shape.object {
            let place = place_with(shape.stage);
            if place != Place::Out {
                held = held.saturating_add(1);
            }
            put(places, first, number, place)?;
        }
    }
    Ok(held)
}

// Where the object of a party is that stands so.
fn place_with(stage: Stage) -> Place {
    match stage {
        Stage::New | Stage::Queued | Stage::Granted => Place::Offered,
        Stage::Holding => Place::Out,
        _ => Place::Prepared,
    }
}

// The object with this number is there.
fn put(
    places: &mut Vec<Whereabouts>,
    first: usize,
    number: usize,
    place: Place,
) -> Result<(), Stop> {
    let at = number.saturating_sub(first);
    if at >= MOST_OBJECTS {
        return Err(Stop::TooMuch);
    }
    for _new in places.len()..at.saturating_add(1) {
        places.push(Whereabouts::of(Place::GivenUp))?;
    }
    if at < places.len() {
        places[at] = Whereabouts::of(place);
    }
    Ok(())
}
