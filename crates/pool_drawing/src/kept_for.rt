//! For which gets idle objects are kept.
use crate::Whereabouts;
use pool_shapes::marks::{Place, Shape, Stage};
use std::alloc::{AllocError, Global};

/// Which idle object is kept for each get that has a place, and not yet an object.
#[derive(Drop)]
pub struct KeptFor {
    // By the party's number: the lane of the object.
    objects: Vec<Option<usize>>,
}

impl KeptFor {
    /// None, for no party.
    pub fn new(alloc: Global) -> Self {
        KeptFor {
            objects: Vec::new(alloc),
        }
    }

    /// Notes at each object for which get it is kept, after a move that has left parties and objects so. It stays so
    /// as long as the object is idle and the get has nothing but its place. Then the first of the others that are idle
    /// is kept for the first get that has none.
    pub fn follow(
        &mut self,
        shapes: &[Shape],
        objects: &mut [Whereabouts],
    ) -> Result<(), AllocError> {
        for _new in self.objects.len()..shapes.len() {
            self.objects.push(None)?;
        }
        keep_on(&mut self.objects, shapes, objects);
        keep_more(&mut self.objects, shapes, objects);
        Ok(())
    }
}

// What was kept, as far as it still is.
fn keep_on(kept: &mut [Option<usize>], shapes: &[Shape], objects: &mut [Whereabouts]) {
    for party in 0..kept.len().min(shapes.len()) {
        if let Some(at) = kept[party] {
            if has_only_a_place(shapes[party]) && is_free_at(objects, at) {
                keep(objects, at, party);
            } else {
                kept[party] = None;
            }
        }
    }
}

// What is kept besides.
fn keep_more(kept: &mut [Option<usize>], shapes: &[Shape], objects: &mut [Whereabouts]) {
    let mut next = 0usize;
    for party in 0..kept.len().min(shapes.len()) {
        if has_only_a_place(shapes[party]) && kept[party].is_none() {
            let Some(at) = first_free(objects, next) else {
                return;
            };
            kept[party] = Some(at);
            keep(objects, at, party);
            next = at.saturating_add(1);
        }
    }
}

// Whether it is of a get that has a place, and has not got an object by it. (An add brings one.)
fn has_only_a_place(shape: Shape) -> bool {
    match shape.stage {
        Stage::Granted | Stage::Going => shape.object.is_none(),
        _ => false,
    }
}

// The first object from here on that is idle, and is not kept.
fn first_free(objects: &[Whereabouts], from: usize) -> Option<usize> {
    for at in from..objects.len() {
        if is_free(objects[at]) {
            return Some(at);
        }
    }
    None
}

fn is_free_at(objects: &[Whereabouts], at: usize) -> bool {
    at < objects.len() && is_free(objects[at])
}

fn is_free(object: Whereabouts) -> bool {
    object.place == Place::Idle && object.kept_for.is_none()
}

fn keep(objects: &mut [Whereabouts], at: usize, party: usize) {
    if at < objects.len() {
        objects[at] = Whereabouts {
            place: Place::Idle,
            kept_for: Some(party),
        };
    }
}
