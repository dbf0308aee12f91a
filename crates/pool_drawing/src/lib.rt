//! Draws a run of a script, or a journal, as a picture in SVG: the story of the run in one chart and a lane for each
//! party and each object.
#![tactic(auto)]

mod event;
mod journal;
mod kept_for;
mod letters;
mod line;
mod objects;
mod picture;
mod script;
mod stop;
mod story;
mod svg;

pub use event::{Event, Owner, Why};
pub use journal::draw_journal;
pub use line::Line;
pub use objects::Whereabouts;
pub use picture::{Arrow, Column, Kind, MOST_COLUMNS, MOST_OBJECTS, Picture, Stock};
pub use script::draw_script;
pub use stop::{Stop, is_out_of_memory};
pub use svg::Svg;
