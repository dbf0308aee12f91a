//! The colours of a story, in light and in the dark, and what stages and places are called.
use crate::{Kind, Whereabouts};
use pool_shapes::marks::{Place, Stage};

/// Colours that differ in lightness, so that they can be told apart in print and by those who see no red or green.
pub const STYLE: &str = "<style>
.bg{fill:#fff}
text{font:16px system-ui,-apple-system,'Segoe UI',Roboto,'DejaVu Sans',sans-serif;fill:#14212b}
.T{font-size:24px;font-weight:700}
.s{fill:#55626c}
.l{text-anchor:end}
.b{font-size:15px;text-anchor:middle;fill:#14212b;stroke-width:4px;stroke-linejoin:round;paint-order:stroke}
.b.h{fill:#fff;stroke:#0b5c8f}
.b.q{stroke:#f4d58d}
.b.g{stroke:#e69f00}
.b.c{stroke:#8fd0f5}
.b.r{stroke:#7cc9a5}
.b.k{stroke:#e9b9d5}
.b.i,.b.f{stroke:#cfd8de}
.b.n{stroke:#fff}
.m{font-size:15px;text-anchor:middle;fill:#55626c}
.e{font-size:15px;fill:#b3261e;stroke:#fff;stroke-width:4px;stroke-linejoin:round;paint-order:stroke}
.x{stroke:#b3261e;stroke-width:2.5;fill:none}
.a{stroke:#8a949c;fill:none}
.d{stroke:#b3261e;stroke-dasharray:2 4;fill:none}
.L{stroke:#b3261e;stroke-width:2;stroke-dasharray:6 4;fill:none}
.n{fill:none;stroke:#8a949c}
rect.h,path.h{fill:#0b5c8f}
rect.q,path.q{fill:#f4d58d}
rect.g,path.g{fill:#e69f00}
rect.c{fill:#8fd0f5}
rect.r{fill:#7cc9a5}
rect.k{fill:#e9b9d5}
rect.i,path.i{fill:#cfd8de}
rect.f{fill:#cfd8de;stroke:#e69f00;stroke-width:2}
.w{stroke:#14212b;stroke-width:2;fill:none}
.W{fill:#14212b}
@media (prefers-color-scheme:dark){
.bg{fill:#0d1117}
text,.W{fill:#e6edf3}
.s,.m{fill:#9aa7b2}
.b{fill:#0d1117}
.b.h{fill:#fff;stroke:#1f6fa8}
.b.i,.b.f{fill:#e6edf3;stroke:#44515c}
.b.n{fill:#e6edf3;stroke:#0d1117}
rect.h,path.h{fill:#1f6fa8}
rect.i,rect.f,path.i{fill:#44515c}
.e{fill:#ff8a80;stroke:#0d1117}
.x,.d,.L{stroke:#ff8a80}
.w{stroke:#e6edf3}
}
</style>
";

/// The class of a stage that has a bar.
pub fn class_of(stage: Stage) -> &'static str {
    match stage {
        Stage::New => "n",
        Stage::Queued => "q",
        Stage::Granted | Stage::Going => "g",
        Stage::Creating => "c",
        Stage::Recycling => "r",
        Stage::Checking => "k",
        Stage::Holding => "h",
        Stage::Ended | Stage::Cancelled => "",
    }
}

/// What a bar of this stage says in words.
pub fn words_of(kind: Kind, stage: Stage) -> &'static str {
    match stage {
        Stage::New => "not asked yet",
        Stage::Queued => "waits",
        Stage::Granted if kind == Kind::Unmanaged => "may go on",
        Stage::Granted | Stage::Going => "has a place",
        Stage::Creating => "creates",
        Stage::Recycling => "prepares",
        Stage::Checking => "checks",
        Stage::Holding => "object",
        Stage::Ended | Stage::Cancelled => "",
    }
}

/// Whether it names its object too.
pub fn names_object(stage: Stage) -> bool {
    match stage {
        Stage::Recycling | Stage::Checking | Stage::Holding => true,
        _ => false,
    }
}

/// The class of an object that has a bar.
pub fn class_of_object(object: Whereabouts) -> &'static str {
    match object.place {
        Place::Offered => "q",
        Place::Idle if object.kept_for.is_some() => "f",
        Place::Idle => "i",
        Place::Prepared => "r",
        Place::Out => "h",
        Place::GivenUp => "",
    }
}

/// What a bar of this place says.
pub fn words_of_place(place: Place) -> &'static str {
    match place {
        Place::Offered => "offered",
        Place::Idle => "idle",
        Place::Prepared => "prepared",
        Place::Out => "out",
        Place::GivenUp => "",
    }
}
