//! The files that an image may have.
ghost use Rattle.std.specs.Prelude.{◌≡◌, ◌↔◌, IfNone, IfSome, IsTrue};
ghost use Rattle.sim_stops.specs.WantedFiles.{AreWanted};

use crate::left::Difference;
use store::Line;

/// The files behind each beginning of a history, and of how many entries a beginning may be there: least and most.
#[derive(Clone, Copy)]
pub struct Wanted<'a> {
    pub files: &'a [Vec<Line>],
    pub least: usize,
    pub most: usize,
}

impl Wanted<'_> {
    /// How files differ from those of the least beginning, where they are of none.
    pub fn differs(&self, found: &[Line]) -> Option<Difference>
        ensures same { IfNone result (AreWanted self.now.files.now self.now.least self.now.most found.now) }
        ensures other { IfSome result
            (λ _. ¬ AreWanted self.now.files.now self.now.least self.now.most found.now) }
    {
        'files: for count in 0..self.files.len() {
            if self.least <= count && count <= self.most && is_same(&self.files[count], found) {
                return None;
            }
        }
        match self.files.get(self.least) {
            Some(wanted) => Some(difference(found, wanted)),
            None => Some(difference(found, &[])),
        }
    }
}

fn is_same(files: &[Line], others: &[Line]) -> bool
    ensures { IsTrue result ↔ (files.now ≡ others.now) }
{
    files == others
}

// The first line in which files differ from others.
fn difference(found: &[Line], wanted: &[Line]) -> Difference {
    let mut at = 0;
    while at < found.len() && at < wanted.len() && found[at] == wanted[at] {
        at += 1;
    }
    Difference::Line(line_at(found, at), line_at(wanted, at))
}

fn line_at(lines: &[Line], at: usize) -> Option<Line> {
    if at < lines.len() {
        Some(lines[at])
    } else {
        None
    }
}
