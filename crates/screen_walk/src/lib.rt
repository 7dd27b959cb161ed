// The screen of a shelf against a region: the inside number in the lowest slot, or none, and the visits up to there. It stops as soon as it has one.
#![tactic(auto)]

mod parts;

ghost use Rattle.std.specs.Prelude.{◌≡◌};
ghost use Rattle.terms.specs.Points.{coord};
ghost use Rattle.region.specs.Told.{region_of};
ghost use Rattle.screen_walk.specs.Shelf.{ShelfSeen};

use descent::runs::root_run;
use descent::shelf::Shelf;
use parts::branch;
use region::faces::faces_table;
use region::live::all_faces;
use region::tested::TestedFaces;

// What a screen has seen so far: the number that it found, where it found one, and how many nodes it visited. `Screened` says the visits in the 32 bits
// that C is answered; here they are added up.
#[derive(Clone, Copy)]
pub struct Seen {
    pub number: Option<u32>,
    pub visits: usize,
}

// Screens a shelf against faces of as many dimensions. The root is judged like any branch.
pub fn screen(shelf: &Shelf, faces: &TestedFaces) -> Seen
    requires { faces.now.k ≡ shelf.now.k }
    ensures { ShelfSeen (region_of faces.now) (coord shelf.now.k shelf.now.points.now) shelf.now.order.now result }
{
    let table = faces_table(faces);
    let live = all_faces();
    let h = faces.offsets.len();
    branch(shelf, &table, root_run(shelf), &live[..h], 0)
}
