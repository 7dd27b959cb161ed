// Why a number of a shelf is inside or outside: one way down from the root to the number.
#![tactic(auto)]

mod way;

ghost use Rattle.std.specs.Prelude.{◌≡◌};
ghost use Rattle.terms.specs.Points.{coord};
ghost use Rattle.terms.specs.Reason.{InRun};
ghost use Rattle.terms.specs.Explain.{reason_of};
ghost use Rattle.region.specs.Told.{region_of};

use descent::points::point_at;
use descent::runs::root_run;
use descent::shelf::Shelf;
use region::faces::faces_table;
use region::live::all_faces;
use region::tested::TestedFaces;
use terms::Reason;
use way::descend;

// The reason of number p of a shelf against faces of as many dimensions. The root is judged like any branch.
pub fn reason(shelf: &Shelf, faces: &TestedFaces, p: u32) -> Reason
    requires same_k { faces.now.k ≡ shelf.now.k }
    requires in_run { InRun shelf.now.order.now p }
    ensures { result ≡ reason_of (region_of faces.now) (coord shelf.now.k shelf.now.points.now) shelf.now.order.now p }
{
    let table = faces_table(faces);
    let x = point_at(shelf.k, shelf.points, p as usize);
    let live = all_faces();
    let h = faces.offsets.len();
    descend(shelf, &table, p, x, root_run(shelf), &live[..h])
}
