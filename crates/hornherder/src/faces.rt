// The faces of a region, once they were tested.
ghost use Rattle.terms.specs.LentValues.{lent_faces};
ghost use Rattle.terms.specs.Lent.{faces_of};
ghost use Rattle.region.specs.Ranges.{KnownFaces};
ghost use Rattle.hornherder.specs.TestedRun.{FacesAs};

use region::tested::TestedFaces;
use terms::lent::Faces;

// The lent faces as a value whose type says that they were tested, for points of k coordinates.
pub fn tested_faces<'a>(k: usize, faces: &Faces<'a>) -> TestedFaces<'a>
    requires { KnownFaces k (faces_of faces.now.normals.now faces.now.offsets.now faces.now.marks.now) }
    ensures { FacesAs k faces.now result }
{
    TestedFaces {
        k,
        normals: faces.normals,
        offsets: faces.offsets,
        marks: faces.marks,
    }
}
