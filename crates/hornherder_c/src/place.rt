// The test of one point.
ghost use Rattle.std.specs.Prelude.{◌≡◌};
ghost use Rattle.terms.specs.Lent.{faces};
ghost use Rattle.terms.specs.PlaceCall.{place_answer};

use terms::Placing;
use terms::lent::Faces;

// The call of this name, for C.
#[unsafe(no_mangle)]
pub extern "C" fn hornherder_place(
    k: usize,
    h: usize,
    point: &[i32],
    normals: &[i32],
    offsets: &[i64],
    marks: &[u8],
) -> Placing
    ensures { result ≡ place_answer k point.now (faces h normals.now offsets.now marks.now) }
{
    let faces = Faces {
        h,
        normals,
        offsets,
        marks,
    };
    hornherder::place::place(k, point, &faces).into()
}
