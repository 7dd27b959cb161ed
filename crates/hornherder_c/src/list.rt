// The list call.
ghost use Rattle.terms.specs.Lent.{stock, order_of, faces};
ghost use Rattle.terms.specs.ListCall.{ListedAs};

use terms::Listing;
use terms::lent::{Faces, Stock};

// The call of this name, for C.
#[unsafe(no_mangle)]
pub extern "C" fn hornherder_list(
    k: usize,
    n: usize,
    h: usize,
    points: &[i32],
    live: &[u8],
    order: &[u32],
    normals: &[i32],
    offsets: &[i64],
    marks: &[u8],
    list: &mut [u32],
) -> Listing
    ensures { ListedAs (stock k n points.now live.now) (order_of order.now) (faces h normals.now offsets.now marks.now)
        list.old result list.new }
{
    let stock = Stock { k, n, points, live };
    let faces = Faces {
        h,
        normals,
        offsets,
        marks,
    };
    hornherder::list::list(&stock, order, &faces, list).into()
}
