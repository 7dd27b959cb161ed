// The call that lists several regions.
ghost use Rattle.terms.specs.Lent.{stock, order_of, regions as lent_regions};
ghost use Rattle.terms.specs.ListRegionsCall.{RegionsListedAs};

use terms::for_c::code;
use terms::lent::{Regions, Stock};

// The call of this name, for C.
#[unsafe(no_mangle)]
pub extern "C" fn hornherder_list_regions(
    k: usize,
    n: usize,
    regions: usize,
    points: &[i32],
    live: &[u8],
    order: &[u32],
    face_counts: &[u32],
    normals: &[i32],
    offsets: &[i64],
    marks: &[u8],
    lists: &mut [u32],
    counts: &mut [u32],
) -> u32
    ensures { RegionsListedAs (stock k n points.now live.now) (order_of order.now)
        (lent_regions regions face_counts.now normals.now offsets.now marks.now)
        lists.old counts.old result lists.new counts.new }
{
    let stock = Stock { k, n, points, live };
    let regions = Regions {
        region_count: regions,
        face_counts,
        normals,
        offsets,
        marks,
    };
    code(hornherder::list_regions::list_regions(&stock, order, &regions, lists, counts))
}
