// The call that lists several regions.
ghost use Rattle.std.specs.Prelude.{◌≡◌, ℕ, ◌≤◌, ◌<◌, length, IfOk};
ghost use Rattle.terms.specs.Lent.{order_of};
ghost use Rattle.terms.specs.LentValues.{stock_of, lent_regions};
ghost use Rattle.terms.specs.Tree.{shelf_run};
ghost use Rattle.terms.specs.RegionFaces.{faces_in, faces_before};
ghost use Rattle.terms.specs.RefusalNumbers.{code_of};
ghost use Rattle.terms.specs.ListRegionsCall.{region_room_refusals, region_face_refusals, list_regions_refusals, RegionsListedAs};
ghost use Rattle.theory.specs.RefusalsPassed.{RegionsCounted};
ghost use Rattle.hornherder.specs.First.{First};

use crate::refuse::{
    test_face_counts, test_face_slices, test_live_coordinates, test_region_count, test_room,
    test_stock, test_tree,
};
use descent::root::shelf_of;
use regions_walk::joined::JoinedFaces;
use regions_walk::walk_regions;
use terms::lent::{Faces, Regions, Stock};
use terms::refusal::Refusal;

// The two lists of a shelf against each of several regions, region after region: v places for each in the list buffer, and three counts for each in the counts
// buffer: inside, outside, visits. The order is checked once. A refusal writes nothing.
pub fn list_regions(
    stock: &Stock,
    order: &[u32],
    regions: &Regions,
    lists: &mut [u32],
    counts: &mut [u32],
) -> Result<(), Refusal>
    ensures { RegionsListedAs (stock_of stock.now) (order_of order.now) (lent_regions regions.now)
        lists.old counts.old (code_of result) lists.new counts.new }
{
    let run = test_list_regions(stock, order, regions, lists, counts)?;
    let shelf = shelf_of(stock.k, stock.n, stock.points, run);
    let joined = JoinedFaces {
        k: stock.k,
        face_counts: regions.face_counts,
        normals: regions.normals,
        offsets: regions.offsets,
        marks: regions.marks,
    };
    walk_regions(&shelf, &joined, lists, counts);
    Ok(())
}

// The first of 1, 2, 3, 15, 14, 4 to 8, 11 and 9 that holds of the call's arguments, or the slots of the shelf.
fn test_list_regions<'a>(
    stock: &Stock,
    order: &'a [u32],
    regions: &Regions,
    lists: &[u32],
    counts: &[u32],
) -> Result<&'a [u32], Refusal>
    ensures first { First (list_regions_refusals (stock_of stock.now) (order_of order.now) (lent_regions regions.now)
        lists.now counts.now) (code_of result) }
    ensures slots { IfOk result (λ run. run.now ≡ shelf_run (stock_of stock.now) (order_of order.now)) }
{
    let shaped = test_stock(stock)?;
    test_region_count(regions.region_count, regions.face_counts)?;
    test_region_room(
        shaped.slots,
        regions.region_count,
        order.len(),
        lists.len(),
        counts.len(),
    )?;
    test_live_coordinates(&shaped)?;
    test_region_faces(stock.k, regions)?;
    test_tree(&shaped, order)
}

// 4 where the order is short of its slots, the list buffer of as many places a region, or the counts buffer of three a region.
// Lengths alone, since the buffers are lent to the call to write.
fn test_region_room(
    slots: usize,
    regions: usize,
    order: usize,
    lists: usize,
    counts: usize,
) -> Result<(), Refusal>
    requires slots_bound { slots ≤ 65535 }
    requires regions_bound { regions ≤ 64 }
    ensures { First (region_room_refusals slots regions order lists counts) (code_of result) }
{
    test_room(slots, order)?;
    test_room(regions * slots, lists)?;
    test_room(regions * 3, counts)
}

// The first of 6 of each region and of 7, 8 and 11 of the joined slices that holds.
fn test_region_faces(k: usize, regions: &Regions) -> Result<(), Refusal>
    requires { RegionsCounted regions.now.region_count regions.now.face_counts.now }
    ensures { First (region_face_refusals k (lent_regions regions.now)) (code_of result) }
{
    test_face_counts(regions.face_counts)?;
    let joined = Faces {
        h: face_total(regions.face_counts),
        normals: regions.normals,
        offsets: regions.offsets,
        marks: regions.marks,
    };
    test_face_slices(k, &joined)
}

// How many faces the regions have together, once each has at most 32. A `for`, since of a `sum` the check knows no bound from that of each.
fn face_total(face_counts: &[u32]) -> usize
    requires few { length face_counts.now ≤ 64 }
    requires by_index { (r : ℕ) → r < length face_counts.now → faces_in face_counts.now r ≤ 32 }
    ensures { result ≡ faces_before face_counts.now (length face_counts.now) }
{
    let mut total: usize = 0;
    for count in face_counts {
        total += *count as usize;
    }
    total
}
