// The walk of a shelf against several regions, region after region: the two lists of each in its places of the list buffer, its three counts in its places of
// the counts buffer.
#![tactic(auto)]

pub mod joined;

ghost use Rattle.std.specs.Prelude.{◌≡◌, ◌≤◌, length};
ghost use Rattle.terms.specs.Points.{coord};
ghost use Rattle.region.specs.Told.{region_of};
ghost use Rattle.regions_walk.specs.Joined.{regions_in};
ghost use Rattle.regions_walk.specs.RegionListed.{RegionListed};
ghost use Rattle.regions_walk.specs.RegionsListed.{RoomForRegions, RegionsListed};

use descent::shelf::Shelf;
use joined::JoinedFaces;
use region::tested::TestedFaces;
use walk::walk;

// Lists one region in the places that are lent for it, and writes its counts: inside, outside, visits.
fn list_region(shelf: &Shelf, faces: &TestedFaces, list: &mut [u32], counts: &mut [u32])
    requires same_k { faces.now.k ≡ shelf.now.k }
    requires order_len_bound { length shelf.now.order.now ≤ 65535 }
    requires list_len { length list.old ≡ length shelf.now.order.now }
    requires counts_len { length counts.old ≡ 3 }
    ensures { RegionListed (region_of faces.now) (coord shelf.now.k shelf.now.points.now) shelf.now.order.now list.new counts.new }
{
    let tally = walk(shelf, faces, list);
    let outside = shelf.order.len() - tally.inside;
    counts.copy_from_slice(&[tally.inside as u32, outside as u32, tally.visits as u32]);
}

// Lists each region of a shelf against faces of as many dimensions. A region's faces start where those of the region before it end, and so do its places.
pub fn walk_regions(shelf: &Shelf, regions: &JoinedFaces, lists: &mut [u32], counts: &mut [u32])
    requires same_k { regions.now.k ≡ shelf.now.k }
    requires room_for_regions { RoomForRegions (length regions.now.face_counts.now) shelf.now.order.now lists.old counts.old }
    ensures { RegionsListed shelf.now.k (regions_in regions.now) (coord shelf.now.k shelf.now.points.now)
        shelf.now.order.now lists.old counts.old (length regions.now.face_counts.now) lists.new counts.new }
{
    let slots = shelf.order.len();
    let mut face = 0;
    for (r, &count) in regions.face_counts.iter().enumerate() {
        let h = count as usize;
        let faces = TestedFaces {
            k: regions.k,
            normals: &regions.normals[regions.k * face..regions.k * face + regions.k * h],
            offsets: &regions.offsets[face..face + h],
            marks: &regions.marks[face..face + h],
        };
        // The places by the region's number: after a loop over `chunks_mut`, or one that splits off what is left, a proof doesn't know what was written.
        let list = &mut lists[r * slots..r * slots + slots];
        let three = &mut counts[r * 3..r * 3 + 3];
        list_region(shelf, &faces, list, three);
        face += h;
    }
}
