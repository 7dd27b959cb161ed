// The refusal tests, a function for each group, which gives its refusal where a test of it holds; and the groups that several calls make together: the
// points' shape, the stock's, the faces' slices, and the faces.
ghost use Rattle.std.specs.Prelude.{◌≡◌, ◌≤◌, length, IfOk};
ghost use Rattle.terms.specs.Lent.{stock, order_of, faces};
ghost use Rattle.terms.specs.LentValues.{stock_of, lent_faces};
ghost use Rattle.terms.specs.Live.{live_count};
ghost use Rattle.terms.specs.Tree.{shelf_run};
ghost use Rattle.terms.specs.RefusalNumbers.{code_of};
ghost use Rattle.terms.specs.Refusals.{
  dimension_refusals,
  size_refusals,
  length_refusals,
  room_refusals,
  coordinate_refusals,
  live_coordinate_refusals,
  face_count_refusals,
  face_counts_refusals,
  face_length_refusals,
  face_range_refusals,
  mark_refusals,
  tree_refusals,
  region_count_refusals,
  live_refusals,
  dead_refusals,
  shape_refusals,
  stock_refusals,
  face_slice_refusals,
  face_refusals,
};
ghost use Rattle.theory.specs.Tested.{TestedPoints};
ghost use Rattle.hornherder.specs.First.{First};

use crate::live::{count_live, live_within};
use crate::ranges::all_within;
use crate::shaped::Shaped;
use arrange::check::check;
use terms::lent::{Faces, Stock};
use terms::refusal::Refusal;

// 1 where k is not 1 to 4.
pub fn test_dimension(k: usize) -> Result<(), Refusal>
    ensures { First (dimension_refusals k) (code_of result) }
{
    if k < 1 || 4 < k {
        return Err(Refusal::Dimension);
    }
    Ok(())
}

// 2 where n is over 65,535.
pub fn test_size(n: usize) -> Result<(), Refusal>
    ensures { First (size_refusals n) (code_of result) }
{
    if 65535 < n {
        return Err(Refusal::TooManyPoints);
    }
    Ok(())
}

// 3 where the lent coordinates are not so many.
pub fn test_length(size: usize, points: &[i32]) -> Result<(), Refusal>
    ensures { First (length_refusals size points.now) (code_of result) }
{
    if points.len() != size {
        return Err(Refusal::PointsLength);
    }
    Ok(())
}

// 4 where a lent order or buffer has fewer places than it must.
pub fn test_room(places: usize, room: usize) -> Result<(), Refusal>
    ensures { First (room_refusals places room) (code_of result) }
{
    if room < places {
        return Err(Refusal::ShortBuffer);
    }
    Ok(())
}

// 5 where a coordinate of a point that is lent alone is out of range.
pub fn test_coordinates(point: &[i32]) -> Result<(), Refusal>
    ensures { First (coordinate_refusals point.now) (code_of result) }
{
    if !all_within(point, -32768, 32767) {
        return Err(Refusal::CoordinateRange);
    }
    Ok(())
}

// 5 where a live number's coordinate is out of range.
pub fn test_live_coordinates(shaped: &Shaped) -> Result<(), Refusal>
    ensures { First (live_coordinate_refusals (stock_of shaped.now.stock)) (code_of result) }
{
    if !live_within(shaped) {
        return Err(Refusal::CoordinateRange);
    }
    Ok(())
}

// 6 where h is over 32.
fn test_face_count(h: usize) -> Result<(), Refusal>
    ensures { First (face_count_refusals h) (code_of result) }
{
    if 32 < h {
        return Err(Refusal::TooManyFaces);
    }
    Ok(())
}

// 6 where a region has over 32 faces.
pub fn test_face_counts(face_counts: &[u32]) -> Result<(), Refusal>
    ensures { First (face_counts_refusals face_counts.now) (code_of result) }
{
    if !all_within(face_counts, 0, 32) {
        return Err(Refusal::TooManyFaces);
    }
    Ok(())
}

// 7 where the normals are not k times h, or the offsets not h. This test and the next two take the parts that they look at, so that what each says of
// its number names no other.
fn test_face_lengths(k: usize, h: usize, normals: &[i32], offsets: &[i64]) -> Result<(), Refusal>
    ensures { First (face_length_refusals k h normals.now offsets.now) (code_of result) }
{
    if k.checked_mul(h) != Some(normals.len()) {
        return Err(Refusal::FacesLength);
    }
    if offsets.len() != h {
        return Err(Refusal::FacesLength);
    }
    Ok(())
}

// 8 where a component or an offset is out of range.
fn test_face_ranges(normals: &[i32], offsets: &[i64]) -> Result<(), Refusal>
    ensures { First (face_range_refusals normals.now offsets.now) (code_of result) }
{
    if !all_within(normals, -32767, 32767) {
        return Err(Refusal::FaceRange);
    }
    if !all_within(offsets, -8589934592, 8589934592) {
        return Err(Refusal::FaceRange);
    }
    Ok(())
}

// 11 where the marks are not h, or one is neither 0 nor 1.
fn test_marks(h: usize, marks: &[u8]) -> Result<(), Refusal>
    ensures { First (mark_refusals h marks.now) (code_of result) }
{
    if marks.len() != h {
        return Err(Refusal::Marks);
    }
    if !all_within(marks, 0, 1) {
        return Err(Refusal::Marks);
    }
    Ok(())
}

// 9 where the first slots are not the tree of the live points; else those slots.
pub fn test_tree<'a>(shaped: &Shaped, order: &'a [u32]) -> Result<&'a [u32], Refusal>
    requires tested_points { TestedPoints (stock_of shaped.now.stock) }
    requires slots_in_bounds { shaped.now.slots ≤ length order.now }
    ensures first { First (tree_refusals (stock_of shaped.now.stock) (order_of order.now)) (code_of result) }
    ensures slots { IfOk result (λ run. run.now ≡ shelf_run (stock_of shaped.now.stock) (order_of order.now)) }
{
    let run = &order[..shaped.slots];
    if !check(&shaped.stock, run) {
        return Err(Refusal::NotTheTree);
    }
    Ok(run)
}

// 14 where the region count is not 1 to 64, or the face counts are not as many.
pub fn test_region_count(regions: usize, face_counts: &[u32]) -> Result<(), Refusal>
    ensures { First (region_count_refusals regions face_counts.now) (code_of result) }
{
    if regions < 1 || 64 < regions {
        return Err(Refusal::RegionCount);
    }
    if face_counts.len() != regions {
        return Err(Refusal::RegionCount);
    }
    Ok(())
}

// 15 where the live bytes are not n, or one is neither 0 nor 1; else how many numbers are live, counted in the same pass.
pub fn test_live_bytes(n: usize, live: &[u8]) -> Result<usize, Refusal>
    requires { n ≤ 65535 }
    ensures first { First (live_refusals n live.now) (code_of result) }
    ensures many { IfOk result (λ slots. slots ≡ live_count n live.now) }
{
    if live.len() != n {
        return Err(Refusal::LiveBytes);
    }
    count_live(live).ok_or(Refusal::LiveBytes)
}

// 17 where the number is dead, or not below n.
pub fn test_live(n: usize, number: u32, live: &[u8]) -> Result<(), Refusal>
    requires { length live.now ≡ n }
    ensures { First (dead_refusals n number live.now) (code_of result) }
{
    let p = number as usize;
    if n <= p || live[p] != 1 {
        return Err(Refusal::NotLive);
    }
    Ok(())
}

// The first of 1, 2, 3 and 15 that holds of the stock, or the stock as one of the right shape.
pub fn test_stock<'a>(stock: &Stock<'a>) -> Result<Shaped<'a>, Refusal>
    ensures first { First (stock_refusals (stock_of stock.now)) (code_of result) }
    ensures same { IfOk result (λ shaped. shaped.stock ≡ stock.now) }
{
    test_shape(stock.k, stock.n, stock.points)?;
    let slots = test_live_bytes(stock.n, stock.live)?;
    Ok(Shaped {
        stock: *stock,
        slots,
    })
}

// The first of 1, 2 and 3 that holds of the points.
pub fn test_shape(k: usize, n: usize, points: &[i32]) -> Result<(), Refusal>
    ensures { First (shape_refusals k n points.now) (code_of result) }
{
    test_dimension(k)?;
    test_size(n)?;
    test_length(k * n, points)
}

// The first of 7, 8 and 11 that holds of the faces' slices.
pub fn test_face_slices(k: usize, faces: &Faces) -> Result<(), Refusal>
    ensures { First (face_slice_refusals k (lent_faces faces.now)) (code_of result) }
{
    test_face_lengths(k, faces.h, faces.normals, faces.offsets)?;
    test_face_ranges(faces.normals, faces.offsets)?;
    test_marks(faces.h, faces.marks)
}

// The first of 6, 7, 8 and 11 that holds of the faces.
pub fn test_faces(k: usize, faces: &Faces) -> Result<(), Refusal>
    ensures { First (face_refusals k (lent_faces faces.now)) (code_of result) }
{
    test_face_count(faces.h)?;
    test_face_slices(k, faces)
}
