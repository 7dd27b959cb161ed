// A box against a face by its two corners, and the boxes of a branch's children.
ghost use Rattle.std.specs.Prelude.{◌≡◌, ◌<◌, length, set};
ghost use Rattle.whole.specs.IndexedSum.{sum_to};
ghost use Rattle.terms.specs.Points.{lone};
ghost use Rattle.terms.specs.Box.{box_of, left_box, right_box};
ghost use Rattle.terms.specs.Region.{by_sign, wholly_above, wholly_below};
ghost use Rattle.theory.specs.Tested.{Coordinates};
ghost use Rattle.theory.specs.PointsAlike.{SamePoint};
ghost use Rattle.region.specs.Corners.{corner};
ghost use Rattle.region.specs.Table.{products};
ghost use Rattle.region.specs.Ranges.{BoxRanges, Normal};
ghost use Rattle.region.specs.Told.{told};

use crate::faces::{above, margin, row_at, sum};
use crate::table::Table;
use terms::CornerRows;

// The coordinate that the sign of a component chooses: the first where it is 0 or more, else the second.
fn by_sign(component: i32, first: i32, second: i32) -> i32
    ensures { result ≡ by_sign component first second }
{
    if component >= 0 { first } else { second }
}

// The corner of a box that a face's signs choose from its rows: in each dimension the first row where the component is 0 or more, else the second.
// Written out, since four lines say it as plainly as `from_fn`, whose closure would owe a clause of its own.
fn corner(first: [i32; 4], second: [i32; 4], row: [i32; 4]) -> [i32; 4]
    ensures { SamePoint 4 (lone result) (corner (lone first) (lone second) (lone row)) }
{
    [
        by_sign(row[0], first[0], second[0]),
        by_sign(row[1], first[1], second[1]),
        by_sign(row[2], first[2], second[2]),
        by_sign(row[3], first[3], second[3]),
    ]
}

// The sum of products at that corner. With the rows low and high it is the corner furthest against the normal, with high and low the opposite one.
pub fn corner_sum(k: usize, first: [i32; 4], second: [i32; 4], row: [i32; 4]) -> i64
    requires first_coordinates { Coordinates k (lone first) }
    requires second_coordinates { Coordinates k (lone second) }
    requires normal { Normal k (lone row) }
    ensures { result ≡ sum_to k (products (lone row) (corner (lone first) (lone second) (lone row))) }
{
    sum(k, corner(first, second, row), row)
}

// Whether a box is wholly above face i: its corner furthest against the normal is above.
pub fn wholly_above(table: &Table, rows: CornerRows, i: usize) -> bool
    requires box_ranges { BoxRanges table.now.k (box_of rows) }
    requires known { i < length table.now.offsets.now }
    ensures { result ≡ wholly_above (told table.now) (box_of rows) i }
{
    let CornerRows { low, high } = rows;
    let reached = corner_sum(table.k, low, high, row_at(&table.rows, i));
    above(margin(reached, table.offsets, i), table.marks, i)
}

// Whether a box is wholly below face i: the opposite corner is below.
pub fn wholly_below(table: &Table, rows: CornerRows, i: usize) -> bool
    requires box_ranges { BoxRanges table.now.k (box_of rows) }
    requires known { i < length table.now.offsets.now }
    ensures { result ≡ wholly_below (told table.now) (box_of rows) i }
{
    let CornerRows { low, high } = rows;
    let reached = corner_sum(table.k, high, low, row_at(&table.rows, i));
    !above(margin(reached, table.offsets, i), table.marks, i)
}

// The row with its entry of dimension s replaced by x. That s is below 4 is asked here and of a run and a key as well: a type for a dimension would say no
// more than the number.
fn replaced(mut row: [i32; 4], s: usize, x: i32) -> [i32; 4]
    requires { s < 4 }
    ensures { result ≡ set row s x }
{
    row[s] = x;
    row
}

// The box of a left branch: the greatest coordinate on s replaced by the node's. A row alone is stored and read back, and not the whole box.
pub fn left_box(rows: CornerRows, s: usize, x: i32) -> CornerRows
    requires { s < 4 }
    ensures { box_of result ≡ left_box (box_of rows) s x }
{
    let high = replaced(rows.high, s, x);
    CornerRows { high, ..rows }
}

// The box of a right branch: the least coordinate on s replaced by the node's.
pub fn right_box(rows: CornerRows, s: usize, x: i32) -> CornerRows
    requires { s < 4 }
    ensures { box_of result ≡ right_box (box_of rows) s x }
{
    let low = replaced(rows.low, s, x);
    CornerRows { low, ..rows }
}
