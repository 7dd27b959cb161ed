// The rows of the faces, the sum of products, and the margin of a point to a face. That a point or a box is in range for the table's k, and that a face is
// one of the table's, each function asks: a value that said so would hold a k or a count of its own, and owe that it is the table's.
ghost use Rattle.std.specs.Prelude.{◌≡◌, List, ℕ, ◌*◌, ◌≤◌, ◌<◌, eqb, length, get_or, nat_abs, pos, ◌-ℤ◌};
ghost use Rattle.whole.specs.IndexedSum.{sum_to};
ghost use Rattle.terms.specs.Lent.{faces_of};
ghost use Rattle.terms.specs.Points.{lone};
ghost use Rattle.terms.specs.Region.{Region};
ghost use Rattle.terms.specs.Margin as words;
ghost use Rattle.theory.specs.Tested.{Coordinates};
ghost use Rattle.theory.specs.PointsAlike.{SamePoint};
ghost use Rattle.theory.specs.Margins.{above_by};
ghost use Rattle.region.specs.Table.{normal_of, products, Row, Tabled, tabled};
ghost use Rattle.region.specs.Ranges.{Normal, HasNormal, HasOffset, HasMark, HasMargin};
ghost use Rattle.region.specs.Told.{told, TableOf};

use crate::table::Table;
use crate::tested::TestedFaces;

// Row i of numbers that lie k to a row, in four places of its own: its k numbers, and 0 from k on. An index, since the loop has four turns for every k,
// which the compiler writes out: with `copy_from_slice` of the k numbers the root box over the slots takes 1.8 times as long.
pub fn row_of(k: usize, numbers: &[i32], i: usize) -> [i32; 4]
    requires { HasNormal k numbers.now i }
    ensures { Row k (normal_of k numbers.now i) (lone result) }
{
    let start = i * k;
    let mut row = [0; 4];
    for d in 0..4 {
        if d < k {
            row[d] = numbers[start + d];
        }
    }
    row
}

// The rows of h faces as a table. An index, since a row's place in the table is told by its face's number.
// It asks for the rows alone, and `point_margin` below for one face: what they ask may not grow to what a type of all faces holds.
// It is written out where it is called, as is the table of faces below: handed over, its 512 bytes were copied once more for each region.
#[inline(always)]
pub fn table_of(k: usize, normals: &[i32], h: usize) -> [i32; 128]
    requires k_bound { k ≤ 4 }
    requires h_bound { h ≤ 32 }
    requires normals_len { length normals.now ≡ k * h }
    ensures { Tabled k normals.now h result }
{
    let mut rows = [0; 128];
    for i in 0..h {
        let row = row_of(k, normals, i);
        rows[i * 4..i * 4 + 4].copy_from_slice(&row);
    }
    rows
}

// The faces with their normals as a table, made once for a call that tests many points and boxes.
#[inline(always)]
pub fn faces_table<'a>(faces: &TestedFaces<'a>) -> Table<'a>
    ensures { TableOf faces.now result }
{
    Table {
        k: faces.k,
        rows: table_of(faces.k, faces.normals, faces.offsets.len()),
        offsets: faces.offsets,
        marks: faces.marks,
    }
}

// The row of face i, read from the table.
pub fn row_at(table: &[i32; 128], i: usize) -> [i32; 4]
    requires { i < 32 }
    ensures { SamePoint 4 (lone result) (normal_of 4 table.now i) }
{
    row_of(4, table, i)
}

// The sum of the products of a point's coordinates and a row's components. Those from k on are 0, so nothing is asked of k and it is the sum of the
// first k; the loop has four turns, so that the compiler can write it out and keep both in registers. An index, since it
// goes over both at once.
pub fn sum(k: usize, x: [i32; 4], row: [i32; 4]) -> i64
    requires coordinates { Coordinates k (lone x) }
    requires normal { Normal k (lone row) }
    ensures { result ≡ sum_to k (products (lone row) (lone x)) }
{
    let mut total: i64 = 0;
    for d in 0..4 {
        total += row[d] as i64 * x[d] as i64;
    }
    total
}

// The margin of a sum of products to face i: the sum less the offset. It reads an offset, and `above` a mark, of faces in a table and of faces as lent.
pub fn margin(sum: i64, offsets: &[i64], i: usize) -> i64
    requires sum_bound { nat_abs sum ≤ 4294836224 }
    requires has_offset { HasOffset offsets.now i }
    ensures { result ≡ sum -ℤ get_or offsets.now i (pos 0) }
{
    sum - offsets[i]
}

// Whether a margin is above face i: the one place that says what above means, for points and for corners. Above a closed face is 0 or more, above an
// open one more than 0, which is 1 or more: at least the mark.
pub fn above(margin: i64, marks: &[u8], i: usize) -> bool
    requires { HasMark marks.now i }
    ensures { (g : Region) → g.marked_open i ≡ eqb (get_or marks.now i 0) 1 → result ≡ above_by g i margin }
{
    let mark = marks[i] as i64;
    mark <= margin
}

// The margin of a point to face i of a table of rows: by how much it is above the face, or below it.
pub fn point_margin(k: usize, x: [i32; 4], table: &[i32; 128], offsets: &[i64], i: usize) -> i64
    requires coordinates { Coordinates k (lone x) }
    requires has_margin { HasMargin k table.now offsets.now i }
    ensures { (marks : List ℕ) → result ≡ words.margin (tabled k (faces_of table.now offsets.now marks)) i (lone x) }
{
    margin(sum(k, x, row_at(table, i)), offsets, i)
}

// The same of tested faces.
pub fn face_margin(table: &Table, x: [i32; 4], i: usize) -> i64
    requires coordinates { Coordinates table.now.k (lone x) }
    requires known { i < length table.now.offsets.now }
    ensures { result ≡ words.margin (told table.now) i (lone x) }
{
    point_margin(table.k, x, &table.rows, table.offsets, i)
}
