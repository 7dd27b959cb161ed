// Reading the lent points: a whole point, one coordinate of a point, and the comparison of two numbers. A number's point is no value before it is read, so
// each function asks that the number has one.
ghost use Rattle.std.specs.Prelude.{◌≡◌, ◌<◌};
ghost use Rattle.terms.specs.Points.{coord};
ghost use Rattle.terms.specs.Before as words;
ghost use Rattle.descent.specs.Points.{HasPoint, PointAt};

use region::faces::row_of;

// The k coordinates of point p in a value of their own, so that many faces can be tested without reading them again. A point lent alone is
// point 0 of its k coordinates.
pub fn point_at(k: usize, points: &[i32], p: usize) -> [i32; 4]
    requires { HasPoint k points.now p }
    ensures { PointAt k points.now p result }
{
    row_of(k, points, p)
}

// Coordinate d of point p. A point in a value is kept in registers, and taking a coordinate by its number would put it into memory.
pub fn coordinate(k: usize, points: &[i32], p: usize, d: usize) -> i32
    requires has_point { HasPoint k points.now p }
    requires d_lt_k { d < k }
    ensures { result ≡ coord k points.now p d }
{
    points[p * k + d]
}

// Whether number p comes before number q on dimension d: by coordinate, then by number.
pub fn before(k: usize, points: &[i32], d: usize, p: u32, q: u32) -> bool
    requires has_point_p { HasPoint k points.now p }
    requires has_point_q { HasPoint k points.now q }
    requires d_lt_k { d < k }
    ensures { result ≡ words.before (coord k points.now) d p q }
{
    let x = coordinate(k, points, p as usize, d);
    let y = coordinate(k, points, q as usize, d);
    (x, p) < (y, q)
}
