// Reading the lines of all points and of all faces.
ghost use Rattle.std.specs.Prelude.{◌≡◌, ◌*◌, ◌≤◌, length};
ghost use Rattle.text.specs.Found.{FindsPoints, FindsFaces};

use crate::cursor::{Cursor, TEN_DIGITS};

impl Cursor<'_> {
    // Reads the lines of n points, k coordinates each, into the first k times n places. An index, since of places that chunks_exact_mut lends a proof
    // knows nothing once they are given back.
    pub fn read_points(&mut self, k: usize, n: usize, points: &mut [i32]) -> Option<()>
        requires le_k { 1 ≤ k }
        requires n_in_bounds { k * n ≤ length points.old }
        ensures found { FindsPoints self.old.text.now self.old.at k n points.new result self.new.at }
        ensures text_unchanged { self.new.text.now ≡ self.old.text.now }
    {
        for i in 0..n {
            let place = k * i;
            self.read_point(&mut points[place..place + k])?;
        }
        Some(())
    }

    // Reads the line of each face that has a place for its offset, k components and the offset. An index for the components, for the same reason.
    pub fn read_faces(&mut self, k: usize, normals: &mut [i32], offsets: &mut [i64]) -> Option<()>
        requires normals_room { k * length offsets.old ≤ length normals.old }
        ensures found { FindsFaces self.old.text.now self.old.at k (length offsets.old) normals.new offsets.new result self.new.at }
        ensures text_unchanged { self.new.text.now ≡ self.old.text.now }
    {
        for (i, offset) in offsets.iter_mut().enumerate() {
            let place = k * i;
            *offset = self.read_line(&mut normals[place..place + k], TEN_DIGITS)?;
        }
        Some(())
    }
}
