// The faces with their normals as a table.
ghost use Rattle.terms.specs.Lent.{faces_of};
ghost use Rattle.region.specs.Ranges.{KnownTable};

// Faces whose normals are rows of four, row i from place i * 4 on, so that a row has the same length for every k.
#[derive(Drop)]
pub struct Table<'a> {
    pub k: usize,
    pub rows: [i32; 128],
    pub offsets: &'a [i64],
    pub marks: &'a [u8],
    pub ghost known: { KnownTable k (faces_of rows offsets.now marks.now) },
}
