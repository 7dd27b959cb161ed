// The faces as a call is handed them, once they are tested.
ghost use Rattle.terms.specs.Lent.{faces_of};
ghost use Rattle.region.specs.Ranges.{KnownFaces};

// Tested faces, k components to a normal: face i has the components from place i * k on, an offset and a mark.
#[derive(Clone, Copy)]
pub struct TestedFaces<'a> {
    pub k: usize,
    pub normals: &'a [i32],
    pub offsets: &'a [i64],
    pub marks: &'a [u8],
    pub ghost known: { KnownFaces k (faces_of normals.now offsets.now marks.now) },
}
