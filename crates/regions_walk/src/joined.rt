// The faces of several regions as a call is handed them, once they are tested.
ghost use Rattle.terms.specs.Lent.{regions_of};
ghost use Rattle.theory.specs.RegionFaces.{TestedRegions};

// Tested faces of several regions, end to end, k components to a normal, with how many faces each region has.
#[derive(Clone, Copy)]
pub struct JoinedFaces<'a> {
    pub k: usize,
    pub face_counts: &'a [u32],
    pub normals: &'a [i32],
    pub offsets: &'a [i64],
    pub marks: &'a [u8],
    pub ghost tested: { TestedRegions k (regions_of face_counts.now normals.now offsets.now marks.now) },
}
