// What a caller lends, as one value each. Counts stand beside the slices, and slices beside one another, as the C interface hands them: whether they
// agree is what the tests of a call ask.

// A stock: n points of k coordinates each, point 0 first, and a live byte for each. Nothing was tested of it.
#[derive(Clone, Copy)]
pub struct Stock<'a> {
    pub k: usize,
    pub n: usize,
    pub points: &'a [i32],
    pub live: &'a [u8],
}

// The faces of a region: h of them, k components to a face, and an offset and a mark for each. Nothing was tested of them.
#[derive(Clone, Copy)]
pub struct Faces<'a> {
    pub h: usize,
    pub normals: &'a [i32],
    pub offsets: &'a [i64],
    pub marks: &'a [u8],
}

// The faces of several regions end to end: a face count for each region, and so many regions. Nothing was tested of them.
#[derive(Clone, Copy)]
pub struct Regions<'a> {
    pub region_count: usize,
    pub face_counts: &'a [u32],
    pub normals: &'a [i32],
    pub offsets: &'a [i64],
    pub marks: &'a [u8],
}
