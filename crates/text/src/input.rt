// Reading the whole text.
ghost use Rattle.std.specs.Prelude.{◌≡◌, ◌≤◌, length};
ghost use Rattle.text.specs.Found.{FindsHead, FindsText};

use crate::cursor::Cursor;
use crate::number::Stop;

// How many dimensions, points and faces a text has.
#[derive(Clone, Copy)]
pub struct Sizes {
    pub k: usize,
    pub n: usize,
    pub h: usize,
}

impl Cursor<'_> {
    // Reads line 1.
    fn read_head(&mut self) -> Option<Sizes>
        requires { self.old.at ≡ 0 }
        ensures found { FindsHead self.old.text.now result self.new.at }
        ensures text_unchanged { self.new.text.now ≡ self.old.text.now }
    {
        let k = self.read_size(Stop::Space, 1, 9)?;
        let n = self.read_size(Stop::Space, 0, 512)?;
        let h = self.read_size(Stop::Newline, 0, 64)?;
        Some(Sizes {
            k: k as usize,
            n: n as usize,
            h: h as usize,
        })
    }
}

// Reads the text, and answers its sizes: the coordinates, the components and the offsets go to the first places of what is lent. If the text is not as
// it must be, the lent places may hold anything. They are arrays with room for the longest text, since there is no heap.
pub fn read(
    text: &[u8],
    points: &mut [i32],
    normals: &mut [i32],
    offsets: &mut [i64],
) -> Option<Sizes>
    requires points_room { 4608 ≤ length points.old }
    requires normals_room { 576 ≤ length normals.old }
    requires offsets_room { 64 ≤ length offsets.old }
    ensures { FindsText text.now points.new normals.new offsets.new result }
{
    if text.len() > 32768 {
        return None;
    }
    let mut rest = Cursor { text, at: 0 };
    let sizes = rest.read_head()?;
    rest.read_points(sizes.k, sizes.n, points)?;
    rest.read_faces(sizes.k, normals, &mut offsets[..sizes.h])?;
    if rest.at < text.len() {
        return None;
    }
    Some(sizes)
}
