// Two boxes taken together. A point is taken into a box as the box of which it is both corners.
ghost use Rattle.terms.specs.Box.{box_of};
ghost use Rattle.descent.specs.Joined.{Joined};

use terms::CornerRows;

// The least box that two boxes lie in. All four places are gone through, whatever k is, so that the turns can be made at once; an index, since a turn
// takes a place of four rows.
pub fn joined(a: CornerRows, b: CornerRows) -> CornerRows
    ensures { Joined (box_of a) (box_of b) (box_of result) }
{
    let CornerRows { mut low, mut high } = a;
    for d in 0..4 {
        low[d] = low[d].min(b.low[d]);
        high[d] = high[d].max(b.high[d]);
    }
    CornerRows { low, high }
}
