// A box in the summary, as 2k numbers with the k least first: read, written and compared. A box has four places for any k, so that k is at most 4 is asked.
ghost use Rattle.std.specs.Prelude.{◌≡◌, ◌+◌, ◌≤◌, length};
ghost use Rattle.terms.specs.Box.{box_of};
ghost use Rattle.terms.specs.Summary.{corners, same_numbers};
ghost use Rattle.summary.specs.Stored.{HasBox, BoxAt};

use descent::points::point_at;
use terms::CornerRows;

// The box that the summary has for a slot: two points, one after the other.
pub fn read_box(k: usize, summary: &[i32], slot: usize) -> CornerRows
    requires { HasBox k summary.now slot }
    ensures { BoxAt k summary.now slot (box_of result) }
{
    let low = point_at(k, summary, slot + slot);
    let high = point_at(k, summary, slot + slot + 1);
    CornerRows { low, high }
}

// Writes a box to its 2k places.
pub fn write_box(k: usize, rows: CornerRows, places: &mut [i32])
    requires k_bound { k ≤ 4 }
    requires places_len { length places.old ≡ k + k }
    ensures { places.new ≡ corners k (box_of rows) }
{
    places[..k].copy_from_slice(&rows.low[..k]);
    places[k..].copy_from_slice(&rows.high[..k]);
}

// Whether 2k numbers are a box's.
pub fn same_box(k: usize, rows: CornerRows, places: &[i32]) -> bool
    requires k_bound { k ≤ 4 }
    requires places_len { length places.now ≡ k + k }
    ensures { result ≡ same_numbers places.now (corners k (box_of rows)) }
{
    places[..k] == rows.low[..k] && places[k..] == rows.high[..k]
}
