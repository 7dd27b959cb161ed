// The root box over the numbers as they are lent, in the order of memory and in one pass, for a shelf on which none is dead: its slots hold each number once.
ghost use Rattle.std.specs.Prelude.{◌≡◌, ◌+◌, ◌%◌, ◌≤◌, length};
ghost use Rattle.terms.specs.Tests.{rising};
ghost use Rattle.terms.specs.Points.{lone};
ghost use Rattle.terms.specs.Box.{box_of};
ghost use Rattle.descent.specs.SlotsBox.{SlotsBoxed};
ghost use Rattle.descent.specs.NumbersBox.{Dealt, NumbersKnown};

use terms::CornerRows;

// How many lanes there are: a multiple of 1, 2, 3 and 4, so that a lane has coordinates of one dimension only.
const WIDTH: usize = 24;

// The least and the greatest coordinate of each lane, the coordinates being dealt to the lanes in turn.
#[derive(Drop)]
struct Lanes {
    least: [i32; WIDTH],
    greatest: [i32; WIDTH],
}

// Deals count coordinates from place `from` on, the first of them to lane 0. The loop knows nothing of dimensions, so a full round is a few vector
// instructions. Both rows of lanes go by the place of the coordinate, where a zip of three would say no more.
fn deal(points: &[i32], from: usize, count: usize, lanes: Lanes) -> Lanes
    requires from_value { from % 24 ≡ 0 }
    requires count_bound { count ≤ 24 }
    requires count_in_bounds { from + count ≤ length points.now }
    requires dealt { Dealt 24 (lone points.now) (lone points.now) from lanes.least lanes.greatest }
    ensures { Dealt 24 (lone points.now) (lone points.now) (from + count) result.least result.greatest }
{
    let Lanes {
        mut least,
        mut greatest,
    } = lanes;
    for (j, &x) in points[from..from + count].iter().enumerate() {
        least[j] = least[j].min(x);
        greatest[j] = greatest[j].max(x);
    }
    Lanes { least, greatest }
}

// Deals all coordinates, a full round at a time and then the rest. The rounds go by their numbers, since which lane a coordinate is dealt to is told by its
// place among all: a chunk alone would have to be handed that place too.
fn deal_all(points: &[i32]) -> Lanes
    ensures { Dealt 24 (lone points.now) (lone points.now) (length points.now) result.least result.greatest }
{
    let rounds = points.len() / WIDTH;
    let mut lanes = Lanes {
        least: [32767; WIDTH],
        greatest: [-32768; WIDTH],
    };
    for t in 0..rounds {
        lanes = deal(points, WIDTH * t, WIDTH, lanes);
    }
    let from = WIDTH * rounds;
    deal(points, from, points.len() - from, lanes)
}

// The root box of n numbers, if there are any: in each dimension the least and the greatest coordinate, put together from the lanes of that dimension.
// An index, since a lane's number says its dimension.
pub fn numbers_box(k: usize, n: usize, points: &[i32]) -> CornerRows
    requires { NumbersKnown k n points.now }
    ensures { SlotsBoxed k points.now (rising 0 n) (box_of result) }
{
    let Lanes { least, greatest } = deal_all(points);
    let mut low: [i32; 4] = [32767; 4];
    let mut high: [i32; 4] = [-32768; 4];
    for j in 0..WIDTH {
        let d = j % k;
        low[d] = low[d].min(least[j]);
        high[d] = high[d].max(greatest[j]);
    }
    CornerRows { low, high }
}
