// Choosing in place: the number that belongs at a place of a run, with no greater one before it and no smaller one after it.
// A part of the run that holds it is narrowed by passes; what the pivots are decides only how soon it is small. Every other pivot is the
// middle of the range of those that are left, so that no run takes more than 64 passes. The others come from the part's numbers: from a
// sample of them, or, where the passes have narrowed the part too little, from them all by counting, which finds the number itself.
// The part's ends a and e, and the ends lo and top of the pivots' range, are handed over as the numbers that they are: each step moves one of the four, and
// what it keeps is said of that one. That the numbers are few is asked where they are counted.
ghost use Rattle.std.specs.Prelude.{◌+◌, ◌*◌, ◌<◌, ◌≤◌, length};
ghost use Rattle.arrange.specs.Parted.{Parted};
ghost use Rattle.arrange.specs.LeastFirst.{LeastFirst};
ghost use Rattle.arrange.specs.Chosen.{Narrowed, Chosen};
ghost use Rattle.arrange.specs.Passes.{PivotOf};

// Puts the numbers of the places from a to e that are below the pivot first, and returns where the others start.
// Every number is swapped, and the start moves by one or by none, so that no branch waits on what the numbers are. The swap is written out, and by
// index: `swap` of a slice asks which of its places comes first, and choosing takes more than twice the time by it.
fn partition(run: &mut [u32], a: usize, e: usize, pivot: u32) -> usize
    requires a_le_e { a ≤ e }
    requires e_in_bounds { e ≤ length run.old }
    ensures { Parted run.old run.new a e pivot e result }
{
    let mut r = a;
    for t in a..e {
        let x = run[t];
        run[t] = run[r];
        run[r] = x;
        r += (x < pivot) as usize;
    }
    r
}

// Puts a least number of the places from a to e at a. It is carried along, and each place is left the greater of it and its own number.
// An index, since over the places lent as a part of the run (`iter_mut`) the whole builder takes a twenty-fifth more time.
fn least_first(run: &mut [u32], a: usize, e: usize)
    requires a_lt_e { a < e }
    requires e_in_bounds { e ≤ length run.old }
    ensures { LeastFirst run.old run.new a e e }
{
    let mut least = run[a];
    for t in a + 1..e {
        let x = run[t];
        run[t] = x.max(least);
        least = x.min(least);
    }
    run[a] = least;
}

// The median of three numbers.
fn median(x: u32, y: u32, z: u32) -> u32 {
    x.min(y).max(x.max(y).min(z))
}

// The median of the numbers at a place and one and two steps further.
fn median_from(part: &[u32], at: usize, step: usize) -> u32
    requires { at + 2 * step < length part.now }
{
    median(part[at], part[at + step], part[at + 2 * step])
}

// A pivot from a few numbers spread over the part: the median of three; in a larger part the median of three such medians,
// or the least or the greatest of them where the rank that is looked for is near an end.
fn sampled_pivot(part: &[u32], rank: usize) -> u32
    requires { 8 < length part.now }
{
    let n = part.len();
    if n < 32 {
        return median_from(part, n / 4, n / 4);
    }
    let step = n / 9;
    let x = median_from(part, 0, step);
    let y = median_from(part, 3 * step, step);
    let z = median_from(part, 6 * step, step);
    if rank < n / 4 {
        return x.min(y).min(z);
    }
    if n - n / 4 < rank {
        return x.max(y).max(z);
    }
    median(x, y, z)
}

// How many numbers of the part are below the pivot.
fn count_below(part: &[u32], pivot: u32) -> u32
    requires { length part.now ≤ 65535 }
{
    part.iter().map(|x| (*x < pivot) as u32).sum()
}

// The greatest pivot from lo to top with no more than `rank` numbers of the part below it, by halving the range.
fn counted_pivot(part: &[u32], rank: usize, lo: u32, top: u32) -> u32
    requires part_len_bound { length part.now ≤ 65535 }
    requires lo_le_top { lo ≤ top }
{
    let mut l = lo;
    let mut h = top;
    while l < h {
        let pivot = l + (h - l) / 2 + 1;
        if (count_below(part, pivot) as usize) <= rank {
            l = pivot;
        } else {
            h = pivot - 1;
        }
    }
    l
}

// The pivot of a pass, one of 64, above lo and at most top. Every other one is the middle of that range; the others come from the numbers
// of the part, by counting where it is longer than is due and else by a sample.
fn next_pivot(part: &[u32], rank: usize, lo: u32, top: u32, pass: u32, due: usize) -> u32
    requires in_bounds { 8 < length part.now }
    requires part_len_bound { length part.now ≤ 65535 }
    requires lo_lt_top { lo < top }
    requires pass_bound { pass < 64 }
    ensures { PivotOf lo top pass result }
{
    if pass % 2 == 1 {
        return lo + (top - lo) / 2 + 1;
    }
    let pivot = if due < part.len() {
        counted_pivot(part, rank, lo, top)
    } else {
        sampled_pivot(part, rank)
    };
    pivot.clamp(lo + 1, top)
}

// Puts the least numbers of the places from a to e at a and after it, up to the place m. The count is of ranks, and no place is read by it here.
fn finish(run: &mut [u32], a: usize, e: usize, m: usize)
    requires { Narrowed run.old run.old m a e }
    ensures { Chosen run.old run.new m }
{
    for i in a..=m {
        least_first(run, i, e);
    }
}

// Puts the number that belongs at the place m there. The part from a to e that holds it is narrowed by pivots between lo and top, and a
// small part is finished by its least numbers. What is due, the length that a part may have, falls by an eighth with each pass.
pub fn choose(run: &mut [u32], m: usize)
    requires m_in_bounds { m < length run.old }
    requires run_len_bound { length run.old ≤ 65535 }
    ensures { Chosen run.old run.new m }
{
    let mut a: usize = 0;
    let mut e: usize = run.len();
    let mut lo: u32 = 0;
    let mut top: u32 = 0xffff_ffff;
    let mut pass: u32 = 0;
    let mut due = e + e / 4;
    while 8 < e - a && a < m && lo < top {
        let pivot = next_pivot(&run[a..e], m - a, lo, top, pass, due);
        let r = partition(run, a, e, pivot);
        if m < r {
            e = r;
            top = pivot - 1;
        } else {
            a = r;
            lo = pivot;
        }
        pass += 1;
        due -= due / 8;
    }
    finish(run, a, e, m);
}
