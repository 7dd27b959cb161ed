// The copiers: a run of slots goes to the list as it stands, in front or backwards from behind. Each is a loop, since `copy_from_slice` would ask programs in
// C for one more name, `memmove`, and a run that is copied and then reversed is gone over twice.
ghost use Rattle.std.specs.Prelude.{◌≡◌, ◌+◌, ◌-◌, ◌≤◌, length};
ghost use Rattle.std.proofs.Math.Seq.{paste};
ghost use Rattle.list_buffer.specs.Filled.{paste_back};

// Writes a run that is inside to the list, after as many numbers as are inside so far.
pub fn copy_inside(run: &[u32], list: &mut [u32], inside: usize)
    requires { inside + length run.now ≤ length list.old }
    ensures { list.new ≡ paste list.old inside run.now (length run.now) }
{
    for (front, &number) in run.iter().enumerate() {
        list[inside + front] = number;
    }
}

// Writes a run that is outside to the list, backwards before those of the slots done so far that are not inside.
pub fn copy_outside(run: &[u32], list: &mut [u32], done: usize, inside: usize)
    requires inside_le_done { inside ≤ done }
    requires run_in_bounds { done + length run.now ≤ length list.old }
    ensures { list.new ≡ paste_back list.old (length list.old - (done - inside)) run.now (length run.now) }
{
    let end = list.len() - (done - inside);
    for (back, &number) in run.iter().enumerate() {
        list[end - 1 - back] = number;
    }
}
