// Placing one number in the list. The list, the slots done and those inside are handed over one by one, here and to the copiers: a branch starts at the
// first it knows and has the last in its tally, so that a value of all three would only owe that they agree.
ghost use Rattle.std.specs.Prelude.{◌≤◌, ◌<◌, length};
ghost use Rattle.list_buffer.specs.Filled.{Placed};

// Writes one number to the list that its test says (what was found of it, and no switch), after those of the slots done so far, and says how many are inside now.
pub fn place(p: u32, test: bool, list: &mut [u32], done: usize, inside: usize) -> usize
    requires inside_le_done { inside ≤ done }
    requires done_in_bounds { done < length list.old }
    ensures { Placed list.old list.new p test done inside result }
{
    if test {
        list[inside] = p;
        return inside + 1;
    }
    let at = list.len() - (done - inside) - 1;
    list[at] = p;
    inside
}
