// The shelf by its live bytes, one for each number: the order filled with the live numbers, and whether the slots hold live numbers only.
// That the bytes are few is asked where a number is made of a place.
ghost use Rattle.std.specs.Prelude.{◌≡◌, ◌≤◌, length};
ghost use Rattle.terms.specs.Tests.{every};
ghost use Rattle.terms.specs.Live.{is_live, live_count};
ghost use Rattle.terms.specs.Tree.{members};

// Whether number p is live.
fn is_live(live: &[u8], p: u32) -> bool
    ensures { result ≡ is_live (length live.now) live.now p }
{
    live.get(p as usize).is_some_and(|&byte| byte == 1)
}

// Whether every slot holds a live number. It is asked before any key is formed, since a dead number's coordinates may be any.
pub fn all_live(live: &[u8], order: &[u32]) -> bool
    ensures { result ≡ every (is_live (length live.now) live.now) order.now }
{
    order.iter().all(|&p| is_live(live, p))
}

// Fills the order, which has a slot for each, with the live numbers, rising. Every number is written, and a dead one is written over by the next, so
// that no branch is to be guessed. The last live number fills the last slot.
pub fn fill_live(live: &[u8], order: &mut [u32])
    requires live_len_bound { length live.now ≤ 65535 }
    requires order_len { length order.old ≡ live_count (length live.now) live.now }
    ensures { order.new ≡ members (is_live (length live.now) live.now) (length live.now) }
{
    let mut at: usize = 0;
    for (p, &byte) in live.iter().enumerate() {
        if at == order.len() {
            return;
        }
        order[at] = p as u32;
        if byte == 1 {
            at += 1;
        }
    }
}
