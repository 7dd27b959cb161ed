// The explain call.
ghost use Rattle.std.specs.Prelude.{◌≡◌, ◌<◌};
ghost use Rattle.terms.specs.Lent.{stock, order_of, faces};
ghost use Rattle.terms.specs.ExplainCall.{explaining, explain_answer};
ghost use Rattle.theory.specs.Reasons.{Named};

use terms::lent::{Faces, Stock};
use terms::{Explaining, Reason};

// The call of this name, for C.
#[unsafe(no_mangle)]
pub extern "C" fn hornherder_explain(
    k: usize,
    n: usize,
    h: usize,
    number: u32,
    points: &[i32],
    live: &[u8],
    order: &[u32],
    normals: &[i32],
    offsets: &[i64],
    marks: &[u8],
) -> Explaining
    ensures { result ≡ explain_answer (stock k n points.now live.now) (order_of order.now)
        (faces h normals.now offsets.now marks.now) number }
{
    let stock = Stock { k, n, points, live };
    let faces = Faces {
        h,
        normals,
        offsets,
        marks,
    };
    match hornherder::explain::explain(&stock, order, &faces, number) {
        Ok(reason) => explaining(reason),
        Err(refusal) => Explaining {
            code: refusal.number(),
            reason: 0,
            face: 0,
            slot: 0,
            margin: 0,
        },
    }
}

// The numbers and values that a reason is answered by. No `From`, which could not ask that slot and face have room in the answer (`Named`).
fn explaining(reason: Reason) -> Explaining
    requires { Named 65536 256 reason }
    ensures { result ≡ explaining reason }
{
    match reason {
        Reason::InsideWithBranch(slot) => answer(1, slot, 0, 0),
        Reason::InsideByItself(slot) => answer(2, slot, 0, 0),
        Reason::OutsideWithBranch(slot, face, margin) => answer(3, slot, face, margin),
        Reason::OutsideByItself(slot, face, margin) => answer(4, slot, face, margin),
    }
}

// The answer of a call that is done.
fn answer(reason: u8, slot: usize, face: usize, margin: i64) -> Explaining
    requires slot_bound { slot < 65536 }
    requires face_bound { face < 256 }
    ensures { result ≡ record { code = 0; reason = reason; face = face; slot = slot; margin = margin } }
{
    Explaining {
        code: 0,
        reason,
        face: face as u8,
        slot: slot as u16,
        margin,
    }
}
