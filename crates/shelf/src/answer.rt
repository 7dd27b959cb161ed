// What the program answers to a text: it reads the text, arranges the shelf, lists it against the region, and writes the answer.
ghost use Rattle.std.specs.Prelude.{◌≡◌, ◌≤◌, length};
ghost use Rattle.terms.specs.Lent.{order_of};
ghost use Rattle.terms.specs.LentValues.{stock_of, lent_faces};
ghost use Rattle.terms.specs.Live.{live_count};
ghost use Rattle.shelf.specs.Answer.{Listed as ListedShelf, Shelved, Answer, Writes};

use hornherder::arranging::arrange;
use hornherder::list::list;
use terms::lent::{Faces, Stock};
use terms::refusal::Refusal;
use text::input::{Sizes, read};
use text::output::{write_answer, write_refused};

// Writes the answer to a text, and says how many bytes it is. The faces of a text are closed, and its points all live.
// The arrays have room for the longest text and, with 16,384 bytes, the longest answer, since there is no heap.
pub fn answer(input: &[u8], out: &mut [u8]) -> usize
    requires { 16384 ≤ length out.old }
    ensures { Writes (Answer input.now) out.new result }
{
    let mut points = [0; 4608];
    let mut normals = [0; 576];
    let mut offsets = [0; 64];
    let closed = [0; 64];
    let live = [1; 512];
    let Some(Sizes { k, n, h }) = read(input, &mut points, &mut normals, &mut offsets) else {
        return write_refused(Refusal::Text.number(), out);
    };
    let stock = Stock {
        k,
        n,
        points: &points[..k * n],
        live: &live[..n],
    };
    let faces = Faces {
        h,
        normals: &normals[..k * h],
        offsets: &offsets[..h],
        marks: &closed[..h],
    };
    arrange_shelf(&stock, &faces, out)
}

// Arranges the shelf of the points and lists it, or writes the refusal of the arrange call.
fn arrange_shelf(stock: &Stock, faces: &Faces, out: &mut [u8]) -> usize
    requires n_bound { stock.now.n ≤ 512 }
    requires live_value { live_count stock.now.n stock.now.live.now ≡ stock.now.n }
    requires in_bounds { 16384 ≤ length out.old }
    ensures { Writes (Shelved (stock_of stock.now) (lent_faces faces.now)) out.new result }
{
    let mut order = [0; 512];
    match arrange(stock, &mut order) {
        Ok(_) => list_shelf(stock, &order, faces, out),
        Err(refusal) => write_refused(refusal.number(), out),
    }
}

// Lists a shelf and writes its order, the counts and the list, or the refusal of the list call.
fn list_shelf(stock: &Stock, order: &[u32], faces: &Faces, out: &mut [u8]) -> usize
    requires n_bound { stock.now.n ≤ 512 }
    requires live_value { live_count stock.now.n stock.now.live.now ≡ stock.now.n }
    requires n_in_bounds { stock.now.n ≤ length order.now }
    requires in_bounds { 16384 ≤ length out.old }
    ensures { Writes (ListedShelf (stock_of stock.now) (order_of order.now) (lent_faces faces.now)) out.new result }
{
    let mut places = [0; 512];
    match list(stock, order, faces, &mut places) {
        Ok(listed) => write_answer(&order[..stock.n], listed, &places[..stock.n], out),
        Err(refusal) => write_refused(refusal.number(), out),
    }
}
