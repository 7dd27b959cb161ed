// Writing what the program answers: each function writes to the front of the output, and answers how many bytes it wrote. The two that other crates call
// take a slice with room enough, as they did: an array of so many bytes would ask more of a caller.
ghost use Rattle.std.specs.Prelude.{◌+◌, ◌*◌, ◌≤◌, length};
ghost use Rattle.text.specs.Decimal.{decimal};
ghost use Rattle.text.specs.Printing.{Put, PutItems, PutLine, Printed};
ghost use Rattle.text.specs.Answer.{answer_text, refused_text};

use itoa::Buffer;
use terms::answers::Listed;

// Writes a word.
fn write_word(word: &[u8], out: &mut [u8]) -> usize
    requires { length word.now ≤ length out.old }
    ensures { Put out.old out.new 0 result word.now }
{
    out[..word.len()].copy_from_slice(word);
    word.len()
}

// Writes the decimal digits of a number.
fn write_decimal(n: u32, out: &mut [u8]) -> usize
    requires { length (decimal n) ≤ length out.old }
    ensures { Put out.old out.new 0 result (decimal n) }
{
    let mut digits = Buffer::new();
    write_word(digits.format(n).as_bytes(), out)
}

// Writes numbers, a space in front of each. The place is kept by hand, since a number takes as many bytes as it has digits.
fn write_items(numbers: &[u32], out: &mut [u8]) -> usize
    requires { 11 * length numbers.now ≤ length out.old }
    ensures { PutItems out.old out.new 0 result (length numbers.now) numbers.now }
{
    let mut next = 0;
    for number in numbers {
        out[next] = b' ';
        next += 1;
        next += write_decimal(*number, &mut out[next..]);
    }
    next
}

// Writes a line, a word and numbers.
fn write_line(word: &[u8], numbers: &[u32], out: &mut [u8]) -> usize
    requires { length word.now + (11 * length numbers.now + 1) ≤ length out.old }
    ensures { PutLine out.old out.new 0 result word.now (length numbers.now) numbers.now }
{
    let front = write_word(word, out);
    let end = front + write_items(numbers, &mut out[front..]);
    out[end] = b'\n';
    end + 1
}

// Writes what is printed on a refusal.
pub fn write_refused(number: u32, out: &mut [u8]) -> usize
    requires { 16384 ≤ length out.old }
    ensures { Printed out.new result (refused_text number) }
{
    write_line(b"refused", &[number], out)
}

// Writes what is printed when the calls are done.
pub fn write_answer(order: &[u32], counts: Listed, list: &[u32], out: &mut [u8]) -> usize
    requires order_bound { length order.now ≤ 512 }
    requires list_bound { length list.now ≤ 512 }
    requires room { 16384 ≤ length out.old }
    ensures { Printed out.new result (answer_text order.now counts.inside counts.outside counts.visits list.now) }
{
    let counts = [counts.inside, counts.outside, counts.visits];
    let first = write_line(b"order", order, out);
    let second = first + write_line(b"count", &counts, &mut out[first..]);
    second + write_line(b"list", list, &mut out[second..])
}
