// Reading the input in pieces as they come.
ghost use Rattle.std.specs.Prelude.{◌≡◌, ◌+◌, ◌≤◌, ◌<◌, length, take, IfOk};

use std::io;
use std::io::Read;

// What was read: how many bytes were taken, and how many of them the last read gave, which stays for
// the clause `last_value` of `take_input`.
#[derive(Drop)]
pub struct Taken {
    pub count: usize,
    pub last: usize,
}

// Makes one read into the places from `done` on, and answers how many bytes it put. Those before it stay as they are.
fn take_piece<R: Read>(input: &mut R, text: &mut [u8], done: usize) -> io::Result<usize>
    requires { done ≤ length text.old }
    ensures text_unchanged { take done text.new ≡ take done text.old }
    ensures count_in_bounds { IfOk result (λ count. done + count ≤ length text.old) }
{
    input.read(&mut text[done..])
}

// Reads until the text is full or a read gives nothing, which is how the input ends. A text that fills all places is longer than any that is
// allowed.
pub fn take_input<R: Read>(input: &mut R, text: &mut [u8]) -> io::Result<Taken>
    ensures count_in_bounds { IfOk result (λ taken. taken.count ≤ length text.old) }
    ensures last_value { IfOk result (λ taken. taken.count < length text.old → taken.last ≡ 0) }
{
    let mut done = 0;
    let mut last = 0;
    while done < text.len() {
        last = take_piece(input, text, done)?;
        if last == 0 {
            break;
        }
        done += last;
    }
    Ok(Taken { count: done, last })
}
