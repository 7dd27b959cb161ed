// The program `shelf`: reads a text from standard input, answers it, and writes the answer to standard output.
#![tactic(auto)]

mod answer;
mod input;

use answer::answer;
use input::take_input;
use std::io;
use std::io::Write;

fn main(rt: HostRuntime) -> io::Result<()> {
    let mut text = [0u8; 32769];
    let Ok(taken) = take_input(&mut rt.stdin(), &mut text) else {
        return rt
            .stderr()
            .write_all(b"shelf: standard input cannot be read\n");
    };
    let mut out = [0u8; 16384];
    let written = answer(&text[..taken.count], &mut out);
    rt.stdout().write_all(&out[..written])
}
