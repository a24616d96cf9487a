// The bench: records from standard input, a line for each to standard output.
#![tactic(auto)]

ghost use Rattle.std.specs.Prelude.{◌≤◌, length, IfOk};

use std::io;
use std::io::{Read, Write};

// One byte more than is taken.
const MOST: usize = 65_537;

// Input, until there is no more or the buffer is full: how many bytes of it are there. A loop of its own, since `read_to_end` needs a heap, and `read_exact`
// refuses an input that is shorter than the buffer.
fn read_full(input: &mut impl Read, s: &mut [u8]) -> io::Result<usize>
    ensures { IfOk result (λ n. n ≤ length s.new) }
{
    let mut n = 0;
    while n < s.len() {
        match input.read(&mut s[n..])? {
            0 => break,
            k => n += k,
        }
    }
    Ok(n)
}

// replay::ROOM, room for every text.
fn room() -> [u8; 786_544] {
    [0; 786_544]
}

fn main(rt: HostRuntime) -> io::Result<()> {
    let mut input = [0u8; MOST];
    let mut out = room();
    let n = read_full(&mut rt.stdin(), &mut input)?;
    match replay::replay(&input[..n], &mut out) {
        Ok(k) => rt.stdout().write_all(&out[..k]),
        Err(_) => Ok(()),
    }
}
