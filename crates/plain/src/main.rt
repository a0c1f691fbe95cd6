// Reads standard input to its end and prints how many bytes there were: what reading alone costs, beside `bench` (`make speed`). Proved safe, no more.
#![tactic(auto)]

use std::io::{self, Read};

// How many bytes are read until a read brings none, or fails. A proved loop has to end, so it counts its turns to a number that no run uses up.
fn count_bytes<R: Read>(from: &mut R, input: &mut [u8]) -> u64 {
    let mut bytes = 0u64;
    for _ in 0..u64::MAX {
        match from.read(input) {
            Ok(n) if n > 0 => bytes = bytes.wrapping_add(n as u64),
            _ => break,
        }
    }
    bytes
}

fn main(rt: HostRuntime) -> io::Result<()> {
    let mut input = [0u8; 65536];
    let bytes = count_bytes(&mut rt.stdin(), &mut input);
    println!(rt; "{bytes}")
}
