// Reads one sheet from standard input and prints the leaves, dwarf nodes, rounds and height of its contracted tree, then each node's
// record; or `refused`, number and place.
#![tactic(auto)]

ghost use Rattle.std.specs.Prelude.{◌≤◌, length, IfOk};

use outcome::Refusal;
use std::io;
use std::io::{ErrorKind, Read};

fn records(
    rt: &impl Print,
    kinds: &[u16],
    firsts: &[u16],
    seconds: &[u16],
    nodes: usize,
) -> io::Result<()> {
    for ((kind, first), second) in kinds.iter().zip(firsts).zip(seconds).take(nodes) {
        println!(rt; "{kind} {first} {second}")?;
    }
    Ok(())
}

fn list(rt: &impl Print, sheet: &[u8]) -> io::Result<()> {
    let mut kinds = [0u16; 3072];
    let mut firsts = [0u16; 3072];
    let mut seconds = [0u16; 3072];
    match job_build::build(false, b"", sheet, &mut kinds, &mut firsts, &mut seconds) {
        Ok(built) => {
            println!(rt;
                "{} {} {} {}",
                built.leaves, built.nodes, built.rounds, built.height
            )?;
            records(rt, &kinds, &firsts, &seconds, built.nodes)
        }
        Err(Refusal::Refused(fault) | Refusal::Unfit(fault)) => {
            println!(rt; "refused {} {}", fault.reason.number(), fault.place)
        }
    }
}

// Reads until the bytes are full or the input ends, and gives how many there are.
fn read_full(input: &mut impl Read, bytes: &mut [u8]) -> io::Result<usize>
    ensures { IfOk result (λ n. n ≤ length bytes.new) }
{
    let mut done: usize = 0;
    for _ in 0..u64::MAX {
        if done >= bytes.len() {
            break;
        }
        match input.read(&mut bytes[done..]) {
            Ok(0) => break,
            Ok(n) => done += n,
            Err(e) => {
                if e.kind() != ErrorKind::Interrupted {
                    return Err(e);
                }
            }
        }
    }
    Ok(done)
}

// A sheet has at most 13,062 bytes, and one byte more is as good as any number of them. A read or a write that fails ends the program with
// its error.
fn main(rt: HostRuntime) -> io::Result<()> {
    let mut bytes = [0u8; 13063];
    let n = read_full(&mut rt.stdin(), &mut bytes)?;
    list(&rt, &bytes[..n])
}
