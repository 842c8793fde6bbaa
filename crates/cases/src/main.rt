// Reads cases from standard input, a line each, runs each through its job and prints the answer under the case's name. A line that is no
// case prints `malformed`. How a case is written stands at the top of the file `stdin`.
#![tactic(auto)]

ghost use Rattle.std.specs.Prelude.{◌≤◌, length, IfOk};

use case_answers::answering;
use case_lines::case;
use std::io;
use std::io::{ErrorKind, Read};

// A name goes up to the first colon. A line that begins with # says nothing.
fn run_line(rt: &impl Print, line: &[u8]) -> io::Result<()> {
    if line.is_empty() || line.starts_with(b"#") {
        return Ok(());
    }
    let Some(colon) = line.iter().position(|&byte| byte == b':') else {
        rt.write_all(line)?;
        return rt.write_all(b": malformed\n");
    };
    let (name, rest) = line.split_at(colon + 1);
    rt.write_all(name)?;
    match case::read(rest) {
        Some(case) => answering::answer(rt, &case)?,
        None => rt.write_all(b" malformed")?,
    }
    rt.write_all(b"\n")
}

fn run_all(rt: &impl Print, text: &[u8]) -> io::Result<()> {
    for line in text.split_inclusive(|&byte| byte == b'\n') {
        match line.strip_suffix(b"\n") {
            Some(line) => run_line(rt, line)?,
            None => rt.write_all(b"malformed: the last line has no end\n")?,
        }
    }
    Ok(())
}

// Reads until the bytes are full or the input ends, and gives how many there are.
fn read_full(input: &mut impl Read, bytes: &mut [u8]) -> io::Result<usize>
    ensures { IfOk result (λ n. n ≤ length bytes.new) }
{
    let mut done: usize = 0;
    for _ in 0..u64::MAX {
        if done >= bytes.len() {
            break;
        }
        match input.read(&mut bytes[done..]) {
            Ok(0) => break,
            Ok(n) => done += n,
            Err(e) => {
                if e.kind() != ErrorKind::Interrupted {
                    return Err(e);
                }
            }
        }
    }
    Ok(done)
}

// A read or a write that fails ends the program with its error.
fn main(rt: HostRuntime) -> io::Result<()> {
    let mut bytes = [0u8; 262144];
    let n = read_full(&mut rt.stdin(), &mut bytes)?;
    if n < bytes.len() {
        run_all(&rt, &bytes[..n])
    } else {
        rt.write_all(b"malformed: too many lines\n")
    }
}
