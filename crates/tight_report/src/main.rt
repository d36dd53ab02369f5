// Item 1, the program: reads a stream from standard input, at most its first 65,536 bytes, and writes why it is not tight: a heading and
// at most one record, or the number of a refusal. The text is that of `tight_findings::report`. If a read fails it says so on standard
// error and gives no verdict; a read that a signal interrupted is made again. If the input was longer it says on standard error that it
// was cut. Write errors are ignored.
#![tactic(auto)]

ghost use Rattle.std.specs.Prelude.{◌≤◌, IfOk, length};

use std::io;
use std::io::{ErrorKind, Read};

// How often an interrupted read is made again before it counts as one that failed: a program has to end.
const TRIES: u32 = 1_000_000;

// One read, made again while a signal interrupts it. It gives 0 bytes at the end of the input.
fn read_once(input: &mut impl Read, buf: &mut [u8]) -> io::Result<usize>
    ensures { IfOk result (λ n. n ≤ length buf.new) }
{
    for _ in 0..TRIES {
        match input.read(buf) {
            Ok(n) => return Ok(n),
            Err(e) => {
                if e.kind() != ErrorKind::Interrupted {
                    return Err(e);
                }
            }
        }
    }
    Err(io::Error::from(ErrorKind::Interrupted))
}

// Reads until buf is full or the input ends, and says how many bytes there are.
fn read_all(input: &mut impl Read, buf: &mut [u8]) -> io::Result<usize>
    ensures { IfOk result (λ n. n ≤ length buf.new) }
{
    // A `while`: each read says how many bytes it gave.
    let mut done: usize = 0;
    while done < buf.len() {
        let n = read_once(input, &mut buf[done..])?;
        if n == 0 {
            return Ok(done);
        }
        done += n;
    }
    Ok(done)
}

// Writes the report on these bytes.
fn say(rt: &impl Print, stream: &[u8]) {
    let mut text = [0u8; 256];
    let k = tight_findings::report(stream, &mut text);
    let _ = rt.write_all(&text[..k]);
}

// Writes the report on the first n bytes.
fn say_first(rt: &impl Print, stream: &[u8], n: usize)
    requires { n ≤ length stream.now }
{
    say(rt, &stream[..n]);
}

// Says so where the input goes on.
fn say_if_longer(rt: &impl Eprint, input: &mut impl Read) {
    let mut next = [0u8; 1];
    if let Ok(n) = read_once(input, &mut next) {
        if n != 0 {
            let _ = eprintln!(rt;
                "tight_report: the input is longer than 65,536 bytes, and only these were read"
            );
        }
    }
}

// An error's words, without the number that std puts after those of the system.
fn unnumbered(text: &str) -> &str {
    match text.split_once(" (os error ") {
        Some((words, _)) => words,
        None => text,
    }
}

// Says that no byte is judged, and why.
fn fail(rt: &(impl Eprint + AllocGlobal), e: io::Error) {
    let what = "tight_report: standard input cannot be read, so that nothing is said of it";
    let _ = match format!(in rt.alloc(); "{e}") {
        Ok(text) => {
            let words = unnumbered(text.as_str());
            eprintln!(rt; "{what}: {words}")
        }
        Err(_) => eprintln!(rt; "{what}: {e}"),
    };
}

fn main(rt: HostRuntime) {
    let mut input = rt.stdin();
    let mut stream = [0u8; 65536];
    match read_all(&mut input, &mut stream) {
        Ok(n) => {
            say_first(&rt, &stream, n);
            say_if_longer(&rt, &mut input);
        }
        Err(e) => fail(&rt, e),
    }
}
