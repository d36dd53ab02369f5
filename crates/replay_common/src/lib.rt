// Replays: what the four programs share: the numbers of a record, a tally of what was compared, the file of records, and what is printed. A
// program says only how one record is compared.
#![tactic(auto)]

ghost use Rattle.std.specs.Prelude.{◌^◌, ◌<◌, ◌≤◌, IfOk, length};

use std::io::Read;
use std::rt::Files;
use std::{array, io};

// Of one kind of record how many answers were compared and how many differ.
#[derive(Clone, Copy, Default)]
struct Count {
    compared: u64,
    differ: u64,
}

// The most kinds of record that a program has.
const KINDS: usize = 7;

// What a record gave: its kind, and how many of its answers were compared and how many differ.
#[derive(Clone, Copy)]
pub struct Outcome {
    pub kind: usize,
    pub compared: u64,
    pub differ: u64,
    pub ghost is_kind: { kind < 7 },
}

// For each kind of record what was compared.
#[derive(Drop)]
struct Tally {
    counts: [Count; KINDS],
}

impl Tally {
    // Nothing is compared yet.
    fn new() -> Self {
        Tally {
            counts: [Count::default(); KINDS],
        }
    }

    // Counts one record more. The first record of a kind that differs is named.
    fn count(&mut self, rt: &impl Print, number: u64, outcome: Outcome) -> io::Result<()> {
        let count = &mut self.counts[outcome.kind];
        if outcome.differ != 0 && count.differ == 0 {
            println!(rt; "differs: record {number}")?;
        }
        count.compared = count.compared.wrapping_add(outcome.compared);
        count.differ = count.differ.wrapping_add(outcome.differ);
        Ok(())
    }

    // A line for each kind that has a name.
    fn print(&self, rt: &impl Print, names: &[&str]) -> io::Result<()> {
        for (name, count) in names.iter().zip(&self.counts) {
            let compared = count.compared;
            let differ = count.differ;
            println!(rt; "{name}: {compared} compared, {differ} differ")?;
        }
        Ok(())
    }
}

// The N bytes that begin at byte i, with zeros for those past the end.
pub fn bytes<const N: usize>(s: &[u8], i: usize) -> [u8; N] {
    let rest = s.get(i..).unwrap_or(&[]);
    // At once where all of them are there, as they nearly always are.
    if let Some(there) = rest.get(..N) {
        let mut all = [0u8; N];
        all.copy_from_slice(there);
        return all;
    }
    array::from_fn(|k| rest.get(k).copied().unwrap_or(0))
}

// The numbers of 16, 32 and 64 bits that begin at byte i.
pub fn half(s: &[u8], i: usize) -> u16 {
    u16::from_be_bytes(bytes(s, i))
}

pub fn word(s: &[u8], i: usize) -> u32 {
    u32::from_be_bytes(bytes(s, i))
}

pub fn long(s: &[u8], i: usize) -> usize {
    usize::from_be_bytes(bytes(s, i))
}

// Compares the records of a file, at most so many, since nothing says that a file ends, and prints what came of it. Each begins with SIZE
// bytes; `compare` has those of them that there are, and the file for what follows them. A file that could not be opened is said so.
pub fn replay<const SIZE: usize, R, F>(
    rt: &R,
    path: &str,
    most: u64,
    names: &[&str],
    mut compare: F,
) -> io::Result<()>
where
    R: Files + Print + Eprint + AllocGlobal,
    F: FnMut(&[u8], &mut R::File) -> io::Result<Outcome>,
    requires fits { SIZE < 2 ^ 32 }
    requires callable { F.IsAlwaysCallable compare }
{
    let Some(mut file) = open(rt, path) else {
        return Ok(());
    };
    let mut tally = Tally::new();
    for number in 0..most {
        let mut record = [0u8; SIZE];
        let size = read_full(&mut file, &mut record)?;
        if size == 0 {
            break;
        }
        let outcome = compare(&record[..size], &mut file)?;
        tally.count(rt, number, outcome)?;
    }
    tally.print(rt, names)
}

// The file of records, opened; None where it could not be, and that was said.
fn open<R: Files + Eprint + AllocGlobal>(rt: &R, path: &str) -> Option<R::File> {
    match std::fs::open(rt, path) {
        Ok(file) => Some(file),
        Err(e) => {
            fail(rt, path, e);
            None
        }
    }
}

// Writes a line to standard error: what failed, a colon and the error's words.
fn fail(rt: &(impl Eprint + AllocGlobal), what: &str, e: io::Error) {
    let _ = match format!(in rt.alloc(); "{e}") {
        Ok(text) => {
            let words = unnumbered(text.as_str());
            eprintln!(rt; "{what}: {words}")
        }
        Err(_) => eprintln!(rt; "{what}: {e}"),
    };
}

// An error's words, without the number that std puts after those of the system.
fn unnumbered(text: &str) -> &str {
    match text.split_once(" (os error ") {
        Some((words, _)) => words,
        None => text,
    }
}

// Reads until buf is full or the file ends, and says how many bytes there are.
pub fn read_full(file: &mut impl Read, buf: &mut [u8]) -> io::Result<usize>
    ensures { IfOk result (λ n. n ≤ length buf.new) }
{
    // A `while`: each read says how many bytes it gave.
    let mut done = 0;
    while done < buf.len() {
        let n = file.read(&mut buf[done..])?;
        if n == 0 {
            return Ok(done);
        }
        done += n;
    }
    Ok(done)
}
