// Replay, a program: sequences of calls of a pump whose answers the original Rust gave. It counts the calls that were compared and those
// that differ in the answer or in the pump's position. The records are in answers.bin; rust/record-pump writes them and documents their
// layout.
#![tactic(auto)]

ghost use Rattle.std.specs.Prelude.{◌≤◌};

use bit_pump::BitPumpMsb;
use bits::BitPosition;
use replay_common::{Outcome, replay, word};
use std::io;

// The bytes of a record: the block's length, where the pump begins, 40 bytes for the block, and 24 calls of 20 bytes.
const RECORD: usize = 528;

#[derive(Clone, Copy)]
enum Kind {
    Peek,
    Get,
    Skip,
    AlignByte,
    Unknown,
}

impl From<u32> for Kind {
    fn from(number: u32) -> Self {
        match number {
            1 => Kind::Peek,
            2 => Kind::Get,
            3 => Kind::Skip,
            4 => Kind::AlignByte,
            _ => Kind::Unknown,
        }
    }
}

// What a call gave, and the pump's positions after it.
#[derive(Clone, Copy, PartialEq, Eq)]
struct Answer {
    value: u32,
    bits: u64,
    bytes: usize,
}

// A call of a pump, and what the original answered.
#[derive(Clone, Copy)]
struct Call {
    kind: Kind,
    n: u32,
    wanted: Answer,
}

impl From<&[u8]> for Call {
    fn from(call: &[u8]) -> Self {
        Call {
            kind: Kind::from(word(call, 0)),
            n: word(call, 4),
            wanted: Answer {
                value: word(call, 8),
                bits: u64::from(word(call, 12)),
                bytes: word(call, 16) as usize,
            },
        }
    }
}

// Makes a call. A call that gives nothing has the value 0; there is no unknown one, so that its 1 differs.
fn answered(pump: &mut BitPumpMsb<'_>, kind: Kind, n: u32) -> Answer {
    let value = match kind {
        Kind::Peek => pump.peek(n),
        Kind::Get => pump.get(n),
        Kind::Skip => {
            pump.skip(n);
            0
        }
        Kind::AlignByte => {
            pump.align_byte();
            0
        }
        Kind::Unknown => 1,
    };
    Answer {
        value,
        bits: pump.bit_position().0,
        bytes: pump.byte_position().0,
    }
}

// The 24 calls of a sequence, one after the other on the same pump: how many differ.
fn differing(mut pump: BitPumpMsb<'_>, calls: &[u8]) -> usize
    ensures { result ≤ 24 }
{
    calls
        .chunks_exact(20)
        .take(24)
        .map(Call::from)
        .filter(|call| answered(&mut pump, call.kind, call.n) != call.wanted)
        .count()
}

// A record that is cut off, or whose block is too long, differs in each call.
fn compare(record: &[u8]) -> Outcome {
    let size = word(record, 0) as usize;
    let differ = if record.len() == RECORD && size <= 40 {
        let at = BitPosition(u64::from(word(record, 4)));
        let pump = BitPumpMsb::at_bit(&record[8..8 + size], at);
        differing(pump, &record[48..])
    } else {
        24
    };
    Outcome {
        kind: 0,
        compared: 24,
        differ: differ as u64,
    }
}

fn main(rt: HostRuntime) -> io::Result<()> {
    replay::<RECORD, _, _>(
        &rt,
        "answers.bin",
        20_000,
        &["calls"],
        |record, _| Ok(compare(record)),
    )
}
