// Document 01, Bit reader: the pump over a block's bytes, which the original calls `BitPumpMsb`.
#![tactic(auto)]

ghost use Rattle.std.specs.Prelude.{◌≡◌, ◌+◌, ◌/◌, ◌^◌, ◌<◌, min, length};
ghost use Rattle.bits.specs.Bits.{zero_run};
ghost use Rattle.bits.specs.Inside.{after_run};
ghost use Rattle.bits.specs.Positions.{ahead, aligned};
ghost use Rattle.bit_pump.specs.Pump.{next_bits, moved_to};
ghost use Rattle.bit_pump.specs.Inside.{next_word};

use bits::{BitPosition, ByteOffset};

// A reader of a block's bits: its bytes, and the position of the next bit. Its functions are thin: each takes it apart and calls a function
// on the bytes and the position.
#[derive(Drop)]
pub struct BitPumpMsb<'a> {
    pub data: &'a [u8],
    pub at: BitPosition,
}

impl<'a> BitPumpMsb<'a> {
    // A pump at the block's first bit.
    pub fn new(data: &'a [u8]) -> Self
        ensures { (result.«data» ≡ «data».entry) × (result.at.0 ≡ 0) }
    {
        BitPumpMsb {
            data,
            at: BitPosition(0),
        }
    }

    // A pump at any bit, past the block's end too.
    pub fn at_bit(data: &'a [u8], at: BitPosition) -> Self
        ensures { (result.«data» ≡ «data».entry) × (result.at ≡ at) }
    {
        BitPumpMsb { data, at }
    }

    // The next n bits. A count above 32 is taken as 32.
    pub fn peek(&self, n: u32) -> u32
        ensures { result ≡ next_bits self.now n }
    {
        bits::peek_at(self.data, self.at, n)
    }

    // All bits that one load has: the next 57 or more, at the top of a word, or 0 where fewer than eight bytes are left. It takes the pump by value, so that
    // a pump made for it need not lie in memory.
    pub fn peek_word(self) -> u64
        ensures { result ≡ next_word self.entry }
    {
        bits::word_at(self.data, self.at)
    }

    // Moves on by n bits, any number of them.
    pub fn skip(&mut self, n: u32)
        ensures { self.new ≡ moved_to self.old (ahead self.old.at.0 n) }
    {
        self.at = self.at.ahead(n);
    }

    // The next n bits, and moves on past them. A count above 32 is taken as 32.
    pub fn get(&mut self, n: u32) -> u32
        ensures { (result ≡ next_bits self.old n)
            × (self.new ≡ moved_to self.old (ahead self.old.at.0 (min n 32))) }
    {
        let at = self.at;
        let v = bits::peek_at(self.data, at, n);
        self.at = bits::past(at, n);
        v
    }

    // The zeros up to the next one bit, and moves on past that bit. Where none is left it stays.
    pub fn zero_run(&mut self) -> Option<u64>
        requires { length self.old.«data».now < 2 ^ 58 }
        ensures { (result ≡ zero_run self.old.«data».now self.old.at.0)
            × (self.new ≡ moved_to self.old (after_run self.old.at.0 result)) }
    {
        // Read as a number, so that its range is known.
        let at = BitPosition(self.at.0);
        let run = bits::zero_run(self.data, at);
        self.at = bits::after_run(at, run);
        run
    }

    // The bits before the next one, from the block's first on.
    pub fn bit_position(&self) -> BitPosition
        ensures { result ≡ self.now.at }
    {
        self.at
    }

    // The bytes that they take, the last of them counted whole.
    pub fn byte_position(&self) -> ByteOffset
        ensures { result.0 ≡ (self.now.at.0 + 7) / 8 }
    {
        self.at.bytes()
    }

    // Moves on to where the next byte begins.
    pub fn align_byte(&mut self)
        ensures { self.new ≡ moved_to self.old (aligned self.old.at.0) }
    {
        self.at = self.at.aligned();
    }
}
