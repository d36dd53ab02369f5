// Item 1 for C: why a block is not tight. It is apart from fuji_compressed, and so an object of its own in the archive: in one object with the other
// functions for C the reader of a code would have a second caller, would not be inlined, and decoding would be slower.
#![tactic(auto)]

ghost use Rattle.std.specs.Prelude.{◌≡◌};
ghost use Rattle.read_block.specs.Words.{answer_words};
ghost use Rattle.tight_diagnosis.specs.Faults.{answer_of, fault_of, fault_words};

// `bad_code` for C: why block b is not tight. Line, pass, colour line, position, first bit and reason of its first bad code, or line, bit and reason of its
// tail, all 0 where it does not give 15; and the words of what the tight reading answers.
#[unsafe(no_mangle)]
pub extern "C" fn fuji_bad_code(d: &[u8], b: usize, spot: &mut [usize; 6], refusal: &mut [usize; 4])
    ensures { (spot.new ≡ fault_words (fault_of d.now b)) ×
        (refusal.new ≡ answer_words (answer_of d.now b)) }
{
    tight_diagnosis::bad_code(d, b, spot, refusal);
}
