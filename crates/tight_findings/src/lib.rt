// Item 1: the lowest block of a stream that is not tight, its spot and reason, and the text of the report.
#![tactic(auto)]

ghost use Rattle.std.specs.Prelude.{◌≡◌, true, ◌++◌, ◌+◌, length, drop, Ok};
ghost use Rattle.io.specs.Counts.{IsPrefixLen};
ghost use Rattle.stream.specs.Streams.{open_of};
ghost use Rattle.tight_findings.specs.Findings.{lowest, finding_of};
ghost use Rattle.tight_findings.specs.Texts.{text_of};

use stream::{FujiHeader, Refusal};
use tight_diagnosis::{Fault, answer_at, fault_at};

mod text;

// ---- a stream

// The lowest block that has a fault, and the fault.
fn find_in(d: &[u8], h: FujiHeader) -> Option<(usize, Fault)>
    requires { (open_of d.now ≡ Ok h) × (h.lossless ≡ true) }
    ensures { result ≡ lowest d.now h h.blocks }
{
    let blocks = h.blocks as usize;
    for b in 0..blocks {
        let answer = answer_at(d, h, b);
        if let Some(fault) = fault_at(d, h, b, answer) {
            return Some((b, fault));
        }
    }
    None
}

// What is found in the stream d: it is refused; no block gives 15; or the lowest that does, and why.
pub fn find(d: &[u8]) -> Result<Option<(usize, Fault)>, Refusal>
    ensures { result ≡ finding_of d.now }
{
    let h = stream::open(d)?;
    if h.lossless {
        return Ok(find_in(d, h));
    }
    Err(Refusal::Lossy)
}

// ---- the report

// What the operator is told of the stream d: its text at the start of a buffer, and how long it is.
pub fn report(d: &[u8], out: &mut [u8; 256]) -> usize
    ensures fact { let text = text_of (finding_of d.now) in
        (result ≡ length text) × (out.new ≡ text ++ drop result out.old) }
    ensures prefix_len { IsPrefixLen result out.new }
{
    let f = find(d);
    text::put_finding(out, f)
}
