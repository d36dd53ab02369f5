// Item 1: why a block is not tight. It finds the spot and the reason of the first bad code. The function for C is in tight_diagnosis_c.
#![tactic(auto)]

ghost use Rattle.std.specs.Prelude.{◌≡◌, true, ◌^◌, ◌<◌, length, Ok, Some};
ghost use Rattle.image_map.specs.Inside.{Fits};
ghost use Rattle.pass_steps.specs.Contexts.{Depth};
ghost use Rattle.stream.specs.Streams.{open_of};
ghost use Rattle.read_block.specs.Walks.{Shown, shown_lines, IsWalked};
ghost use Rattle.read_block.specs.Words.{answer_words};
ghost use Rattle.tight_diagnosis.specs.Faults.{gives15, answer_at, fault_at, answer_of, fault_of, reason_word, spot_words, fault_words};

use bits::BitPosition;
use code::{BadSpot, Reason};
use image_map::{Part, Showing};
use read_block::{Form, Walked, cleared, form_of, line_count, no_part, walk};
use stream::{FujiHeader, Refusal};
use trace::Stop;

mod trace;

// Why a block is not tight: its first bad code; or its tail, with the number of lines and the first bit after the last code.
#[derive(Clone, Copy)]
pub enum Fault {
    Code(BadSpot),
    Tail(usize, BitPosition),
}

// ---- a block

fn gives_15(a: Result<(), Refusal>) -> bool
    ensures { result ≡ gives15 a }
{
    match a {
        Ok(()) => false,
        Err(x) => {
            let w = stream::refusal_words(x);
            w[0] == 15
        }
    }
}

// A walk with scratch of its own, for whoever has none to lend.
pub fn walk_alone(
    block: &[u8],
    bases: &[u8],
    image: &mut [u16],
    form: Form,
    tile: [u8; 36],
    part: Part,
    count: usize,
) -> Walked
    requires block_len_bound { (length block.now < 2 ^ 32) × (Depth form.bits × (count < 2 ^ 16)) }
    requires fits { Fits part image.old }
    ensures walked { IsWalked form bases.now block.now count result }
    ensures shown { Shown form bases.now block.now tile part (shown_lines result count) image.old image.new }
{
    let places = image_map::xtrans_places();
    let showing = Showing {
        xtrans: form.xtrans,
        places: &places,
        tile,
        part,
    };
    let mut lines = [0u16; 9252];
    let mut rs = [cleared(); 336];
    let used = admission::samples_needed(form.xtrans);
    walk(
        block,
        bases,
        &mut lines[0..used],
        &mut rs,
        image,
        form.bits,
        &showing,
        count,
        false,
        cameras::no_entries(),
    )
}

// What the tight reading answers for block b, with scratch of its own.
pub fn answer_at(d: &[u8], h: FujiHeader, b: usize) -> Result<(), Refusal>
    requires { (open_of d.now ≡ Ok h) × (h.lossless ≡ true) }
    ensures { result ≡ answer_at d.now h b }
{
    let form = form_of(h);
    let count = line_count(h);
    let block = stream::block_bytes(d, b);
    let bases = stream::base_row(d, b);
    let mut nothing = [0u16; 1];
    let got = walk_alone(
        block,
        bases,
        &mut nothing,
        form,
        [0u8; 36],
        no_part(),
        count,
    );
    let counted = read_block::tight_answer(block, form, b, count, got);
    counted.answer
}

// The fault of block b. Only a block that gives 15 is walked a second time.
pub fn fault_at(d: &[u8], h: FujiHeader, b: usize, answer: Result<(), Refusal>) -> Option<Fault>
    requires { (open_of d.now ≡ Ok h) × (answer ≡ answer_at d.now h b) }
    ensures { result ≡ fault_at d.now h b }
{
    if !gives_15(answer) {
        return None;
    }
    let form = form_of(h);
    let count = line_count(h);
    let block = stream::block_bytes(d, b);
    match trace::trace_block(block, form, count) {
        Err(Stop::Bad(x)) => Some(Fault::Code(x)),
        Err(Stop::CutOff) => None,
        Ok(end) => Some(Fault::Tail(count, end)),
    }
}

// ---- as words

// What the tight reading answers for block b of the stream d, with scratch of its own.
fn answer_of(d: &[u8], b: usize) -> Result<(), Refusal>
    ensures { result ≡ answer_of d.now b }
{
    let h = admission::block_begins(d, b, true, 9252, 336)?;
    answer_at(d, h, b)
}

fn fault_of(d: &[u8], b: usize, answer: Result<(), Refusal>) -> Option<Fault>
    requires { answer ≡ answer_of d.now b }
    ensures { result ≡ fault_of d.now b }
{
    let Ok(h) = admission::block_begins(d, b, true, 9252, 336) else {
        return None;
    };
    fault_at(d, h, b, answer)
}

fn reason_word(reason: Reason) -> usize
    ensures { result ≡ reason_word reason }
{
    match reason {
        Reason::Large => 1,
        Reason::Escape => 2,
        Reason::Zeros => 3,
    }
}

fn spot_words(x: BadSpot) -> [usize; 6]
    ensures { result ≡ spot_words x }
{
    let bit = x.at;
    let reason = x.reason;
    [
        x.line,
        x.pass,
        x.colour,
        x.position,
        bit.0 as usize,
        reason_word(reason),
    ]
}

fn fault_words(f: Option<Fault>) -> [usize; 6]
    ensures { result ≡ fault_words f }
{
    match f {
        None => [0; 6],
        Some(Fault::Code(x)) => spot_words(x),
        Some(Fault::Tail(lines, at)) => [lines, 0, 0, 0, at.0 as usize, 4],
    }
}

// Why block b is not tight: line, pass, colour line, position, first bit and reason of its first bad code, or line, bit and reason of its tail, all 0 where
// it does not give 15; and the words of what the tight reading answers.
pub fn bad_code(d: &[u8], b: usize, spot: &mut [usize; 6], refusal: &mut [usize; 4])
    ensures { (spot.new ≡ fault_words (fault_of d.now b)) ×
        (refusal.new ≡ answer_words (answer_of d.now b)) }
{
    let a = answer_of(d, b);
    *spot = fault_words(fault_of(d, b, a));
    *refusal = stream::refusal_in(&a);
}
