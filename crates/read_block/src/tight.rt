// Readings of one block that show nothing: the ordinary one, of lossless and of lossy blocks, and the tight one.
ghost use Rattle.std.specs.Prelude.{◌≡◌, true, List, [], ℕ, ◌^◌, ◌<◌, length, Ok};
ghost use Rattle.colour_lines.specs.ColourLines.{zero_lines};
ghost use Rattle.image_map.specs.Places.{width_of};
ghost use Rattle.image_map.specs.Inside.{Fits};
ghost use Rattle.stream.specs.Streams.{open_of};
ghost use Rattle.read_block.specs.Records.{clear_records};
ghost use Rattle.read_block.specs.Walks.{IsWalked};
ghost use Rattle.read_block.specs.Images.{form_of, bytes_in, bases_in};
ghost use Rattle.read_block.specs.Lent.{Scratch};
ghost use Rattle.read_block.specs.Inside.{ScratchOf};
ghost use Rattle.read_block.specs.TightBlocks.{tight_answer};
ghost use Rattle.read_block.specs.Totals.{counted, refused_by};
ghost use Rattle.read_block.specs.Inside.{walked_counted};
ghost use Rattle.read_block.specs.BlockReadings.{tight_counted, LeftRead, LeftTight};

use crate::reading::walk;
use crate::{Counted, Form, Walked, form_of};
use bits::BitPosition;
use image_map::{Part, Showing};
use statistics::Record;
use stream::{FujiHeader, Refusal};

// A call that is refused before it reads has counted nothing.
pub fn refused(x: Refusal) -> Counted
    ensures { result ≡ refused_by x }
{
    let answer = Err(x);
    let totals = line_totals::none();
    Counted { answer, totals }
}

// What the ordinary reading answers for block b, once a walk over its lines has said this.
pub fn read_answer(b: usize, got: Walked) -> Counted
    ensures { result ≡ walked_counted b got }
{
    match got {
        Err((n, totals)) => {
            let answer = Err(Refusal::Truncated(b, n));
            Counted { answer, totals }
        }
        Ok((totals, _)) => {
            let answer = Ok(());
            Counted { answer, totals }
        }
    }
}

// What the tight reading answers for block b with the bytes s, once a walk over its lines has said this.
pub fn tight_answer(s: &[u8], form: Form, b: usize, count: usize, got: Walked) -> Counted
    requires { (length s.now < 2 ^ 32) × IsWalked form [] s.now count got }
    ensures { result ≡ counted form [] s.now count (tight_answer form b count s.now) }
{
    match got {
        Err((n, totals)) => {
            let answer = Err(Refusal::Truncated(b, n));
            Counted { answer, totals }
        }
        Ok((totals, tight)) => {
            if tight.lines < count {
                let answer = Err(Refusal::NotTight(tight.lines));
                let totals = tight.totals;
                return Counted { answer, totals };
            }
            let at = BitPosition(totals.bits);
            if bits::is_tail(s, at) {
                let answer = Ok(());
                return Counted { answer, totals };
            }
            let answer = Err(Refusal::NotTight(count));
            Counted { answer, totals }
        }
    }
}

// A part of no column and no row: a walk to it shows nothing.
pub fn no_part() -> Part
    ensures { (image : List ℕ) → Fits result image }
{
    Part {
        left: 0,
        right: 0,
        start: 0,
        stride: 1,
        top: 0,
        bottom: 0,
    }
}

pub fn line_count(h: FujiHeader) -> usize
    ensures { result ≡ h.lines }
{
    h.lines as usize
}

// One walk over block b, which shows nothing.
fn walk_block(d: &[u8], h: FujiHeader, b: usize, lines: &mut [u16], rs: &mut [Record]) -> Walked
    requires d_value { open_of d.now ≡ Ok h }
    requires scratch_of { ScratchOf h.xtrans lines.old rs.old }
    ensures walked { IsWalked (form_of h) (bases_in d.now b) (bytes_in d.now b) h.lines result }
    ensures lines_after { (lines.new ≡ zero_lines (width_of h.xtrans)) × (rs.new ≡ clear_records) }
{
    let count = line_count(h);
    let block = stream::block_bytes(d, b);
    let bases = stream::base_row(d, b);
    let places = image_map::xtrans_places();
    let showing = Showing {
        xtrans: h.xtrans,
        places: &places,
        tile: [0u8; 36],
        part: no_part(),
    };
    let mut nothing = [0u16; 1];
    walk(
        block,
        bases,
        lines,
        rs,
        &mut nothing,
        h.bits,
        &showing,
        count,
        false,
        cameras::no_entries(),
    )
}

// The ordinary reading of block b of the stream d, lossless or lossy. It writes nothing but scratch, of which only the first part is used.
pub fn read_block(d: &[u8], b: usize, lines: &mut [u16], rs: &mut [Record]) -> Counted
    ensures { let before : Scratch = record { lines = lines.old; records = rs.old } in
        let after : Scratch = record { lines = lines.new; records = rs.new } in
        LeftRead d.now b before after result }
{
    let begins = admission::block_begins(d, b, false, lines.len(), rs.len());
    match begins {
        Err(x) => refused(x),
        Ok(h) => {
            let used = admission::samples_needed(h.xtrans);
            let got = walk_block(d, h, b, &mut lines[0..used], &mut rs[0..336]);
            read_answer(b, got)
        }
    }
}

// What the tight reading answers for block b of the stream d.
fn tight_in(d: &[u8], h: FujiHeader, b: usize, got: Walked) -> Counted
    requires d_value { (open_of d.now ≡ Ok h) × (h.lossless ≡ true) }
    requires walked { IsWalked (form_of h) (bases_in d.now b) (bytes_in d.now b) h.lines got }
    ensures { result ≡ tight_counted d.now b h }
{
    let form = form_of(h);
    let count = line_count(h);
    let block = stream::block_bytes(d, b);
    tight_answer(block, form, b, count, got)
}

// The tight reading of block b: it accepts exactly the tight blocks. It writes nothing but scratch too.
pub fn read_tight(d: &[u8], b: usize, lines: &mut [u16], rs: &mut [Record]) -> Counted
    ensures { let before : Scratch = record { lines = lines.old; records = rs.old } in
        let after : Scratch = record { lines = lines.new; records = rs.new } in
        LeftTight d.now b before after result }
{
    let begins = admission::block_begins(d, b, true, lines.len(), rs.len());
    match begins {
        Err(x) => refused(x),
        Ok(h) => {
            let used = admission::samples_needed(h.xtrans);
            let got = walk_block(d, h, b, &mut lines[0..used], &mut rs[0..336]);
            tight_in(d, h, b, got)
        }
    }
}
