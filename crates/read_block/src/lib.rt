// Document 01, Pass and line, and Region; Items 6, 8 and 11: blocks are read, decoded into an image, and read tightly. The types of the
// answers are here, the functions in a module for each role.
#![tactic(auto)]

ghost use Rattle.std.specs.Prelude.{◌≡◌};
ghost use Rattle.read_block.specs.Images.{form_of};

use cameras::Entries;
use code::Place;
use line_totals::{TightLines, Totals};
use stream::{FujiHeader, Refusal};

pub mod decoding;
pub mod reading;
pub mod records;
pub mod sharing;
pub mod tight;

pub use decoding::{decode, decode_region, decode_region_windowed};
pub use reading::{is_restarted, quantisers_of, read_lines, start_place, walk};
pub use records::{
    clear_records, cleared, load_set, restart_main, start_record, start_records, store_set, update,
};
pub use sharing::decode_region_shared;
pub use tight::{line_count, no_part, read_answer, read_block, read_tight, refused, tight_answer};

#[derive(Clone, Copy)]
pub struct Form {
    pub bits: u32,
    pub xtrans: bool,
}

// What was counted of all lines, and of those, from the first on, that have only tight codes; or the first line that is truncated, and what was
// counted before it.
pub type Walked = Result<(Totals, TightLines), (usize, Totals)>;

// What decoding for a camera answers, and the entries after it.
#[derive(Clone, Copy)]
pub struct SharedAnswer {
    pub answer: Result<(), Refusal>,
    pub entries: Entries,
}

// What the reading of one block answers, and what it counted.
#[derive(Clone, Copy)]
pub struct Counted {
    pub answer: Result<(), Refusal>,
    pub totals: Totals,
}

pub fn form_of(h: FujiHeader) -> Form
    ensures { result ≡ form_of h }
{
    Form {
        bits: h.bits,
        xtrans: h.xtrans,
    }
}
