// Item 11: the 16 quantiser entries that two cameras share, one for each pair of depth and main base in use. Each call takes them and
// returns them.
#![tactic(auto)]

ghost use Rattle.std.specs.Prelude.{◌≡◌, ◌<◌, MatchOption};
ghost use Rattle.cameras.specs.Entries.{no_entry, no_entries, is_held, free_of, free_in, given_back, handed_back, AllNumbered};

use quantiser::Quantiser;

mod entry_words;
mod taking;

pub use entry_words::{camera_in, entries_in, words_of};
pub use taking::{after_block, base_of, is_stopped, main_in, mended, take_lines};

#[derive(Clone, Copy)]
pub enum Camera {
    One,
    Two,
}

// A depth, the main quantiser of a base, and who holds it.
#[derive(Clone, Copy)]
pub struct Entry {
    pub bits: u32,
    pub main: Quantiser,
    pub one: bool,
    pub two: bool,
}

#[derive(Clone, Copy)]
pub struct Entries {
    pub all: [Entry; 16],
}

pub fn no_entry() -> Entry
    ensures { result ≡ no_entry }
{
    Entry {
        bits: 0,
        main: Quantiser {
            base: 0,
            weight: 0,
            total: 0,
            raw: 0,
            limit: 0,
        },
        one: false,
        two: false,
    }
}

// Entries of which none is held.
pub fn no_entries() -> Entries
    ensures { (result.all ≡ no_entries) × AllNumbered result.all }
{
    Entries {
        all: [no_entry(); 16],
    }
}

pub fn is_held(e: Entry) -> bool
    ensures { result ≡ is_held e }
{
    e.one | e.two
}

// The lowest entry that nobody holds.
pub fn free_in(entries: Entries) -> Option<usize>
    ensures { MatchOption result (free_in entries.all ≡ 16) (λ j. (j ≡ free_in entries.all) × (j < 16)) }
{
    for (j, e) in entries.all.iter().enumerate() {
        if !is_held(*e) {
            return Some(j);
        }
    }
    None
}

fn free_of(camera: Camera, e: Entry) -> Entry
    ensures { result ≡ free_of camera e }
{
    match camera {
        Camera::One => Entry { one: false, ..e },
        Camera::Two => Entry { two: false, ..e },
    }
}

// What a call hands back: a refused one gives back all holds of its camera.
pub fn handed_back(camera: Camera, entries: Entries, refused: bool) -> Entries
    ensures { result.all ≡ handed_back camera refused entries.all }
{
    if refused {
        return end_stream(camera, entries);
    }
    entries
}

// The stream of this camera ends: all its holds go back.
pub fn end_stream(camera: Camera, entries: Entries) -> Entries
    ensures { result.all ≡ given_back camera entries.all }
{
    let mut after = entries;
    for i in 0..16 {
        after.all[i] = free_of(camera, after.all[i]);
    }
    after
}
