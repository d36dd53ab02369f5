// The entries that two cameras share, as words for C.
ghost use Rattle.std.specs.Prelude.{◌≡◌, ◌<◌, get_or};
ghost use Rattle.cameras.specs.Words.{entry_in, entries_in, words_of, AreWords, camera_in};

use crate::{Camera, Entries, Entry};
use quantiser::Quantiser;

// Entry i of the words.
fn entry_in(words: &[u32; 128], i: usize) -> Entry
    requires { i < 16 }
    ensures { result ≡ entry_in words.now i }
{
    let at = 8 * i;
    Entry {
        bits: words[at],
        main: Quantiser {
            base: words[at + 1],
            weight: words[at + 2],
            total: words[at + 3],
            raw: words[at + 4],
            limit: words[at + 5],
        },
        one: words[at + 6] != 0,
        two: words[at + 7] != 0,
    }
}

pub fn entries_in(words: &[u32; 128]) -> Entries
    ensures { result.all ≡ entries_in words.now }
{
    Entries {
        all: [
            entry_in(words, 0),
            entry_in(words, 1),
            entry_in(words, 2),
            entry_in(words, 3),
            entry_in(words, 4),
            entry_in(words, 5),
            entry_in(words, 6),
            entry_in(words, 7),
            entry_in(words, 8),
            entry_in(words, 9),
            entry_in(words, 10),
            entry_in(words, 11),
            entry_in(words, 12),
            entry_in(words, 13),
            entry_in(words, 14),
            entry_in(words, 15),
        ],
    }
}

// Word k of an entry.
#[tactic(auto, unfolding(crate::specs::Words::words_of))]
fn word_of(e: Entry, k: usize) -> u32
    requires { k < 8 }
    ensures { result ≡ get_or (words_of e) k 0 }
{
    let m = e.main;
    let words = [
        e.bits,
        m.base,
        m.weight,
        m.total,
        m.raw,
        m.limit,
        u32::from(e.one),
        u32::from(e.two),
    ];
    words[k]
}

pub fn words_of(entries: Entries) -> [u32; 128]
    ensures { AreWords entries.all result }
{
    let mut words = [0u32; 128];
    for k in 0..128 {
        words[k] = word_of(entries.all[k / 8], k % 8);
    }
    words
}

// No `From`: only the C interface numbers the cameras, and takes each number but 1 for the second.
pub fn camera_in(number: u32) -> Camera
    ensures { result ≡ camera_in number }
{
    if number == 1 {
        Camera::One
    } else {
        Camera::Two
    }
}
