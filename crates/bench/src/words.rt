//! The work that the words of the command line name.

use crate::work::{KINDS, Kind, Work};
use ring_core::Form;

/// The numbers of requests that may be made available at once.
const DEPTHS: [u16; 9] = [1, 2, 4, 8, 16, 32, 64, 128, 256];

/// The most workers.
const MOST_WORKERS: u16 = 8;

/// Returns the kind of request that a word names.
fn kind_of(word: &str) -> Option<Kind> {
    for kind in KINDS {
        if kind.word() == word {
            return Some(kind);
        }
    }
    None
}

/// Returns the form of queue that a word names.
fn form_of(word: &str) -> Option<Form> {
    match word {
        "split" => Some(Form::Split),
        "packed" => Some(Form::Packed),
        _ => None,
    }
}

/// Returns the work that these words name: a kind, a form, a depth that is a power of two, rounds, and the number of
/// workers.
pub(crate) fn asked(words: &[String]) -> Option<Work> {
    let [kind, form, depth, rounds, workers] = words else {
        return None;
    };
    let depth = depth.parse::<u16>().ok()?;
    let workers = workers.parse::<u16>().ok()?;
    if !DEPTHS.contains(&depth) || workers > MOST_WORKERS {
        return None;
    }
    Some(Work {
        kind: kind_of(kind)?,
        form: form_of(form)?,
        depth,
        rounds: rounds.parse::<u64>().ok()?,
        workers,
    })
}
