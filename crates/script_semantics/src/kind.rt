//! The command that a script is for.

use crate::script::Script;
use script_syntax::{LineText, text_of};
use std::alloc::{AllocError, Global};

/// The command that a script is for.
#[derive(Clone, Copy)]
pub(crate) enum Kind {
    /// `play`.
    Play,
    /// `serve`.
    Serve,
}

impl Kind {
    /// Returns the command that a script is for: `serve` where `wait`, `close` or `abandon` stands before each step of
    /// the device and each line that prints, else `play`. It fails where memory runs out.
    pub(crate) fn of(alloc: Global, script: &Script<'_>) -> Result<Kind, AllocError> {
        for line in script.lines.iter().skip(script.header) {
            let words = match text_of(alloc, line)? {
                LineText::Words(words) => words,
                LineText::Blank | LineText::NoText => continue,
            };
            let kind = match words.first() {
                Some(keyword) => Kind::of_line(keyword),
                None => None,
            };
            if let Some(kind) = kind {
                return Ok(kind);
            }
        }
        Ok(Kind::Play)
    }

    /// Makes the command that a line tells of, by its first word; `None` where both take such a line.
    fn of_line(keyword: &str) -> Option<Kind> {
        match keyword {
            "wait" | "close" | "abandon" => Some(Kind::Serve),
            "settle" | "fetch" | "enter" | "direct" | "put" | "take" | "prepare" | "commit" => {
                Some(Kind::Play)
            }
            "answer" | "leave" | "mark" | "check" | "answertmf" | "raise" | "ask" | "race" => {
                Some(Kind::Play)
            }
            "wake" | "resume" | "load" | "refuse" | "lose" | "give" | "keep" | "fail" | "deny" => {
                Some(Kind::Play)
            }
            "show" | "order" | "blocks" | "history" | "events" | "status" | "notices" => {
                Some(Kind::Play)
            }
            "wanted" | "given" | "stored" => Some(Kind::Play),
            _ => None,
        }
    }
}
