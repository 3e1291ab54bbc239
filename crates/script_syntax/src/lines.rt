//! A script as lines, and a line as words.

use std::alloc::{AllocError, Global};

/// Returns the lines of a script, in order. A `\n` ends a line; the last line may lack it. It fails where memory runs
/// out.
pub fn lines_of(alloc: Global, script: &[u8]) -> Result<Vec<&[u8]>, AllocError> {
    if script.is_empty() {
        return Ok(Vec::new(alloc));
    }
    script
        .strip_suffix(b"\n")
        .unwrap_or(script)
        .split(|byte| *byte == b'\n')
        .collect(alloc)
}

/// A line, before its words are looked at.
pub enum LineText<'a> {
    /// An empty line, spaces alone, or a comment: nothing is to be done.
    Blank,
    /// Its words, of which there is one at least.
    Words(Vec<&'a str>),
    /// It has a byte above 7f.
    NoText,
}

/// Returns a line, without its `\n`, as words, which spaces alone separate. A comment begins with `#` as its first
/// byte. It fails where memory runs out.
pub fn text_of(alloc: Global, line: &[u8]) -> Result<LineText<'_>, AllocError> {
    if !line.is_ascii() {
        return Ok(LineText::NoText);
    }
    let Ok(text) = str::from_utf8(line) else {
        return Ok(LineText::NoText);
    };
    if text.starts_with('#') {
        return Ok(LineText::Blank);
    }
    let words: Vec<&str> = text
        .split(' ')
        .filter(|word| !word.is_empty())
        .collect(alloc)?;
    if words.is_empty() {
        return Ok(LineText::Blank);
    }
    Ok(LineText::Words(words))
}
