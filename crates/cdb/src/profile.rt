//! The profiles of commands.

/// The commands that a logical unit knows.
#[derive(Clone, Copy, Debug, PartialEq, Eq)]
pub enum Profile {
    /// The commands of a plain disk: reads, writes, and those that a driver asks to find out about it.
    Narrow,
    /// The commands of the narrow profile, some of which tell or do more, and further ones.
    Wide,
}
