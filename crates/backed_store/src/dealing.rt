//! What a store gave its host, and what the host kept.

/// The bytes of a page, as they were given to the host to be written.
#[derive(Drop)]
pub struct GivenPage {
    /// The page: its first block's number by 8.
    pub page: u64,
    /// The bytes of its 8 blocks.
    pub bytes: Vec<u8>,
}

/// What a store and its host did with a page. Proofs alone read it.
#[derive(Drop)]
pub enum Dealing {
    /// The host was given the page to write.
    Given(GivenPage),
    /// The host wrote the page as it was last given it, so that a crash leaves it.
    Kept(u64),
    /// The host said that it can't read the page.
    Lost(u64),
    /// The host said that it can't write the page.
    Denied(u64),
    /// The host handed in the bytes of the page.
    Loaded(u64),
    /// The host cut its storage off at a block: from there on it has zeros.
    Cut(u64),
}
