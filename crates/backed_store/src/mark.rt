//! What is known of a page that has a slot.

ghost use Rattle.std.specs.Prelude.{◌≡◌, ◌||◌, ◌&&◌, not, false, IsTrue};
ghost use Rattle.backed_store.specs.Changed.{changed, loaded, taken};

/// What is known of a page that has a slot.
#[derive(Clone, Copy)]
pub(crate) struct Mark {
    /// Its bytes are in memory.
    pub(crate) held: bool,
    /// They may differ from those that the host's storage has.
    pub(crate) dirty: bool,
    /// The host is to be asked for its bytes.
    pub(crate) wanted: bool,
    /// The host was asked for its bytes, and has not answered.
    pub(crate) reading: bool,
    /// The host was given its bytes, and has not answered.
    pub(crate) writing: bool,
    /// It is as the host was last given it.
    pub(crate) steady: bool,
    /// It stands in the queue of the pages to be written.
    pub(crate) listed: bool,
    /// It was used since it was last considered for eviction.
    pub(crate) used: bool,
    /// The number of the oldest change of it that the host's storage may lack.
    pub(crate) number: u64,
    /// The number of the first change of it since the host was given it.
    pub(crate) again: u64,
}

/// The mark of a page whose bytes the host's storage alone has.
pub(crate) const NOTHING: Mark = Mark {
    held: false,
    dirty: false,
    wanted: false,
    reading: false,
    writing: false,
    steady: false,
    listed: false,
    used: false,
    number: 0,
    again: 0,
};

impl Mark {
    /// Returns the mark of a page whose bytes were changed in memory by the change of a number.
    #[inline(always)]
    pub(crate) fn changed(self, number: u64) -> Mark
        ensures { result ≡ changed number self }
    {
        let again = if self.writing && self.steady {
            number
        } else {
            self.again
        };
        Mark {
            held: true,
            dirty: true,
            steady: false,
            used: true,
            again,
            ..self
        }
    }

    /// Returns the mark of a page whose bytes came from the host's storage.
    pub(crate) fn loaded(self) -> Mark
        ensures { result ≡ loaded self }
    {
        Mark {
            held: true,
            dirty: false,
            reading: false,
            steady: false,
            used: true,
            ..self
        }
    }

    /// Returns true if the host is to be given the page: it was changed, and no write of it is under way.
    pub(crate) fn is_due(self) -> bool
        ensures { result ≡ (self.held && (self.dirty && (self.listed && not self.writing))) }
    {
        self.held && self.dirty && self.listed && !self.writing
    }

    /// Returns the mark of a page that is out of the queue of those to be written, and given to the host if it is due.
    pub(crate) fn taken(self, due: bool) -> Mark
        ensures { result ≡ taken due self }
    {
        Mark {
            listed: false,
            writing: self.writing || due,
            steady: self.steady || due,
            ..self
        }
    }

    /// Returns true if nothing is known of the page: the host's storage alone has its bytes, and isn't asked for them.
    pub(crate) fn is_nothing(self) -> bool
        ensures held { IsTrue result → self.held ≡ false }
        ensures dirty { IsTrue result → self.dirty ≡ false }
        ensures writing { IsTrue result → self.writing ≡ false }
        ensures steady { IsTrue result → self.steady ≡ false }
        ensures wanted { IsTrue result → self.wanted ≡ false }
        ensures reading { IsTrue result → self.reading ≡ false }
    {
        let known = self.held || self.dirty || self.steady;
        !known && !self.writing && !self.wanted && !self.reading
    }

    /// Returns true if the host has something to do with the page, or it is about to be changed.
    pub(crate) fn is_busy(self) -> bool
        ensures { result ≡ (self.writing || self.reading || self.wanted || self.listed) }
    {
        self.writing || self.reading || self.wanted || self.listed
    }
}
