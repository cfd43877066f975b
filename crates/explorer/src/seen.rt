// Which states the images of a crash show.

/// Which states were seen: that before the run, one between that the case allows, that after the run, and any other.
#[derive(Clone, Copy)]
pub struct Seen {
    before: bool,
    between: bool,
    after: bool,
    other: bool,
}

/// What the watches print in the states that may be seen.
#[derive(Clone, Copy)]
pub struct States<'x> {
    pub before: &'x [u8],
    pub between: &'x [u8],
    pub after: &'x [u8],
}

impl Seen {
    pub const NOTHING: Seen = Seen {
        before: false,
        between: false,
        after: false,
        other: false,
    };

    /// Notes what the watches printed.
    pub fn note(&mut self, states: States<'_>, text: &[u8]) {
        if text == states.before {
            self.before = true;
        } else if text == states.after {
            self.after = true;
        } else if text == states.between {
            self.between = true;
        } else {
            self.other = true;
        }
    }

    /// What an opening has shown and a crash after it has taken back is another state.
    pub fn join(&mut self, kept: Seen) {
        self.other = self.other || kept.other;
    }

    /// Whether another state was seen than those that may be.
    pub fn is_wrong(self) -> bool {
        self.other
    }

    /// What was seen, in words.
    pub fn name(self) -> &'static str {
        if self.other {
            return "OTHER";
        }
        match (self.before, self.between, self.after) {
            (false, false, false) => "nothing",
            (true, false, false) => "before",
            (false, true, false) => "between",
            (false, false, true) => "after",
            (true, true, false) => "before or between",
            (true, false, true) => "before or after",
            (false, true, true) => "between or after",
            (true, true, true) => "before, between or after",
        }
    }
}
