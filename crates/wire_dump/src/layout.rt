//! How lines are put.
ghost use Rattle.std.specs.Prelude.{◌≡◌, ◌+◌, ◌^◌, ◌<◌};
ghost use Rattle.wire_dump.specs.Dumped.{further_in};

/// How lines are put.
#[derive(Clone, Copy, Debug)]
pub(crate) struct Layout {
    /// Whether the places of the bytes that a line is of stand before it.
    pub(crate) has_offsets: bool,
    /// How far lines are indented.
    pub(crate) level: u32,
    /// How deep payloads are still read as messages.
    pub(crate) budget: u32,
}

/// How deep payloads are read as messages, and groups stand inside one another in them.
pub(crate) const BUDGET: u32 = 10;

/// What stands before a line: the places of its bytes, where they are shown.
#[derive(Clone, Copy, Debug)]
pub(crate) struct Margin {
    pub(crate) is_shown: bool,
    pub(crate) start: usize,
    pub(crate) end: usize,
}

impl Layout {
    /// Of lines so many levels further in, and of messages in payloads as protoc guesses them.
    pub(crate) fn new(has_offsets: bool, level: u32) -> Layout
        ensures { result ≡ record { has_offsets = has_offsets; level = level; budget = 10 } }
    {
        Layout::guessing(has_offsets, level, BUDGET)
    }

    /// Of lines so many levels further in, and of messages in payloads so deep.
    pub(crate) fn guessing(has_offsets: bool, level: u32, budget: u32) -> Layout
        ensures { result ≡ record { has_offsets = has_offsets; level = level; budget = budget } }
    {
        Layout {
            has_offsets,
            level,
            budget,
        }
    }

    /// So many levels further in.
    pub(crate) fn inside(self, count: u32) -> Layout
        requires { self.level + count < 2 ^ 32 }
        ensures { result ≡ further_in count self }
    {
        Layout {
            has_offsets: self.has_offsets,
            level: self.level + count,
            budget: self.budget.saturating_sub(count),
        }
    }

    /// What stands before a line of these bytes.
    pub(crate) fn margin(self, start: usize, end: usize) -> Margin
        ensures shown { result.is_shown ≡ self.has_offsets }
        ensures start { result.start ≡ start }
        ensures end { result.end ≡ end }
    {
        Margin {
            is_shown: self.has_offsets,
            start,
            end,
        }
    }
}
