//! The types of the rows: how a row names a value, and how it is shown.
use crate::row::Row;
use crate::said::Said;
use wire_codec::Message;
use wire_samples::{Gauge, Node, Person, Repeat, Rule, RuleTest};

/// How a message type of the rows is named and shown.
pub trait Sample: Drop {
    /// The value that a row names by its words, where it does.
    fn named(_row: &Row<'_>) -> Option<Self> {
        None
    }

    /// Says what it holds, of what it holds in turn the count.
    fn say(&self, said: &mut Said);
}

/// The value that a row names, by its words or by an encoding.
pub fn given<M: Sample + Message>(row: &Row<'_>, bytes: &[u8], said: &mut Said) -> Option<M> {
    match M::named(row) {
        Some(message) => Some(message),
        None => said.answered(M::decode_from_slice(said.alloc, bytes)),
    }
}

impl Sample for Person {
    fn say(&self, said: &mut Said) {
        said.show(&self.id);
        said.also(" ", &self.name);
        said.also(" ", &self.scores);
        said.also(" ", &self.unknown().len());
    }
}

impl Sample for Node {
    fn say(&self, said: &mut Said) {
        said.show(&self.value);
        said.also(" ", &self.child.is_some());
        said.also(" ", &self.children.len());
        said.also(" ", &self.group.is_some());
        said.also(" ", &self.unknown().len());
    }
}

impl Sample for Gauge {
    fn say(&self, said: &mut Said) {
        said.show(&self.level);
        said.also(" ", &self.unknown.len());
    }
}

impl Sample for Rule {
    fn say(&self, said: &mut Said) {
        said.show(&self.name);
        match &self.test {
            Some(RuleTest::Word(word)) => said.also(" ", word),
            Some(RuleTest::Not(rule)) => said.also(" not ", &rule.name),
            Some(RuleTest::Count(count)) => said.also(" ", count),
            None => said.word(" -"),
        }
        said.also(" ", &self.all.len());
        said.also(" ", &self.unknown.len());
    }
}

impl Sample for Repeat {
    fn named(row: &Row<'_>) -> Option<Repeat> {
        let times = row.number("times")?;
        let extra = row.number("extra").unwrap_or(false);
        Some(Repeat { times, extra })
    }

    fn say(&self, said: &mut Said) {
        said.show(&self.times);
        said.also(" ", &self.extra);
    }
}
