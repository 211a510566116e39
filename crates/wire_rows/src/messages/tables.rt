//! The messages that are tables of fields, and how each is shown.
use super::sample::Sample;
use crate::said::{Hex, Said};
use wire_meter::Meter;
use wire_pulse::Pulse;
use wire_tables::{Call, Card, CardContact, Counter, Expression, Ledger, Profile, Reading, Signal};

impl Sample for Counter {
    fn say(&self, said: &mut Said) {
        said.show(&self.count);
        said.also(" ", &self.unknown.len());
    }
}

// What stands in a list of counters.
fn say_counts(counters: &[Counter], said: &mut Said) {
    said.word(" of");
    for counter in counters {
        said.also(" ", &counter.count);
    }
}

impl Sample for Profile {
    fn say(&self, said: &mut Said) {
        said.show(&self.id);
        said.also(" ", &self.name);
        said.also(" ", &Hex(&self.picture));
        said.also(" ", &self.color);
        said.also(" ", &self.motto);
        match &self.visits {
            Some(visits) => said.also(" ", &visits.count),
            None => said.word(" none"),
        }
        say_counts(&self.counters, said);
        said.also(", ", &self.unknown.len());
    }
}

impl Sample for Reading {
    fn say(&self, said: &mut Said) {
        said.show(&self.ratio.get());
        if let Some(total) = self.total {
            said.also(" ", &total.get());
        }
        said.also(" ", &self.valid);
        said.also(" ", &self.level);
        said.also(" ", &self.steps);
        said.also(" ", &self.stamps);
        said.also(" ", &self.notes);
        said.also(" ", &self.reset.is_some());
        say_counts(&self.resets, said);
        said.also(", ", &self.offset);
        said.also(" ", &self.unknown.len());
    }
}

// Of visits their count is shown, and how many unknown fields they have.
impl Sample for Card {
    fn say(&self, said: &mut Said) {
        said.show(&self.name);
        match &self.contact {
            Some(CardContact::Visits(visits)) => {
                said.also(" Some(Visits(", &visits.count);
                said.also(", ", &visits.unknown.len());
                said.word("))");
            }
            contact => said.also(" ", contact),
        }
        said.also(" ", &self.unknown.len());
    }
}

impl Sample for Meter {
    fn say(&self, said: &mut Said) {
        said.show(&self.total);
        said.also(" ", &self.steps);
        said.also(" ", &self.unknown.len());
    }
}

impl Sample for Pulse {
    fn say(&self, said: &mut Said) {
        said.show(&self.beats);
    }
}

impl Sample for Ledger {
    fn say(&self, said: &mut Said) {
        said.show(&self.counts);
        said.also(" ", &self.names);
        for (short, visits) in &self.visits {
            said.also(" ", short);
            said.also(":", &visits.count);
        }
        said.also(" ", &self.unknown.len());
    }
}

impl Sample for Signal {
    fn say(&self, said: &mut Said) {
        said.show(&self.level);
        said.also(" ", &self.history);
        said.also(" ", &self.marks);
        said.also(" ", &self.cause);
        if !self.by_name.is_empty() || !self.by_place.is_empty() {
            said.also(" ", &self.by_name);
            said.also(" ", &self.by_place);
        }
        said.also(" ", &self.unknown.len());
    }
}

impl Sample for Expression {
    fn say(&self, said: &mut Said) {
        said.show(&self.value);
        if let Some(call) = &self.call {
            said.word(" ");
            call.say(said);
        }
        said.also(" ", &self.unknown.len());
    }
}

impl Sample for Call {
    fn say(&self, said: &mut Said) {
        said.show(&self.name);
        said.also(" ", &self.arguments.len());
        said.also(" ", &self.receiver.is_some());
        said.also(" ", &self.unknown.len());
    }
}
