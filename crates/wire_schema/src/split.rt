//! Parts of a schema, each of which is a crate by itself.
use crate::error::GenerateError;
use crate::graph::{filled, put_at};
use crate::schema::Schema;
use crate::words::Words;

impl Schema {
    /// Puts the types that are to be generated into parts of so many message types, each behind the
    /// parts that have what its messages hold, and answers how many there are. Those that hold one
    /// another are in one part, however many. An enum is in the first part that uses it. The home of
    /// each type is then the crate of its part.
    pub fn split(&mut self, of_crate: &str, most: usize) -> Result<usize, GenerateError> {
        let mut parts: usize = 1;
        let mut count: usize = 0;
        for together in self.held_first()? {
            if count > 0 && count.saturating_add(together.len()) > most {
                parts = parts.saturating_add(1);
                count = 0;
            }
            count = count.saturating_add(together.len());
            for place in together {
                self.put_into(place, parts)?;
            }
        }
        for of_enum in &mut self.enums {
            if of_enum.origin.is_own && of_enum.part == 0 {
                of_enum.part = 1;
            }
        }
        self.move_home(of_crate)?;
        Ok(parts)
    }

    /// Makes just the types of one part those that are to be generated.
    pub fn turn_to(&mut self, part: usize) {
        for message in &mut self.messages {
            message.origin.is_own = message.part == part && part > 0;
        }
        for of_enum in &mut self.enums {
            of_enum.origin.is_own = of_enum.part == part && part > 0;
        }
    }

    /// Which parts have what the messages of a part hold, but for itself: a flag for each part.
    pub fn parts_below(&self, part: usize, parts: usize) -> Result<Vec<bool>, GenerateError> {
        let mut below = filled(self.alloc, parts.saturating_add(1), false)?;
        for message in self.messages.iter().filter(|it| it.part == part) {
            for field in &message.descriptor.field {
                let held = self.held(field);
                let of_message = self.message(held).map(|it| it.part);
                let of_enum = self.enum_of(held).map(|it| it.part);
                let used = of_message.or(of_enum).unwrap_or(0);
                put_at(&mut below, used, used != part && used > 0);
            }
        }
        Ok(below)
    }

    // The types that are to be generated, those that hold one another together, and behind all that
    // they hold.
    fn held_first(&self) -> Result<Vec<Vec<usize>>, GenerateError> {
        let held = self.held_by_each()?;
        let components = held.components()?;
        let ends = held.ends()?;
        let mut last = filled(self.alloc, components.len(), 0)?;
        for (end, place) in ends.iter().enumerate() {
            if let Some(component) = components.get(*place) {
                put_at(&mut last, *component, end);
            }
        }
        let mut ordered: Vec<(usize, usize)> = Vec::new(self.alloc);
        for place in ends {
            let is_own = self.messages.get(place).is_some_and(|it| it.origin.is_own);
            let component = components.get(place).copied().unwrap_or(0);
            if is_own {
                ordered.push((last.get(component).copied().unwrap_or(0), place))?;
            }
        }
        ordered.sort()?;
        self.together(&ordered)
    }

    // The places of each run of equal keys.
    fn together(&self, ordered: &[(usize, usize)]) -> Result<Vec<Vec<usize>>, GenerateError> {
        let mut runs = Vec::new(self.alloc);
        let mut run = Vec::new(self.alloc);
        let mut last = None;
        for (key, place) in ordered {
            if last != Some(*key) && !run.is_empty() {
                runs.push(run)?;
                run = Vec::new(self.alloc);
            }
            last = Some(*key);
            run.push(*place)?;
        }
        if !run.is_empty() {
            runs.push(run)?;
        }
        Ok(runs)
    }

    // Puts a message type into a part, with the enums that none before it uses.
    fn put_into(&mut self, place: usize, part: usize) -> Result<(), GenerateError> {
        if let Some(message) = self.messages.get_mut(place) {
            message.part = part;
        }
        for used in self.enums_of(place)? {
            if let Some(of_enum) = self.enums.get_mut(used) {
                if of_enum.origin.is_own && of_enum.part == 0 {
                    of_enum.part = part;
                }
            }
        }
        Ok(())
    }

    // The places of the enums that a message type uses.
    fn enums_of(&self, place: usize) -> Result<Vec<usize>, GenerateError> {
        let mut places = Vec::new(self.alloc);
        if let Some(message) = self.messages.get(place) {
            for field in &message.descriptor.field {
                if let Some(used) = self.places.enum_of(self.held(field)) {
                    places.push(used)?;
                }
            }
        }
        Ok(places)
    }

    // Makes the crate of its part the home of each type.
    fn move_home(&mut self, of_crate: &str) -> Result<(), GenerateError> {
        let mut words = Words::new(self.alloc);
        for message in self.messages.iter_mut().filter(|it| it.part > 0) {
            set_part(&mut words, of_crate, message.part);
            message.words.set("home", words.get("part"));
        }
        for of_enum in self.enums.iter_mut().filter(|it| it.part > 0) {
            set_part(&mut words, of_crate, of_enum.part);
            of_enum.words.set("home", words.get("part"));
        }
        words.ended()
    }
}

/// Sets the word `part`, the crate of a part of this one.
pub fn set_part(words: &mut Words, of_crate: &str, part: usize) {
    words.set("whole", of_crate);
    words.index("number", part);
    words.fill("part", "$whole$_$number$");
}
