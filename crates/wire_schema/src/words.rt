//! Named words, and templates that are filled with them.
use crate::error::GenerateError;
use crate::names::order_key;
use std::alloc::Global;

/// Texts by their names. A name between two `$` of a template stands for the word of that name, and
/// for nothing where there is none. Want of memory is told at the end, by `ended`.
#[derive(Drop)]
pub struct Words {
    alloc: Global,
    words: Vec<Word>,
    is_short: bool,
}

#[derive(Drop)]
struct Word {
    name: &'static str,
    text: String,
}

/// The name of a word, and a template.
pub type Template = (&'static str, &'static str);

impl Words {
    /// No words.
    pub fn new(alloc: Global) -> Words {
        Words {
            alloc,
            words: Vec::new(alloc),
            is_short: false,
        }
    }

    /// The words of another.
    pub fn like(others: &Words) -> Words {
        let mut words = Words::new(others.alloc);
        words.set_all(others);
        words
    }

    pub fn alloc(&self) -> Global {
        self.alloc
    }

    pub fn get(&self, name: &str) -> &str {
        match self.words.get(self.place(name)) {
            Some(word) => &word.text,
            None => "",
        }
    }

    /// Makes a text the word of this name.
    pub fn set(&mut self, name: &'static str, text: &str) {
        match String::from_str(self.alloc, text) {
            Ok(text) => self.put(name, text),
            Err(_) => self.is_short = true,
        }
    }

    /// Takes all words of another.
    pub fn set_all(&mut self, others: &Words) {
        self.is_short |= others.is_short;
        for word in &others.words {
            self.set(word.name, &word.text);
        }
    }

    /// Takes these words of another, and with them its want of memory.
    pub fn copy(&mut self, others: &Words, names: &'static [&'static str]) {
        self.is_short |= others.is_short;
        for name in names {
            self.set(name, others.get(name));
        }
    }

    /// Makes the digits of a number the word of this name.
    pub fn number(&mut self, name: &'static str, number: i32) {
        match number.to_string(self.alloc) {
            Ok(text) => self.put(name, text),
            Err(_) => self.is_short = true,
        }
    }

    /// Makes the digits of a place in a list the word of this name.
    pub fn index(&mut self, name: &'static str, index: usize) {
        match index.to_string(self.alloc) {
            Ok(text) => self.put(name, text),
            Err(_) => self.is_short = true,
        }
    }

    /// Makes a filled template the word of this name.
    pub fn fill(&mut self, name: &'static str, template: &str) {
        let mut text = String::new(self.alloc);
        self.put_filled(template, &mut text);
        self.put(name, text);
    }

    /// Puts a filled template behind the word of this name.
    pub fn append(&mut self, name: &'static str, template: &str) {
        let mut text = self.take(name);
        self.put_filled(template, &mut text);
        self.put(name, text);
    }

    /// Makes each filled template the word of its name, one after another.
    pub fn fill_all(&mut self, templates: &'static [Template]) {
        for (name, template) in templates {
            self.fill(name, template);
        }
    }

    /// Puts each filled template behind the word of its name, one after another.
    pub fn append_all(&mut self, templates: &'static [Template]) {
        for (name, template) in templates {
            self.append(name, template);
        }
    }

    /// Moves each line of the word that is not empty two columns to the right.
    pub fn indent(&mut self, name: &'static str) {
        self.move_lines(name, "  ");
    }

    /// The same of all but the first line.
    pub fn indent_rest(&mut self, name: &'static str) {
        self.move_lines(name, "");
    }

    fn move_lines(&mut self, name: &'static str, first: &str) {
        let text = self.take(name);
        let mut moved = String::new(self.alloc);
        let mut is_first = true;
        for line in text.split('\n') {
            let margin = if is_first { first } else { "  " };
            self.push(if is_first { "" } else { "\n" }, &mut moved);
            self.push(if line.is_empty() { "" } else { margin }, &mut moved);
            self.push(line, &mut moved);
            is_first = false;
        }
        self.put(name, moved);
    }

    /// Takes the word out.
    pub fn take(&mut self, name: &str) -> String {
        let place = self.place(name);
        let empty = String::new(self.alloc);
        match self.words.get_mut(place) {
            Some(word) => std::mem::replace(&mut word.text, empty),
            None => empty,
        }
    }

    /// The lines of a text in order, each once, and no empty ones.
    pub fn sorted<'a>(&mut self, text: &'a str) -> Vec<&'a str> {
        let mut lines: Vec<&'a str> = Vec::new(self.alloc);
        for line in text.split('\n') {
            if !line.is_empty() && lines.push(line).is_err() {
                self.is_short = true;
            }
        }
        if lines.sort().is_err() {
            self.is_short = true;
        }
        lines.dedup();
        lines
    }

    /// The same in the order of the formatter.
    pub fn ordered<'a>(&mut self, text: &'a str) -> Vec<&'a str> {
        let mut keyed: Vec<(String, &'a str)> = Vec::new(self.alloc);
        for line in self.sorted(text) {
            match order_key(self.alloc, line) {
                Ok(key) => self.is_short |= keyed.push((key, line)).is_err(),
                Err(_) => self.is_short = true,
            }
        }
        self.is_short |= keyed.sort().is_err();
        let mut lines: Vec<&'a str> = Vec::new(self.alloc);
        for (_, line) in keyed {
            self.is_short |= lines.push(line).is_err();
        }
        lines
    }

    /// A refusal in the words of a template.
    pub fn refused(&mut self, template: &str) -> GenerateError {
        self.fill("refusal", template);
        match self.ended() {
            Ok(()) => GenerateError::Refused(self.take("refusal")),
            Err(error) => error,
        }
    }

    /// Whether memory sufficed for all that was asked so far.
    pub fn ended(&self) -> Result<(), GenerateError> {
        if self.is_short {
            return Err(GenerateError::OutOfMemory);
        }
        Ok(())
    }

    /// The word of this name, where memory sufficed.
    pub fn finish(&mut self, name: &str) -> Result<String, GenerateError> {
        self.ended()?;
        Ok(self.take(name))
    }

    fn put(&mut self, name: &'static str, text: String) {
        let place = self.place(name);
        match self.words.get_mut(place) {
            Some(word) => word.text = text,
            None => self.add(Word { name, text }),
        }
    }

    fn add(&mut self, word: Word) {
        self.is_short |= self.words.push(word).is_err();
    }

    // Where the word of this name is: behind all, where there is none.
    fn place(&self, name: &str) -> usize {
        for (place, word) in self.words.iter().enumerate() {
            if word.name == name {
                return place;
            }
        }
        self.words.len()
    }

    fn put_filled(&mut self, template: &str, text: &mut String) {
        let mut is_name = false;
        for part in template.split('$') {
            let part = if is_name { self.get(part) } else { part };
            if text.push_str(part).is_err() {
                self.is_short = true;
            }
            is_name = !is_name;
        }
    }

    fn push(&mut self, part: &str, text: &mut String) {
        if text.push_str(part).is_err() {
            self.is_short = true;
        }
    }
}
