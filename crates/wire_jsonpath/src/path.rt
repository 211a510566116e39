//! Paths to members and elements.
ghost use Rattle.std.specs.Prelude.{◌≡◌, ◌++◌, ◌∷◌, [], OnOk, map};
ghost use Rattle.wire_jsonpath.specs.Seen.{tree_step};

use std::alloc::{AllocError, Global};
use std::fmt;
use std::marker::Model;

/// A step of a path.
#[derive(Debug, Drop, PartialEq)]
pub enum JsonStep {
    /// The member of this name, in which escapes are read.
    Member(String),

    /// The element at this index, the first at 0.
    Element(usize),
}

/// The steps from the value of a text to a value within it, the outermost first.
///
/// It is printed as `lines[2].quantity`. A name prints as it is where it is made of ASCII letters,
/// digits and `_` and begins with no digit, and else as JSON has it, `["odd name"]`. A path of no
/// steps prints as nothing.
#[derive(Debug, Drop)]
pub struct JsonPath {
    steps: Vec<JsonStep>,
}

impl Model for JsonPath {
    ghost use Rattle.std.specs.Prelude.{List, map};
    ghost use Rattle.wire_jsonpath.specs.Path.{TreeStep};
    ghost use Rattle.wire_jsonpath.specs.Seen.{tree_step};

    ghost Value = { List TreeStep };

    ghost view = { λ path. map tree_step path.steps.items };
}

impl JsonPath {
    /// The path of no steps.
    pub(crate) fn new(alloc: Global) -> JsonPath
        ensures { result ≡ [] }
    {
        JsonPath {
            steps: Vec::new(alloc),
        }
    }

    /// Goes a step further in.
    pub(crate) fn push(&mut self, step: JsonStep) -> Result<(), AllocError>
        ensures { OnOk result (self.new ≡ self.old ++ tree_step step ∷ []) }
    {
        self.steps.push(step)?;
        Ok(())
    }

    /// The steps, the outermost first.
    pub fn steps(&self) -> &[JsonStep]
        ensures { map tree_step result.now ≡ self.now }
    {
        self.steps.as_slice()
    }
}

impl fmt::Display for JsonPath {
    fn fmt<W: fmt::Write>(&self, f: &mut fmt::Formatter<W>) -> fmt::Result {
        let mut is_first = true;
        for step in &self.steps {
            match step {
                JsonStep::Element(index) => write!(f, "[{index}]")?,
                JsonStep::Member(name) if !is_identifier(name) => write_quoted(f, name)?,
                JsonStep::Member(name) if is_first => f.write_str(name)?,
                JsonStep::Member(name) => write!(f, ".{name}")?,
            }
            is_first = false;
        }
        Ok(())
    }
}

// Whether a name is made of ASCII letters, digits and `_`, and begins with no digit.
fn is_identifier(name: &str) -> bool {
    let begins = match name.as_bytes().first() {
        Some(byte) => !byte.is_ascii_digit(),
        None => false,
    };
    begins
        && name
            .as_bytes()
            .iter()
            .all(|byte| byte.is_ascii_alphanumeric() || *byte == b'_')
}

// Writes a name in brackets and as a string of JSON.
fn write_quoted<W: fmt::Write>(f: &mut fmt::Formatter<W>, name: &str) -> fmt::Result {
    f.write_str("[\"")?;
    for character in name.chars() {
        match character {
            '"' => f.write_str("\\\"")?,
            '\\' => f.write_str("\\\\")?,
            '\u{8}' => f.write_str("\\b")?,
            '\u{c}' => f.write_str("\\f")?,
            '\n' => f.write_str("\\n")?,
            '\r' => f.write_str("\\r")?,
            '\t' => f.write_str("\\t")?,
            '\0'..='\u{1f}' => {
                let code = u32::from(character);
                write!(f, "\\u{code:04x}")?;
            }
            _ => f.write_char(character)?,
        }
    }
    f.write_str("\"]")
}
