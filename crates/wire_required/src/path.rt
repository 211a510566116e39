//! Paths to fields.
ghost use Rattle.std.specs.Prelude.{◌≡◌, ◌∷◌, [], IfOk, map};
ghost use Rattle.wire_required.specs.Path.{field};
ghost use Rattle.wire_required.specs.Seen.{step_seen};

use crate::step::PathStep;
use std::alloc::{AllocError, Global};
use std::fmt;
use std::marker::Model;

/// The steps from a message to a field of it, or of a message within it, the outermost first. It is
/// printed as `lines[2].article` or `prices["a"].amount`.
#[derive(Debug, Drop)]
pub struct FieldPath {
    steps: Vec<PathStep>,
}

impl Model for FieldPath {
    ghost use Rattle.std.specs.Prelude.{List, map};
    ghost use Rattle.wire_required.specs.Path.{PathPart};
    ghost use Rattle.wire_required.specs.Seen.{step_seen};

    ghost Value = { List PathPart };

    ghost view = { λ path. map step_seen path.steps.items };
}

impl FieldPath {
    /// The path to a field of the message itself.
    pub fn to_field(alloc: Global, name: &'static str) -> Result<FieldPath, AllocError>
        ensures { IfOk result (λ path. path ≡ field name.now ∷ []) }
    {
        let mut steps = Vec::new(alloc);
        steps.push(PathStep::Field(name))?;
        Ok(FieldPath { steps })
    }

    /// The same path from one step further out. It has few steps, of which each is moved.
    pub fn behind(self, step: PathStep) -> Result<FieldPath, AllocError>
        ensures { IfOk result (λ path. path ≡ step_seen step ∷ self) }
    {
        let FieldPath { mut steps } = self;
        steps.insert(0, step)?;
        Ok(FieldPath { steps })
    }

    /// The steps, the outermost first.
    pub fn steps(&self) -> &[PathStep]
        ensures { map step_seen result.now ≡ self.now }
    {
        self.steps.as_slice()
    }
}

impl fmt::Display for FieldPath {
    fn fmt<W: fmt::Write>(&self, f: &mut fmt::Formatter<W>) -> fmt::Result {
        let mut is_first = true;
        for step in &self.steps {
            match step {
                PathStep::Field(name) if is_first => f.write_str(name)?,
                PathStep::Field(name) => write!(f, ".{name}")?,
                PathStep::Index(index) => write!(f, "[{index}]")?,
                PathStep::Key(key) => write!(f, "[{key}]")?,
            }
            is_first = false;
        }
        Ok(())
    }
}
