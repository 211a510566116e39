//! Message types that hold themselves or one another. Their loops are here, once for all types: a
//! type has only calls that do not lead back to it.
ghost use Rattle.std.specs.Prelude.{◌≡◌, ◌∷◌, ◌++◌, [], OnOk, IfErr};
ghost use Rattle.wire_codec.specs.DecodeError.TheVariants as errors;
ghost use Rattle.wire_fields.specs.NestTable.{is_grouped};

mod alone;
mod held;
mod member;
mod merge;
mod size;
mod slices;
mod write;

pub use alone::{Alone, RecursiveAlone};
pub use held::RecursiveHeld;
pub use member::RecursiveMember;
pub use merge::merge_held;
pub use size::slice_size;
pub use slices::RecursiveSlice;
use wire_codec::DecodeError;
pub use write::write_slice;

/// Where a message that holds itself puts the records of a field number.
#[derive(Clone, Copy, Debug, PartialEq)]
pub enum Place {
    /// Into a field of the leaf, or among the unknown fields.
    Leaf,
    /// Into this row, which has one message at most.
    Once(usize),
    /// Behind the messages of this row, each charged for so many bytes.
    Each(usize, usize),
    /// Into this row, which has one message at most and whose records are groups.
    Grouped(usize),
    /// Behind the messages of this row, whose records are groups, each charged for so many bytes.
    EachGrouped(usize, usize),
}

impl Place {
    // Whether the messages stand in groups.
    fn is_grouped(self) -> bool
        ensures { result ≡ is_grouped self }
    {
        match self {
            Place::Leaf => false,
            Place::Once(_) => false,
            Place::Each(_, _) => false,
            Place::Grouped(_) => true,
            Place::EachGrouped(_, _) => true,
        }
    }
}

/// Puts a message behind others. Refused where memory runs out.
pub fn push_message<T: Drop>(messages: &mut Vec<T>, message: T) -> Result<(), DecodeError>
    ensures ok { OnOk result (messages.new.items ≡ messages.old.items ++ message ∷ []) }
    ensures err { IfErr result (λ e. e ≡ errors.OutOfMemory) }
{
    messages.push(message).map_err(|_| DecodeError::OutOfMemory)
}
