//! How wide the lines are that the formatter leaves as they are.

/// The widest line of code.
pub const WIDTH: usize = 100;

/// The widest arguments of a call that stand in its line.
pub const CALL_WIDTH: usize = 60;
