//! Laws of paths: each function is a theorem, and does nothing.
ghost use Rattle.wire_jsonpath.specs.Laws.{HasOnePath};

/// A byte has one path at most.
pub fn one_path()
    ensures { HasOnePath }
{}
