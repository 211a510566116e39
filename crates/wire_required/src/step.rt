//! The steps of a path.
use std::fmt;

/// The key of an entry of a map.
#[derive(Debug, Drop, PartialEq)]
pub enum MapKey {
    Int(i64),
    Uint(u64),
    Bool(bool),
    Text(String),
}

/// It is printed as the schema language writes it: `7`, `true`, `"a"`.
impl fmt::Display for MapKey {
    fn fmt<W: fmt::Write>(&self, f: &mut fmt::Formatter<W>) -> fmt::Result {
        match self {
            MapKey::Int(key) => write!(f, "{key}"),
            MapKey::Uint(key) => write!(f, "{key}"),
            MapKey::Bool(key) => write!(f, "{key}"),
            MapKey::Text(key) => write!(f, "{key:?}"),
        }
    }
}

/// A step on the way to a field.
#[derive(Debug, Drop, PartialEq)]
pub enum PathStep {
    /// The name that a field has in its schema.
    Field(&'static str),
    /// The index of an element of a list.
    Index(usize),
    /// The key of an entry of a map.
    Key(MapKey),
}
