//! The keys of maps, as steps of a path.
ghost use Rattle.std.specs.Prelude.{◌≡◌, IfOk};
ghost use Rattle.wire_required.specs.Path.{Key};
ghost use Rattle.wire_required.specs.Seen.{key_seen};

use crate::step::MapKey;
use std::alloc::{AllocError, Global};

/// What a message of Rust holds as a key of a map.
pub trait PathKey {
    /// What contracts see of it.
    ghost Seen: { Type 0 };

    ghost seen: { Self → Seen };

    ghost key: { Seen → Key };

    /// The key as a step has it. A string is copied.
    fn to_key(&self, alloc: Global) -> Result<MapKey, AllocError>
        ensures { IfOk result (λ made. key_seen made ≡ key (seen self.now)) };
}

impl PathKey for i32 {
    ghost use Rattle.std.specs.Prelude.{ℤ};
    ghost use Rattle.wire_required.specs.Path.{int_key};

    ghost Seen = { ℤ };

    ghost seen = { λ k. k };

    ghost key = { int_key };

    fn to_key(&self, _alloc: Global) -> Result<MapKey, AllocError> {
        Ok(MapKey::Int(i64::from(*self)))
    }
}

impl PathKey for i64 {
    ghost use Rattle.std.specs.Prelude.{ℤ};
    ghost use Rattle.wire_required.specs.Path.{int_key};

    ghost Seen = { ℤ };

    ghost seen = { λ k. k };

    ghost key = { int_key };

    fn to_key(&self, _alloc: Global) -> Result<MapKey, AllocError> {
        Ok(MapKey::Int(*self))
    }
}

impl PathKey for u32 {
    ghost use Rattle.std.specs.Prelude.{ℕ};
    ghost use Rattle.wire_required.specs.Path.{uint_key};

    ghost Seen = { ℕ };

    ghost seen = { λ k. k };

    ghost key = { uint_key };

    fn to_key(&self, _alloc: Global) -> Result<MapKey, AllocError> {
        Ok(MapKey::Uint(u64::from(*self)))
    }
}

impl PathKey for u64 {
    ghost use Rattle.std.specs.Prelude.{ℕ};
    ghost use Rattle.wire_required.specs.Path.{uint_key};

    ghost Seen = { ℕ };

    ghost seen = { λ k. k };

    ghost key = { uint_key };

    fn to_key(&self, _alloc: Global) -> Result<MapKey, AllocError> {
        Ok(MapKey::Uint(*self))
    }
}

impl PathKey for bool {
    ghost use Rattle.std.specs.Prelude.{Bool};
    ghost use Rattle.wire_required.specs.Path.{bool_key};

    ghost Seen = { Bool };

    ghost seen = { λ k. k };

    ghost key = { bool_key };

    fn to_key(&self, _alloc: Global) -> Result<MapKey, AllocError> {
        Ok(MapKey::Bool(*self))
    }
}

impl PathKey for String {
    ghost use Rattle.std.specs.Prelude.{List, string_bytes, ℕ};
    ghost use Rattle.wire_required.specs.Path.{text_key};

    ghost Seen = { List ℕ };

    ghost seen = { λ k. string_bytes k };

    ghost key = { text_key };

    fn to_key(&self, _alloc: Global) -> Result<MapKey, AllocError> {
        Ok(MapKey::Text(self.clone()?))
    }
}
