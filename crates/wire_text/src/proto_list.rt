//! Types that a repeated field may have.
ghost use Rattle.std.specs.Prelude.{◌≡◌, List, [], ◌∷◌, ◌++◌, OnOk, OnErr, IfErr};
ghost use Rattle.wire_base.specs.declared.error.DecodeError.TheVariants.{OutOfMemory};

use std::alloc::Global;
use std::fmt::Debug;
use wire_base::DecodeError;

/// A list of the elements of a repeated field. See "Repeated Elements" of the encoding document.
pub trait ProtoList<T: Drop>: Clone + PartialEq + Debug + Drop {
    ghost items: { Self → List T };

    /// Appends an element, or hands it back where there is no room for it.
    fn push(&mut self, value: T) -> Result<(), T>
        ensures ok { OnOk result (items self.new ≡ items self.old ++ value ∷ []) }
        ensures err { IfErr result (λ back. back ≡ value) }
        ensures unchanged { OnErr result (items self.new ≡ items self.old) };

    /// Takes all elements out.
    fn clear(&mut self)
        ensures { items self.new ≡ [] };

    /// Makes room for so many elements more, as far as the type can, or answers `OutOfMemory`.
    fn reserve(&mut self, _additional: usize) -> Result<(), DecodeError>
        ensures unchanged { items self.new ≡ items self.old }
        ensures err { IfErr result (λ e. e ≡ OutOfMemory) }
    {
        Ok(())
    }

    /// The elements in order.
    fn as_slice(&self) -> &[T]
        ensures { result.now ≡ items self.now };

    /// No elements.
    fn empty(alloc: Global) -> Self
        ensures { items result ≡ [] };
}

impl<T: Clone + PartialEq + Debug + Drop> ProtoList<T> for Vec<T> {
    ghost items = { λ list. list.items };

    fn push(&mut self, value: T) -> Result<(), T> {
        Vec::push(self, value).map_err(|refused| refused.value)
    }

    fn clear(&mut self) {
        Vec::clear(self)
    }

    fn reserve(&mut self, additional: usize) -> Result<(), DecodeError> {
        Vec::reserve(self, additional)?;
        Ok(())
    }

    fn as_slice(&self) -> &[T] {
        Vec::as_slice(self)
    }

    fn empty(alloc: Global) -> Vec<T> {
        Vec::new(alloc)
    }
}
