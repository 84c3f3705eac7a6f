//! A list of texts, one behind the other.

ghost use Rattle.std.specs.Prelude.{◌≡◌, ◌++◌, OnOk};
ghost use Rattle.cert_show.specs.Lines.{each};

use pop_io::NoMemory;
use std::alloc::Global;

/// Texts, each of which is added by its place.
pub(crate) trait Texts {
    ghost use Rattle.std.specs.Prelude.{◌≡◌, ◌<◌, ◌++◌, ℕ, List as Items, OnOk};

    // when they may be added
    ghost can_push: { Self → Type 0 };

    // how many there are
    ghost size: { Self → ℕ };

    ghost text: { Self → ℕ → Items ℕ };

    fn count(&self) -> usize
        ensures { result ≡ size self.now };

    /// Adds a text.
    fn push(&self, alloc: Global, out: &mut Vec<u8>, i: usize) -> Result<(), NoMemory>
        requires can { can_push self.now }
        requires within { i < size self.now }
        ensures { OnOk result (out.new.items ≡ out.old.items ++ text self.now i) };
}

/// Adds all of them.
pub(crate) fn push_all<T: Texts>(alloc: Global, out: &mut Vec<u8>, all: &T) -> Result<(), NoMemory>
    requires { T.can_push all.now }
    ensures { OnOk result (out.new.items ≡ out.old.items ++ each (T.size all.now) (T.text all.now)) }
{
    'texts: for i in 0..all.count() {
        all.push(alloc, out, i)?;
    }
    Ok(())
}
