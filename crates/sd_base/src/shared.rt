// A value with several owners, which contracts see as the value.
ghost use Rattle.std.specs.Prelude.{◌≡◌, IfOk};

use crate::{Copied, Memory};
use std::alloc::Global;
use std::marker::Model;
use std::sync::Arc;

/// A value that is shared: a copy is one more owner and takes no memory. The last owner lets it go.
#[derive(Drop, Debug)]
pub struct Shared<T> {
    owner: Arc<T, Global>,
}

impl<T> Model for Shared<T> {
    ghost use Rattle.std.specs.Arc.{arc_value};

    ghost Value = { T };

    ghost view = { λ s. arc_value s.owner };
}

impl<T: Drop> Shared<T> {
    /// Moves a value to where it can be shared.
    pub fn new(alloc: Global, value: T) -> Result<Shared<T>, Memory>
        ensures { IfOk result (λ s. s ≡ value) }
    {
        let owner = Arc::new(alloc, value)?;
        Ok(Shared { owner })
    }

    /// The value.
    pub fn value(&self) -> &T
        ensures { result.now ≡ self.now }
    {
        &self.owner
    }
}

impl<T: Drop> Copied for Shared<T> {
    fn copy(&self) -> Result<Shared<T>, Memory> {
        let owner = Arc::try_clone(&self.owner)?;
        Ok(Shared { owner })
    }
}

impl<T: PartialEq> PartialEq for Shared<T> {
    ghost eq = { T.eq };

    ghost laws = { T.laws };

    fn eq(&self, other: &Shared<T>) -> bool {
        self.owner == other.owner
    }
}

impl<T: Eq> Eq for Shared<T> {
    ghost laws = { T.Eq.laws };
}
