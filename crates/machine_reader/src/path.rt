ghost use Rattle.std.specs.Prelude.{◌≡◌, [], IfOk};
ghost use Rattle.machine_reader.specs.declared.path.ShapeFault.TheVariants as fault;

use std::alloc::{AllocError, AllocFailed, Global};
use std::marker::Model;

/// The path to a value of a description: names and element numbers, joined by dots. The whole description has the empty
/// path. Contracts see it as its bytes.
#[derive(Debug, Drop)]
pub struct PathText {
    bytes: Vec<u8>,
}

impl Model for PathText {
    ghost use Rattle.std.specs.Prelude.{List, ℕ};

    ghost Value = { List ℕ };

    ghost view = { λ p. p.bytes.items };
}

impl PathText {
    ghost use Rattle.std.specs.Prelude.{◌≡◌, [], IfOk};
    ghost use Rattle.machine_reader.specs.Reading.{joined};

    /// The path of the whole value.
    pub(crate) fn empty(alloc: Global) -> Self
        ensures { result ≡ [] }
    {
        PathText {
            bytes: Vec::new(alloc),
        }
    }

    /// The bytes of the path.
    pub fn as_bytes(&self) -> &[u8]
        ensures { result.now ≡ self.now }
    {
        &self.bytes
    }

    /// The path with a step before it.
    pub(crate) fn below(&self, alloc: Global, step: &[u8]) -> Result<PathText, AllocError>
        ensures { IfOk result (λ path. path ≡ joined step.now self.now) }
    {
        let mut bytes = Vec::from_slice(alloc, step)?;
        if !self.bytes.is_empty() {
            bytes.push(b'.')?;
            bytes.extend_from_slice(&self.bytes)?;
        }
        Ok(PathText { bytes })
    }
}

impl PartialEq for PathText {
    ghost use Rattle.std.specs.Str.{bytes_eq};
    ghost use Rattle.std.proofs.Common.{rules};
    ghost use Rattle.std.specs.Cmp.Rules.{comparing};

    ghost eq = { bytes_eq };

    ghost laws = { Prim.search (comparing, rules) };

    fn eq(&self, other: &PathText) -> bool {
        self.as_bytes() == other.as_bytes()
    }
}

/// Why the parts of a description were not read.
#[derive(Debug, Drop)]
pub enum ShapeFault {
    /// The value at this path is not of the form that it must have.
    BadShape(PathText),
    /// Memory ran out.
    Memory,
}

impl ShapeFault {
    /// The value itself fails.
    pub fn here(alloc: Global) -> ShapeFault
        ensures { result ≡ ShapeFault.BadShape [] }
    {
        ShapeFault::BadShape(PathText::empty(alloc))
    }
}

impl From<AllocError> for ShapeFault {
    ghost use Rattle.std.specs.Prelude.{◌≡◌};
    ghost use Rattle.machine_reader.specs.declared.path.ShapeFault.TheVariants as fault;

    ghost from_gives = { λ _ e. e ≡ fault.Memory };

    fn from(_: AllocError) -> Self {
        ShapeFault::Memory
    }
}

impl<T: Drop> From<AllocFailed<T>> for ShapeFault {
    ghost use Rattle.std.specs.Prelude.{◌≡◌};
    ghost use Rattle.machine_reader.specs.declared.path.ShapeFault.TheVariants as fault;

    ghost from_gives = { λ _ e. e ≡ fault.Memory };

    fn from(_: AllocFailed<T>) -> Self {
        ShapeFault::Memory
    }
}
