ghost use Rattle.std.specs.Prelude.{IfOk, ◌≡◌};

use crate::few::Few;
use cyp_term::{List, NoMemory, Shared, Text};
use std::alloc::Global;
use std::marker::Model;

/// Where a name keeps its bytes.
#[derive(Debug, Drop)]
enum Kept {
    Short(Few),
    Long(Shared<Text>),
}

/// The bytes of a name, which contracts see as their list. A name of at most seven bytes takes no
/// memory beside itself.
#[derive(Debug, Drop)]
pub struct Name {
    kept: Kept,
}

impl Model for Name {
    ghost use Rattle.std.specs.Prelude.{List, ℕ};
    ghost use Rattle.cyp_lex.specs.KeptNames.{kept_bytes};

    ghost Value = { List ℕ };

    ghost view = { λ n. kept_bytes n.kept };
}

impl Name {
    /// The name that these bytes spell.
    pub fn new(alloc: Global, bytes: &[u8]) -> Result<Name, NoMemory>
        ensures { IfOk result (λ n. n ≡ bytes.now) }
    {
        let kept = if bytes.len() <= 7 {
            Kept::Short(Few::new(bytes))
        } else {
            Kept::Long(Shared::new(alloc, List::from_vec(bytes.to_vec(alloc)?))?)
        };
        Ok(Name { kept })
    }

    /// The bytes.
    pub fn as_slice(&self) -> &[u8]
        ensures { result.now ≡ self.now }
    {
        match &self.kept {
            Kept::Short(short) => short.as_slice(),
            Kept::Long(long) => long.get().as_slice(),
        }
    }

    /// The bytes as a text of their own.
    pub fn text(&self, alloc: Global) -> Result<Text, NoMemory>
        ensures { IfOk result (λ t. t ≡ self.now) }
    {
        Ok(List::from_vec(self.as_slice().to_vec(alloc)?))
    }
}
