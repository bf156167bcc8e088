ghost use Rattle.std.specs.Prelude.{length, ◌≡◌, ◌≤◌};

use std::marker::Model;

/// At most seven bytes, which contracts see as their list.
#[derive(Debug, Drop)]
pub(crate) struct Few {
    count: u8,
    bytes: [u8; 7],
}

impl Model for Few {
    ghost use Rattle.std.specs.Prelude.{List, take, ℕ, ◌≤◌};

    ghost Value = { List ℕ };

    ghost view = { λ f. take f.count f.bytes };

    ghost invariant = { λ f. f.count ≤ 7 };
}

impl Few {
    /// The value of these bytes.
    pub(crate) fn new(bytes: &[u8]) -> Few
        requires { length bytes.now ≤ 7 }
        ensures { result ≡ bytes.now }
    {
        let mut kept = [0; 7];
        kept[..bytes.len()].copy_from_slice(bytes);
        Few {
            count: bytes.len() as u8,
            bytes: kept,
        }
    }

    /// The bytes.
    pub(crate) fn as_slice(&self) -> &[u8]
        ensures { result.now ≡ self.now }
    {
        &self.bytes[..self.count as usize]
    }
}
