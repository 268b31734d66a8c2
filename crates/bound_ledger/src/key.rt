//! A family as the key of its row.
ghost use Rattle.std.specs.Prelude.{◌≡◌, ◌+◌, ◌*◌, ◌^◌};
ghost use Rattle.std.specs.Hash as fed;
ghost use Rattle.std.specs.Cmp.Rules.{hashing};
ghost use Rattle.std.proofs.Common.{rules};
ghost use Rattle.bound_ledger.specs.Keys.{key_of, family_of};

use plan_base::{Family, Host};
use std::hash::{Hash, Hasher};

/// A family as the key of its row.
#[derive(Clone, Copy, PartialEq, Eq)]
pub struct FamilyKey {
    /// The number of the host at which the family was injected.
    pub host: u32,
    /// The number of that injection at that host, from 1.
    pub serial: u64,
}

// (as one number, so that it is hashed in one step)
impl Hash for FamilyKey {
    ghost hash_input = { λ k. fed.u128 (k.host * 2 ^ 64 + k.serial) };

    ghost respects_eq = { Prim.search (hashing, rules) };

    fn hash<H: Hasher>(&self, state: &mut H) {
        let number = u128::from(self.host) * 18_446_744_073_709_551_616 + u128::from(self.serial);
        state.write_u128(number);
    }
}

impl FamilyKey {
    /// The key of a family.
    pub fn of(f: Family) -> FamilyKey
        ensures { result ≡ key_of f }
    {
        FamilyKey {
            host: f.source.0,
            serial: f.serial,
        }
    }

    /// The family of this key.
    pub fn family(self) -> Family
        ensures { result ≡ family_of self }
    {
        Family {
            source: Host(self.host),
            serial: self.serial,
        }
    }
}
