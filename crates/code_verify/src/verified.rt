//! Modules that keep the rules.

ghost use Rattle.code_verify.specs.declared.verified.VerifyError.TheVariants.{NoMemory as memory_wanted};

use bytecode::Module;
use cal_terms::NoMemory;
use std::marker::Model;

/// Why a module is not verified.
#[derive(Clone, Copy, PartialEq, Eq, Debug)]
pub enum VerifyError {
    /// A rule fails.
    Refused,
    /// Memory was wanted and not there.
    NoMemory,
}

impl From<NoMemory> for VerifyError {
    ghost use Rattle.std.specs.Prelude.{◌≡◌};

    ghost from_gives = { λ _ e. e ≡ memory_wanted };

    fn from(_: NoMemory) -> VerifyError {
        VerifyError::NoMemory
    }
}

/// A module that keeps all rules. Contracts see it as the module.
#[derive(Drop)]
pub struct Verified {
    module: Module,
}

impl Model for Verified {
    ghost use Rattle.bytecode.specs.declared.module.Module.{Module};
    ghost use Rattle.bytecode.specs.contracts.module.Module as type_of;
    ghost use Rattle.code_verify.specs.Rules.{IsVerified};

    ghost Value = { Module };

    ghost coded = { type_of.the_row.coded };

    ghost view = { λ v. v.module };

    ghost invariant = { λ v. IsVerified v.module };
}

impl Verified {
    ghost use Rattle.std.specs.Prelude.{◌≡◌};
    ghost use Rattle.code_verify.specs.Rules.{IsVerified};

    /// The module, which keeps all rules.
    pub fn module(&self) -> &Module
        ensures same { result.now ≡ self.now }
        ensures verified { IsVerified self.now }
    {
        &self.module
    }

    /// The module, of which it is known that it keeps all rules.
    pub(crate) fn of(m: Module) -> Verified
        requires { IsVerified m }
        ensures { result ≡ m }
    {
        Verified { module: m }
    }
}
