// Laws over the definitions alone: no caller runs these functions, their contracts are the theorems.
ghost use Rattle.std.specs.Prelude.{◌≡◌};
ghost use Rattle.ml_refutation.specs.declared.refutation.TheConstants.{NESTING_LIMIT};

/// Splits are nested at most 4,096 deep.
pub fn limits()
    ensures { NESTING_LIMIT ≡ 4096 }
{}
