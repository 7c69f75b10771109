//! A map of at most one key with a flag, a small client whose changes are made beside the lists: a list sets
//! the flag, and whoever comes by makes the flag's change, or gives it up, and takes the flag away.
#![tactic(auto)]

ghost use Rattle.normal_traits.specs.Laws.{Laws};
ghost use Rattle.flagged_register_form.specs.Meanings.{flagged_form};

/// The register meets every law of a structure in normalized form.
pub fn every_law()
    ensures { Laws flagged_form }
{}
