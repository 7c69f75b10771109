//! What the searches of Ellen's tree learn and keep, and with it all client laws of the tree.
#![tactic(auto)]

ghost use Rattle.normal_traits.specs.Laws.{Laws};
ghost use Rattle.ellen_tree_form.specs.Form.{tree_form};

/// The tree meets every law of a structure in normalized form.
pub fn every_law()
    ensures { Laws tree_form }
{}
