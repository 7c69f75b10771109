//! What the allowed steps of the tree do to it.
ghost use Rattle.normal_traits.specs.World.{World};
ghost use Rattle.normal_traits.specs.Steps.{IsStep};
ghost use Rattle.ellen_tree_form.specs.Form.{tree_form};
ghost use Rattle.ellen_tree_steps.specs.Effects.{Effect};

/// In a world of the tree each allowed step exchanges nothing, or makes one of the five exchanges, with what that finds.
pub fn steps_have_effects()
    ensures { (world after : World) → tree_form.shape world → IsStep tree_form world after → Effect world after }
{}
