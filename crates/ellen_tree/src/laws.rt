//! What the words of the tree stand for.
ghost use Rattle.normal_traits.specs.World.{World};
ghost use Rattle.ellen_tree_form.specs.Form.{tree_form};
ghost use Rattle.ellen_tree.specs.TreeShape.{TreeShape};

/// In every world of the tree each key's way from the root ends, at one leaf, and the map holds at the key what
/// this leaf tells.
pub fn leaves_tell_the_map()
    ensures { (world : World) → tree_form.shape world → TreeShape world }
{}
