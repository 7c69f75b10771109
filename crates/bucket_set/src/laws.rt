//! What the words of the buckets stand for.
ghost use Rattle.std.specs.Prelude.{ℕ};
ghost use Rattle.normal_traits.specs.World.{World};
ghost use Rattle.harris_list_form.specs.Form.{list_form};
ghost use Rattle.bucket_set.specs.Buckets.{buckets};
ghost use Rattle.bucket_set.specs.BucketShape.{BucketShape};

/// In every world of the buckets, the set is the union of their lists, each member has the remainder of its
/// list, no node is reached from two beginnings, and an exchange on one list leaves the members of the others.
pub fn buckets_stand_for_their_union()
    ensures { (asked : ℕ) (world : World) → (list_form (buckets asked)).shape world → BucketShape asked world }
{}
