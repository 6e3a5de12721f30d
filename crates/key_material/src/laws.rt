// Laws on the definition of policies. Each is the contract of a function that does nothing.
ghost use Rattle.key_material.specs.PolicyLaws.{AcceptedAreGood, RefusedAreBad};

/// An accepted text is an object whose names are all valid and one of which gives the footer key. A refused text is not an
/// object, or is refused for its first bad name in byte order.
pub fn policies_are_judged_by_name()
    ensures accepted { AcceptedAreGood }
    ensures refused { RefusedAreBad }
{}
