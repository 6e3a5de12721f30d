// Laws on the typed writer.
ghost use Rattle.thrift_compact.specs.Described.{WritesCanonically, WritesWhatIsDescribed};

/// Law: the writer's calls write the canonical spelling of the struct that they describe. They can describe each struct
/// with ascending ids whose fields are booleans, integers, binaries, structs, or lists of integers, binaries or structs.
pub fn writes_the_canonical_spelling()
    ensures canonical { WritesCanonically }
    ensures spelled { WritesWhatIsDescribed }
{}
