// Laws on the canonical spelling of trees.
ghost use Rattle.thrift_compact.specs.SpellingLaws.{CanonicalIsSpelled, OrderedIsArranged, SpelledIsProper, SpelledFits};

/// Law: the canonical spelling of a proper struct follows the grammar.
pub fn canonical_is_spelled()
    ensures { CanonicalIsSpelled }
{}

/// Law: the canonical spelling of a tree spells this tree with the fields of each struct sorted by ascending id.
pub fn ordered_is_arranged()
    ensures { OrderedIsArranged }
{}

/// Law: a tree that is spelled by some bytes is proper, and its values fit their types, so it can be spelled.
pub fn spelled_is_proper()
    ensures proper { SpelledIsProper }
    ensures fits { SpelledFits }
{}
