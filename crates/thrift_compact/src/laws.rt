// Laws on the grammar of the compact protocol, on reading by it, and on the faults of bytes that don't follow it.
ghost use Rattle.thrift_compact.specs.Spelled.{SpelledIsRead, ReadIsSpelled, OneSpelling, RefusedIsFaulty, FaultyIsRefused, EachIsJudged, NeverBoth, OneFault, PlaceInside};

/// Law: bytes that spell a tree by the grammar are read as that tree, whatever bytes follow them.
pub fn what_is_spelled_is_read()
    ensures { SpelledIsRead }
{}

/// Law: the bytes that a successful read consumes spell the tree that it returns.
pub fn what_is_read_is_spelled()
    ensures { ReadIsSpelled }
{}

/// Law: at most one prefix of the bytes is a spelling, and it spells one tree only. So no spelling is a proper prefix of
/// another.
pub fn one_spelling()
    ensures { OneSpelling }
{}

/// Law: bytes that are refused have the reported fault: the parts before the fault's place are spelled, and the part at
/// that place has the fault.
pub fn what_is_refused_is_faulty()
    ensures { RefusedIsFaulty }
{}

/// Law: bytes that have a fault are refused with that fault and its place.
pub fn what_is_faulty_is_refused()
    ensures { FaultyIsRefused }
{}

/// Law: bytes either begin with a spelling or have exactly one fault, never both. The place of the fault is inside the
/// bytes or at their end.
pub fn bytes_are_spelled_or_faulty()
    ensures each { EachIsJudged }
    ensures never_both { NeverBoth }
    ensures one_fault { OneFault }
    ensures inside { PlaceInside }
{}
