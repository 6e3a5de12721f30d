// What holds of each footer that passes the rules.
ghost use Rattle.footer_rules.specs.Shape.{PassedFootersAreShaped};

/// The law that a footer which passes the rules has at most 32,768 columns and 32,768 row groups, a column chunk for
/// each column in each row group, and ordinals (if any) that are the positions of their row groups.
pub fn passed_footers_are_shaped()
    ensures { PassedFootersAreShaped }
{}
