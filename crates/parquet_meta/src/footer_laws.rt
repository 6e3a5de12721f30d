// What holds of each footer that is read.
ghost use Rattle.parquet_meta.specs.FooterShape.{ReadFootersAreShaped};

/// The law that a footer which is read has the shape that the rules require: at most 32,768 columns and 32,768 row
/// groups, a column chunk for each column in each row group, and ordinals that are the positions of their row groups.
pub fn read_footers_are_shaped()
    ensures { ReadFootersAreShaped }
{}
