// What is read back from what is written.
ghost use Rattle.parquet_meta.specs.PlanRules.{FilePlanIsRead, PassedPlanIsRead, TypedIsPlanned};
ghost use Rattle.parquet_meta.specs.ReadBack.{PageHeadIsRead, FileCryptoIsRead, ColumnMetaIsRead, RawFileMetaIsRead, FileMetaIsRead, SigningIsRead};

/// The law that each written struct is read back with the values that were written, whatever bytes follow it: a page
/// header, a FileCryptoMetaData, a ColumnMetaData, and a footer, whose rules are applied to the values of its plan.
pub fn what_is_written_is_read()
    ensures page_head { PageHeadIsRead }
    ensures file_crypto { FileCryptoIsRead }
    ensures column_meta { ColumnMetaIsRead }
    ensures raw_file_meta { RawFileMetaIsRead }
    ensures file_meta { FileMetaIsRead }
    ensures signing { SigningIsRead }
{}

/// The law that the footer of a plan which keeps the rules is read, and with what was planned: the columns, the row
/// groups in their positions with the keys and the metadata of their chunks, the rows, and the signing algorithm and
/// key. And the law that the footer of any plan, if it is read at all, is read with what was planned, where only byte
/// arrays count as text.
pub fn what_is_planned_is_read()
    ensures keeps { FilePlanIsRead }
    ensures passed { PassedPlanIsRead }
    ensures typed { TypedIsPlanned }
{}
