// The structs that a PageHeader holds.

/// A DataPageHeader.
#[derive(Clone, Copy, Debug, PartialEq, Eq, Drop)]
pub struct DataCounts {
    pub num_values: i32,
    pub encoding: i32,
    pub level_encoding: i32,
}

/// A DictionaryPageHeader.
#[derive(Clone, Copy, Debug, PartialEq, Eq, Drop)]
pub struct DictionaryCounts {
    pub num_values: i32,
    pub encoding: i32,
}
