// The types of values in the compact protocol, and their codes.
ghost use Rattle.std.specs.Prelude.{◌≡◌};
ghost use Rattle.thrift_compact.specs.Kinds as kinds;

/// The type of a value, in the order of the protocol's type codes 1 to 12. A boolean field has no value bytes: its
/// kind, True or False, is its value.
#[derive(Clone, Copy, Debug, PartialEq, Eq, Drop)]
pub enum TKind {
    True,
    False,
    I8,
    I16,
    I32,
    I64,
    Double,
    Binary,
    List,
    Set,
    Map,
    Struct,
}

impl TKind {
    /// The type code of the kind, from 1 to 12.
    pub(crate) fn code(self) -> u8
        ensures { result ≡ kinds.code self }
    {
        match self {
            TKind::True => 1,
            TKind::False => 2,
            TKind::I8 => 3,
            TKind::I16 => 4,
            TKind::I32 => 5,
            TKind::I64 => 6,
            TKind::Double => 7,
            TKind::Binary => 8,
            TKind::List => 9,
            TKind::Set => 10,
            TKind::Map => 11,
            TKind::Struct => 12,
        }
    }

    /// The kind with this type code; None for a code outside 1 to 12.
    pub(crate) fn of_code(code: u8) -> Option<TKind>
        ensures { result ≡ kinds.of_code code }
    {
        match code {
            1 => Some(TKind::True),
            2 => Some(TKind::False),
            3 => Some(TKind::I8),
            4 => Some(TKind::I16),
            5 => Some(TKind::I32),
            6 => Some(TKind::I64),
            7 => Some(TKind::Double),
            8 => Some(TKind::Binary),
            9 => Some(TKind::List),
            10 => Some(TKind::Set),
            11 => Some(TKind::Map),
            12 => Some(TKind::Struct),
            _ => None,
        }
    }
}
