// The number, the name and the form of the line of each cause.
ghost use Rattle.std.specs.Prelude.{◌≡◌};
ghost use Rattle.refusal_lines.specs.CauseRows as rows;

use pme_base::Cause;

/// The form of a refusal's line: what follows the number and the name of the cause.
#[derive(Clone, Copy, Debug, PartialEq, Eq, Drop)]
pub enum LineForm {
    /// The file, the place in it, the offset, and the values of the detail.
    Place,
    /// The file and the values of the detail.
    File,
    /// Nothing.
    Bare,
}

/// The number of a cause, which is also the exit status of the program.
pub fn status_number(cause: Cause) -> u8
    ensures { result ≡ rows.status_number cause }
{
    match cause {
        Cause::Truncated => 1,
        Cause::BadLength => 2,
        Cause::BadTag => 3,
        Cause::BadThrift => 4,
        Cause::MissingField => 5,
        Cause::BadField => 6,
        Cause::BadMagic => 7,
        Cause::BadFooterLength => 8,
        Cause::NotEncrypted => 9,
        Cause::PrefixNeeded => 10,
        Cause::PrefixUnused => 11,
        Cause::PrefixDiffers => 12,
        Cause::FooterKeyMissing => 13,
        Cause::AlgorithmRefused => 14,
        Cause::Unsupported => 15,
        Cause::Mismatch => 16,
        Cause::BadPage => 17,
        Cause::Hidden => 18,
        Cause::NoSuchColumn => 19,
        Cause::BadMaterial => 20,
        Cause::NoMaterial => 21,
        Cause::WrapTag => 22,
        Cause::KeyLength => 23,
        Cause::NotExternal => 24,
        Cause::Denied => 25,
        Cause::ServiceFault => 26,
        Cause::BadPolicy => 31,
        Cause::FileExists => 32,
        Cause::NonceRepeated => 33,
        Cause::BadTable => 40,
        Cause::BadRing => 42,
        Cause::BadKeys => 43,
        Cause::TooLarge => 50,
        Cause::NoFile => 60,
        Cause::ReadFault => 61,
        Cause::WriteFault => 62,
        Cause::RandomFault => 63,
        Cause::Usage => 64,
        Cause::OutOfMemory => 70,
    }
}

/// The name of a cause.
pub fn cause_name(cause: Cause) -> &'static str
    ensures { result.now ≡ rows.cause_name cause }
{
    match cause {
        Cause::Truncated => "Truncated",
        Cause::BadLength => "BadLength",
        Cause::BadTag => "BadTag",
        Cause::BadThrift => "BadThrift",
        Cause::MissingField => "MissingField",
        Cause::BadField => "BadField",
        Cause::BadMagic => "BadMagic",
        Cause::BadFooterLength => "BadFooterLength",
        Cause::NotEncrypted => "NotEncrypted",
        Cause::PrefixNeeded => "PrefixNeeded",
        Cause::PrefixUnused => "PrefixUnused",
        Cause::PrefixDiffers => "PrefixDiffers",
        Cause::FooterKeyMissing => "FooterKeyMissing",
        Cause::AlgorithmRefused => "AlgorithmRefused",
        Cause::Unsupported => "Unsupported",
        Cause::Mismatch => "Mismatch",
        Cause::BadPage => "BadPage",
        Cause::Hidden => "Hidden",
        Cause::NoSuchColumn => "NoSuchColumn",
        Cause::BadMaterial => "BadMaterial",
        Cause::NoMaterial => "NoMaterial",
        Cause::WrapTag => "WrapTag",
        Cause::KeyLength => "KeyLength",
        Cause::NotExternal => "NotExternal",
        Cause::Denied => "Denied",
        Cause::ServiceFault => "ServiceFault",
        Cause::BadPolicy => "BadPolicy",
        Cause::FileExists => "FileExists",
        Cause::NonceRepeated => "NonceRepeated",
        Cause::BadTable => "BadTable",
        Cause::BadRing => "BadRing",
        Cause::BadKeys => "BadKeys",
        Cause::TooLarge => "TooLarge",
        Cause::NoFile => "NoFile",
        Cause::ReadFault => "ReadFault",
        Cause::WriteFault => "WriteFault",
        Cause::RandomFault => "RandomFault",
        Cause::Usage => "Usage",
        Cause::OutOfMemory => "OutOfMemory",
    }
}

/// The form of the line of a cause.
pub fn line_form(cause: Cause) -> LineForm
    ensures { result ≡ rows.line_form cause }
{
    match cause {
        Cause::NotEncrypted
        | Cause::PrefixNeeded
        | Cause::PrefixUnused
        | Cause::PrefixDiffers
        | Cause::FooterKeyMissing
        | Cause::AlgorithmRefused
        | Cause::Hidden
        | Cause::NoSuchColumn
        | Cause::NotExternal
        | Cause::Denied
        | Cause::BadPolicy
        | Cause::FileExists
        | Cause::NonceRepeated
        | Cause::BadTable
        | Cause::BadRing
        | Cause::BadKeys
        | Cause::NoFile => LineForm::File,
        Cause::ServiceFault
        | Cause::ReadFault
        | Cause::WriteFault
        | Cause::RandomFault
        | Cause::Usage
        | Cause::OutOfMemory => LineForm::Bare,
        _ => LineForm::Place,
    }
}
