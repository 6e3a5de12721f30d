// The footer modes and the magics.

/// The footer mode of a file.
#[derive(Clone, Copy, Debug, PartialEq, Eq, Drop)]
pub enum FooterMode {
    /// The footer is an encrypted module after FileCryptoMetaData. The file begins and ends with `PARE`.
    Encrypted,
    /// The footer is in plaintext and signed: a nonce and a tag of its bytes follow it. The file begins and ends with `PAR1`.
    Signed,
    /// The footer is in plaintext and not signed, and nothing in the file is encrypted. The file begins and ends with `PAR1`.
    Unencrypted,
}

/// The magic at both ends of a file.
#[derive(Clone, Copy, Debug, PartialEq, Eq, Drop)]
pub(crate) enum Magic {
    /// `PARE`: the footer is encrypted.
    Pare,
    /// `PAR1`: the footer is in plain, signed or not.
    Par1,
}

impl Magic {
    ghost use Rattle.std.specs.Prelude.{◌≡◌};
    ghost use Rattle.footer_modes.specs.Ends.{magic_mode};

    /// The mode of an encrypted or signed footer in a file with this magic.
    pub(crate) fn mode(self) -> FooterMode
        ensures { result ≡ magic_mode self }
    {
        match self {
            Magic::Pare => FooterMode::Encrypted,
            Magic::Par1 => FooterMode::Signed,
        }
    }
}
