// Laws: a tail that was written is read back as what was written.
ghost use Rattle.footer_modes.specs.WrittenRead.{EncryptedTailIsRead, SignedTailIsRead, UnencryptedTailIsRead, EncryptedMetadataAreRead, SignedMetadataAreRead, EncryptedAreaLength, SignedAreaLength};
ghost use Rattle.footer_modes.specs.PlannedRead.{EncryptedPlanIsRead, SignedPlanIsRead};

/// A tail written after a file's data is read back: if the bytes before the module, or those of the footer, parse as their
/// struct, and the reader forms the same associated data and holds the key, then `read_tail` returns these associated data,
/// this key and what the footer's bytes parse to. The metadata of the footer key is read without the key.
pub fn written_tails_are_read()
    ensures encrypted { EncryptedTailIsRead }
    ensures signed { SignedTailIsRead }
    ensures unencrypted { UnencryptedTailIsRead }
    ensures encrypted_metadata { EncryptedMetadataAreRead }
    ensures signed_metadata { SignedMetadataAreRead }
{}

/// A tail whose structs were written from a plan is read back with the plan's fields, if they keep the rules on a footer.
pub fn planned_tails_are_read()
    ensures encrypted { EncryptedPlanIsRead }
    ensures signed { SignedPlanIsRead }
{}

/// The length of a footer area, by the lengths of its parts.
pub fn footer_areas()
    ensures encrypted { EncryptedAreaLength }
    ensures signed { SignedAreaLength }
{}
