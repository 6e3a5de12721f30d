// Laws: reading a tail and the layout of the format agree, and a tail determines its footer.
ghost use Rattle.footer_modes.specs.FooterParts.{PartsFixFooters, TailsArePlaced, ReadTailsAreShaped};
ghost use Rattle.footer_modes.specs.IsTail.{TailsAreLaidOut, LaidTailsAreRead, UnencryptedNeedsFlag};

/// `read_tail` returns a tail exactly if the file ends with that tail as the format lays it out: the ends of the file, the
/// footer area between them, the associated data, the key, and the footer's bytes with their tag. An unencrypted footer is
/// read only with `allow_plain`.
pub fn tails_are_laid_out()
    ensures exactly { TailsAreLaidOut }
    ensures read { LaidTailsAreRead }
    ensures flagged { UnencryptedNeedsFlag }
{}

/// Of a tail that was read: the nonce, the ciphertext and the tag of its footer's module or signature determine the footer;
/// the module or signature lies between the data and the last eight bytes; and the footer has the shape that the rules
/// demand.
pub fn footer_parts_fix_footers()
    ensures fix { PartsFixFooters }
    ensures placed { TailsArePlaced }
    ensures shaped { ReadTailsAreShaped }
{}
