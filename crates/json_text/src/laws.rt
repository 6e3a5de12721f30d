// Laws of the base64 and hex definitions, each the contract of an empty function.
ghost use Rattle.json_text.specs.Codings.{Base64RoundTrips, Base64IsExact, Base64IsUtf8, Base64IsFourForThree, Base64IsNoLonger, HexRoundTrips, HexIsDigits, HexIsTwiceAsLong};

/// Base64 text decodes to the encoded bytes, and no other text does; it is UTF-8 with four characters for each three bytes;
/// and decoded bytes are never longer than their text.
pub fn base64_is_exact()
    ensures round_trip { Base64RoundTrips }
    ensures exact { Base64IsExact }
    ensures utf8 { Base64IsUtf8 }
    ensures long { Base64IsFourForThree }
    ensures shorter { Base64IsNoLonger }
{}

/// Hex text decodes to the encoded bytes; exactly the texts with an even number of hex digits can be decoded; and there are
/// two digits for each byte.
pub fn hex_is_exact()
    ensures round_trip { HexRoundTrips }
    ensures digits { HexIsDigits }
    ensures twice { HexIsTwiceAsLong }
{}
