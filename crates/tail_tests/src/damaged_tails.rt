// Files whose tail is damaged in one place, each with its refusal: the first condition that the file breaks, in the order
// in which `read_tail` checks them. Next to a refused file stands one that just passes.
use crate::refusing_finder::{KeyFault, RefusingFinder};
use crate::tail_lines::{file_of, setting, spelled, unknown_setting};
use footer_modes::{ReadOptions, Tail, read_tail};
use key_rights::{IdKeys, KeyFinder};
use pme_base::{MemFiles, Refusal};
use std::alloc::Global;
use std::process::Abort;
use std::test::Fail;

const KEYS: &[u8] =
    br#"{"kc":"101112131415161718191a1b1c1d1e1f","kf":"000102030405060708090a0b0c0d0e0f"}"#;

// A line is `FILE, SETTING, SETTING: ANSWER`, and one that begins with # is a heading. Bytes are words of hex, in which
// 3x00 stands for 000000, and PARE and PAR1 for their letters.
//
// FILE is one of
//   absent                       no file
//   encrypted, signed, counter   a file of `sample_files`
//   bytes=BYTES                  the bytes of a whole file
//   seal, sign, bare             a file that consists of the footer of `tail_lines`: encrypted, signed, or neither
// and a SETTING one of
//   @N=BYTES            these bytes stand in the file from offset N on
//   prefix=BYTES        the reader supplies this prefix
//   gcm only            AES_GCM_CTR_V1 is refused
//   allow plain         an unencrypted file is read too
//   no keys             no key is found
//   key refused=CAUSE   the finder refuses each key
//   NAME=BYTES          this part of the footer is replaced, or left out where BYTES is empty; `tail_lines` names the parts
//   footer=BYTES        the whole footer is replaced
//   front=BYTES         FileCryptoMetaData is replaced
//   under=BYTES         the footer is sealed under this prefix
//
// ANSWER is a refusal's cause, place, offset and detail. For a file that is accepted it is the footer's mode, the offset of
// the footer area, the offset of the module or the signature, the file's part of the associated data (- without
// encryption), and the numbers of columns and rows. Another program computed each answer from the format's rules; none was
// taken from what `read_tail` answered.
const CASES: &str = "\
# The file's two ends: it is there, has 12 bytes, and its last four bytes and its first are one magic.
absent: NoFile File 0 Nothing
bytes=: Truncated File 0 Pair(12, 0)
bytes=PARE 000000 PARE: Truncated File 0 Pair(12, 11)
bytes=12x00: BadMagic File 8 Nothing
bytes=PARE 05000000 50415246: BadMagic File 8 Nothing
encrypted, @534=00: BadMagic File 531 Nothing
signed, @624=32: BadMagic File 621 Nothing
encrypted, @0=00: BadMagic File 0 Nothing
signed, @0=70: BadMagic File 0 Nothing
encrypted, @534=31: BadMagic File 0 Nothing
bytes=PARE 05000000 PAR1: BadMagic File 0 Nothing
bytes=PAR1 00000000 PARE: BadMagic File 0 Nothing
# The length of the footer area.
bytes=PAR1 05000000 PAR1: BadFooterLength Footer 4 Pair(5, 0)
bytes=PARE 01000101 PARE: BadFooterLength Footer 4 Pair(16842753, 0)
bytes=PARE ffffffff PARE: BadFooterLength Footer 4 Pair(4294967295, 0)
encrypted, @527=0c02: BadFooterLength Footer 527 Pair(524, 523)
encrypted, @527=0b02: BadField Footer 0 Field(FileCryptoMetaData, 1)
bytes=PARE 16842753x00 01000101 PARE: TooLarge Footer 16842757 Pair(16842753, 16842752)
bytes=PARE 16842752x00 00000101 PARE: MissingField Footer 0 Field(FileCryptoMetaData, 1)
# What stands in front of a sealed footer.
encrypted, @259=1d: BadThrift Footer 0 Thrift(WrongType)
bytes=PARE 00000000 PARE: BadThrift Footer 0 Thrift(End)
bytes=PARE 1c1c001c00001502 08000000 PARE: BadThrift Footer 8 Thrift(End)
bytes=PARE 15 9x80 02 0b000000 PARE: BadThrift Footer 1 Thrift(Varint)
bytes=PARE 158080808010 06000000 PARE: BadThrift Footer 1 Thrift(Range)
bytes=PARE 150205020400 06000000 PARE: BadThrift Footer 2 Thrift(Repeated)
bytes=PARE 32x1c 33x00 41000000 PARE: BadThrift Footer 32 Thrift(Depth)
encrypted, @259=2c: MissingField Footer 0 Field(FileCryptoMetaData, 1)
bytes=PARE 150200 03000000 PARE: BadField Footer 0 Field(FileCryptoMetaData, 1)
encrypted, @260=3c: Unsupported Footer 0 Field(EncryptionAlgorithm, 1)
bytes=PARE 1c150200 00 05000000 PARE: BadField Footer 0 Field(EncryptionAlgorithm, 1)
bytes=PARE 1c250200 00 05000000 PARE: BadField Footer 0 Field(EncryptionAlgorithm, 2)
bytes=PARE 1c1c28010700 1c28010700 0000 0d000000 PARE: BadField Footer 0 Field(EncryptionAlgorithm, 2)
bytes=PARE 1c1c00 0000 05000000 PARE: MissingField Footer 0 Field(AesGcm, 2)
bytes=PARE 1c2c00 0000 05000000 PARE: MissingField Footer 0 Field(AesGcm, 2)
bytes=PARE 1c1c150200 0000 07000000 PARE: BadField Footer 0 Field(AesGcm, 1)
bytes=PARE 1c1c250200 0000 07000000 PARE: BadField Footer 0 Field(AesGcm, 2)
bytes=PARE 1c1c280107150200 0000 0a000000 PARE: BadField Footer 0 Field(AesGcm, 3)
bytes=PARE 1c1c28010700 00 150200 0a000000 PARE: BadField Footer 0 Field(FileCryptoMetaData, 2)
# What a signed footer says of its signature, and how long its area is.
bytes=PAR1 00000000 PAR1: BadThrift Footer 0 Thrift(End)
bytes=PAR1 8c1c001d 04000000 PAR1: BadThrift Footer 3 Thrift(WrongType)
bytes=PAR1 00 01000000 PAR1: NotEncrypted Footer 0 Nothing
bytes=PAR1 950200 03000000 PAR1: NotEncrypted Footer 0 Nothing
signed, @563=3c: NotEncrypted Footer 0 Nothing
bytes=PAR1 850200 03000000 PAR1: BadField Footer 0 Field(FileMetaData, 8)
bytes=PAR1 8c00 00 03000000 PAR1: Unsupported Footer 0 Field(EncryptionAlgorithm, 1)
bytes=PAR1 8c1c28010700 1c28010700 0000 0d000000 PAR1: BadField Footer 0 Field(EncryptionAlgorithm, 2)
bytes=PAR1 8c1c00 0000 05000000 PAR1: MissingField Footer 0 Field(AesGcm, 2)
bytes=PAR1 8c1c150200 0000 07000000 PAR1: BadField Footer 0 Field(AesGcm, 1)
bytes=PAR1 8c1c280107150200 0000 0a000000 PAR1: BadField Footer 0 Field(AesGcm, 3)
bytes=PAR1 8c1c28010700 00 150200 0a000000 PAR1: BadField Footer 0 Field(FileMetaData, 9)
bytes=PAR1 8c1c28010700 0000 08000000 PAR1: BadFooterLength Footer 12 Pair(8, 36)
bytes=PAR1 8c1c28010700 0000 27x00 23000000 PAR1: BadFooterLength Footer 39 Pair(35, 36)
bytes=PAR1 8c1c28010700 0000 29x00 25000000 PAR1: BadFooterLength Footer 41 Pair(37, 36)
bytes=PAR1 28006c1c28010700 0000 0a000000 PAR1: BadFooterLength Footer 14 Pair(10, 38)
signed, @584=00: BadFooterLength Footer 617 Pair(358, 354)
# An unencrypted footer is read only where that is allowed. It takes no prefix, no key is asked for, and bytes behind it in
# the area are not read.
bare, chunk_b=00, chunk_c=00, second_group=193c000000 2604 4402 00: NotEncrypted Footer 0 Nothing
bare, chunk_b=00, chunk_c=00, second_group=193c000000 2604 4402 00, allow plain: Unencrypted 4 4 - 3 columns 5 rows
bare, chunk_b=00, chunk_c=00, second_group=193c000000 2604 4402 00, allow plain, gcm only, no keys: Unencrypted 4 4 - 3 columns 5 rows
bare, chunk_b=00, chunk_c=00, second_group=193c000000 2604 4402 00, allow plain, key refused=WrapTag: Unencrypted 4 4 - 3 columns 5 rows
bare, chunk_b=00, chunk_c=00, second_group=193c000000 2604 4402 00, allow plain, stop=00 ffff: Unencrypted 4 4 - 3 columns 5 rows
bare, chunk_b=00, chunk_c=00, second_group=193c000000 2604 4402 00, allow plain, prefix=70: PrefixUnused Footer 0 Nothing
bare, chunk_b=00, chunk_c=00, second_group=193c000000 2604 4402 00, allow plain, prefix=: PrefixUnused Footer 0 Nothing
bare, chunk_b=00, chunk_c=00, second_group=193c000000 2604 4402 00, allow plain, rows=160c, prefix=70: PrefixUnused Footer 0 Nothing
bytes=PAR1 00 01000000 PAR1, allow plain: MissingField Footer 0 Field(FileMetaData, 2)
bytes=PAR1 00000000 PAR1, allow plain: BadThrift Footer 0 Thrift(End)
# No column chunk of an unencrypted file is encrypted; that is judged after all other rules.
bare, allow plain: BadField Footer 0 Field(ColumnChunk, 8)
bare, chunk_b=00, chunk_c=00, allow plain: BadField Footer 0 Field(ColumnChunk, 8)
bare, allow plain, rows=160c: Mismatch Footer 0 Signed(5, 6)
# Files with an encrypted or signed footer are read as without that.
encrypted, allow plain: Encrypted 259 278 5feceb66ffc86f38 3 columns 4 rows
sign, allow plain: Signed 4 111 0001020304050607 3 columns 5 rows
signed, @584=00, allow plain: BadFooterLength Footer 617 Pair(358, 354)
counter, gcm only, allow plain: AlgorithmRefused Footer 0 Nothing
# The algorithm.
counter, gcm only: AlgorithmRefused Footer 0 Nothing
counter, gcm only, prefix=7461626c65: AlgorithmRefused Footer 0 Nothing
sign, algorithm=2c2c2808 0001020304050607 0000, gcm only: AlgorithmRefused Footer 0 Nothing
sign, algorithm=2c2c2808 0001020304050607 0000: Signed 4 111 0001020304050607 3 columns 5 rows
bytes=PARE 1c2c188108 1025x00 1800 000000 0b040000 PARE, gcm only: AlgorithmRefused Footer 0 Nothing
# How long the stored prefix and the file's own bytes are.
bytes=PARE 1c1c188108 1025x00 1800 000000 0b040000 PARE: TooLarge Footer 0 Pair(1025, 1024)
bytes=PARE 1c1c188008 1024x00 1800 000000 0a040000 PARE, no keys: FooterKeyMissing Footer 0 Nothing
bytes=PARE 1c1c2841 65x00 000000 48000000 PARE: TooLarge Footer 0 Pair(65, 64)
bytes=PARE 1c1c2840 64x00 000000 47000000 PARE, no keys: FooterKeyMissing Footer 0 Nothing
bytes=PARE 1c1c188108 1025x00 1841 65x00 000000 4c040000 PARE: TooLarge Footer 0 Pair(1025, 1024)
bytes=PAR1 8c1c188108 1025x00 1800 000000 28x00 27040000 PAR1: TooLarge Footer 0 Pair(1025, 1024)
bytes=PAR1 8c1c2841 65x00 000000 28x00 64000000 PAR1: TooLarge Footer 0 Pair(65, 64)
bytes=PARE 1c1c188108 1025x00 1800 000000 0b040000 PARE, prefix=70: TooLarge Footer 0 Pair(1025, 1024)
bytes=PARE 1c1c2841 65x00 000000 48000000 PARE, prefix=70: TooLarge Footer 0 Pair(65, 64)
bytes=PARE 1c1c2841 65x00 11000000 49000000 PARE: TooLarge Footer 0 Pair(65, 64)
# The prefix: the stored one, which may be supplied too; the supplied one, where the file asks for one; else none.
signed: Signed 259 589 7461626c655feceb66ffc86f38 3 columns 4 rows
signed, prefix=7461626c65, gcm only: Signed 259 589 7461626c655feceb66ffc86f38 3 columns 4 rows
signed, prefix=71: PrefixDiffers Footer 0 Hexes(Bytes { items: [116, 97, 98, 108, 101] }, Bytes { items: [113] })
signed, prefix=: PrefixDiffers Footer 0 Hexes(Bytes { items: [116, 97, 98, 108, 101] }, Bytes { items: [] })
seal, front=1c1c180170 1808 0001020304050607 0000 18026b6600, under=70: Encrypted 4 26 700001020304050607 3 columns 5 rows
seal, front=1c1c180170 1808 0001020304050607 0000 18026b6600, under=70, prefix=70: Encrypted 4 26 700001020304050607 3 columns 5 rows
seal, front=1c1c180170 1808 0001020304050607 0000 18026b6600, under=70, prefix=71: PrefixDiffers Footer 0 Hexes(Bytes { items: [112] }, Bytes { items: [113] })
seal, front=1c1c180170 1808 0001020304050607 110000 18026b6600, under=70: Encrypted 4 27 700001020304050607 3 columns 5 rows
seal, front=1c1c180170 1808 0001020304050607 110000 18026b6600, under=70, prefix=71: PrefixDiffers Footer 0 Hexes(Bytes { items: [112] }, Bytes { items: [113] })
counter, prefix=7461626c65: Encrypted 476 496 7461626c655feceb66ffc86f38 3 columns 4 rows
counter: PrefixNeeded Footer 0 Nothing
seal, front=1c1c2808 0001020304050607 110000 18026b6600, under=70, prefix=70: Encrypted 4 24 700001020304050607 3 columns 5 rows
seal, front=1c1c2808 0001020304050607 110000 18026b6600, prefix=: Encrypted 4 24 0001020304050607 3 columns 5 rows
seal, front=1c1c2808 0001020304050607 110000 18026b6600: PrefixNeeded Footer 0 Nothing
encrypted, prefix=70: PrefixUnused Footer 0 Nothing
encrypted, prefix=: PrefixUnused Footer 0 Nothing
seal, prefix=70: PrefixUnused Footer 0 Nothing
seal, front=1c1c2808 0001020304050607 120000 18026b6600, prefix=70: PrefixUnused Footer 0 Nothing
seal, front=1c1c2808 0001020304050607 120000 18026b6600: Encrypted 4 24 0001020304050607 3 columns 5 rows
sign, prefix=70: PrefixUnused Footer 0 Nothing
signed, prefix=71, no keys: PrefixDiffers Footer 0 Hexes(Bytes { items: [116, 97, 98, 108, 101] }, Bytes { items: [113] })
counter, no keys: PrefixNeeded Footer 0 Nothing
encrypted, prefix=70, no keys: PrefixUnused Footer 0 Nothing
encrypted, prefix=70, key refused=WrapTag: PrefixUnused Footer 0 Nothing
# The footer's key.
encrypted, no keys: FooterKeyMissing Footer 0 Nothing
signed, no keys: FooterKeyMissing Footer 0 Nothing
seal, front=1c1c2808 0001020304050607 0000 18026b6700: FooterKeyMissing Footer 0 Nothing
seal, front=1c1c2808 0001020304050607 0000 00: FooterKeyMissing Footer 0 Nothing
encrypted, key refused=BadMaterial: BadMaterial Footer 0 Name(Bytes { items: [106, 115, 111, 110] })
encrypted, key refused=NoMaterial: NoMaterial Footer 0 Name(Bytes { items: [102, 111, 111, 116, 101, 114, 75, 101, 121] })
encrypted, key refused=WrapTag: WrapTag Footer 0 Tags([1, 1, 1, 1, 1, 1, 1, 1, 1, 1, 1, 1, 1, 1, 1, 1], [2, 2, 2, 2, 2, 2, 2, 2, 2, 2, 2, 2, 2, 2, 2, 2])
encrypted, key refused=KeyLength: KeyLength Footer 0 Pair(15, 0)
signed, key refused=KeyLength: KeyLength Footer 0 Pair(15, 0)
encrypted, @278=1b, no keys: FooterKeyMissing Footer 0 Nothing
encrypted, @278=1b, key refused=KeyLength: KeyLength Footer 0 Pair(15, 0)
signed, @616=66, no keys: FooterKeyMissing Footer 0 Nothing
signed, @616=66, key refused=KeyLength: KeyLength Footer 0 Pair(15, 0)
# The frame of the footer's module, which fills the rest of the area.
bytes=PARE 1c1c28085feceb66ffc86f38000018026b6600 13000000 PARE: Truncated Footer 23 Pair(4, 0)
bytes=PARE 1c1c28085feceb66ffc86f38000018026b6600 0000 15000000 PARE: Truncated Footer 23 Pair(4, 2)
encrypted, @278=1b: BadLength Footer 278 Pair(27, 245)
encrypted, @278=1c: BadLength Footer 278 Pair(28, 245)
encrypted, @278=1d000001: TooLarge Footer 278 Pair(16777217, 16777216)
encrypted, @278=1c000001: Truncated Footer 278 Pair(16777248, 249)
encrypted, @278=f6: Truncated Footer 278 Pair(250, 249)
encrypted, @278=f4: BadLength Footer 278 Pair(244, 245)
# The tag of the module, and of a signature, which is over the footer's own bytes: 158200 is a longer spelling of 1502.
encrypted: Encrypted 259 278 5feceb66ffc86f38 3 columns 4 rows
encrypted, @526=b8: BadTag Footer 278 Tags([218, 100, 207, 157, 158, 72, 191, 1, 162, 160, 2, 165, 238, 150, 128, 185], [218, 100, 207, 157, 158, 72, 191, 1, 162, 160, 2, 165, 238, 150, 128, 184])
encrypted, @282=27: BadTag Footer 278 Tags([173, 110, 159, 180, 163, 115, 227, 5, 187, 196, 200, 73, 93, 88, 91, 126], [218, 100, 207, 157, 158, 72, 191, 1, 162, 160, 2, 165, 238, 150, 128, 185])
encrypted, @294=5a: BadTag Footer 278 Tags([21, 105, 95, 230, 55, 106, 213, 169, 245, 87, 130, 109, 147, 237, 203, 164], [218, 100, 207, 157, 158, 72, 191, 1, 162, 160, 2, 165, 238, 150, 128, 185])
encrypted, @263=5e: BadTag Footer 278 Tags([162, 69, 187, 229, 238, 58, 215, 168, 177, 124, 56, 230, 96, 95, 204, 182], [218, 100, 207, 157, 158, 72, 191, 1, 162, 160, 2, 165, 238, 150, 128, 185])
counter, prefix=71: BadTag Footer 496 Tags([167, 24, 229, 254, 142, 134, 55, 140, 124, 208, 76, 172, 248, 226, 8, 222], [66, 249, 205, 202, 35, 191, 123, 2, 104, 99, 185, 178, 194, 106, 139, 75])
seal, front=1c1c2808 0001020304050607 0000 18026b6300: BadTag Footer 23 Tags([110, 169, 170, 248, 74, 183, 61, 27, 68, 78, 167, 241, 119, 3, 251, 29], [103, 188, 17, 94, 215, 172, 69, 19, 66, 44, 11, 131, 97, 235, 239, 79])
seal, footer=00, @39=00: BadTag Footer 23 Tags([187, 230, 125, 103, 40, 72, 144, 183, 123, 93, 95, 54, 102, 193, 118, 157], [9, 207, 221, 170, 252, 79, 12, 189, 99, 125, 202, 38, 246, 138, 106, 110])
sign: Signed 4 111 0001020304050607 3 columns 5 rows
sign, version=158200: Signed 4 112 0001020304050607 3 columns 5 rows
sign, footer=1502 191c 4806736368656d61150000 1600 190c 4c1c2808 0001020304050607 0000 18026b66 00: Signed 4 42 0001020304050607 0 columns 0 rows
signed, @616=66: BadTag Footer 589 Tags([115, 138, 74, 222, 198, 232, 194, 102, 216, 147, 230, 79, 127, 60, 178, 101], [115, 138, 74, 222, 198, 232, 194, 102, 216, 147, 230, 79, 127, 60, 178, 102])
signed, @589=00: BadTag Footer 589 Tags([235, 40, 36, 75, 204, 159, 158, 222, 210, 64, 226, 130, 250, 171, 160, 122], [115, 138, 74, 222, 198, 232, 194, 102, 216, 147, 230, 79, 127, 60, 178, 101])
signed, @562=64: BadTag Footer 589 Tags([214, 108, 16, 202, 62, 109, 211, 83, 51, 87, 157, 154, 234, 147, 217, 252], [115, 138, 74, 222, 198, 232, 194, 102, 216, 147, 230, 79, 127, 60, 178, 101])
sign, rows=150a, @4=1504: BadTag Footer 111 Tags([7, 103, 79, 215, 66, 21, 86, 4, 36, 73, 31, 68, 214, 203, 101, 184], [22, 194, 145, 137, 121, 208, 80, 41, 111, 199, 240, 28, 36, 26, 243, 196])
# The fields of the footer, in the order of their ids, and those of a struct in its place.
seal, footer=: BadThrift Footer 0 Thrift(End)
seal, stop=: BadThrift Footer 88 Thrift(End)
seal, version=1d: BadThrift Footer 0 Thrift(WrongType)
seal, footer=1502 1d: BadThrift Footer 2 Thrift(WrongType)
seal, version=15 9x80 02: BadThrift Footer 1 Thrift(Varint)
seal, version=158080808010: BadThrift Footer 1 Thrift(Range)
seal, version=15020502: BadThrift Footer 2 Thrift(Repeated)
seal, version=32x1c: BadThrift Footer 32 Thrift(Depth)
seal, footer=00: MissingField Footer 0 Field(FileMetaData, 2)
seal, footer=290c 00: MissingField Footer 0 Field(FileMetaData, 3)
seal, footer=290c 1600 00: MissingField Footer 0 Field(FileMetaData, 4)
seal, footer=280135 00: BadField Footer 0 Field(FileMetaData, 2)
seal, footer=29150200 00: BadField Footer 0 Field(FileMetaData, 2)
seal, rows=150a: BadField Footer 0 Field(FileMetaData, 3)
seal, footer=290c 1600 1600 00: BadField Footer 0 Field(FileMetaData, 4)
seal, footer=290c 1600 19150200: BadField Footer 0 Field(FileMetaData, 4)
seal, stop=2502 00: BadField Footer 0 Field(FileMetaData, 8)
seal, stop=3502 00: BadField Footer 0 Field(FileMetaData, 9)
seal, c=16042500 180163 00: BadField Footer 0 Field(SchemaElement, 1)
seal, c=15041600 1500 180163 00: BadField Footer 0 Field(SchemaElement, 2)
seal, c=15042600 180163 00: BadField Footer 0 Field(SchemaElement, 3)
seal, c=15042500 00: MissingField Footer 0 Field(SchemaElement, 4)
seal, c=15042500 1502 00: BadField Footer 0 Field(SchemaElement, 4)
seal, c=15042500 180163 1600 00: BadField Footer 0 Field(SchemaElement, 5)
seal, c=15042500 180163 2600 00: BadField Footer 0 Field(SchemaElement, 6)
seal, chunks=, chunk_a=, chunk_b=, chunk_c=, group_rows=3606: MissingField Footer 0 Field(RowGroup, 1)
seal, chunks=1502, chunk_a=, chunk_b=, chunk_c=: BadField Footer 0 Field(RowGroup, 1)
seal, group_rows=, ordinal=6400: MissingField Footer 0 Field(RowGroup, 3)
seal, group_rows=2506: BadField Footer 0 Field(RowGroup, 3)
seal, ordinal=4500: BadField Footer 0 Field(RowGroup, 7)
seal, chunk_a=1502 00: BadField Footer 0 Field(ColumnChunk, 1)
seal, chunk_a=3502 00: BadField Footer 0 Field(ColumnChunk, 3)
seal, chunk_a=8502 00: BadField Footer 0 Field(ColumnChunk, 8)
seal, chunk_a=9502 00: BadField Footer 0 Field(ColumnChunk, 9)
seal, chunk_a=3c00 00: MissingField Footer 0 Field(ColumnMetaData, 1)
seal, chunk_a=3c1504 00 00: MissingField Footer 0 Field(ColumnMetaData, 3)
seal, chunk_a=3c1504 29180161 00 00: MissingField Footer 0 Field(ColumnMetaData, 4)
seal, chunk_a=3c1504 29180161 1500 00 00: MissingField Footer 0 Field(ColumnMetaData, 5)
seal, chunk_a=3c1504 29180161 1500 1606 00 00: MissingField Footer 0 Field(ColumnMetaData, 9)
seal, chunk_a=3c1504 29180161 1500 1606 4608 00 00: Encrypted 4 23 0001020304050607 3 columns 5 rows
seal, chunk_a=3c1604 29180161 1500 1606 4608 00 00: BadField Footer 0 Field(ColumnMetaData, 1)
seal, chunk_a=3c1504 280161 1500 1606 4608 00 00: BadField Footer 0 Field(ColumnMetaData, 3)
seal, chunk_a=3c1504 291502 1500 1606 4608 00 00: BadField Footer 0 Field(ColumnMetaData, 3)
seal, chunk_a=3c1504 29180161 1600 1606 4608 00 00: BadField Footer 0 Field(ColumnMetaData, 4)
seal, chunk_a=3c1504 29180161 1500 1506 4608 00 00: BadField Footer 0 Field(ColumnMetaData, 5)
seal, chunk_a=3c1504 29180161 1500 1606 4508 00 00: BadField Footer 0 Field(ColumnMetaData, 9)
seal, chunk_a=3c1504 29180161 1500 1606 4608 2504 00 00: BadField Footer 0 Field(ColumnMetaData, 11)
seal, chunk_b=8c00 00: Unsupported Footer 0 Field(ColumnCryptoMetaData, 1)
seal, chunk_b=8c150200 00: BadField Footer 0 Field(ColumnCryptoMetaData, 1)
seal, chunk_b=8c250200 00: BadField Footer 0 Field(ColumnCryptoMetaData, 2)
seal, chunk_b=8c1c00 1c1918016200 00 00: BadField Footer 0 Field(ColumnCryptoMetaData, 2)
seal, chunk_c=8c2c00 00 00: MissingField Footer 0 Field(EncryptionWithColumnKey, 1)
seal, chunk_c=8c2c150200 00 00: BadField Footer 0 Field(EncryptionWithColumnKey, 1)
seal, chunk_c=8c2c19180163150200 00 00: BadField Footer 0 Field(EncryptionWithColumnKey, 2)
seal, stop=2c00 00: Unsupported Footer 0 Field(EncryptionAlgorithm, 1)
seal, stop=2c1c28010700 1c28010700 00 00: BadField Footer 0 Field(EncryptionAlgorithm, 2)
seal, stop=2c1c00 00 00: MissingField Footer 0 Field(AesGcm, 2)
seal, stop=2c1c28010700 00 00: Encrypted 4 23 0001020304050607 3 columns 5 rows
sign, chunk_a=3c00 00: MissingField Footer 0 Field(ColumnMetaData, 1)
sign, rows=150a, stop=1d: BadThrift Footer 106 Thrift(WrongType)
seal, c=15042500 00, rows=150a: MissingField Footer 0 Field(SchemaElement, 4)
seal, rows=150a, chunk_a=1502 00: BadField Footer 0 Field(FileMetaData, 3)
seal, chunk_a=9502 00, group_rows=2506: BadField Footer 0 Field(ColumnChunk, 9)
seal, chunk_c=8c2c00 00 00, stop=2c00 00: MissingField Footer 0 Field(EncryptionWithColumnKey, 1)
seal, stop=2c00 150200: Unsupported Footer 0 Field(EncryptionAlgorithm, 1)
# The footer's rules are looked at once all fields were read: first the schema as a whole,
seal: Encrypted 4 23 0001020304050607 3 columns 5 rows
seal, stop=00ff: Encrypted 4 23 0001020304050607 3 columns 5 rows
seal, rows=1601, stop=2c00 00: Unsupported Footer 0 Field(EncryptionAlgorithm, 1)
seal, schema=190c, root=, a=, b=, c=: MissingField Footer 0 Field(SchemaElement, 4)
seal, schema=190c, root=, a=, b=, c=, rows=1601: MissingField Footer 0 Field(SchemaElement, 4)
seal, root=4806736368656d61150400: Mismatch Footer 0 Signed(2, 3)
seal, root=4806736368656d61150800: Mismatch Footer 0 Signed(4, 3)
seal, root=4806736368656d6100: Mismatch Footer 0 Signed(0, 3)
seal, root=4806736368656d61150100: Mismatch Footer 0 Signed(-1, 3)
seal, root=4806736368656d61150400, c=15042500180163150200: Mismatch Footer 0 Signed(2, 3)
seal, footer=29fc828002 4806736368656d6115828004 00 32769x1504250018016100 1600 190c 00: TooLarge Footer 0 Pair(32769, 32768)
seal, footer=29fc818002 4806736368656d6115808004 00 32768x1504250018016100 1600 190c 00: BadField Footer 0 Field(SchemaElement, 4)
seal, footer=29fc828002 4806736368656d61150600 32769x1504250018016100 1600 190c 00: Mismatch Footer 0 Signed(3, 32769)
seal, footer=29fc828002 4806736368656d6115828004 00 32769x48016100 1601 190c 00: TooLarge Footer 0 Pair(32769, 32768)
# then each column,
seal, c=15042500 180163 1502 00: Unsupported Footer 0 Field(SchemaElement, 5)
seal, c=15042500 180163 1501 00: Unsupported Footer 0 Field(SchemaElement, 5)
seal, c=15042500 180163 1500 00: Encrypted 4 23 0001020304050607 3 columns 5 rows
seal, c=3500 180163 1502 00: Unsupported Footer 0 Field(SchemaElement, 5)
seal, c=3500 180163 00: MissingField Footer 0 Field(SchemaElement, 1)
seal, c=15012500 180163 00: BadField Footer 0 Field(SchemaElement, 1)
seal, c=15102500 180163 00: BadField Footer 0 Field(SchemaElement, 1)
seal, c=15002500 180163 00: Encrypted 4 23 0001020304050607 3 columns 5 rows
seal, c=150c2500 180163 00: Encrypted 4 23 0001020304050607 3 columns 5 rows
seal, c=150e2500 180163 00: MissingField Footer 0 Field(SchemaElement, 2)
seal, c=150e1500 1500 180163 00: BadField Footer 0 Field(SchemaElement, 2)
seal, c=150e1509 1500 180163 00: BadField Footer 0 Field(SchemaElement, 2)
seal, c=150e1502 1500 180163 00: Encrypted 4 23 0001020304050607 3 columns 5 rows
seal, c=15041500 1500 180163 00: Encrypted 4 23 0001020304050607 3 columns 5 rows
seal, c=150e2504 180163 00: MissingField Footer 0 Field(SchemaElement, 2)
seal, c=1504 380163 00: MissingField Footer 0 Field(SchemaElement, 3)
seal, c=15042502 180163 00: Encrypted 4 23 0001020304050607 3 columns 5 rows
seal, c=15042504 180163 00: Unsupported Footer 0 Field(SchemaElement, 3)
seal, c=15042506 180163 00: BadField Footer 0 Field(SchemaElement, 3)
seal, c=15042501 180163 00: BadField Footer 0 Field(SchemaElement, 3)
seal, c=15042504 180161 00: Unsupported Footer 0 Field(SchemaElement, 3)
seal, c=15042500 180161 00: BadField Footer 0 Field(SchemaElement, 4)
seal, c=15042500 180162 00: BadField Footer 0 Field(SchemaElement, 4)
seal, c=15042500 1801ff 00: BadField Footer 0 Field(SchemaElement, 4)
seal, b=15042506 180162 00, c=3500 180163 1502 00: BadField Footer 0 Field(SchemaElement, 3)
# then the file's rows and the count of groups,
seal, rows=1601: BadField Footer 0 Field(FileMetaData, 3)
seal, c=15042500 180161 00, rows=1601: BadField Footer 0 Field(SchemaElement, 4)
seal, footer=291c 4806736368656d61150000 1600 19fc818002 32769x190c260000 00: TooLarge Footer 0 Pair(32769, 32768)
seal, footer=291c 4806736368656d61150000 1600 19fc808002 32768x190c260000 00: Encrypted 4 23 0001020304050607 0 columns 0 rows
seal, footer=291c 4806736368656d61150000 1601 19fc818002 32769x190c260000 00: BadField Footer 0 Field(FileMetaData, 3)
seal, footer=291c 4806736368656d61150000 1600 19fc818002 32769x191c00260100 00: TooLarge Footer 0 Pair(32769, 32768)
# then each row group and each of its chunks,
seal, chunks=192c, chunk_b=: Mismatch Footer 0 Signed(2, 3)
seal, chunks=194c, chunk_a=0000: Mismatch Footer 0 Signed(4, 3)
seal, chunks=190c, chunk_a=, chunk_b=, chunk_c=: Mismatch Footer 0 Signed(0, 3)
seal, rows=1601, chunks=192c, chunk_b=: BadField Footer 0 Field(FileMetaData, 3)
seal, group_rows=2601: BadField Footer 0 Field(RowGroup, 3)
seal, chunks=192c, chunk_b=, group_rows=2601: Mismatch Footer 0 Signed(2, 3)
seal, ordinal=: Encrypted 4 23 0001020304050607 3 columns 5 rows
seal, ordinal=4402: Mismatch Footer 0 Signed(1, 0)
seal, ordinal=4401: Mismatch Footer 0 Signed(-1, 0)
seal, group_rows=2601, ordinal=4402: BadField Footer 0 Field(RowGroup, 3)
seal, second_group=193c000000 2604 4400 00: Mismatch Footer 0 Signed(0, 1)
seal, chunk_c=180166 00: Unsupported Footer 0 Field(ColumnChunk, 1)
seal, chunk_c=180166 7c2c19180163180269640000 00, ordinal=4402: Mismatch Footer 0 Signed(1, 0)
seal, chunk_c=00: Encrypted 4 23 0001020304050607 3 columns 5 rows
seal, chunk_c=8c2c19180162180269640000 00: Mismatch Footer 0 Names(Bytes { items: [98] }, Bytes { items: [99] })
seal, chunk_c=8c2c1928016301641802696400 00 00: Mismatch Footer 0 Names(Bytes { items: [99, 46, 100] }, Bytes { items: [99] })
seal, c=15042500 1803632e64 00, chunk_c=8c2c1928016301641802696400 00 00: Mismatch Footer 0 Names(Bytes { items: [99, 46, 100] }, Bytes { items: [99, 46, 100] })
seal, chunk_c=8c2c1918001802696400 00 00: Mismatch Footer 0 Names(Bytes { items: [] }, Bytes { items: [99] })
seal, chunk_c=8c2c19081802696400 00 00: Mismatch Footer 0 Names(Bytes { items: [] }, Bytes { items: [99] })
seal, c=15042500 180164 00: Mismatch Footer 0 Names(Bytes { items: [99] }, Bytes { items: [100] })
seal, chunk_c=180166 7c2c19180162180269640000 00: Unsupported Footer 0 Field(ColumnChunk, 1)
seal, chunk_b=8c2c1918016100 00 00, chunk_c=180166 00: Mismatch Footer 0 Names(Bytes { items: [97] }, Bytes { items: [98] })
seal, chunk_c=180166 00, second_group=193c000000 2601 4400 00: Unsupported Footer 0 Field(ColumnChunk, 1)
# and last that the groups' rows add up.
seal, rows=160c: Mismatch Footer 0 Signed(5, 6)
sign, rows=160c: Mismatch Footer 0 Signed(5, 6)
signed, @310=0a, @601=f5fcf2196cefd7316813a1f12060 7c64: Mismatch Footer 0 Signed(4, 5)
seal, rows=16feffffffffffffffff01, group_rows=26faffffffffffffffff01: Encrypted 4 23 0001020304050607 3 columns 9223372036854775807 rows
seal, group_rows=26faffffffffffffffff01: Mismatch Footer 0 Signed(9223372036854775807, 5)
seal, group_rows=26fcffffffffffffffff01: BadField Footer 0 Field(FileMetaData, 3)
seal, rows=160c, chunk_c=8c2c19180162180269640000 00: Mismatch Footer 0 Names(Bytes { items: [98] }, Bytes { items: [99] })
# A footer of 354 bytes, laid by hand after the form of Arrow's writer. It was never compared with a file that Arrow wrote.
seal, footer=1504193c35001806736368656d611504001504250018026174251435021c8c111c2c0000000000150c2502180463697479250035041c1c0000001608191c192c26001c1504193500061019180261741500160816ee0116ee0126800126081c1808c0064c18240a0600180800401e18240a060016002808c0064c18240a0600180800401e18240a0600111100192c150415001502001500151015020016d804155e1c29061906000016c806151616f805153e0026001c150c19250006191804636974791500160816b00116b00126f6013c3602160418044f736c6f18044265726e111200191c150015001502003c161829260206000016de06151616b606151200169e031608191c15001211001608169e03140000192c180c4152524f573a736368656d6118082f2f2f2f2f773d3d0018046e6f7465001820706172717565742d6370702d6172726f772076657273696f6e2031352e302e30192c1c00001c000000: Encrypted 4 23 0001020304050607 2 columns 4 rows";

fn shown(alloc: Global, read: Result<Tail, Refusal>) -> Result<String, Fail> {
    match read {
        Ok(tail) => {
            let aad = match &tail.protection {
                Some(protection) => hex::encode(alloc, protection.file_aad.joined())?,
                None => String::from_str(alloc, "-")?,
            };
            let columns = tail.footer.schema.len();
            let rows = tail.footer.num_rows;
            Ok(format!(in alloc;
                "{:?} {} {} {aad} {columns} columns {rows} rows",
                tail.mode, tail.data_end, tail.at
            )?)
        }
        Err(refusal) => Ok(format!(in alloc;
            "{:?} {:?} {} {:?}",
            refusal.cause, refusal.place.kind, refusal.at, refusal.detail
        )?),
    }
}

/// The answer for the file of a line, read with this key finder.
fn answer_by<K: KeyFinder>(
    alloc: Global,
    line: &str,
    files: &mut MemFiles,
    finder: &mut K,
) -> Result<String, Fail> {
    let options = ReadOptions {
        gcm_only: setting(line, "gcm only").is_some(),
        allow_plain: setting(line, "allow plain").is_some(),
        module_limit: 16_777_216,
    };
    let supplied = match setting(line, "prefix") {
        Some(text) => Some(spelled(alloc, text)?),
        None => None,
    };
    let prefix = match &supplied {
        Some(bytes) if bytes.len() <= 1024 => Some(bytes.as_slice()),
        _ => None,
    };
    shown(
        alloc,
        read_tail(alloc, files, "f", prefix, finder, &options),
    )
}

/// The answer for the file of a line.
fn answer_for(alloc: Global, line: &str) -> Result<String, Fail> {
    let mut files = MemFiles::new(alloc);
    if let Some(file) = file_of(alloc, line)? {
        files.store("f", file.as_slice())?;
    }
    if let Some(name) = setting(line, "key refused") {
        let fault = KeyFault::of_name(name).ok_or("fault")?;
        return answer_by(alloc, line, &mut files, &mut RefusingFinder { fault });
    }
    let keys = match setting(line, "no keys") {
        Some(_) => b"{}".as_slice(),
        None => KEYS,
    };
    let mut finder = IdKeys::parse(alloc, keys)?;
    answer_by(alloc, line, &mut files, &mut finder)
}

fn check<R: Abort + AllocGlobal>(rt: &R, case: &str) -> Result<(), Fail> {
    let (line, answer) = case.split_once(": ").ok_or("answer")?;
    assert_eq!(rt; unknown_setting(line), None, "{line}");
    let text = answer_for(rt.alloc(), line)?;
    assert_eq!(rt; text.as_str(), answer, "{line}");
    Ok(())
}

#[test]
fn the_first_broken_condition_is_told(rt: HostRuntime) -> Result<(), Fail> {
    for case in CASES.lines() {
        if !case.starts_with('#') {
            check(&rt, case)?;
        }
    }
    Ok(())
}
