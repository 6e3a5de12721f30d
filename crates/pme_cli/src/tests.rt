// The commands through `run`, over objects in memory. Expected texts of `module` come from the test cases of SP 800-38D and
// from OpenSSL. Those of `thrift` were worked out by hand from the compact protocol. The sample files of `footer` were
// made by another implementation, and the lines that they print were worked out beside them.
use crate::run::run;
use pme_base::{Bytes, MemFiles, MemRandom, MemSink, OutOfMemory, Trouble, Words};
use std::alloc::Global;
use std::process::Abort;
use std::test::Fail;

/// A file of three columns with an encrypted footer.
const ENCRYPTED: &str = "\
504152451500154015402c150815001506150600000100000000000000020000000000000003000000000000000400000000\
0000002d000000d952786c6d696c79c2dbc23992ccf12e55b3d1f14cb40656d2e50888ee8c8e177823bd10d9fd097729812d\
a8fd34000000dd4e91b46729d73a27fb57e9f378b9fdb17be2efe1258280ced426419bff38053c56fcf58ef68c6ce438d39c\
ce0dbbe4eeff0c512d0000006b86b273ff34fce19d6b804e59102bb3b1618ee1bd3987491bde3ff742bb507fa9bc66089068\
f1f3a439eb315930000000ff5a3f5747ada4eaa22f1d4953405f515659a224ad178e9e7a28a9d185d1c7d0efe3c3acc71ddf\
1caa77ebd0016dd41f1c1c28085feceb66ffc86f38000018026b6600f5000000265e16eee03f59718b9b5d03cb5f859efa55\
120f2c6149a9ef07513b19da1c8a9570cc0fa8242e4bdec48227a8aba57aa35f2715b06a3f2ada3d2572817b1c1aeba50a7f\
d94196329eb93dccf676e7ddd5d8b497c4cb11052e6a965b0754571db5409dca189923d75a23e76c9c68fc814c8efae2415e\
435332fad101384d94ab34e03402e05661b12e139497a79313c6792b8829ea81566574048ea1c185bc9b5f1ccc289a42ae39\
f68ecea67162d5c44f794ee1f5e9ab1b37da5b4a9e2554343e5814f5b30d0cc4ebab8f0583a556f96dc31a246a42e520ed92\
c114469404ecf7d002ae05da64cf9d9e48bf01a2a002a5ee9680b90c01000050415245";

/// The same table with a signed footer and a stored prefix.
const SIGNED: &str = "\
504152311500154015402c150815001506150600000100000000000000020000000000000003000000000000000400000000\
0000002d000000d952786c6d696c79c2dbc23992ccf12e55b3d1f14cb40656d2e50888ee8a2c0815893d1c1a940b7c41a3ba\
167f34000000dd4e91b46729d73a27fb57e9f378b9fdb17be2efe1258280ced426419bff38053c56fcf5fc79bfe8ea934987\
4dc5dd65fc1318492d0000006b86b273ff34fce19d6b804e59102bb3b1618ee1bd3987491bde3ff74293600a9cc7850527ed\
3bbf4ed23cac8930000000ff5a3f5747ada4eaa22f1d4953405f515659a224ad178e9e7a28a9d185d1c7d0e9d54a442a7f1a\
a510977b435ee577c71502194c4806736368656d61150600150425001802696400150c250218046e616d65250000150c2500\
1806736563726574001608191c193c26081c1504192500061918026964150016081662166226080000266a1c150c19250006\
1918046e616d6515001608165216d201266a005c1c0000183935000000c01e52ddb7875b4bd4735e3af8add7142300014818\
ca6b5a8eec952b964482aaa9deab0a5fd338329b3b82e9b06f12576dccaf52dd0026bc021c150c1925000619180673656372\
657415001608164a16ca0126bc02005c2c19180673656372657418026b630000183c38000000265e16eee03f59718b9b5d03\
0583290eac563926fd01dd60f897746828ed8ee55722d573dc37e7a07d12fbe9acdfbcd351a47f6cf7311a470016fe011608\
260816fe031400002803706d652c1c18057461626c6518085feceb66ffc86f38000018026b6600019c07d8b6c51f90da3a66\
6e738a4adec6e8c266d893e64f7f3cb2656601000050415231";

/// The same table under AES_GCM_CTR_V1, with a prefix that a reader supplies.
const COUNTER_MODE: &str = "\
504152452d000000d952786c6d696c79c2dbc23992ccf12e5593d1f142b40656d2e50888eeade72f15f2ee0d69ced3bf17f0\
b287e024000000dd4e91b46729d73a27fb57e9be465e2ba7204b032ca0ba742baf7dcdf278b9fdb276e1ef2d0000006b86b2\
73ff34fce19d6b804e831021d6a9b4b0d7a64a5433debb05d8e7a30ea2dea9e741e80e8a9481151da07b1d000000ff5a3f57\
47ada4eaa22f1d4968b7c78a841706567d0a7915a00bf0ecca2d000000c01e52ddb7875b4bd4735e3a9eaa94f486907add67\
13eed19f6cd714435723555fbef55df5c1ec5b8a3bb00c721b000000265e16eee03f59718b9b5d0329801dea123a76bfee09\
fa7527b5e72d000000019c07d8b6c51f90da3a666ea71b5b5e36fa12d58a846a17d119e02d18e5358506c2329ecff76baebd\
a5ab118e14000000ec13ab354e07408562bedb8b724072856ba95cc92d00000060ce05c1decfe3ad16b72230d11dfc8239b5\
ceaaa8e8ddf9abe7d8d93895a9829590bc4a06684a7191ab440e1119000000967de01f640b7e4729b49fce39f92e20bafb42\
98abda86ef5e2d0000004b227777d4dd1fc61c6f884fd5129db857f862f08e7b6858d14cbfc58fb3d53e00163f9de77be220\
44326060121100000048641d02b4d121d3fd328cb0709e8901a81c2c28085feceb66ffc86f3811000018026b6600a3010000\
9a1f22327b2ebbcfbec78f556b971ca2e18d6f43fcce6e39ee9d84957a1c8a426e3289ea77e69aa796d7c7591ad558e50c14\
033f19c0688e3cd7c264ef592611a28acf4d07abf889dd26d79ed38e38372e8ee8b4335317a12cddeab4516b18989127bd1f\
34720c65a131064feb9f55c90359d5e40f0a0e45866b3a701f9475055053f75b56f9dcc675c2cac507f5d9d0f3e881cfce6a\
54ad7f919e336d42c4436300720d9fcfe485f5c7dbf431eb2b68d7b48a3d0f9613c572869a37cc6f80cfad9b68c91beb87c1\
6bc552b5e4e5a8b736e165957aee555e3e323d1a6f6dc097148462828def4a690d3ed4bb13cb9f29bd6d1ef2f9fa804ad9e6\
054e0d5707fc7b3fb338266b6231d5e8c57dc579f064abde14a6ad5d9fee0a705abc8f843272a27b9de5f89ff29a401c1588\
eebc6b2ea4cba9c7c8366e2e5ea07f39a1009e0f25257d4722f3e62e3b1bc07c1390aab5b6a5d0164a39e6684ca5d8fe2c93\
dfb10f768d8b007d470244fea0fadaecf95764f36d3799684dbb7d8576264c63f3a6b04739633b51471645a9bad30225b0dd\
5fb86a42f9cdca23bf7b026863b9b2c26a8b4bbb01000050415245";

/// A file without encryption: a page of four INT32 values, and the footer of its one column.
const UNENCRYPTED: &str = "\
504152311500152015202c15081500150615060000010000000200000003000000040000001502192c4806736368656d6115\
02001502250018016e001608191c191c26081c1502192500061918016e150016081642164226080000164216082608164214\
00002803706d65004700000050415231";

const KEYS: &str =
    r#"{"kc":"101112131415161718191a1b1c1d1e1f","kf":"000102030405060708090a0b0c0d0e0f"}"#;

/// Further files: a name and the bytes in hex, or a name and the text after `=`.
const FILES: &str = "\
bad.json={\"kf\":\"00\"}
other.json={\"kc\":\"101112131415161718191a1b1c1d1e1f\"}
empty.bin=
zeros.bin 000000000000000000000000
long.bin 504152310500000050415231
open.bin 50415231000100000050415231";

/// Each line is a case: words (`''` is an empty one), the bytes of `m.bin` and `t.bin` in hex, the exit status, and the
/// lines that are printed, to `out` where the status is 0, else to `err`.
const CASES: &str = "\
module --key 00000000000000000000000000000000 --aad '' --file m.bin|1c00000000000000000000000000000058e2fccefa7e3061367f1d57a4e7455a|0|
module --key 00000000000000000000000000000000 --aad '' --file m.bin|1c00000000000000000000000000000058e2fccefa7e3061367f1d57a4e7455b|3|refused 3 BadTag in m.bin module at 0 58e2fccefa7e3061367f1d57a4e7455a 58e2fccefa7e3061367f1d57a4e7455b
module --key 00000000000000000000000000000000 --aad '' --file m.bin|2c0000000000000000000000000000000388dace60b6a392f328c2b971b2fe78ab6e47d42cec13bdf53a67b21257bddf|0|00000000000000000000000000000000
module --file m.bin --aad '' --key 00000000000000000000000000000000|2c0000000000000000000000000000000388dace60b6a392f328c2b971b2fe78ab6e47d42cec13bdf53a67b21257bddf|0|00000000000000000000000000000000
module --key feffe9928665731c6d6a8f9467308308 --aad feedfacedeadbeeffeedfacedeadbeefabaddad2 --file m.bin|58000000cafebabefacedbaddecaf88842831ec2217774244b7221b784d0d49ce3aa212f2c02a4e035c17e2329aca12e21d514b25466931c7d8f6a5aac84aa051ba30b396a0aac973d58e0915bc94fbc3221a5db94fae95ae7121a47|0|d9313225f88406e5a55909c5aff5269a86a7a9531534f7da2e4c303d8a318a721c3c0c95956809532fcf0e2449a6b525b16aedf5aa0de657ba637b39
module --key FEFFE9928665731C6D6A8F9467308308 --aad '' --file m.bin|58000000cafebabefacedbaddecaf88842831ec2217774244b7221b784d0d49ce3aa212f2c02a4e035c17e2329aca12e21d514b25466931c7d8f6a5aac84aa051ba30b396a0aac973d58e0915bc94fbc3221a5db94fae95ae7121a47|3|refused 3 BadTag in m.bin module at 0 cc15abcc191161501aabab46b8fbac85 5bc94fbc3221a5db94fae95ae7121a47
module --key 000102030405060708090a0b0c0d0e0f1011121314151617 --aad 616164 --file m.bin|3c000000cafebabefacedbaddecaf888ad06d7563a48d417a21141d5a5711f06ca0106487c0730fbb952dfde38d713cb7e71c9fa3dc373e8053d3e6bff5f8746|0|61206d6f64756c6520756e6465722061206b6579206f66203234206279746573
module --key 000102030405060708090a0b0c0d0e0f101112131415161718191a1b1c1d1e1f --aad 616164 --file m.bin|3c000000cafebabefacedbaddecaf888eb83cd49ce0f237e667e33b91e6fa95e2d4ba528ff760c547ded2413c7fd008cb06b07488f4ecb0f42848544f92b4db1|0|61206d6f64756c6520756e6465722061206b6579206f66203332206279746573
module --key 000102030405060708090a0b0c0d0e0f --aad 5FECEB66FFC86F3802000001000000 --file m.bin|34000000dd4e91b46729d73a27fb57e9f378b9fdb17be2efe1258280ced426419bff38053c56fcf58ef68c6ce438d39cce0dbbe4eeff0c51|0|02000000030d03000000616e6e0000000003000000612c62
module --key 00000000000000000000000000000000 --aad '' --file m.bin||1|refused 1 Truncated in m.bin module at 0 4 0
module --key 00000000000000000000000000000000 --aad '' --file m.bin|1c0000|1|refused 1 Truncated in m.bin module at 0 4 3
module --key 00000000000000000000000000000000 --aad '' --file m.bin|1b000000000000000000000000000000000000000000000000000000000000|2|refused 2 BadLength in m.bin module at 0 27 27
module --key 00000000000000000000000000000000 --aad '' --file m.bin|1d00000000000000000000000000000000000000000000000000000000000000|1|refused 1 Truncated in m.bin module at 0 33 32
module --key 00000000000000000000000000000000 --aad '' --file m.bin|1c00000000000000000000000000000058e2fccefa7e3061367f1d57a4e7455a00|2|refused 2 BadLength in m.bin module at 0 28 29
module --key 00000000000000000000000000000000 --aad '' --file m.bin|1d000001|1|refused 1 Truncated in m.bin module at 0 16777249 4
module --key 00000000000000000000000000000000 --aad '' --file m.bin|1c000001|1|refused 1 Truncated in m.bin module at 0 16777248 4
module --key 00000000000000000000000000000000 --aad '' --file m.bin|1c000010|1|refused 1 Truncated in m.bin module at 0 268435488 4
module --key 00000000000000000000000000000000 --aad '' --file m.bin|1d000010|50|refused 50 TooLarge in m.bin module at 0 268435457 268435456
module --key 00000000000000000000000000000000 --aad '' --file none.bin|2c0000000000000000000000000000000388dace60b6a392f328c2b971b2fe78ab6e47d42cec13bdf53a67b21257bddf|60|refused 60 NoFile in none.bin
module --key 00000000000000000000000000000000 --aad '' --file ''|2c0000000000000000000000000000000388dace60b6a392f328c2b971b2fe78ab6e47d42cec13bdf53a67b21257bddf|60|refused 60 NoFile in 
modul --key 00000000000000000000000000000000 --aad '' --file m.bin|2c0000000000000000000000000000000388dace60b6a392f328c2b971b2fe78ab6e47d42cec13bdf53a67b21257bddf|64|refused 64 Usage
module --key 00 --aad '' --file m.bin|2c0000000000000000000000000000000388dace60b6a392f328c2b971b2fe78ab6e47d42cec13bdf53a67b21257bddf|64|refused 64 Usage
module --key 00000000000000000000000000000000 --aad 0 --file m.bin|2c0000000000000000000000000000000388dace60b6a392f328c2b971b2fe78ab6e47d42cec13bdf53a67b21257bddf|64|refused 64 Usage
module --key 00000000000000000000000000000000 --file m.bin|2c0000000000000000000000000000000388dace60b6a392f328c2b971b2fe78ab6e47d42cec13bdf53a67b21257bddf|64|refused 64 Usage
module --key 00000000000000000000000000000000 --aad '' --file|2c0000000000000000000000000000000388dace60b6a392f328c2b971b2fe78ab6e47d42cec13bdf53a67b21257bddf|64|refused 64 Usage
module --key 00000000000000000000000000000000 --key 00000000000000000000000000000000 --aad '' --file m.bin|2c0000000000000000000000000000000388dace60b6a392f328c2b971b2fe78ab6e47d42cec13bdf53a67b21257bddf|64|refused 64 Usage
module --key 00000000000000000000000000000000 --aad '' --file m.bin --rows 1|2c0000000000000000000000000000000388dace60b6a392f328c2b971b2fe78ab6e47d42cec13bdf53a67b21257bddf|64|refused 64 Usage
module --key 00000000000000000000000000000000 --aad --file --file m.bin|2c0000000000000000000000000000000388dace60b6a392f328c2b971b2fe78ab6e47d42cec13bdf53a67b21257bddf|64|refused 64 Usage
--help|2c0000000000000000000000000000000388dace60b6a392f328c2b971b2fe78ab6e47d42cec13bdf53a67b21257bddf|64|refused 64 Usage
thrift --file t.bin|150200|0|{1: 1}|rest 0
thrift --file t.bin|15820000|0|{1: 1}|rest 0
thrift --file t.bin|1b015802016100|0|{1: (1=>x61)}|rest 0
thrift --file t.bin|19350204060000|0|{1: [1, 2, 3]}|rest 1
thrift --file t.bin|1100|0|{1: true}|rest 0
thrift --file t.bin|1c1c1c1c1c1c1c1c1c1c1c1c1c1c1c1c1c1c1c1c1c1c1c1c1c1c1c1c1c1c1c0000000000000000000000000000000000000000000000000000000000000000|0|{1: {1: {1: {1: {1: {1: {1: {1: {1: {1: {1: {1: {1: {1: {1: {1: {1: {1: {1: {1: {1: {1: {1: {1: {1: {1: {1: {1: {1: {1: {1: {}}}}}}}}}}}}}}}}}}}}}}}}}}}}}}}}|rest 0
thrift --file t.bin|150205020400|4|refused 4 BadThrift in t.bin file at 2 repeated
thrift --file t.bin||4|refused 4 BadThrift in t.bin file at 0 end
thrift --file t.bin|19fcffffffff07|4|refused 4 BadThrift in t.bin file at 7 end
thrift --file t.bin|19fcffffffff08|4|refused 4 BadThrift in t.bin file at 2 range
thrift --file t.bin|1c1c1c1c1c1c1c1c1c1c1c1c1c1c1c1c1c1c1c1c1c1c1c1c1c1c1c1c1c1c1c1c000000000000000000000000000000000000000000000000000000000000000000|4|refused 4 BadThrift in t.bin file at 32 depth
thrift --file none.bin|150200|60|refused 60 NoFile in none.bin
thrift|150200|64|refused 64 Usage
thrift --file t.bin --key 00|150200|64|refused 64 Usage
thrift --file t.bin --file t.bin|150200|64|refused 64 Usage
footer --file t.parquet --keys k.json||0|mode encrypted|algorithm AES_GCM_V1|unique 5feceb66ffc86f38|prefix none|column id:int64|column name:text?|column secret:bytes|groups 1 rows 4
footer --gcm-only --keys k.json --file t.parquet||0|mode encrypted|algorithm AES_GCM_V1|unique 5feceb66ffc86f38|prefix none|column id:int64|column name:text?|column secret:bytes|groups 1 rows 4
footer --file signed.parquet --keys k.json||0|mode signed|algorithm AES_GCM_V1|unique 5feceb66ffc86f38|prefix stored 7461626c65|column id:int64|column name:text?|column secret:bytes|groups 1 rows 4
footer --file signed.parquet --prefix 7461626C65 --keys k.json||0|mode signed|algorithm AES_GCM_V1|unique 5feceb66ffc86f38|prefix stored 7461626c65|column id:int64|column name:text?|column secret:bytes|groups 1 rows 4
footer --file signed.parquet --keys k.json --prefix 71||12|refused 12 PrefixDiffers in signed.parquet 7461626c65 71
footer --file ctr.parquet --keys k.json --prefix 7461626c65||0|mode encrypted|algorithm AES_GCM_CTR_V1|unique 5feceb66ffc86f38|prefix supplied 7461626c65|column id:int64|column name:text?|column secret:bytes|groups 2 rows 4
footer --file ctr.parquet --keys k.json||10|refused 10 PrefixNeeded in ctr.parquet
footer --file ctr.parquet --gcm-only --keys k.json --prefix 7461626c65||14|refused 14 AlgorithmRefused in ctr.parquet
footer --file t.parquet --keys k.json --prefix 70||11|refused 11 PrefixUnused in t.parquet
footer --file t.parquet --keys k.json --prefix ''||11|refused 11 PrefixUnused in t.parquet
footer --file t.parquet --keys bad.json||43|refused 43 BadKeys in bad.json kf
footer --file t.parquet --keys empty.bin||43|refused 43 BadKeys in empty.bin 
footer --file t.parquet --keys other.json||13|refused 13 FooterKeyMissing in t.parquet
footer --file none.parquet --keys none.json||60|refused 60 NoFile in none.json
footer --file none.parquet --keys k.json||60|refused 60 NoFile in none.parquet
footer --file empty.bin --keys k.json||1|refused 1 Truncated in empty.bin file at 0 12 0
footer --file zeros.bin --keys k.json||7|refused 7 BadMagic in zeros.bin file at 8
footer --file long.bin --keys k.json||8|refused 8 BadFooterLength in long.bin footer at 4 5 0
footer --file open.bin --keys k.json||9|refused 9 NotEncrypted in open.bin
footer --file u.parquet --keys k.json||9|refused 9 NotEncrypted in u.parquet
footer --file t.parquet||64|refused 64 Usage
footer --keys k.json||64|refused 64 Usage
footer --file t.parquet --ring k.json||64|refused 64 Usage
footer --file t.parquet --keys k.json --gcm-only --gcm-only||64|refused 64 Usage
footer --file t.parquet --keys k.json --gcm-only true||64|refused 64 Usage
footer --file t.parquet --keys k.json --prefix 0||64|refused 64 Usage
footer --file t.parquet --keys k.json --prefix||64|refused 64 Usage
thrift --file t.parquet --gcm-only||64|refused 64 Usage";

/// Each line is a case: the bytes of a value in hex digits, the exit status, and the words before the value.
const BOUNDS: &str = "\
4096 60 module --file n --key 00112233445566778899aabbccddeeff --aad
4097 64 module --file n --key 00112233445566778899aabbccddeeff --aad
1024 11 footer --file t.parquet --keys k.json --prefix
1025 64 footer --file t.parquet --keys k.json --prefix";

/// Each line is a case: the number of calls of the files that a command makes, and its words.
const READERS: &str = "\
3 module --key 00000000000000000000000000000000 --aad '' --file m.bin
2 thrift --file t.bin
6 footer --file t.parquet --keys k.json";

const SEALED_ZEROS: &str =
    "2c0000000000000000000000000000000388dace60b6a392f328c2b971b2fe78ab6e47d42cec13bdf53a67b21257bddf";

const LINE: &str = "module --key 00000000000000000000000000000000 --aad '' --file m.bin";

/// The exit status of a run, and what it wrote.
#[derive(Drop)]
struct Outcome {
    number: u8,
    line: Option<Trouble>,
    largest_read: u64,
    out: Bytes,
    err: Bytes,
}

/// The objects that a run is given.
#[derive(Drop)]
struct Objects {
    files: MemFiles,
    out: MemSink,
    err: MemSink,
}

/// The words of a line, where `''` is an empty one.
fn words_of(alloc: Global, line: &str) -> Result<Words, OutOfMemory> {
    let mut words = Words::new(alloc);
    for word in line.split_whitespace() {
        if word == "''" {
            words.push("")?;
        } else {
            words.push(word)?;
        }
    }
    Ok(words)
}

fn store_hex(alloc: Global, files: &mut MemFiles, name: &str, digits: &str) -> Result<(), Fail> {
    files.store(name, hex::decode(alloc, digits)?.as_slice())?;
    Ok(())
}

/// Objects with the sample files, and `m.bin` and `t.bin` of the bytes `file` in hex.
fn given(alloc: Global, file: &str) -> Result<Objects, Fail> {
    let mut files = MemFiles::new(alloc);
    store_hex(alloc, &mut files, "m.bin", file)?;
    store_hex(alloc, &mut files, "t.bin", file)?;
    store_hex(alloc, &mut files, "t.parquet", ENCRYPTED)?;
    store_hex(alloc, &mut files, "signed.parquet", SIGNED)?;
    store_hex(alloc, &mut files, "ctr.parquet", COUNTER_MODE)?;
    store_hex(alloc, &mut files, "u.parquet", UNENCRYPTED)?;
    files.store("k.json", KEYS.as_bytes())?;
    for line in FILES.lines() {
        match line.split_once('=') {
            Some((name, text)) => files.store(name, text.as_bytes())?,
            None => {
                let (name, digits) = line.split_once(' ').ok_or("digits")?;
                store_hex(alloc, &mut files, name, digits)?;
            }
        }
    }
    Ok(Objects {
        files,
        out: MemSink::new(alloc),
        err: MemSink::new(alloc),
    })
}

/// Runs the words over these objects.
fn ran(alloc: Global, words: &Words, mut given: Objects) -> Result<Outcome, OutOfMemory> {
    let mut random = MemRandom::new(alloc, Bytes::new(alloc));
    let status = run(
        alloc,
        words,
        &mut given.files,
        &mut random,
        &mut given.out,
        &mut given.err,
    );
    Ok(Outcome {
        number: status.number,
        line: status.line,
        largest_read: given.files.largest_read(),
        out: Bytes::copy_of(alloc, given.out.bytes())?,
        err: Bytes::copy_of(alloc, given.err.bytes())?,
    })
}

/// Checks that these lines were written, each with its line feed. In `lines` they are separated by bars.
fn same_lines(rt: &impl Abort, written: &Bytes, lines: &str, note: &str) {
    match written.as_slice().strip_suffix(b"\n".as_slice()) {
        Some(text) => {
            assert_eq!(rt; text.len(), lines.len(), "{note}");
            for (byte, wanted) in text.iter().zip(lines.bytes()) {
                let wanted = if wanted == b'|' { b'\n' } else { wanted };
                assert_eq!(rt; *byte, wanted, "{note}");
            }
        }
        None => assert!(rt; false, "{note}"),
    }
}

fn check_case<R: Abort + AllocGlobal>(rt: &R, case: &str) -> Result<(), Fail> {
    let alloc = rt.alloc();
    let mut fields = case.splitn(4, '|');
    let words = words_of(alloc, fields.next().ok_or("words")?)?;
    let file = fields.next().ok_or("file")?;
    let number = fields.next().ok_or("number")?.parse::<u8>()?;
    let line = fields.next().ok_or("line")?;
    let ran = ran(alloc, &words, given(alloc, file)?)?;
    assert_eq!(rt; ran.number, number, "{case}");
    if number == 0 {
        assert_eq!(rt; ran.err.len(), 0, "{case}");
        same_lines(rt, &ran.out, line, case);
    } else {
        assert_eq!(rt; ran.out.len(), 0, "{case}");
        same_lines(rt, &ran.err, line, case);
    }
    Ok(())
}

#[test]
fn each_case_prints_its_lines(rt: HostRuntime) -> Result<(), Fail> {
    for case in CASES.lines() {
        check_case(&rt, case)?;
    }
    Ok(())
}

fn check_bound<R: Abort + AllocGlobal>(rt: &R, case: &str) -> Result<(), Fail> {
    let alloc = rt.alloc();
    let mut fields = case.splitn(3, ' ');
    let bytes = fields.next().ok_or("bytes")?.parse::<usize>()?;
    let number = fields.next().ok_or("number")?.parse::<u8>()?;
    let line = fields.next().ok_or("words")?;
    let value = hex::encode(alloc, vec![in alloc; 0xa5u8; bytes]?.as_slice())?;
    let line = format!(in alloc; "{line} {value}")?;
    let words = words_of(alloc, line.as_str())?;
    let ran = ran(alloc, &words, given(alloc, "")?)?;
    assert_eq!(rt; ran.number, number, "{case}");
    Ok(())
}

#[test]
fn values_over_their_limit_are_refused(rt: HostRuntime) -> Result<(), Fail> {
    for case in BOUNDS.lines() {
        check_bound(&rt, case)?;
    }
    Ok(())
}

fn check_reader<R: Abort + AllocGlobal>(rt: &R, case: &str) -> Result<(), Fail> {
    let alloc = rt.alloc();
    let (calls, line) = case.split_once(' ').ok_or("calls")?;
    let words = words_of(alloc, line)?;
    for call in 0..calls.parse::<u64>()? {
        let mut given = given(alloc, SEALED_ZEROS)?;
        given.files.fail(call)?;
        let ran = ran(alloc, &words, given)?;
        assert_eq!(rt; ran.number, 61, "{case}");
        assert_eq!(rt; ran.out.len(), 0, "{case}");
        same_lines(rt, &ran.err, "refused 61 ReadFault", case);
    }
    Ok(())
}

#[test]
fn each_failed_read_is_a_read_fault(rt: HostRuntime) -> Result<(), Fail> {
    for case in READERS.lines() {
        check_reader(&rt, case)?;
    }
    Ok(())
}

#[test]
fn a_failed_write_is_a_write_fault(rt: HostRuntime) -> Result<(), Fail> {
    let alloc = rt.alloc();
    let words = words_of(alloc, LINE)?;
    let mut given = given(alloc, SEALED_ZEROS)?;
    given.out.fail(0)?;
    let ran = ran(alloc, &words, given)?;
    assert_eq!(rt; ran.number, 62);
    assert_eq!(rt; ran.out.len(), 0);
    same_lines(&rt, &ran.err, "refused 62 WriteFault", "writing");
    Ok(())
}

#[test]
fn the_status_is_kept_where_its_line_fails(rt: HostRuntime) -> Result<(), Fail> {
    let alloc = rt.alloc();
    let words = words_of(alloc, LINE)?;
    let mut given = given(alloc, "")?;
    given.err.fail(0)?;
    let ran = ran(alloc, &words, given)?;
    assert_eq!(rt; ran.number, 1);
    assert_eq!(rt; ran.line, Some(Trouble::Failed));
    assert_eq!(rt; ran.err.len(), 0);
    Ok(())
}

#[test]
fn a_module_is_read_after_its_length_field(rt: HostRuntime) -> Result<(), Fail> {
    let alloc = rt.alloc();
    let words = words_of(alloc, LINE)?;
    let ran = ran(alloc, &words, given(alloc, SEALED_ZEROS)?)?;
    assert_eq!(rt; ran.number, 0);
    assert_eq!(rt; ran.largest_read, 44);
    Ok(())
}

#[test]
fn a_file_over_the_limit_is_not_read(rt: HostRuntime) -> Result<(), Fail> {
    let alloc = rt.alloc();
    for line in [
        "thrift --file large.bin",
        "footer --file t.parquet --keys large.bin",
    ] {
        let words = words_of(alloc, line)?;
        let mut given = given(alloc, "")?;
        given
            .files
            .store("large.bin", vec![in alloc; 0u8; 16_777_217]?.as_slice())?;
        let ran = ran(alloc, &words, given)?;
        assert_eq!(rt; ran.number, 50, "{line}");
        assert_eq!(rt; ran.largest_read, 0, "{line}");
        let refusal = "refused 50 TooLarge in large.bin file at 0 16777217 16777216";
        same_lines(&rt, &ran.err, refusal, line);
    }
    Ok(())
}
