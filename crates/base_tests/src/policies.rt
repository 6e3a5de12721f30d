// Texts of policies, each with its policy or the name for which it is refused.
use json_text::hex_text;
use key_material::{Policy, PolicyRefusal, policies_are_judged_by_name};
use pme_base::{Bytes, OutOfMemory};
use std::alloc::Global;
use std::test::Fail;

// A line is `TEXT -> ANSWER`, and one that begins with # is a heading. ~ stands for `parquet.encryption.`, and |9*ab| for
// nine times `ab`.
//
// ANSWER is `Bad` and a name. For a policy it is the id of the footer key, the columns with keys of their own, the columns
// under the footer key, letters for the flags that are set (uniform, ctr, plaintext footer, double wrapping, internal
// material, stored prefix), the length of data keys in bits, the prefix in hex or -, and the rows of a row group and of a
// page. Each answer was derived by hand from the table of names in docs/FORMAT.md.
const CASES: &str = r#"
# No object.
 -> Bad 
[] -> Bad 
"~footer.key" -> Bad 
{"~footer.key":"kf",} -> Bad 
{"~footer.key":"kf"} {} -> Bad 
# The footer key's id, of 1 to 256 bytes and without `:`, `;` and `,`.
{} -> Bad ~footer.key
{"~footer.key":"kf"} -> kf [] [] dis 128 - 100000 1000
 { "~footer.key" : "a b" }  -> a b [] [] dis 128 - 100000 1000
{"~footer.key":"\u006bf"} -> kf [] [] dis 128 - 100000 1000
{"~footer.key":""} -> Bad ~footer.key
{"~footer.key":"|256*k|"} -> |256*k| [] [] dis 128 - 100000 1000
{"~footer.key":"|257*k|"} -> Bad ~footer.key
{"~footer.key":"|128*é|"} -> |128*é| [] [] dis 128 - 100000 1000
{"~footer.key":"|129*é|"} -> Bad ~footer.key
{"~footer.key":"k:f"} -> Bad ~footer.key
{"~footer.key":"kf;"} -> Bad ~footer.key
{"~footer.key":",kf"} -> Bad ~footer.key
{"~footer.key":"k\u003af"} -> Bad ~footer.key
{"~footer.key":null} -> Bad ~footer.key
{"~footer.key":["kf"]} -> Bad ~footer.key
# Columns with keys of their own; a part ends at each `;` and an id at the first `:`.
{"~footer.key":"kf","~column.keys":""} -> kf [] [] dis 128 - 100000 1000
{"~footer.key":"kf","~column.keys":"kc:a"} -> kf [kc:a] [] dis 128 - 100000 1000
{"~footer.key":"kf","~column.keys":"kc:a,b;kd:c;kc:d"} -> kf [kc:a kc:b kd:c kc:d] [] dis 128 - 100000 1000
{"~footer.key":"kf","~column.keys":"kc:a:b,kd:c"} -> kf [kc:a:b kc:kd:c] [] dis 128 - 100000 1000
{"~footer.key":"kf","~column.keys":"kc:a,a"} -> kf [kc:a kc:a] [] dis 128 - 100000 1000
{"~footer.key":"kf","~column.keys":"|256*k|:a"} -> kf [|256*k|:a] [] dis 128 - 100000 1000
{"~footer.key":"kf","~column.keys":"|257*k|:a"} -> Bad ~column.keys
{"~footer.key":"kf","~column.keys":"kc"} -> Bad ~column.keys
{"~footer.key":"kf","~column.keys":"kc:"} -> Bad ~column.keys
{"~footer.key":"kf","~column.keys":":a"} -> Bad ~column.keys
{"~footer.key":"kf","~column.keys":"k,c:a"} -> Bad ~column.keys
{"~footer.key":"kf","~column.keys":"kc:,a"} -> Bad ~column.keys
{"~footer.key":"kf","~column.keys":"kc:a,"} -> Bad ~column.keys
{"~footer.key":"kf","~column.keys":"kc:a;"} -> Bad ~column.keys
{"~footer.key":"kf","~column.keys":";kc:a"} -> Bad ~column.keys
{"~footer.key":"kf","~column.keys":"kc:a;;kd:b"} -> Bad ~column.keys
{"~footer.key":"kf","~column.keys":";"} -> Bad ~column.keys
{"~footer.key":"kf","~column.keys":{"kc":"a"}} -> Bad ~column.keys
# Columns under the footer key.
{"~footer.key":"kf","pme.footer.key.columns":""} -> kf [] [] dis 128 - 100000 1000
{"~footer.key":"kf","pme.footer.key.columns":"a,b c,d"} -> kf [] [a b c d] dis 128 - 100000 1000
{"~footer.key":"kf","pme.footer.key.columns":"a:b;c"} -> kf [] [a:b;c] dis 128 - 100000 1000
{"~footer.key":"kf","pme.footer.key.columns":","} -> Bad pme.footer.key.columns
{"~footer.key":"kf","pme.footer.key.columns":"a,,b"} -> Bad pme.footer.key.columns
{"~footer.key":"kf","pme.footer.key.columns":"a,"} -> Bad pme.footer.key.columns
{"~footer.key":"kf","pme.footer.key.columns":null} -> Bad pme.footer.key.columns
# A uniform key stands in the place of three names, which are bad beside it whatever their values.
{"~uniform.key":"kf"} -> kf [] [] udis 128 - 100000 1000
{"~uniform.key":"kf","pme.rows.per.page":7} -> kf [] [] udis 128 - 100000 7
{"~uniform.key":""} -> Bad ~uniform.key
{"~uniform.key":"|257*k|"} -> Bad ~uniform.key
{"~uniform.key":"kf","~footer.key":"kf"} -> Bad ~footer.key
{"~uniform.key":"kf","~column.keys":""} -> Bad ~column.keys
{"~uniform.key":"kf","pme.footer.key.columns":""} -> Bad pme.footer.key.columns
{"~uniform.key":"kf","pme.footer.key.columns":"a","~footer.key":"kf","~column.keys":"kc:a"} -> Bad ~column.keys
{"~uniform.key":null,"~footer.key":"kf"} -> Bad ~footer.key
{"~uniform.key":null} -> Bad ~uniform.key
{"~uniform.key":1,"pme.footer.key.columns":"a"} -> Bad ~uniform.key
# The other names with each kind of value.
{"~footer.key":"kf","~algorithm":"AES_GCM_V1"} -> kf [] [] dis 128 - 100000 1000
{"~footer.key":"kf","~algorithm":"AES_GCM_CTR_V1"} -> kf [] [] cdis 128 - 100000 1000
{"~footer.key":"kf","~algorithm":"AES_GCM"} -> Bad ~algorithm
{"~footer.key":"kf","~algorithm":"aes_gcm_v1"} -> Bad ~algorithm
{"~footer.key":"kf","~plaintext.footer":true,"~double.wrapping":false} -> kf [] [] pis 128 - 100000 1000
{"~footer.key":"kf","~key.material.store.internally":false,"pme.aad.prefix.stored":false} -> kf [] [] d 128 - 100000 1000
{"~footer.key":"kf","~plaintext.footer":"true"} -> Bad ~plaintext.footer
{"~footer.key":"kf","~double.wrapping":1} -> Bad ~double.wrapping
{"~footer.key":"kf","~key.material.store.internally":null} -> Bad ~key.material.store.internally
{"~footer.key":"kf","pme.aad.prefix.stored":"false"} -> Bad pme.aad.prefix.stored
{"~footer.key":"kf","~data.key.length.bits":128} -> kf [] [] dis 128 - 100000 1000
{"~footer.key":"kf","~data.key.length.bits":192} -> kf [] [] dis 192 - 100000 1000
{"~footer.key":"kf","~data.key.length.bits":256} -> kf [] [] dis 256 - 100000 1000
{"~footer.key":"kf","~data.key.length.bits":64} -> Bad ~data.key.length.bits
{"~footer.key":"kf","~data.key.length.bits":128.0} -> Bad ~data.key.length.bits
{"~footer.key":"kf","~data.key.length.bits":"128"} -> Bad ~data.key.length.bits
{"~footer.key":"kf","pme.aad.prefix":"7461626c65"} -> kf [] [] dis 128 7461626c65 100000 1000
{"~footer.key":"kf","pme.aad.prefix":"aAFf"} -> kf [] [] dis 128 aaff 100000 1000
{"~footer.key":"kf","pme.aad.prefix":"|1024*61|"} -> kf [] [] dis 128 |1024*61| 100000 1000
{"~footer.key":"kf","pme.aad.prefix":"|1025*61|"} -> Bad pme.aad.prefix
{"~footer.key":"kf","pme.aad.prefix":""} -> Bad pme.aad.prefix
{"~footer.key":"kf","pme.aad.prefix":"746"} -> Bad pme.aad.prefix
{"~footer.key":"kf","pme.aad.prefix":"6g"} -> Bad pme.aad.prefix
{"~footer.key":"kf","pme.aad.prefix":61} -> Bad pme.aad.prefix
{"~footer.key":"kf","pme.rows.per.group":1,"pme.rows.per.page":16777216} -> kf [] [] dis 128 - 1 16777216
{"~footer.key":"kf","pme.rows.per.group":16777217} -> Bad pme.rows.per.group
{"~footer.key":"kf","pme.rows.per.group":0} -> Bad pme.rows.per.group
{"~footer.key":"kf","pme.rows.per.group":-1} -> Bad pme.rows.per.group
{"~footer.key":"kf","pme.rows.per.group":18446744073709551617} -> Bad pme.rows.per.group
{"~footer.key":"kf","pme.rows.per.page":0} -> Bad pme.rows.per.page
{"~footer.key":"kf","pme.rows.per.page":1e2} -> Bad pme.rows.per.page
{"~footer.key":"kf","pme.rows.per.page":"7"} -> Bad pme.rows.per.page
# Unknown names are bad.
{"~footer.key":"kf","":""} -> Bad 
{"~footer.key":"kf","~kms.client.class":"x"} -> Bad ~kms.client.class
{"~footer.key":"kf","pme.rows.per.groups":1} -> Bad pme.rows.per.groups
{"~footer.key":"kf","Pme.rows.per.page":1} -> Bad Pme.rows.per.page
# The first bad name in byte order is reported, wherever it stands, and a missing footer key after all others.
{"pme.rows.per.page":0,"x":1,"~footer.key":""} -> Bad ~footer.key
{"pme.aad.prefix.stored":1,"pme.aad.prefix":1,"~footer.key":"kf"} -> Bad pme.aad.prefix
{"~plaintext.footer":1,"~algorithm":1,"Z":1,"~footer.key":"kf"} -> Bad Z
{"~double.wrapping":1,"~data.key.length.bits":1,"~footer.key":"kf"} -> Bad ~data.key.length.bits
{"pme.rows.per.page":0} -> Bad pme.rows.per.page
{"z":1} -> Bad z
{"pme.rows.per.page":1} -> Bad ~footer.key
# Of a name that stands twice the last value counts.
{"~footer.key":"","~footer.key":"kf"} -> kf [] [] dis 128 - 100000 1000
{"~footer.key":"kf","~footer.key":""} -> Bad ~footer.key
# All names at once.
{"~footer.key":"kf","~column.keys":"kc:secret","pme.footer.key.columns":"name,id","~algorithm":"AES_GCM_CTR_V1","~plaintext.footer":true,"~double.wrapping":true,"~key.material.store.internally":true,"~data.key.length.bits":256,"pme.aad.prefix":"7461626c65","pme.aad.prefix.stored":true,"pme.rows.per.page":3,"pme.rows.per.group":4} -> kf [kc:secret] [name id] cpdis 256 7461626c65 4 3
"#;

fn push_with_names(into: &mut Bytes, text: &str) -> Result<(), OutOfMemory> {
    for (number, part) in text.split('~').enumerate() {
        if number > 0 {
            into.extend(b"parquet.encryption.")?;
        }
        into.extend(part.as_bytes())?;
    }
    Ok(())
}

fn expanded(alloc: Global, text: &str) -> Result<Bytes, Fail> {
    let mut whole = Bytes::new(alloc);
    for part in text.split('|') {
        match part.split_once('*') {
            None => push_with_names(&mut whole, part)?,
            Some((count, unit)) => {
                for _ in 0..count.parse::<u16>()? {
                    whole.extend(unit.as_bytes())?;
                }
            }
        }
    }
    Ok(whole)
}

fn push_lists(into: &mut Bytes, policy: &Policy) -> Result<(), OutOfMemory> {
    into.extend(b" [")?;
    for (number, key) in policy.column_keys.as_slice().iter().enumerate() {
        if number > 0 {
            into.extend(b" ")?;
        }
        into.extend(key.id.as_slice())?;
        into.extend(b":")?;
        into.extend(key.column.as_slice())?;
    }
    into.extend(b"] [")?;
    for (number, column) in policy.footer_columns.as_slice().iter().enumerate() {
        if number > 0 {
            into.extend(b" ")?;
        }
        into.extend(column.as_slice())?;
    }
    into.extend(b"] ")
}

fn push_letters(into: &mut Bytes, policy: &Policy) -> Result<(), OutOfMemory> {
    for (letter, holds) in [
        (b'u', policy.uniform),
        (b'c', policy.ctr),
        (b'p', policy.plaintext_footer),
        (b'd', policy.double),
        (b'i', policy.internal),
        (b's', policy.stored),
    ] {
        if holds {
            into.push(letter)?;
        }
    }
    Ok(())
}

fn shown(alloc: Global, policy: &Policy) -> Result<Bytes, Fail> {
    let mut line = Bytes::copy_of(alloc, policy.footer_key.as_slice())?;
    push_lists(&mut line, policy)?;
    push_letters(&mut line, policy)?;
    let bits = format!(in alloc; " {} ", policy.bits)?;
    line.extend(bits.as_bytes())?;
    match &policy.prefix {
        Some(prefix) => line.extend(hex_text(alloc, prefix.as_slice())?.as_slice())?,
        None => line.push(b'-')?,
    }
    let rows = format!(in alloc; " {} {}", policy.rows_per_group, policy.rows_per_page)?;
    line.extend(rows.as_bytes())?;
    Ok(line)
}

fn answer_for(alloc: Global, text: &[u8]) -> Result<Bytes, Fail> {
    match Policy::parse(alloc, text) {
        Ok(policy) => shown(alloc, &policy),
        Err(PolicyRefusal::OutOfMemory) => Err(OutOfMemory.into()),
        Err(PolicyRefusal::Bad(name)) => {
            let mut line = Bytes::copy_of(alloc, b"Bad ")?;
            line.extend(name.as_slice())?;
            Ok(line)
        }
    }
}

#[test]
fn policies_are_read_or_refused_by_a_name(rt: HostRuntime) -> Result<(), Fail> {
    for case in CASES.lines() {
        if let Some((text, answer)) = case.split_once(" -> ") {
            let policy = answer_for(rt.alloc(), expanded(rt.alloc(), text)?.as_slice())?;
            let expected = expanded(rt.alloc(), answer)?;
            assert_eq!(rt; policy.as_slice(), expected.as_slice(), "{text}");
        }
    }
    policies_are_judged_by_name();
    Ok(())
}
