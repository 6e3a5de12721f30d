// Tests of hybrid_runs.
use hybrid_runs::{first_values, run_length, write_bits, write_run};
use std::test::Fail;

// Each case: bit width, count, bytes, and the values in them. `88 c6 fa` is the example in parquet-format's Encodings.md.
#[test]
fn reads_the_available_values(rt: HostRuntime) -> Result<(), Fail> {
    let rows: [(u32, usize, &[u8], &[u32]); 22] = [
        (3, 8, &[0x03, 0x88, 0xc6, 0xfa], &[0, 1, 2, 3, 4, 5, 6, 7]),
        (3, 3, &[0x03, 0x88, 0xc6], &[0, 1, 2]),
        (3, 8, &[0x03, 0x88, 0xc6], &[0, 1, 2, 3, 4]),
        (1, 4, &[0x03, 0x0b], &[1, 1, 0, 1]),
        (1, 4, &[0x03, 0x02], &[0, 1, 0, 0]),
        (2, 4, &[0x03, 0xe4, 0x00], &[0, 1, 2, 3]),
        (2, 5, &[0x03, 0xe4], &[0, 1, 2, 3]),
        (2, 4, &[0x08, 0x01], &[1, 1, 1, 1]),
        (3, 4, &[0x08, 0x04], &[4, 4, 4, 4]),
        (0, 4, &[0x08], &[0, 0, 0, 0]),
        (0, 9, &[0x03], &[0; 8]),
        (
            1,
            5,
            &[0x00, 0x01, 0x04, 0x01, 0x06, 0x00],
            &[1, 1, 0, 0, 0],
        ),
        (1, 3, &[0x01, 0x01, 0x06, 0x01], &[1, 1, 1]),
        (1, 2, &[0x04, 0x02], &[2, 2]),
        (9, 2, &[0x04, 0xff, 0x01], &[511, 511]),
        (9, 2, &[0x04, 0xff], &[]),
        (
            32,
            2,
            &[3, 255, 255, 255, 255, 0, 0, 0, 128, 9],
            &[0xffff_ffff, 0x8000_0000],
        ),
        (1, 2, &[0xfe, 0xff, 0xff, 0xff, 0x0f, 0x01], &[1, 1]),
        (1, 2, &[0xff, 0xff, 0xff, 0xff, 0x1f, 0x01], &[]),
        (1, 2, &[0x80, 0x80, 0x80, 0x80, 0x80, 0x00], &[]),
        (1, 1, &[0x82, 0x80, 0x80, 0x80, 0x00, 0x01], &[1]),
        (8, 0, &[0xff], &[]),
    ];
    for (width, count, bytes, expected) in rows {
        let values = first_values(rt.alloc(), width, count, bytes)?;
        assert_eq!(rt; values.as_slice(), expected);
    }
    Ok(())
}

#[test]
fn writes_one_bit_packed_run(rt: HostRuntime) -> Result<(), Fail> {
    let rows: [(&[u8], &[u8]); 4] = [
        (&[], &[0x01]),
        (&[1, 0, 1, 1], &[0x03, 0x0d]),
        (&[0, 1, 0, 0, 0, 0, 0, 1], &[0x03, 0x82]),
        (&[1, 1, 1, 1, 1, 1, 1, 1, 1], &[0x05, 0xff, 0x01]),
    ];
    for (bits, expected) in rows {
        let mut run = Vec::new(rt.alloc());
        write_run(bits, &mut run)?;
        assert_eq!(rt; run.as_slice(), expected);
        assert_eq!(rt; run_length(bits.len()) as usize, expected.len());
        let mut packed = Vec::new(rt.alloc());
        write_bits(bits, &mut packed)?;
        assert_eq!(rt; packed.as_slice(), &expected[1..]);
    }
    Ok(())
}

#[test]
fn a_run_of_two_thousand_million_copies_takes_no_more_than_is_asked_for(
    rt: HostRuntime,
) -> Result<(), Fail> {
    let values = first_values(rt.alloc(), 1, 3, &[0xfe, 0xff, 0xff, 0xff, 0x0f, 0x01])?;
    assert_eq!(rt; values.len(), 3);
    assert!(rt; values.capacity() < 64);
    Ok(())
}
