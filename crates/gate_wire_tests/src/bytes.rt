//! Counts and numbers in bytes that were worked out by hand.
use gate_bytes::*;
use std::alloc::Global;
use std::test::Fail;

fn count_text(alloc: Global, count: u64) -> Result<Vec<u8>, Memory> {
    let mut out = Vec::new(alloc);
    put_compact(&mut out, count)?;
    Ok(out)
}

#[test]
fn counts_are_written_in_one_form(rt: HostRuntime) -> Result<(), Fail> {
    let forms: [(u64, &[u8]); 8] = [
        (0, &[0x00]),
        (252, &[0xfc]),
        (253, &[0xfd, 0xfd, 0x00]),
        (515, &[0xfd, 0x03, 0x02]),
        (0xffff, &[0xfd, 0xff, 0xff]),
        (0x1_0000, &[0xfe, 0x00, 0x00, 0x01, 0x00]),
        (0xffff_ffff, &[0xfe, 0xff, 0xff, 0xff, 0xff]),
        (0x1_0000_0000, &[0xff, 0, 0, 0, 0, 1, 0, 0, 0]),
    ];
    for (count, form) in forms {
        let out = count_text(rt.alloc(), count)?;
        assert_eq!(rt; out.as_slice(), form, "of {count}");
        assert_eq!(rt; compact_size(count), form.len(), "of {count}");
    }
    Ok(())
}

#[test]
fn counts_are_read_in_that_form_alone(rt: HostRuntime) {
    let cases: [(&[u8], Result<u64, ByteFault>); 14] = [
        (&[0xfc, 0x07], Ok(252)),
        (&[0xfd, 0xfd, 0x00, 0x07], Ok(253)),
        (&[0xfe, 0x00, 0x00, 0x01, 0x00, 0x07], Ok(0x1_0000)),
        (&[0xfe, 0x00, 0x00, 0x00, 0x02, 0x07], Ok(0x0200_0000)),
        (&[], Err(ByteFault::Short)),
        (&[0xfd, 0x10], Err(ByteFault::Short)),
        (&[0xfe, 0x00, 0x00, 0x01], Err(ByteFault::Short)),
        (&[0xff, 0, 0, 0, 0, 1, 0, 0], Err(ByteFault::Short)),
        (&[0xfd, 0xfc, 0x00], Err(ByteFault::NotCanonical)),
        (
            &[0xfe, 0xff, 0xff, 0x00, 0x00],
            Err(ByteFault::NotCanonical),
        ),
        (
            &[0xff, 1, 0, 0, 0, 0, 0, 0, 0],
            Err(ByteFault::NotCanonical),
        ),
        (&[0xfe, 0x01, 0x00, 0x00, 0x02], Err(ByteFault::TooLarge)),
        (&[0xff, 0, 0, 0, 0, 1, 0, 0, 0], Err(ByteFault::TooLarge)),
        (&[0xff; 9], Err(ByteFault::TooLarge)),
    ];
    for (bytes, want) in cases {
        let mut cursor = Cursor::new(bytes);
        assert!(rt; cursor.compact() == want);
        let left = if want.is_ok() { 1 } else { bytes.len() };
        assert_eq!(rt; cursor.left(), left);
    }
}

#[test]
fn numbers_have_their_lowest_byte_first(rt: HostRuntime) {
    let bytes = [
        0x2a, 0x34, 0x12, 0x78, 0x56, 0x34, 0x12, 0xfe, 0xff, 0xff, 0xff, 0xff, 0xff, 0xff, 0xff,
        0xff, 0xff, 0xff, 0x7f, 0x01, 0x02,
    ];
    let mut cursor = Cursor::new(&bytes);
    assert!(rt; cursor.u8() == Ok(42));
    assert!(rt; cursor.u16() == Ok(0x1234));
    assert!(rt; cursor.u32() == Ok(0x1234_5678));
    assert!(rt; cursor.i32() == Ok(-2));
    assert!(rt; cursor.i64() == Ok(i64::MAX));
    assert!(rt; matches!(cursor.take(2), Ok([1, 2])));
    assert_eq!(rt; cursor.left(), 0);
    assert!(rt; cursor.u8() == Err(ByteFault::Short));
}
