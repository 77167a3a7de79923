use super::*;
use std::test::Fail;

// The two short messages that the examples for FIPS 180-4 begin with, and their digests.
const OF_NOTHING: [u8; 32] = [
    0xe3, 0xb0, 0xc4, 0x42, 0x98, 0xfc, 0x1c, 0x14, 0x9a, 0xfb, 0xf4, 0xc8, 0x99, 0x6f, 0xb9, 0x24,
    0x27, 0xae, 0x41, 0xe4, 0x64, 0x9b, 0x93, 0x4c, 0xa4, 0x95, 0x99, 0x1b, 0x78, 0x52, 0xb8, 0x55,
];

const OF_ABC: [u8; 32] = [
    0xba, 0x78, 0x16, 0xbf, 0x8f, 0x01, 0xcf, 0xea, 0x41, 0x41, 0x40, 0xde, 0x5d, 0xae, 0x22, 0x23,
    0xb0, 0x03, 0x61, 0xa3, 0x96, 0x17, 0x7a, 0x9c, 0xb4, 0x10, 0xff, 0x61, 0xf2, 0x00, 0x15, 0xad,
];

#[test]
fn the_digests_of_the_standard(rt: HostRuntime) {
    assert_eq!(rt; seal(b""), OF_NOTHING);
    assert_eq!(rt; seal(b"abc"), OF_ABC);
    assert!(rt; matches(b"abc", &OF_ABC));
    assert!(rt; !matches(b"abc", &OF_NOTHING));
}

#[test]
fn each_form_is_put_and_read(rt: HostRuntime) -> Result<(), Fail> {
    let mut out = Vec::new(rt.alloc());
    put_text(&mut out, "M")?;
    put_u8(&mut out, 2)?;
    put_u8(&mut out, 200)?;
    put_u32(&mut out, 0x434d_4f44)?;
    put_u64(&mut out, 56)?;
    put_bytes(&mut out, &[0xff])?;
    let spelled = [
        0, 0, 0, 0, 0, 0, 0, 1, b'M', 2, 200, b'C', b'M', b'O', b'D', 0, 0, 0, 0, 0, 0, 0, 56, 0,
        0, 0, 0, 0, 0, 0, 1, 0xff,
    ];
    assert_eq!(rt; out.as_slice(), spelled.as_slice());
    put_digest(&mut out, &OF_ABC)?;

    let mut reader = Reader::new(&out);
    assert_eq!(rt; reader.text()?, "M");
    assert_eq!(rt; reader.tag(2)?, 2);
    assert_eq!(rt; reader.u8()?, 200);
    assert_eq!(rt; reader.u32()?, 0x434d_4f44);
    assert_eq!(rt; reader.u64()?, 56);
    assert_eq!(rt; reader.bytes()?, [0xff].as_slice());
    assert_eq!(rt; reader.at(), spelled.len());
    assert_eq!(rt; *reader.digest()?, OF_ABC);
    assert_eq!(rt; reader.end(), Ok(()));
    Ok(())
}

#[test]
fn a_fault_has_the_offset_of_its_field(rt: HostRuntime) -> Result<(), Fail> {
    // A byte 9, then a text: one that is not UTF-8, one whose number is past the end, the greatest
    // number, and a number that is cut short.
    let cases = [
        (
            [9, 0, 0, 0, 0, 0, 0, 0, 1, 0x80].as_slice(),
            WireFault::OutOfRange(1),
        ),
        (
            [9, 0, 0, 0, 0, 0, 0, 0, 2, b'M'].as_slice(),
            WireFault::Short(1),
        ),
        (
            [9, 255, 255, 255, 255, 255, 255, 255, 255, b'M'].as_slice(),
            WireFault::Short(1),
        ),
        ([9, 0, 0, 0, 0, 0, 0, 0].as_slice(), WireFault::Short(1)),
    ];
    for (bytes, fault) in cases {
        let mut reader = Reader::new(bytes);
        assert_eq!(rt; reader.tag(8), Err(WireFault::OutOfRange(0)));
        assert_eq!(rt; reader.tag(9)?, 9);
        assert_eq!(rt; reader.text(), Err(fault));
        assert_eq!(rt; reader.end(), Err(WireFault::NotCanonical(1)));
    }
    Ok(())
}
