use crate::pier::Pier;
use call_signs::letter::{Letter, NoLetter};
use call_signs::sign::CallSign;
use keys::berth::Berth;
use keys::key::{JournalKey, Key, OrderedKey};
use keys::route::RouteBerth;
use keys::search::find;
use raw_bytes::writer::Writer;
use std::cmp::Ordering;
use std::process::Abort;
use std::test::Fail;

// Whether the first bytes of an array are these, and the rest untouched.
fn begins(out: &[u8; 16], end: usize, text: &[u8]) -> bool {
    let wanted = text.iter().chain(&[b'#'; 16]);
    end == text.len() && out.iter().zip(wanted).all(|(byte, wanted)| byte == wanted)
}

// Checks that a key is written as these bytes and printed as this text, and that the bytes are
// read as a key equal to it with the same hash.
fn forms<K: JournalKey + Drop>(
    rt: &impl Abort,
    key: K,
    bytes: &[u8],
    text: &[u8],
) -> Result<(), Fail> {
    let mut out = [b'#'; 16];
    let mut writer = Writer {
        out: &mut out,
        at: 0,
    };
    key.write(&mut writer);
    let end = writer.at;
    assert!(rt; begins(&out, end, bytes));
    let mut line = [b'#'; 16];
    let mut writer = Writer {
        out: &mut line,
        at: 0,
    };
    key.show(&mut writer);
    let end = writer.at;
    assert!(rt; begins(&line, end, text));
    assert_eq!(rt; K::width(), bytes.len());
    let Some(again) = K::read(bytes) else {
        return Err(Fail::new("the written form is not read"));
    };
    assert!(rt; again == key);
    assert_eq!(rt; again.hash(), key.hash());
    Ok(())
}

// Checks that the first key is below the second, whose part is not below the first's.
fn rises<K: OrderedKey + Drop>(rt: &impl Abort, x: K, y: K, parts: Ordering) {
    assert_eq!(rt; x.cmp(&y), Ordering::Less);
    assert_eq!(rt; y.cmp(&x), Ordering::Greater);
    assert_eq!(rt; x.cmp(&x), Ordering::Equal);
    assert_eq!(rt; x.compare_parts(&y), parts);
    assert_eq!(rt; y.compare_parts(&x), parts.reverse());
    assert!(rt; x != y);
    assert!(rt; y == y);
}

fn sign(text: &[u8]) -> Result<CallSign, Fail> {
    CallSign::try_from(text).map_err(|_| Fail::new("no call sign"))
}

#[test]
fn berths_have_their_forms(rt: HostRuntime) -> Result<(), Fail> {
    forms(&rt, Berth(0), b"\x00\x00", b"0")?;
    forms(&rt, Berth(7), b"\x07\x00", b"7")?;
    forms(&rt, Berth(0x1234), b"\x34\x12", b"4660")?;
    forms(&rt, Berth(65535), b"\xff\xff", b"65535")?;
    assert!(rt; Berth::read(b"\x07").is_none());
    assert!(rt; Berth::read(b"\x07\x00\x00").is_none());
    assert!(rt; Berth::read(b"").is_none());
    Ok(())
}

#[test]
fn berths_are_ordered(rt: HostRuntime) {
    rises(&rt, Berth(0), Berth(1), Ordering::Less);
    rises(&rt, Berth(255), Berth(256), Ordering::Less);
    rises(&rt, Berth(65534), Berth(65535), Ordering::Less);
}

#[test]
fn routes_have_their_forms(rt: HostRuntime) -> Result<(), Fail> {
    forms(
        &rt,
        RouteBerth { route: 1, berth: 4 },
        b"\x01\x00\x04\x00",
        b"1/4",
    )?;
    forms(
        &rt,
        RouteBerth {
            route: 0,
            berth: 65535,
        },
        b"\x00\x00\xff\xff",
        b"0/65535",
    )?;
    forms(
        &rt,
        RouteBerth {
            route: 65535,
            berth: 0,
        },
        b"\xff\xff\x00\x00",
        b"65535/0",
    )?;
    assert!(rt; RouteBerth::read(b"\x01\x00\x04").is_none());
    assert!(rt; RouteBerth::read(b"\x01\x00\x04\x00\x00").is_none());
    Ok(())
}

#[test]
fn routes_are_ordered_by_route_first(rt: HostRuntime) {
    rises(
        &rt,
        RouteBerth { route: 1, berth: 9 },
        RouteBerth { route: 2, berth: 3 },
        Ordering::Less,
    );
    rises(
        &rt,
        RouteBerth { route: 1, berth: 3 },
        RouteBerth { route: 1, berth: 9 },
        Ordering::Equal,
    );
    rises(
        &rt,
        RouteBerth {
            route: 255,
            berth: 0,
        },
        RouteBerth {
            route: 256,
            berth: 0,
        },
        Ordering::Less,
    );
}

#[test]
fn signs_of_each_length_have_their_forms(rt: HostRuntime) -> Result<(), Fail> {
    forms(&rt, sign(b"Q")?, b"\x01Q\0\0\0\0\0\0\0", b"Q")?;
    forms(&rt, sign(b"OZ")?, b"\x02OZ\0\0\0\0\0\0", b"OZ")?;
    forms(&rt, sign(b"LA7")?, b"\x03LA7\0\0\0\0\0", b"LA7")?;
    forms(&rt, sign(b"DK 9")?, b"\x04DK 9\0\0\0\0", b"DK_9")?;
    forms(&rt, sign(b" SEA ")?, b"\x05 SEA \0\0\0", b"_SEA_")?;
    forms(&rt, sign(b"OXKB2 ")?, b"\x06OXKB2 \0\0", b"OXKB2_")?;
    forms(&rt, sign(b"3E8MNPQ")?, b"\x073E8MNPQ\0", b"3E8MNPQ")?;
    forms(&rt, sign(b"        ")?, b"\x08        ", b"________")
}

#[test]
fn every_letter_is_one(rt: HostRuntime) {
    let letters = b" 0123456789ABCDEFGHIJKLMNOPQRSTUVWXYZ";
    let mut found = 0u16;
    for byte in 0..=255u8 {
        match Letter::try_from(byte) {
            Ok(letter) => {
                assert_eq!(rt; u8::from(letter), byte);
                assert!(rt; letters.contains(&byte));
                found = found.saturating_add(1);
            }
            Err(NoLetter) => assert!(rt; !letters.contains(&byte)),
        }
    }
    assert_eq!(rt; found, 37);
}

#[test]
fn other_bytes_are_no_sign(rt: HostRuntime) {
    assert!(rt; CallSign::read(b"\x00\0\0\0\0\0\0\0\0").is_none());
    assert!(rt; CallSign::read(b"\x09ABCDEFGH").is_none());
    assert!(rt; CallSign::read(b"\xffABCDEFGH").is_none());
    assert!(rt; CallSign::read(b"\x02AB\0\0\0\0\0\x01").is_none());
    assert!(rt; CallSign::read(b"\x02ABC\0\0\0\0\0").is_none());
    assert!(rt; CallSign::read(b"\x03AB\0\0\0\0\0\0").is_none());
    assert!(rt; CallSign::read(b"\x02aB\0\0\0\0\0\0").is_none());
    assert!(rt; CallSign::read(b"\x02A_\0\0\0\0\0\0").is_none());
    assert!(rt; CallSign::read(b"\x02AB\0\0\0\0\0").is_none());
    assert!(rt; CallSign::read(b"\x02AB\0\0\0\0\0\0\0").is_none());
    assert!(rt; CallSign::read(b"").is_none());
}

#[test]
fn signs_are_made_of_one_to_eight_letters(rt: HostRuntime) -> Result<(), Fail> {
    assert!(rt; CallSign::try_from(b"".as_slice()).is_err());
    assert!(rt; CallSign::try_from(b"ABCDEFGHI".as_slice()).is_err());
    assert!(rt; CallSign::try_from(b"AB-C".as_slice()).is_err());
    let mut made = CallSign::from(Letter::A);
    let mut length = 1u8;
    for _ in 0..16 {
        if let Some(longer) = made.add(Letter::Z) {
            made = longer;
            length = length.saturating_add(1);
        }
    }
    assert_eq!(rt; length, 8);
    assert!(rt; made == sign(b"AZZZZZZZ")?);
    Ok(())
}

const FLAGSHIP: CallSign = CallSign::Three(Letter::L, Letter::A, Letter::N7);

#[test]
fn a_sign_stands_as_a_constant(rt: HostRuntime) -> Result<(), Fail> {
    assert!(rt; FLAGSHIP == sign(b"LA7")?);
    assert!(rt; matches!(FLAGSHIP, CallSign::Three(Letter::L, _, _)));
    assert_eq!(rt; FLAGSHIP.spelled().as_slice(), b"LA7".as_slice());
    assert_eq!(rt; FLAGSHIP.padded(), *b"LA7\0\0\0\0\0");
    Ok(())
}

#[test]
fn signs_are_ordered_byte_by_byte(rt: HostRuntime) -> Result<(), Fail> {
    rises(&rt, sign(b"AB")?, sign(b"AB ")?, Ordering::Less);
    rises(&rt, sign(b"AB ")?, sign(b"AB0")?, Ordering::Less);
    rises(&rt, sign(b"AB9")?, sign(b"ABA")?, Ordering::Less);
    rises(&rt, sign(b"ABCDEFGH")?, sign(b"B")?, Ordering::Less);
    rises(&rt, sign(b"A")?, sign(b"AAAAAAAA")?, Ordering::Less);
    Ok(())
}

fn pier(pier: u16, berth: u16) -> Pier {
    Pier { pier, berth }
}

#[test]
fn the_first_equal_key_is_found(rt: HostRuntime) -> Result<(), Fail> {
    let held = [pier(1, 2), pier(2, 5), pier(1, 8), pier(3, 1)];
    assert_eq!(rt; find(&held, &pier(1, 9)), Some(0));
    assert_eq!(rt; find(&held, &pier(2, 0)), Some(1));
    assert_eq!(rt; find(&held, &pier(3, 9)), Some(3));
    assert_eq!(rt; find(&held, &pier(0, 2)), None);
    assert_eq!(rt; find(&held[0..0], &pier(1, 2)), None);
    let signs = [sign(b"OXKB2")?, sign(b"OXKB2 ")?];
    assert_eq!(rt; find(&signs, &sign(b"OXKB2 ")?), Some(1));
    Ok(())
}

#[test]
fn equal_keys_need_not_be_identical(rt: HostRuntime) {
    let x = pier(1, 2);
    let y = pier(1, 9);
    assert!(rt; x == y);
    assert_eq!(rt; x.hash(), y.hash());
    assert_eq!(rt; x.cmp(&y), Ordering::Equal);
    assert_eq!(rt; x.compare_parts(&y), Ordering::Equal);
    rises(&rt, y, pier(2, 0), Ordering::Less);
}
