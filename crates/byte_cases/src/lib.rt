// Numbers and texts in bytes, against values worked out elsewhere.
#![tactic(auto)]

#[cfg(test)]
mod tests {
    use itoa::Integer;
    use raw_bytes::numbers::{i32_at, u8_at, u16_at, u32_at};
    use raw_bytes::writer::Writer;
    use std::process::Abort;

    // A byte that no text here has: what it marks was not written.
    const BLANK: u8 = b'#';

    // Whether the bytes are the text from place 3 on, and marks elsewhere.
    fn holds(out: &[u8; 32], end: usize, text: &[u8]) -> bool {
        let Some((written, rest)) = out.split_at_checked(end) else {
            return false;
        };
        written.strip_prefix(b"###") == Some(text) && rest.iter().all(|byte| *byte == BLANK)
    }

    // Lets a writer write from a place on, and answers the place that it has come to.
    fn written<F: FnOnce(&mut Writer<'_>)>(out: &mut [u8], at: usize, write: F) -> usize
        requires { F.IsAlwaysCallable write }
    {
        let mut writer = Writer { out, at };
        write(&mut writer);
        writer.at
    }

    fn number<I: Integer + Drop>(rt: &impl Abort, n: I, text: &[u8]) {
        let mut out = [BLANK; 32];
        let end = written(&mut out, 3, |writer| writer.put_number(n));
        assert!(rt; holds(&out, end, text));
    }

    #[test]
    fn reads_the_lower_byte_first(rt: HostRuntime) {
        let bytes = [0x78, 0x56, 0x34, 0x12, 0xff];
        assert_eq!(rt; u8_at(&bytes, 0), 0x78);
        assert_eq!(rt; u8_at(&bytes, 4), 255);
        assert_eq!(rt; u16_at(&bytes, 0), 0x5678);
        assert_eq!(rt; u16_at(&bytes, 1), 0x3456);
        assert_eq!(rt; u32_at(&bytes, 0), 0x12345678);
        assert_eq!(rt; u32_at(&bytes, 1), 0xff123456);
        assert_eq!(rt; i32_at(&bytes, 0), 305419896);
    }

    #[test]
    fn reads_the_least_and_the_largest(rt: HostRuntime) {
        assert_eq!(rt; u16_at(&[0, 0], 0), 0);
        assert_eq!(rt; u16_at(&[255, 255], 0), 65535);
        assert_eq!(rt; u32_at(&[0, 0, 0, 0], 0), 0);
        assert_eq!(rt; u32_at(&[255, 255, 255, 255], 0), 4294967295);
        assert_eq!(rt; i32_at(&[0, 0, 0, 128], 0), -2147483648);
        assert_eq!(rt; i32_at(&[255, 255, 255, 127], 0), 2147483647);
        assert_eq!(rt; i32_at(&[255, 255, 255, 255], 0), -1);
        assert_eq!(rt; i32_at(&[254, 255, 255, 255], 0), -2);
        assert_eq!(rt; i32_at(&[0, 0, 0, 0], 0), 0);
    }

    #[test]
    fn reads_zeros_past_the_end(rt: HostRuntime) {
        assert_eq!(rt; u8_at(&[7], 1), 0);
        assert_eq!(rt; u16_at(&[7, 8], 1), 8);
        assert_eq!(rt; u32_at(&[1, 2, 3], 0), 197121);
        assert_eq!(rt; u32_at(&[1, 2, 3], usize::MAX), 0);
        assert_eq!(rt; u16_at(&[1, 2, 3], usize::MAX - 1), 0);
        assert_eq!(rt; i32_at(&[], 0), 0);
    }

    #[test]
    fn writes_numbers(rt: HostRuntime) {
        number(&rt, 0u64, b"0");
        number(&rt, 9u64, b"9");
        number(&rt, 10u64, b"10");
        number(&rt, 1000u64, b"1000");
        number(&rt, 65535u64, b"65535");
        number(&rt, 4294967295u64, b"4294967295");
        number(&rt, 18446744073709551615u64, b"18446744073709551615");
    }

    #[test]
    fn writes_signed_numbers(rt: HostRuntime) {
        number(&rt, 0i64, b"0");
        number(&rt, -1i64, b"-1");
        number(&rt, -10i64, b"-10");
        number(&rt, 2147483647i64, b"2147483647");
        number(&rt, -2147483648i64, b"-2147483648");
        number(&rt, 9223372036854775807i64, b"9223372036854775807");
        number(&rt, -9223372036854775808i64, b"-9223372036854775808");
    }

    #[test]
    fn writes_two_bytes(rt: HostRuntime) {
        let mut out = [BLANK; 32];
        let end = written(&mut out, 3, |writer| writer.put_u16(0x1234));
        assert!(rt; holds(&out, end, b"\x34\x12"));
        let mut most = [BLANK; 32];
        let end = written(&mut most, 3, |writer| writer.put_u16(65535));
        assert!(rt; holds(&most, end, b"\xff\xff"));
    }

    #[test]
    fn writes_nothing_past_the_end_and_counts_on(rt: HostRuntime) {
        let mut out = [BLANK; 4];
        assert_eq!(rt;
            written(&mut out, 1, |writer| writer.put_number(12345u64)),
            6
        );
        assert!(rt; out == *b"#123");
        assert_eq!(rt; written(&mut out, 2, |writer| writer.put_text(b"xyz")), 5);
        assert!(rt; out == *b"#1xy");
        assert_eq!(rt; written(&mut out, 4, |writer| writer.put(b'z')), 5);
        assert_eq!(rt;
            written(&mut out, 9, |writer| writer.put_text(b"far away")),
            17
        );
        assert_eq!(rt; written(&mut out, 0, |writer| writer.put_text(b"")), 0);
        assert!(rt; out == *b"#1xy");
        let mut none = [0u8; 0];
        assert_eq!(rt;
            written(&mut none, 0, |writer| writer.put_number(-120i64)),
            4
        );
    }

    #[test]
    fn places_stop_at_the_largest(rt: HostRuntime) {
        let mut out = [BLANK; 2];
        assert_eq!(rt;
            written(&mut out, usize::MAX - 1, |writer| writer.put_text(b"abc")),
            usize::MAX
        );
        assert_eq!(rt;
            written(&mut out, usize::MAX, |writer| writer.put(b'a')),
            usize::MAX
        );
        assert!(rt; out == *b"##");
    }
}
