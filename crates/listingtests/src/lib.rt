// Tests of what no program and no export calls: the listing's texts as strings.
#![tactic(auto)]

#[cfg(test)]
mod tests {
    use arrayvec::ArrayString;
    use itoa::Buffer;
    use listingtext::Number;
    use listingturns::{EVENT_SPACE, Text, Turn, begin, take_turn};

    // Document 01's cup: its plan file.
    const CUP: [u8; 100] = [
        10, 0, 0, 0, 44, 0, 0, 0, 16, 0, 0, 0, 60, 0, 0, 0, 4, 0, 0, 0, 64, 0, 0, 0, 0, 0, 0, 0,
        64, 0, 0, 0, 24, 0, 0, 0, 88, 0, 0, 0, 12, 0, 0, 0, 0, 0, 0, 0, 10, 0, 0, 0, 0, 0, 0, 0,
        232, 3, 0, 0, 3, 0, 0, 0, 0, 0, 0, 0, 2, 0, 0, 0, 0, 0, 1, 0, 1, 0, 0, 0, 0, 0, 0, 0, 0, 0,
        1, 0, 6, 0, 0, 0, 0, 0, 0, 0, 253, 255, 255, 255,
    ];

    #[test]
    fn numbers_are_decimal(rt: HostRuntime) {
        let cases: [(u64, &str); 5] = [
            (0, "0"),
            (9, "9"),
            (10, "10"),
            (2_000_000_000, "2000000000"),
            (u64::MAX, "18446744073709551615"),
        ];
        for (number, want) in cases {
            assert_eq!(rt; number.format(&mut Buffer::new()), want);
        }
    }

    #[test]
    fn signed_numbers_are_decimal(rt: HostRuntime) {
        let cases: [(i64, &str); 5] = [
            (0, "0"),
            (12, "12"),
            (-3, "-3"),
            (i64::MAX, "9223372036854775807"),
            (i64::MIN, "-9223372036854775808"),
        ];
        for (number, want) in cases {
            assert_eq!(rt; number.format(&mut Buffer::new()), want);
        }
    }

    #[test]
    fn cup_is_listed(rt: HostRuntime) {
        let mut events = [0; EVENT_SPACE];
        let mut text = Text::new();
        text.push_str("before");
        let first = begin(&CUP, &mut text);
        assert_eq!(rt; text.as_str(), "");
        if let Turn::More(state) = first {
            let next = take_turn(state, &mut events, &mut text);
            assert!(rt; matches!(next, Turn::Last(_)));
        }
        assert_eq!(rt; text.as_str(), "4 0 12\n6 2 -3\nend 1 6 2 3\n");
    }

    // The smallest room that `begin` asks for. An empty file is refused by number 1.
    #[test]
    fn refusal_is_listed(rt: HostRuntime) {
        let mut text = ArrayString::<14>::new();
        text.push_str("before");
        let turn = begin(&[], &mut text);
        assert_eq!(rt; text.as_str(), "refused 1 0\n");
        assert!(rt; matches!(turn, Turn::Last(_)));
    }
}
