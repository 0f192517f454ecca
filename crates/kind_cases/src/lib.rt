#![tactic(auto)]

// Call lines by a table of kinds of its own, with another number for a value out of its range.
#[cfg(test)]
mod tests {
    use call_text::{CallKind, Found, read_kind_line};
    use descriptions::{NumberRange, Row, Value, ValueKind};

    const KINDS: [CallKind<'static>; 2] = [
        CallKind {
            word: b"shift",
            fields: &[
                Row {
                    key: b"side",
                    kind: ValueKind::Word(&[b"left", b"right"]),
                },
                Row {
                    key: b"by",
                    kind: ValueKind::Signed(NumberRange {
                        max_digits: 2,
                        least: -35,
                        greatest: 35,
                        step: 5,
                    }),
                },
            ],
            range_number: 14,
        },
        CallKind {
            word: b"stay",
            fields: &[],
            range_number: 4,
        },
    ];

    // What a line is read as, or the number and byte of its fault; and where the next line begins.
    fn read(text: &[u8]) -> (Result<Found<2>, (u8, usize)>, usize) {
        let line = read_kind_line::<2>(&KINDS, text);
        (
            line.found.map_err(|fault| (fault.number(), fault.byte())),
            line.next,
        )
    }

    fn found(kind: usize, values: [Value; 2]) -> Result<Found<2>, (u8, usize)> {
        Ok(Found { kind, values })
    }

    #[test]
    fn lines_are_read_by_the_table(rt: HostRuntime) {
        let right = [Value::Word(1), Value::Number(-35)];
        assert_eq!(rt;
            read(b"call=shift side=right by=-35\nmore"),
            (found(0, right), 29)
        );
        let none = [Value::Number(0), Value::Number(0)];
        assert_eq!(rt; read(b"call=stay\n"), (found(1, none), 10));
    }

    #[test]
    fn faults_have_the_number_of_the_kind(rt: HostRuntime) {
        assert_eq!(rt; read(b"call=shift side=left by=36\n"), (Err((14, 24)), 27));
        assert_eq!(rt; read(b"call=shift side=left by=-100\n"), (Err((3, 24)), 29));
        assert_eq!(rt; read(b"call=shift side=up by=5\n"), (Err((3, 16)), 24));
        assert_eq!(rt; read(b"call=shift by=5\n"), (Err((2, 0)), 16));
        assert_eq!(rt; read(b"call=stand\n"), (Err((2, 0)), 11));
        assert_eq!(rt; read(b"call=stay \n"), (Err((5, 9)), 11));
        assert_eq!(rt; read(b"call=stay"), (Err((1, 0)), 9));
    }
}
