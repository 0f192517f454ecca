#![tactic(auto)]

// Two descriptions over one text, the second chosen by what the first gave: read, refused at each question, and written.
#[cfg(test)]
mod tests {
    use descriptions::{
        Cursor, Description, Layout, NumberRange, Row, TextFault, Value, ValueFault, ValueKind,
    };

    const FORM: Description<'static> = Description {
        rows: &[Row {
            key: b"form",
            kind: ValueKind::Word(&[b"short", b"long"]),
        }],
        layout: Layout::Lines { window: 16 },
        range_number: 4,
    };

    const SHORT: Description<'static> = Description {
        rows: &[SHIFT],
        layout: Layout::Lines { window: 16 },
        range_number: 14,
    };

    const LONG: Description<'static> = Description {
        rows: &[
            SHIFT,
            Row {
                key: b"count",
                kind: ValueKind::Number(NumberRange {
                    max_digits: 4,
                    least: 10,
                    greatest: 90,
                    step: 10,
                }),
            },
        ],
        layout: Layout::Lines { window: 16 },
        range_number: 14,
    };

    const SHIFT: Row<'static> = Row {
        key: b"shift",
        kind: ValueKind::Signed(NumberRange {
            max_digits: 3,
            least: -35,
            greatest: 0,
            step: 1,
        }),
    };

    // The values behind the first line, by the description that it chooses.
    fn read_form(rest: &mut Cursor<'_>) -> Result<[Value; 2], ValueFault> {
        let form: [Value; 1] = FORM.read(rest)?;
        let [form] = form;
        match form {
            Value::Word(0) => SHORT.read(rest),
            _ => LONG.read(rest),
        }
    }

    // The values, or the first fault, and the byte that is reached.
    fn read(text: &[u8]) -> (Result<[Value; 2], ValueFault>, usize) {
        let mut rest = Cursor { text, at: 0 };
        (read_form(&mut rest), rest.at)
    }

    fn text_fault(fault: TextFault) -> Result<[Value; 2], ValueFault> {
        Err(ValueFault::Text(fault))
    }

    fn out_of_range(byte: usize) -> Result<[Value; 2], ValueFault> {
        Err(ValueFault::OutOfRange { number: 14, byte })
    }

    #[test]
    fn the_second_description_follows_the_first(rt: HostRuntime) {
        let short = Ok([Value::Number(-7), Value::Number(0)]);
        assert_eq!(rt; read(b"form=short\nshift=-7\nmore"), (short, 20));
        let long = Ok([Value::Number(0), Value::Number(90)]);
        assert_eq!(rt; read(b"form=long\nshift=0\ncount=90\n"), (long, 27));
    }

    #[test]
    fn a_fault_has_its_byte_in_the_whole_text(rt: HostRuntime) {
        assert_eq!(rt;
            read(b"form=broad\nshift=0\n"),
            (text_fault(TextFault::BadForm(5)), 0)
        );
        assert_eq!(rt;
            read(b"form=long\nshift=0"),
            (text_fault(TextFault::NoLineFeed(10)), 10)
        );
        assert_eq!(rt;
            read(b"form=long\ncount=90\n"),
            (text_fault(TextFault::OtherKey(10)), 10)
        );
        assert_eq!(rt;
            read(b"form=long\nshift=-0\ncount=90\n"),
            (text_fault(TextFault::BadForm(16)), 10)
        );
        assert_eq!(rt;
            read(b"form=long\nshift=0\ncount=-10\n"),
            (text_fault(TextFault::BadForm(24)), 10)
        );
        assert_eq!(rt;
            read(b"form=long\nshift=-36\ncount=90\n"),
            (out_of_range(16), 10)
        );
        assert_eq!(rt;
            read(b"form=long\nshift=1\ncount=90\n"),
            (out_of_range(16), 10)
        );
        assert_eq!(rt;
            read(b"form=long\nshift=0\ncount=95\n"),
            (out_of_range(24), 10)
        );
        assert_eq!(rt;
            read(b"form=long\nshift=0\ncount=10000\n"),
            (text_fault(TextFault::BadForm(24)), 10)
        );
    }

    #[test]
    fn what_is_written_stands_where_it_was_asked(rt: HostRuntime) {
        let mut memory = *b"....................";
        let end = LONG.write(&[Value::Number(-35), Value::Number(20)], &mut memory, 2);
        assert_eq!(rt; end, None);
        let end = SHORT.write(&[Value::Number(-35)], &mut memory, 1);
        assert_eq!(rt; (end, &memory), (Some(11), b".shift=-35\n........."));
        assert_eq!(rt; SHORT.write(&[Value::Number(1)], &mut memory, 1), None);
    }
}
