#![tactic(auto)]

// Drafts with values at their limits and one beyond, and what admitting answers to each.
#[cfg(test)]
mod tests {
    use sheet::{Draft, LengthChoice, Model, Regime, Rejected, Service, Values};

    // Values that are admitted.
    const VALID: Values = Values {
        model: Model::Scmt,
        regime: Regime::Operation,
        train: Service::Passenger,
        brake: Service::Passenger,
        ep: 0,
        lambda: 100,
        length: 400,
        lfren: LengthChoice::Fixed,
        kr: 100,
        tw: 20,
        ti: 30,
        eps: 0,
    };

    // The number of the refusal, or 0 where the values are admitted, and the eps of the draft that comes back.
    fn answer(values: Values) -> (u8, u16) {
        match (Draft { values }).admit() {
            Ok(sheet) => {
                let Draft { values } = sheet.into_draft();
                (0, values.eps)
            }
            Err(
                Rejected {
                    refusal,
                    draft: Draft { values },
                },
            ) => (refusal.number(), values.eps),
        }
    }

    const AT_THE_LIMITS: [Values; 13] = [
        Values { ep: 1, ..VALID },
        Values {
            lambda: 45,
            ..VALID
        },
        Values {
            lambda: 160,
            ..VALID
        },
        Values { length: 0, ..VALID },
        Values {
            length: 1000,
            ..VALID
        },
        Values { kr: 30, ..VALID },
        Values { kr: 150, ..VALID },
        Values { tw: 0, ..VALID },
        Values { tw: 100, ..VALID },
        Values { ti: 0, ..VALID },
        Values { ti: 100, ..VALID },
        Values { eps: 0, ..VALID },
        Values { eps: 20, ..VALID },
    ];

    const BEYOND: [Values; 15] = [
        Values { ep: 2, ..VALID },
        Values { ep: 65535, ..VALID },
        Values { lambda: 0, ..VALID },
        Values {
            lambda: 40,
            ..VALID
        },
        Values {
            lambda: 44,
            ..VALID
        },
        Values {
            lambda: 46,
            ..VALID
        },
        Values {
            lambda: 159,
            ..VALID
        },
        Values {
            lambda: 165,
            ..VALID
        },
        Values {
            length: 1001,
            ..VALID
        },
        Values { kr: 29, ..VALID },
        Values { kr: 151, ..VALID },
        Values { kr: 65535, ..VALID },
        Values { tw: 101, ..VALID },
        Values { ti: 101, ..VALID },
        Values { eps: 21, ..VALID },
    ];

    #[test]
    fn values_at_their_limits_are_admitted(rt: HostRuntime) {
        for values in &AT_THE_LIMITS {
            assert_eq!(rt; answer(*values), (0, values.eps));
        }
    }

    #[test]
    fn values_beyond_their_limits_are_refused(rt: HostRuntime) {
        for values in &BEYOND {
            assert_eq!(rt; answer(*values), (4, values.eps));
        }
    }

    #[test]
    fn the_range_is_asked_before_the_brake(rt: HostRuntime) {
        assert_eq!(rt;
            answer(Values {
                train: Service::Goods,
                brake: Service::Goods,
                ..VALID
            }),
            (0, 0)
        );
        assert_eq!(rt;
            answer(Values {
                brake: Service::Goods,
                ..VALID
            }),
            (6, 0)
        );
        assert_eq!(rt;
            answer(Values {
                brake: Service::Goods,
                kr: 151,
                ..VALID
            }),
            (4, 0)
        );
    }
}
