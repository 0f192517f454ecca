#![tactic(auto)]

// The stretch whose grades count for a target, and its least grade: by the length of the train, the place of its front, and the sections, each worked out by hand.
#[cfg(test)]
mod tests {
    use models::SheetModel;
    use place_list::Placed;
    use sheet::{Admitted, Draft, LengthChoice, Model, Regime, Rejected, Service, Values};
    use std::test::Fail;
    use supervision::{Memory, Mission, Position, Sections};
    use units::{Distance, Grade};

    // The sheet of a train of so many metres. Its `lfren` names the fixed length, which the stretch has nothing to do with.
    fn train(length: u16) -> Values {
        Values {
            model: Model::Scmt,
            regime: Regime::Operation,
            train: Service::Passenger,
            brake: Service::Passenger,
            ep: 0,
            lambda: 100,
            length,
            lfren: LengthChoice::Fixed,
            kr: 100,
            tw: 20,
            ti: 30,
            eps: 0,
        }
    }

    // Sections, each by its place in mm and its grade in thousandths.
    macro_rules! sections {
        ($(($place:expr, $grade:expr)),*) => {
            Sections {
                items: &[$(Placed {
                    place: Distance { millimetres: $place },
                    item: Grade { thousandths: $grade },
                }),*],
            }
        };
    }

    // The rear of the train, the end of its stretch to the target, and the distance left, in mm.
    fn ends(length: u16, front: u64, target: u64) -> (u64, u64, u64) {
        let position = Position::of_front(Distance { millimetres: front }, &train(length));
        let place = Distance {
            millimetres: target,
        };
        let stretch = position.stretch_to(place);
        (
            stretch.start.millimetres,
            stretch.end.millimetres,
            position.distance_left(place).millimetres,
        )
    }

    #[test]
    fn stretch_reaches_from_the_rear_to_the_target_or_the_front(
        rt: HostRuntime,
    ) -> Result<(), Fail> {
        // a target ahead, at the front, and passed
        assert_eq!(rt;
            ends(400, 1_000_000, 1_500_000),
            (600_000, 1_500_000, 500_000)
        );
        assert_eq!(rt; ends(400, 1_000_000, 1_000_000), (600_000, 1_000_000, 0));
        assert_eq!(rt; ends(400, 1_000_000, 999_999), (600_000, 1_000_000, 0));
        assert_eq!(rt; ends(400, 1_000_000, 0), (600_000, 1_000_000, 0));
        // the rear one mm beyond place 0, at it, and twice where it would be below
        assert_eq!(rt; ends(400, 400_001, 500_000), (1, 500_000, 99_999));
        assert_eq!(rt; ends(400, 400_000, 500_000), (0, 500_000, 100_000));
        assert_eq!(rt; ends(400, 399_999, 500_000), (0, 500_000, 100_001));
        assert_eq!(rt; ends(400, 0, 500_000), (0, 500_000, 500_000));
        // no length, and the greatest
        assert_eq!(rt;
            ends(0, 1_000_000, 1_500_000),
            (1_000_000, 1_500_000, 500_000)
        );
        assert_eq!(rt;
            ends(1_000, 1_000_000_000, 1_000_000_000),
            (999_000_000, 1_000_000_000, 0)
        );
        Ok(())
    }

    // The least grade in thousandths for a train of 400 m, by the places of its front and of the target.
    fn grade(front: u64, target: u64, sections: Sections<'_>) -> i64 {
        grade_of_train(400, front, target, sections)
    }

    // So for a train of any length, in m.
    fn grade_of_train(length: u16, front: u64, target: u64, sections: Sections<'_>) -> i64 {
        Position::of_front(Distance { millimetres: front }, &train(length))
            .stretch_to(Distance {
                millimetres: target,
            })
            .least_grade(sections)
            .thousandths
    }

    #[test]
    fn rear_counts(rt: HostRuntime) -> Result<(), Fail> {
        // a crest between rear and front, beyond which it falls to the level that the cab has reached
        let crest = sections![(0, 5), (700_000, -12), (750_000, 0)];
        assert_eq!(rt; grade(1_000_000, 1_500_000, crest), -12);
        // a fall ends under the train; then the rear one mm short of its foot, at it, and one mm beyond it
        let foot = sections![(0, -12), (800_000, 0)];
        assert_eq!(rt; grade(1_000_000, 1_500_000, foot), -12);
        assert_eq!(rt; grade(1_199_999, 1_500_000, foot), -12);
        assert_eq!(rt; grade(1_200_000, 1_500_000, foot), 0);
        assert_eq!(rt; grade(1_200_001, 1_500_000, foot), 0);
        // a fall of one mm: the rear one mm short of it, on it, and one mm beyond it
        let dip = sections![(0, 0), (600_000, -12), (600_001, 0)];
        assert_eq!(rt; grade(999_999, 1_500_000, dip), -12);
        assert_eq!(rt; grade(1_000_000, 1_500_000, dip), -12);
        assert_eq!(rt; grade(1_000_001, 1_500_000, dip), 0);
        Ok(())
    }

    #[test]
    fn target_counts(rt: HostRuntime) -> Result<(), Fail> {
        let fall = sections![(0, 3), (1_500_000, -7)];
        assert_eq!(rt; grade(1_000_000, 1_499_999, fall), 3);
        assert_eq!(rt; grade(1_000_000, 1_500_000, fall), -7);
        Ok(())
    }

    #[test]
    fn passed_target_counts_rear_to_front(rt: HostRuntime) -> Result<(), Fail> {
        // the steep part between rear and front, and only ahead of the front
        let under = sections![(0, 0), (700_000, -20), (750_000, 0)];
        assert_eq!(rt; grade(1_000_000, 650_000, under), -20);
        assert_eq!(rt; grade(1_000_000, 900_000, under), -20);
        let ahead = sections![(0, 0), (1_000_001, -20)];
        assert_eq!(rt; grade(1_000_000, 900_000, ahead), 0);
        assert_eq!(rt; grade(1_000_001, 900_000, ahead), -20);
        Ok(())
    }

    #[test]
    fn rear_is_not_below_place_0(rt: HostRuntime) -> Result<(), Fail> {
        let sections = sections![(0, 5), (1, 8)];
        assert_eq!(rt; grade(0, 500_000, sections), 5);
        assert_eq!(rt; grade(399_999, 500_000, sections), 5);
        assert_eq!(rt; grade(400_000, 500_000, sections), 5);
        assert_eq!(rt; grade(400_001, 500_000, sections), 8);
        Ok(())
    }

    #[test]
    fn no_length_is_the_front_alone(rt: HostRuntime) -> Result<(), Fail> {
        let foot = sections![(0, -12), (800_000, 0)];
        assert_eq!(rt; grade_of_train(0, 799_999, 1_500_000, foot), -12);
        assert_eq!(rt; grade_of_train(0, 800_000, 1_500_000, foot), 0);
        assert_eq!(rt; grade_of_train(0, 800_000, 700_000, foot), 0);
        Ok(())
    }

    #[test]
    fn steepest_before_the_first_section(rt: HostRuntime) -> Result<(), Fail> {
        // it begins one mm before the rear, at it, between rear and front, beyond the target, and nowhere
        assert_eq!(rt; grade(1_000_000, 1_500_000, sections![(599_999, 0)]), 0);
        assert_eq!(rt; grade(1_000_000, 1_500_000, sections![(600_000, 0)]), 0);
        assert_eq!(rt; grade(1_000_000, 1_500_000, sections![(600_001, 0)]), -35);
        assert_eq!(rt; grade(1_000_000, 1_500_000, sections![(800_000, 0)]), -35);
        assert_eq!(rt; grade(1_000_000, 1_500_000, sections![(1_500_001, 0)]), -35);
        assert_eq!(rt; grade(1_000_000, 1_500_000, sections![]), -35);
        // passed
        assert_eq!(rt; grade(1_000_000, 900_000, sections![(800_000, 0)]), -35);
        assert_eq!(rt; grade(1_000_000, 900_000, sections![(600_000, 0)]), 0);
        Ok(())
    }

    // The least grade for that train by the lists of a mission, whose track rises by 5, and from 700 m on falls by 12.
    fn grade_in_a_mission(sheet: Admitted, front: u64, target: u64) -> i64 {
        let memory = Memory {
            sections: &mut [Placed::default(); 2],
            targets: &mut [],
            ceilings: &mut [],
        };
        let model = SheetModel::new(&sheet);
        let (mut mission, mut lists) = Mission::open(sheet, model, memory);
        for (millimetres, thousandths) in [(700_000, -12), (0, 5)] {
            let _ = mission.slope(&mut lists, Distance { millimetres }, Grade { thousandths });
        }
        let least = grade(
            front,
            target,
            Sections {
                items: lists.sections(),
            },
        );
        let Draft { values: _ } = mission.close();
        least
    }

    // The same, if the sheet of that train is admitted.
    fn grade_of_an_opened_mission(front: u64, target: u64) -> Option<i64> {
        match (Draft { values: train(400) }).admit() {
            Ok(sheet) => Some(grade_in_a_mission(sheet, front, target)),
            Err(
                Rejected {
                    refusal: _,
                    draft: Draft { values: _ },
                },
            ) => None,
        }
    }

    #[test]
    fn lists_of_a_mission_are_such_sections(rt: HostRuntime) -> Result<(), Fail> {
        assert_eq!(rt; grade_of_an_opened_mission(500_000, 699_999), Some(5));
        assert_eq!(rt; grade_of_an_opened_mission(500_000, 700_000), Some(-12));
        assert_eq!(rt; grade_of_an_opened_mission(1_200_000, 1_000_000), Some(-12));
        Ok(())
    }
}
