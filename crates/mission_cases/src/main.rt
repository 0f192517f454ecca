#![tactic(auto)]

// Runs many missions, each text ended by a byte 1, through the function that the program `mission` calls, and prints what each line is answered.

use calls::Record;
use input::{MAX_BYTES_OF_TEXTS, TEXT_END, ended_texts, read_at_most};
use place_list::Placed;
use session::{MAX_BYTES, Shown, answer_text};
use std::io;
use supervision::{Memory, Target};
use units::{Grade, Speed};

// More memory than a mission's lists use, so that their limits show.
const SECTION_MEMORY: usize = 70;

const TARGET_MEMORY: usize = 40;

const CEILING_MEMORY: usize = 50;

fn main(rt: HostRuntime) -> io::Result<()> {
    let texts = read_at_most(rt.alloc(), rt.stdin(), MAX_BYTES_OF_TEXTS)?;
    // a text has at most one line more than line feeds, and no more than bytes that count
    let max_lines = texts.split(|byte| *byte == b'\n').count().min(MAX_BYTES);
    let mut records = vec![in rt.alloc(); Record::BLANK; max_lines]?;
    let mut shown = vec![in rt.alloc(); Shown::BLANK; max_lines]?;
    let mut is_first = true;
    for text in ended_texts(texts.as_slice(), TEXT_END) {
        // between what is printed on two texts
        if !is_first {
            println!(rt; "next")?;
        }
        is_first = false;
        show_mission(&rt, text, &mut records, &mut shown)?;
    }
    Ok(())
}

fn show_mission(
    rt: &impl Print,
    text: &[u8],
    records: &mut [Record],
    shown: &mut [Shown],
) -> io::Result<()> {
    let mut sections = [Placed::<Grade>::default(); SECTION_MEMORY];
    let mut targets = [Placed::<Target>::default(); TARGET_MEMORY];
    let mut ceilings = [Placed::<Speed>::default(); CEILING_MEMORY];
    let memory = Memory {
        sections: &mut sections,
        targets: &mut targets,
        ceilings: &mut ceilings,
    };
    match answer_text(text, memory, records, shown) {
        Ok(answered) => {
            for line in &shown[..answered.lines] {
                println!(rt; "{line}")?;
            }
            Ok(())
        }
        Err(fault) => println!(rt; "{fault}"),
    }
}

#[cfg(test)]
mod tests {
    use super::*;
    use session::Answered;
    use std::test::Fail;

    // A sheet, then a release, a line that is no call, a section, and two releases.
    const TEXT: &[u8] =
        b"model=scmt\nregime=E\ntrain=V\nbrake=V\nep=0\nlambda=100\nlength=400\nlfren=LD\nkr=100\ntw=20\nti=30\neps=0\ncall=release\ncall=\ncall=slope place=0 grade=0\ncall=release\ncall=release\n";

    // How much is answered, in lists that hold one section, one target and one ceiling.
    fn answer_in_small_lists(records: &mut [Record], shown: &mut [Shown]) -> Option<Answered> {
        let mut sections = [Placed::<Grade>::default(); 1];
        let mut targets = [Placed::<Target>::default(); 1];
        let mut ceilings = [Placed::<Speed>::default(); 1];
        let memory = Memory {
            sections: &mut sections,
            targets: &mut targets,
            ceilings: &mut ceilings,
        };
        answer_text(TEXT, memory, records, shown).ok()
    }

    #[test]
    fn ends_where_no_record_is_left(rt: HostRuntime) -> Result<(), Fail> {
        let mut shown = [Shown::BLANK; 8];
        let mut four = [Record::BLANK; 4];
        let mut two = [Record::BLANK; 2];
        let mut none = [Record::BLANK; 0];
        assert_eq!(rt;
            answer_in_small_lists(&mut four, &mut shown),
            Some(Answered {
                lines: 5,
                calls: 4,
                ended: true
            })
        );
        assert_eq!(rt;
            answer_in_small_lists(&mut two, &mut shown),
            Some(Answered {
                lines: 3,
                calls: 2,
                ended: false
            })
        );
        assert_eq!(rt;
            answer_in_small_lists(&mut none, &mut shown),
            Some(Answered {
                lines: 0,
                calls: 0,
                ended: false
            })
        );
        Ok(())
    }

    #[test]
    fn ends_where_nothing_more_is_shown(rt: HostRuntime) -> Result<(), Fail> {
        let mut records = [Record::BLANK; 8];
        let mut five = [Shown::BLANK; 5];
        let mut two = [Shown::BLANK; 2];
        let mut none = [Shown::BLANK; 0];
        assert_eq!(rt;
            answer_in_small_lists(&mut records, &mut five),
            Some(Answered {
                lines: 5,
                calls: 4,
                ended: true
            })
        );
        assert_eq!(rt;
            answer_in_small_lists(&mut records, &mut two),
            Some(Answered {
                lines: 2,
                calls: 1,
                ended: false
            })
        );
        assert_eq!(rt;
            answer_in_small_lists(&mut records, &mut none),
            Some(Answered {
                lines: 0,
                calls: 0,
                ended: false
            })
        );
        Ok(())
    }

    // A sheet, then a ceiling, a second one, a lift of the first, the second again, and a section and a target, for which there is no room either.
    const CEILING_TEXT: &[u8] =
        b"model=scmt\nregime=E\ntrain=V\nbrake=V\nep=0\nlambda=100\nlength=400\nlfren=LD\nkr=100\ntw=20\nti=30\neps=0\ncall=ceiling place=5 speed=300\ncall=ceiling place=9 speed=500\ncall=lift place=5\ncall=ceiling place=9 speed=500\ncall=slope place=0 grade=0\ncall=announce number=1 point=0 distance=9 speed=0\n";

    // The numbers that the lines are answered, in memory for so many ceilings and nothing else.
    fn numbers_in_ceilings(ceilings: &mut [Placed<Speed>]) -> [u8; 6] {
        let memory = Memory {
            sections: &mut [],
            targets: &mut [],
            ceilings,
        };
        let mut records = [Record::BLANK; 6];
        let mut shown = [Shown::BLANK; 6];
        let _ = answer_text(CEILING_TEXT, memory, &mut records, &mut shown);
        shown.map(|line| line.number)
    }

    #[test]
    fn shorter_memory_is_full_sooner(rt: HostRuntime) -> Result<(), Fail> {
        assert_eq!(rt; numbers_in_ceilings(&mut []), [11, 11, 10, 11, 11, 11]);
        assert_eq!(rt;
            numbers_in_ceilings(&mut [Placed::default(); 1]),
            [0, 11, 0, 0, 11, 11]
        );
        assert_eq!(rt;
            numbers_in_ceilings(&mut [Placed::default(); 2]),
            [0, 0, 0, 10, 11, 11]
        );
        Ok(())
    }
}
