#![tactic(auto)]

mod board;
mod lamp;
mod tour;

use board::Board;
use lamp::Lamp;
use place_list::{PlaceList, Placed};
use std::io;
use tour::{go_round, lend, offer, show};
use units::Distance;

fn main(rt: HostRuntime) -> io::Result<()> {
    fill_boards(&rt)?;
    fill_lamps(&rt)?;
    offer_without_memory(&rt)?;
    offer_where_none_is_allowed(&rt)?;
    give_back(&rt)
}

// Speed boards: memory for four, three allowed.
fn fill_boards(rt: &impl Print) -> io::Result<()> {
    println!(rt; "boards")?;
    let none = Board {
        number: 0,
        tenths: 0,
    };
    let mut memory = [at(0, none); 4];
    let mut list = PlaceList::new(&mut memory, 3);
    go_round(
        rt,
        &mut list,
        [
            board_at(500, 1),
            board_at(200, 2),
            board_at(500, 3),
            board_at(200, 4),
        ],
    )
}

// Lamps, another type: memory for three, sixty-four allowed.
fn fill_lamps(rt: &impl Print) -> io::Result<()> {
    println!(rt; "lamps")?;
    let mut memory = [at(0, Lamp::Red); 3];
    let mut list = PlaceList::new(&mut memory, 64);
    go_round(
        rt,
        &mut list,
        [
            at(30, Lamp::Green),
            at(10, Lamp::Red),
            at(20, Lamp::Amber),
            at(20, Lamp::Red),
        ],
    )
}

fn offer_without_memory(rt: &impl Print) -> io::Result<()> {
    println!(rt; "no memory")?;
    let mut list = PlaceList::new(&mut [], 64);
    offer(rt, &mut list, board_at(100, 1))?;
    show(rt, &list)
}

fn offer_where_none_is_allowed(rt: &impl Print) -> io::Result<()> {
    println!(rt; "nothing allowed")?;
    let mut memory = [at(0, Lamp::Red); 2];
    let mut list = PlaceList::new(&mut memory, 0);
    offer(rt, &mut list, at(100, Lamp::Green))?;
    show(rt, &list)
}

// The whole memory comes back: the item at its start, and what it held behind that.
fn give_back(rt: &impl Print) -> io::Result<()> {
    println!(rt; "given back")?;
    let mut memory = [board_at(7, 7), board_at(8, 8)];
    for x in lend(&mut memory, board_at(900, 9)) {
        println!(rt; "  {} at {}", x.item.number, x.place.millimetres)?;
    }
    Ok(())
}

fn at<T: Copy>(millimetres: u64, item: T) -> Placed<T> {
    Placed {
        place: Distance { millimetres },
        item,
    }
}

fn board_at(millimetres: u64, number: u64) -> Placed<Board> {
    at(
        millimetres,
        Board {
            number,
            tenths: 800,
        },
    )
}
