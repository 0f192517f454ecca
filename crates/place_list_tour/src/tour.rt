ghost use Rattle.std.specs.Prelude.{◌≡◌, true, length, IfSome, is_ok};

use place_list::{Keyed, PlaceList, Placed, Refusal};
use std::io;
use units::Distance;

// Fills a list that has room for three, overfills it, takes one from the middle, and fills it again.
pub(crate) fn go_round<T: Copy + Keyed>(
    rt: &impl Print,
    list: &mut PlaceList<'_, T>,
    four: [Placed<T>; 4],
) -> io::Result<()> {
    let [first, second, third, fourth] = four;
    offer(rt, list, first)?;
    offer(rt, list, second)?;
    offer(rt, list, third)?;
    show(rt, list)?;
    offer(rt, list, fourth)?;
    show(rt, list)?;
    take(rt, list, 1)?;
    show(rt, list)?;
    offer(rt, list, fourth)?;
    show(rt, list)?;
    swap_in(rt, list, first)?;
    take(rt, list, 3)?;
    look_up(rt, list, third)
}

// Inserts an item, and prints what came of it.
pub(crate) fn offer<T: Copy + Keyed>(
    rt: &impl Print,
    list: &mut PlaceList<'_, T>,
    new: Placed<T>,
) -> io::Result<()> {
    match list.insert(new) {
        Ok(()) => println!(rt; "inserted {} at {}", new.item.key(), new.place.millimetres),
        Err(why) => println!(rt; "refused {}", why.number()),
    }
}

// Takes an item out, and prints which it was.
fn take<T: Copy + Keyed>(
    rt: &impl Print,
    list: &mut PlaceList<'_, T>,
    index: usize,
) -> io::Result<()> {
    match list.take_out(index) {
        Some(x) => println!(rt; "took out {} at {}", x.item.key(), x.place.millimetres),
        None => println!(rt; "nothing to take out"),
    }
}

// Puts an item in for the first one.
fn swap_in<T: Copy + Keyed>(
    rt: &impl Print,
    list: &mut PlaceList<'_, T>,
    new: Placed<T>,
) -> io::Result<()> {
    match exchange(list, 0, new) {
        Some(answer) => {
            answer.unwrap();
            println!(rt; "exchanged the first one")?
        }
        None => println!(rt; "nothing to take out")?,
    }
    show(rt, list)
}

// Takes an item out and inserts another: once the one is out, there is room.
fn exchange<T: Copy>(
    list: &mut PlaceList<'_, T>,
    index: usize,
    new: Placed<T>,
) -> Option<Result<(), Refusal>>
    ensures { IfSome result (λ answer. is_ok answer ≡ true) }
{
    list.take_out(index)?;
    Some(list.insert(new))
}

// Looks an item up by its place and by its key.
fn look_up<T: Copy + Keyed>(
    rt: &impl Print,
    list: &PlaceList<'_, T>,
    x: Placed<T>,
) -> io::Result<()> {
    print_index(rt, list.find_place(x.place))?;
    print_index(rt, list.find_place(Distance { millimetres: 1 }))?;
    print_index(rt, list.find_key(x.item.key()))?;
    print_index(rt, list.find_key(99))
}

fn print_index(rt: &impl Print, index: Option<usize>) -> io::Result<()> {
    match index {
        Some(i) => println!(rt; "found at {i}"),
        None => println!(rt; "not found"),
    }
}

// The items in order, and the room for more.
pub(crate) fn show<T: Copy + Keyed>(rt: &impl Print, list: &PlaceList<'_, T>) -> io::Result<()> {
    println!(rt; "{} in use, room for {}", list.len(), list.room())?;
    for x in list.items() {
        println!(rt; "  {} at {}", x.item.key(), x.place.millimetres)?;
    }
    Ok(())
}

// Lends memory to a list, inserts one item, and has the whole memory back.
pub(crate) fn lend<'a, T: Copy>(memory: &'a mut [Placed<T>], new: Placed<T>) -> &'a mut [Placed<T>]
    ensures { length result.now ≡ length memory.old }
{
    let mut list = PlaceList::new(memory, 1);
    let _ = list.insert(new);
    list.into_memory()
}
