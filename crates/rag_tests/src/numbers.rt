// Names, groups and classes by their numbers.
ghost use Rattle.std.specs.Prelude.{◌<◌, IsTrue};
ghost use Rattle.groups.specs.Groups.{AreWithin};
ghost use Rattle.superclasses.specs.Superclasses.{AreWithin as AreClasses};

use broken_rules::ReadFault;
use groups::{Groups, places};
use names::Names;
use rag_io::Memory;
use std::alloc::{AllocError, Global};
use std::fmt::Write;
use std::test::Fail;
use superclasses::{Subclasses, line_of, own_superclasses};

// Names that are inserted in turn, the number of each before, its number then, and how many there are then. One that is there is not new.
const INSERTED: [(&[u8], Option<usize>, usize, usize); 13] = [
    (b"B", None, 0, 1),
    (b"A", None, 1, 2),
    (b"B", Some(0), 0, 2),
    (b"", None, 2, 3),
    (b"AB", None, 3, 4),
    (b"\xff", None, 4, 5),
    (b"", Some(2), 2, 5),
    (b"a", None, 5, 6),
    (b"A", Some(1), 1, 6),
    (b"AB", Some(3), 3, 6),
    (b"\xff", Some(4), 4, 6),
    (b"a", Some(5), 5, 6),
    (b"BA", None, 6, 7),
];

// The first insertion that comes out otherwise.
fn other_insertion(alloc: Global) -> Result<Option<usize>, Memory> {
    let mut names = Names::new(alloc);
    for (k, (name, before, number, count)) in INSERTED.iter().enumerate() {
        let found = (names.number_of(name), names.contains(name));
        let is_new = names.insert(name)?;
        let then = (names.number_of(name), names.contains(name), names.len());
        let want = (*before, before.is_some());
        let want_then = (Some(*number), true, *count);
        if (found, !is_new, then) != (want, before.is_some(), want_then) {
            return Ok(Some(k));
        }
    }
    Ok(None)
}

// What the insertions of three names answer, the number of the last one, and whether there was none before and then.
type Three = ([Result<bool, Memory>; 3], Option<usize>, (bool, bool));

fn insert_three(alloc: Global, first: &[u8], second: &[u8], third: &[u8]) -> Three {
    let mut names = Names::new(alloc);
    let was_empty = names.is_empty();
    let answers = [
        names.insert(first),
        names.insert(second),
        names.insert(third),
    ];
    (
        answers,
        names.number_of(third),
        (was_empty, names.is_empty()),
    )
}

#[test]
fn names_are_numbered_in_the_order_of_insertion(rt: HostRuntime) -> Result<(), Fail> {
    assert_eq!(rt; other_insertion(rt.alloc()), Ok(None));
    // Names are borrowed where they stand.
    let text = String::from_str(rt.alloc(), "ab ab b")?;
    let bytes = text.as_bytes();
    let found = insert_three(rt.alloc(), &bytes[..2], &bytes[3..5], &bytes[6..]);
    let answers = [Ok(true), Ok(false), Ok(true)];
    assert_eq!(rt; found, (answers, Some(1), (true, false)));
    Ok(())
}

// Whether there are fewer numbers than can be grouped, and each key is one of so many groups.
fn are_within(keys: &[Option<u32>], groups: u32) -> bool
    ensures { IsTrue result → AreWithin keys.now groups }
{
    keys.iter().all(|key| match key {
        None => true,
        Some(group) => *group < groups,
    })
}

// Keys, how many groups there are, one of them, its members, and the place of each number.
type Grouped = (
    &'static [Option<u32>],
    u32,
    u32,
    Option<&'static [u32]>,
    &'static [u32],
);

// Numbers out of the order of their groups.
const TURNS: &[Option<u32>] = &[Some(3), Some(0), None, Some(3), Some(2), Some(0), Some(3)];

const PLACES: &[u32] = &[0, 0, 0, 1, 0, 1, 2];

const LISTS: [Grouped; 12] = [
    (&[], 0, 0, None, &[]),
    // Numbers in no group, and groups without members.
    (&[], 2, 0, Some(&[]), &[]),
    (&[], 2, 1, Some(&[]), &[]),
    (&[None, None], 1, 0, Some(&[]), &[0, 0]),
    // One group, with every number or not.
    (
        &[Some(0), Some(0), Some(0)],
        1,
        0,
        Some(&[0, 1, 2]),
        &[0, 1, 2],
    ),
    (
        &[None, Some(0), None, Some(0)],
        1,
        0,
        Some(&[1, 3]),
        &[0, 0, 0, 1],
    ),
    (TURNS, 5, 0, Some(&[1, 5]), PLACES),
    (TURNS, 5, 1, Some(&[]), PLACES),
    (TURNS, 5, 2, Some(&[4]), PLACES),
    (TURNS, 5, 3, Some(&[0, 3, 6]), PLACES),
    (TURNS, 5, 4, Some(&[]), PLACES),
    (TURNS, 5, 5, None, PLACES),
];

// The first of these lists that is grouped otherwise.
fn other_list(alloc: Global) -> Result<Option<usize>, Memory> {
    for (k, (keys, count, g, members, want_places)) in LISTS.iter().enumerate() {
        if keys.len() >= 1 << 32 || !are_within(keys, *count) {
            return Ok(Some(k));
        }
        let groups = Groups::of(alloc, keys, *count)?;
        let is_group = *g < groups.len();
        let found = if is_group {
            Some(groups.group(*g))
        } else {
            None
        };
        let found_places = places(alloc, keys, *count)?;
        if found != *members || found_places.as_slice() != *want_places {
            return Ok(Some(k));
        }
        if groups.len() != *count {
            return Ok(Some(k));
        }
    }
    Ok(None)
}

// Seven hundred numbers, which go to seven groups in turn.
fn in_turn(alloc: Global) -> Result<Vec<Option<u32>>, Memory> {
    let mut keys = Vec::new(alloc);
    for number in 0..700 {
        keys.push(Some(number % 7)).map_err(|_| Memory)?;
    }
    Ok(keys)
}

// Whether a group has every seventh number, from its own on.
fn has_every_seventh(groups: &Groups, g: u32) -> bool {
    if g >= groups.len() {
        return false;
    }
    let members = groups.group(g);
    let are_in_turn = members.iter().enumerate().all(|(turn, number)| *number % 7 == g
        && *number as usize / 7 == turn);
    members.len() == 100 && are_in_turn
}

// The first group that has other numbers.
fn other_group(groups: &Groups) -> Option<u32> {
    (0..7).find(|g| !has_every_seventh(groups, *g))
}

// The first group of many numbers that has other ones, or 7 where one has another place.
fn other_turn(alloc: Global) -> Result<Option<u32>, Memory> {
    let keys = in_turn(alloc)?;
    if keys.len() != 700 || !are_within(&keys, 7) {
        return Ok(Some(7));
    }
    let found_places = places(alloc, &keys, 7)?;
    let are_in_turn = found_places
        .iter()
        .enumerate()
        .all(|(number, place)| *place as usize == number / 7);
    if found_places.len() != 700 || !are_in_turn {
        return Ok(Some(7));
    }
    let groups = Groups::of(alloc, &keys, 7)?;
    Ok(other_group(&groups))
}

// The superclasses of some classes, a class, its line, and whether the class is its own superclass.
const LINES: [(&[Option<usize>], usize, &[usize], bool); 11] = [
    (&[], 0, &[], false),
    (&[None], 0, &[], false),
    // Each superclass, the nearest first.
    (&[Some(1), Some(2), None], 0, &[1, 2], false),
    (&[Some(1), Some(2), None], 1, &[2], false),
    // On a loop, as many as there are classes.
    (&[Some(0)], 0, &[0], true),
    (&[Some(1), Some(0)], 0, &[1, 0], true),
    (&[Some(1), Some(2), Some(1)], 0, &[1, 2, 1], false),
    // A number past the end has no superclass.
    (&[Some(1), Some(0)], 2, &[], false),
    (&[Some(7), None], 0, &[7], false),
    (&[Some(2), Some(1)], 0, &[2], false),
    (&[Some(2), Some(1)], 1, &[1, 1], true),
];

// The first of these lines that is otherwise.
fn other_line(alloc: Global) -> Result<Option<usize>, Memory> {
    for (k, (superclasses, class, want, is_own)) in LINES.iter().enumerate() {
        let line = line_of(alloc, superclasses, *class)?;
        let own = own_superclasses(alloc, superclasses)?;
        let found = (own.get(*class).copied().unwrap_or(false), own.len());
        if line.as_slice() != *want || found != (*is_own, superclasses.len()) {
            return Ok(Some(k));
        }
    }
    Ok(None)
}

#[test]
fn numbers_are_grouped_and_lines_go_up(rt: HostRuntime) {
    let found = (
        other_list(rt.alloc()),
        other_turn(rt.alloc()),
        other_line(rt.alloc()),
    );
    assert_eq!(rt; found, (Ok(None), Ok(None), Ok(None)));
}

// Two trees, a class on its own, and one that is its own superclass with another below it:
// 1 and 2 are below 0, and 3 is below 2; 4 is below 5; 6 stands alone; 7 and 8 are below 7.
const CLASSES: [Option<usize>; 9] = [
    None,
    Some(0),
    Some(0),
    Some(2),
    Some(5),
    None,
    None,
    Some(7),
    Some(7),
];

// For each class and each of two numbers past the end: its superclass, and the nearest class that is it or above it and the same of each
// class, with a sign before it where the first class is the second or below it.
const TOLD: &str = "\
    - | <0 0 0 0 - - - - - - - \n\
    0 | <0 <1 0 0 - - - - - - - \n\
    0 | <0 0 <2 2 - - - - - - - \n\
    2 | <0 0 <2 <3 - - - - - - - \n\
    5 | - - - - <4 <5 - - - - - \n\
    - | - - - - 5 <5 - - - - - \n\
    - | - - - - - - <6 - - - - \n\
    7 | - - - - - - - <7 7 - - \n\
    7 | - - - - - - - <7 <8 - - \n\
    - | - - - - - - - - - <9 - \n\
    - | - - - - - - - - - - <10 \n";

// A loop of two classes, two classes below it, and a class on its own.
const LOOPS: [Option<usize>; 5] = [Some(1), Some(2), Some(1), Some(2), None];

// The same on loops, where a class may be below the nearest one.
const TOLD_OF_LOOPS: &str = "\
    1 | <0 <1 <1 1 - - - - - - - \n\
    2 | 1 <1 <1 1 - - - - - - - \n\
    1 | 2 <2 <2 2 - - - - - - - \n\
    2 | 2 <2 <2 <3 - - - - - - - \n\
    - | - - - - <4 - - - - - - \n\
    - | - - - - - <5 - - - - - \n\
    - | - - - - - - <6 - - - - \n\
    - | - - - - - - - <7 - - - \n\
    - | - - - - - - - - <8 - - \n\
    - | - - - - - - - - - <9 - \n\
    - | - - - - - - - - - - <10 \n";

// Whether each superclass is one of the classes.
fn are_classes(superclasses: &[Option<usize>]) -> bool
    ensures { IsTrue result → AreClasses superclasses.now }
{
    superclasses.iter().all(|superclass| match superclass {
        None => true,
        Some(above) => *above < superclasses.len(),
    })
}

fn push_class(text: &mut String, class: Option<usize>) -> Result<(), AllocError> {
    match class {
        Some(class) => write!(text, "{class} ")?,
        None => text.push_str("- ")?,
    }
    Ok(())
}

// Writes what is told of the classes with these superclasses.
fn told(alloc: Global, superclasses: &[Option<usize>]) -> Result<String, ReadFault> {
    let superclasses = Vec::from_slice(alloc, superclasses)?;
    let mut text = String::new(alloc);
    if !are_classes(&superclasses) {
        return Ok(text);
    }
    let subclasses = Subclasses::of_superclasses(alloc, superclasses)?.copy(alloc)?;
    for pair in 0..121 {
        let (first, second) = (pair / 11, pair % 11);
        if second == 0 {
            push_class(&mut text, subclasses.superclass(first))?;
            text.push_str("| ")?;
        }
        if subclasses.is_sub(first, second) {
            text.push('<')?;
        }
        push_class(&mut text, subclasses.nearest_common(first, second))?;
        if second == 10 {
            text.push('\n')?;
        }
    }
    Ok(text)
}

#[test]
fn subclasses_are_told(rt: HostRuntime) -> Result<(), Fail> {
    assert_eq!(rt; told(rt.alloc(), &CLASSES)?.as_str(), TOLD);
    assert_eq!(rt; told(rt.alloc(), &LOOPS)?.as_str(), TOLD_OF_LOOPS);
    Ok(())
}
