// Asks in words.
use std::alloc::Global;
use std::test::Fail;
use swan_model::{Ask, Child, GIVES_MOST, Give, Gives, Mode, Trouble, Value};

/// What stands before the first such mark in a word, and after it.
fn split(word: &str, mark: char) -> Option<(&str, &str)> {
    word.split_once(mark)
}

/// The ask that a word names: `read:PLACE`, `write:PLACE:NUMBER`, `push:PLACE:NUMBER`, `pop:PLACE`, `empty:PLACE`,
/// `object:NUMBER`, `spawn:INDEX:FUEL:GIVES`, `fail:NUMBER`, or one without parts.
pub fn ask_of(alloc: Global, word: &str) -> Result<Ask<usize>, Fail> {
    match split(word, ':') {
        Some((name, parts)) => ask_with(alloc, name, parts),
        None => plain_ask_of(word),
    }
}

/// The ask of this name with these parts.
fn ask_with(alloc: Global, name: &str, parts: &str) -> Result<Ask<usize>, Fail> {
    match name {
        "read" => read_of(parts),
        "pop" => pop_of(parts),
        "empty" => empty_of(parts),
        "write" => write_of(parts),
        "push" => push_of(parts),
        "object" => object_of(parts),
        "spawn" => spawn_ask(alloc, parts),
        "fail" => fail_of(parts),
        _ => Err("no such ask".into()),
    }
}

fn read_of(parts: &str) -> Result<Ask<usize>, Fail> {
    Ok(Ask::Read(place_of(parts)?))
}

fn pop_of(parts: &str) -> Result<Ask<usize>, Fail> {
    Ok(Ask::Pop(place_of(parts)?))
}

fn empty_of(parts: &str) -> Result<Ask<usize>, Fail> {
    Ok(Ask::Empty(place_of(parts)?))
}

fn write_of(parts: &str) -> Result<Ask<usize>, Fail> {
    let (place, number) = place_and_number_of(parts)?;
    Ok(Ask::Write(place, Value::Int(number)))
}

fn push_of(parts: &str) -> Result<Ask<usize>, Fail> {
    let (place, number) = place_and_number_of(parts)?;
    Ok(Ask::Push(place, Value::Int(number)))
}

fn object_of(parts: &str) -> Result<Ask<usize>, Fail> {
    Ok(Ask::NewObject(Value::Int(number_of(parts)?)))
}

fn spawn_ask(alloc: Global, parts: &str) -> Result<Ask<usize>, Fail> {
    Ok(Ask::Spawn(child_of(alloc, parts)?))
}

fn fail_of(parts: &str) -> Result<Ask<usize>, Fail> {
    Ok(Ask::Fail(Trouble::User(number_of(parts)?)))
}

/// What a task can't go on for, by its word.
fn trouble_of(word: &str) -> Result<Trouble, Fail> {
    match word {
        "overflow" => Ok(Trouble::Overflow),
        "divide" => Ok(Trouble::DivideByZero),
        "range" => Ok(Trouble::Range),
        "long" => Ok(Trouble::TooLong),
        "number" => Ok(Trouble::BadNumber),
        _ => Err("no such ask".into()),
    }
}

/// The ask that a word without parts names.
fn plain_ask_of(word: &str) -> Result<Ask<usize>, Fail> {
    match word {
        "work" => Ok(Ask::Work),
        "queue" => Ok(Ask::NewQueue),
        "sync" => Ok(Ask::Sync),
        "finish" => Ok(Ask::Finish),
        _ => Ok(Ask::Fail(trouble_of(word)?)),
    }
}

fn place_of(word: &str) -> Result<u32, Fail> {
    match word.parse::<u32>() {
        Ok(place) => Ok(place),
        Err(_) => Err("place".into()),
    }
}

fn number_of(word: &str) -> Result<i64, Fail> {
    match word.parse::<i64>() {
        Ok(number) => Ok(number),
        Err(_) => Err("number".into()),
    }
}

fn index_of(word: &str) -> Result<usize, Fail> {
    match word.parse::<usize>() {
        Ok(index) => Ok(index),
        Err(_) => Err("index".into()),
    }
}

fn fuel_of(word: &str) -> Result<u64, Fail> {
    match word.parse::<u64>() {
        Ok(fuel) => Ok(fuel),
        Err(_) => Err("fuel".into()),
    }
}

/// The place and the number of `PLACE:NUMBER`.
fn place_and_number_of(word: &str) -> Result<(u32, i64), Fail> {
    match split(word, ':') {
        Some((place, number)) => Ok((place_of(place)?, number_of(number)?)),
        None => Err("value".into()),
    }
}

/// The fuel of the word `FUEL:GIVES`, and the words of its gives.
fn fuel_and_gives_of(word: &str) -> Result<(u64, &str), Fail> {
    match split(word, ':') {
        Some((fuel, gives)) => Ok((fuel_of(fuel)?, gives)),
        None => Err("gives".into()),
    }
}

/// The child that begins at this index of the list, with the word `FUEL:GIVES`.
fn child_at(alloc: Global, index: &str, word: &str) -> Result<Child<usize>, Fail> {
    let local = index_of(index)?;
    let (fuel, gives) = fuel_and_gives_of(word)?;
    let gives = gives_of(alloc, gives)?;
    Ok(Child { local, gives, fuel })
}

/// The child of the word `INDEX:FUEL:GIVES`, which begins at that index of the list. The gives are words
/// `PLACE.MODE` with commas between them.
fn child_of(alloc: Global, word: &str) -> Result<Child<usize>, Fail> {
    match split(word, ':') {
        Some((index, rest)) => child_at(alloc, index, rest),
        None => Err("fuel".into()),
    }
}

/// Adds a give.
fn add_give(gives: &mut Gives, give: Give) -> Result<(), Fail> {
    if gives.len() == GIVES_MOST {
        return Err("no room".into());
    }
    match gives.push(give) {
        Ok(()) => Ok(()),
        Err(_) => Err("no memory".into()),
    }
}

/// Adds the gives of words with commas between them.
fn add_gives(gives: &mut Gives, words: &str) -> Result<(), Fail> {
    for word in words.split_terminator(',') {
        add_give(gives, give_of(word)?)?;
    }
    Ok(())
}

/// The gives of words with commas between them.
fn gives_of(alloc: Global, words: &str) -> Result<Gives, Fail> {
    let mut gives = Gives::new(alloc);
    add_gives(&mut gives, words)?;
    Ok(gives)
}

/// The give of the word `PLACE.MODE`.
fn give_of(word: &str) -> Result<Give, Fail> {
    match split(word, '.') {
        Some((place, mode)) => give_at(place, mode),
        None => Err("mode".into()),
    }
}

/// The give of a place with the mode of this word.
fn give_at(place: &str, mode: &str) -> Result<Give, Fail> {
    let place = place_of(place)?;
    let mode = mode_of(mode)?;
    Ok(Give { place, mode })
}

fn mode_of(word: &str) -> Result<Mode, Fail> {
    match word {
        "in" => Ok(Mode::In),
        "out" => Ok(Mode::Out),
        "push" => Ok(Mode::Push),
        "pop" => Ok(Mode::Pop),
        "inout" => Ok(Mode::InOut),
        "pushpop" => Ok(Mode::PushPop),
        _ => Err("no such mode".into()),
    }
}
