use crate::comparison::same_text;
use pth_base::ids::Slot;
use pth_numbered::error::AddErr;
use pth_numbered::numbered::Numbered;
use std::alloc::Global;
use std::process::Abort;
use std::test::Fail;

/// What is done with letters that are numbered.
#[derive(Clone, Copy)]
enum Step {
    Add(char),
    Write(u32, char),
    Remove(u32),
}

/// Steps, each with what is there after it: how many, how many there ever were, and each with its number. Two letters are as
/// many as there may be.
const ROWS: [(Step, &str); 9] = [
    (Step::Add('a'), "1 of 1: 1 a; "),
    (Step::Add('b'), "2 of 2: 1 a; 2 b; "),
    (Step::Add('c'), "2 of 2: 1 a; 2 b; "),
    (Step::Write(2, 'd'), "2 of 2: 1 a; 2 d; "),
    (Step::Remove(1), "1 of 2: 2 d; "),
    (Step::Remove(1), "1 of 2: 2 d; "),
    (Step::Add('e'), "2 of 3: 2 d; 3 e; "),
    (Step::Write(1, 'f'), "2 of 3: 2 d; 3 e; "),
    (Step::Remove(2), "1 of 3: 3 e; "),
];

fn add(rt: &impl Abort, letters: &mut Numbered<char>, letter: char) -> Result<(u32, Slot), AddErr> {
    assert!(rt; letters.made() < u32::MAX);
    letters.add(letter)
}

fn write(letters: &mut Numbered<char>, number: u32, letter: char) {
    if let Some(slot) = letters.find(number) {
        *letters.get_mut(slot) = letter;
    }
}

fn remove(letters: &mut Numbered<char>, number: u32) {
    if let Some(slot) = letters.find(number) {
        letters.remove(slot);
    }
}

/// Makes a step, of which an addition may be refused where there are too many letters.
fn make(rt: &impl Abort, letters: &mut Numbered<char>, step: Step) -> Result<(), AddErr> {
    match step {
        Step::Add(letter) => match add(rt, letters, letter) {
            Err(AddErr::OutOfMemory) => return Err(AddErr::OutOfMemory),
            Err(AddErr::TooMany) => assert!(rt; letters.count() == 2),
            Ok(_) => {}
        },
        Step::Write(number, letter) => write(letters, number, letter),
        Step::Remove(number) => remove(letters, number),
    }
    Ok(())
}

/// Adds the letter with a number.
fn tell(text: &mut String, letters: &Numbered<char>, number: u32) -> Result<(), Fail> {
    if let Some(slot) = letters.find(number) {
        write!(text, "{number} {}; ", letters.get(slot))?;
    }
    Ok(())
}

fn told(alloc: Global, letters: &Numbered<char>) -> Result<String, Fail> {
    let mut text = format!(in alloc; "{} of {}: ", letters.count(), letters.made())?;
    let numbers = letters.numbers(alloc)?;
    for number in &numbers {
        tell(&mut text, letters, *number)?;
    }
    Ok(text)
}

fn have_answers(rt: &impl Abort, alloc: Global, rows: &[(Step, &str)]) -> Result<(), Fail> {
    let mut letters = Numbered::new(alloc, 2);
    for (step, wanted) in rows {
        make(rt, &mut letters, *step)?;
        let told = told(alloc, &letters)?;
        same_text(rt, told.as_str(), wanted);
    }
    Ok(())
}

#[test]
fn letters_are_found_by_their_numbers(rt: HostRuntime) -> Result<(), Fail> {
    have_answers(&rt, rt.alloc(), &ROWS)
}
