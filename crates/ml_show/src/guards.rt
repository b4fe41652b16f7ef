// Sets of names that agree in what follows, as formulas: a disjunction of conjunctions of names and their negations.
use crate::page::Page;
use ml_base::{Name, NoMemory};
use std::alloc::Global;

// Sets, as numbers whose bits are names: each name in `free` may be in one or not, and the others are as in `set`.
#[derive(Clone, Copy)]
struct Cube {
    set: usize,
    free: usize,
}

impl Cube {
    fn has(self, set: usize) -> bool {
        (set ^ self.set) & !self.free == 0
    }

    fn freed(self, name: usize) -> Cube {
        Cube {
            set: self.set,
            free: self.free | name,
        }
    }
}

// The sets with one answer.
#[derive(Drop)]
pub(crate) struct Case<T: Copy> {
    pub answer: T,
    cubes: Vec<Cube>,
}

fn is_in(cubes: &[Cube], set: usize) -> bool {
    cubes.iter().any(|cube| cube.has(set))
}

// have all sets of a cube this answer?
fn all_answer<T: Copy + PartialEq>(answers: &[T], cube: Cube, answer: T) -> bool {
    answers
        .iter()
        .enumerate()
        .all(|(set, found)| !cube.has(set) || *found == answer)
}

// a cube of sets with one answer around a set: one name after the other is freed where it can be
fn cube_around<T: Copy + PartialEq>(answers: &[T], names: usize, set: usize, answer: T) -> Cube {
    let mut cube = Cube { set, free: 0 };
    let mut name: usize = 1;
    for _ in 0..names {
        let wider = cube.freed(name);
        if all_answer(answers, wider, answer) {
            cube = wider;
        }
        name = name.wrapping_mul(2);
    }
    cube
}

// the sets with this answer, as cubes
fn cubes_of<T: Copy + PartialEq>(
    alloc: Global,
    answers: &[T],
    names: usize,
    answer: T,
) -> Result<Vec<Cube>, NoMemory> {
    let mut cubes = Vec::new(alloc);
    for (set, found) in answers.iter().enumerate() {
        if *found == answer && !is_in(&cubes, set) {
            cubes.push(cube_around(answers, names, set, answer))?;
        }
    }
    Ok(cubes)
}

// The cases of a list of answers, one for each set, sets ascending: answers in the order in which they come first.
//
// Cost: at most the square of the answers times the names.
pub(crate) fn cases_of<T: Copy + PartialEq>(
    alloc: Global,
    answers: &[T],
    names: usize,
) -> Result<Vec<Case<T>>, NoMemory> {
    let mut cases: Vec<Case<T>> = Vec::new(alloc);
    for answer in answers {
        if !cases.iter().any(|case| case.answer == *answer) {
            cases.push(Case {
                answer: *answer,
                cubes: cubes_of(alloc, answers, names, *answer)?,
            })?;
        }
    }
    Ok(cases)
}

// a conjunction of names and their negations
fn show_cube(page: &mut Page, names: &[Name], cube: Cube) -> Result<(), NoMemory> {
    let mut set = cube.set;
    let mut free = cube.free;
    let mut is_first = true;
    for name in names {
        if free % 2 == 0 {
            if !is_first {
                page.word(b"&")?;
            }
            is_first = false;
            page.room_for(name.bytes().len().saturating_add(1))?;
            if set % 2 == 0 {
                page.put(b"!")?;
            }
            page.put(name.bytes())?;
        }
        set /= 2;
        free /= 2;
    }
    if is_first {
        page.word(b"tt")?;
    }
    Ok(())
}

impl<T: Copy> Case<T> {
    // the formula that is true of the sets with this answer alone, and a colon
    pub(crate) fn show(&self, page: &mut Page, names: &[Name]) -> Result<(), NoMemory> {
        for (i, cube) in self.cubes.iter().enumerate() {
            if i > 0 {
                page.word(b"|")?;
            }
            show_cube(page, names, *cube)?;
        }
        page.put(b":")
    }
}

// the names of a set, as words
pub(crate) fn show_set(page: &mut Page, names: &[Name], set: u32) -> Result<(), NoMemory> {
    let mut rest = set;
    for name in names {
        if rest % 2 == 1 {
            page.word(name.bytes())?;
        }
        rest /= 2;
    }
    if set == 0 {
        page.word(b"nothing")?;
    }
    Ok(())
}
