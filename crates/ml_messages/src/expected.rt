// What may follow the front of a formula's text.
//
// A token may follow if the parser doesn't refuse the text with it at its place. So nothing is known here of any grammar.

use crate::grammar::Grammar;
use ml_base::ParseRefusal;
use ml_front::Logic;
use std::alloc::{AllocError, Global};

/// A token that is tried, and what is told where it may follow.
struct Candidate {
    token: &'static [u8],
    told: &'static str,
}

const ALL: [Candidate; 9] = [
    Candidate {
        token: b"tt",
        told: "`tt`, `ff`",
    },
    Candidate {
        token: b"!",
        told: "`!`",
    },
    Candidate {
        token: b"(",
        told: "`(`",
    },
    Candidate {
        token: b")",
        told: "`)`",
    },
    Candidate {
        token: b"&",
        told: "`&`",
    },
    Candidate {
        token: b"|",
        told: "`|`",
    },
    Candidate {
        token: b"->",
        told: "`->`",
    },
    Candidate {
        token: b"<->",
        told: "`<->`",
    },
    Candidate {
        token: b"_",
        told: "`_`",
    },
];

const MU: [Candidate; 7] = [
    Candidate {
        token: b"<",
        told: "`<`",
    },
    Candidate {
        token: b"[",
        told: "`[`",
    },
    Candidate {
        token: b">",
        told: "`>`",
    },
    Candidate {
        token: b"]",
        told: "`]`",
    },
    Candidate {
        token: b"mu",
        told: "`mu`",
    },
    Candidate {
        token: b"nu",
        told: "`nu`",
    },
    Candidate {
        token: b".",
        told: "`.`",
    },
];

const PDL: [Candidate; 9] = [
    Candidate {
        token: b"<",
        told: "`<`",
    },
    Candidate {
        token: b"[",
        told: "`[`",
    },
    Candidate {
        token: b">",
        told: "`>`",
    },
    Candidate {
        token: b"]",
        told: "`]`",
    },
    Candidate {
        token: b"repeat",
        told: "`repeat`",
    },
    Candidate {
        token: b";",
        told: "`;`",
    },
    Candidate {
        token: b"+",
        told: "`+`",
    },
    Candidate {
        token: b"*",
        told: "`*`",
    },
    Candidate {
        token: b"?",
        told: "`?`",
    },
];

const PATHS: [Candidate; 6] = [
    Candidate {
        token: b"X",
        told: "`X`",
    },
    Candidate {
        token: b"F",
        told: "`F`",
    },
    Candidate {
        token: b"G",
        told: "`G`",
    },
    Candidate {
        token: b"U",
        told: "`U`",
    },
    Candidate {
        token: b"R",
        told: "`R`",
    },
    Candidate {
        token: b"W",
        told: "`W`",
    },
];

const QUANTIFIERS: [Candidate; 2] = [
    Candidate {
        token: b"E",
        told: "`E`",
    },
    Candidate {
        token: b"A",
        told: "`A`",
    },
];

const BOUNDS: [Candidate; 4] = [
    Candidate {
        token: b"[",
        told: "`[`",
    },
    Candidate {
        token: b"999",
        told: "a number",
    },
    Candidate {
        token: b":",
        told: "`:`",
    },
    Candidate {
        token: b"]",
        told: "`]`",
    },
];

/// What may follow the front, told one after the other; nothing where the token that was found there seems to be one of it.
pub(crate) fn expected(
    alloc: Global,
    grammar: Grammar,
    front: &[u8],
    found: &[u8],
) -> Result<String, AllocError> {
    let mut list = String::new(alloc);
    if !found.is_empty() && may_follow(alloc, grammar, front, found)? {
        return Ok(list);
    }
    add_names(alloc, grammar, front, &mut list)?;
    add_all(alloc, grammar, front, &ALL, &mut list)?;
    match grammar.logic {
        Logic::Mu => add_all(alloc, grammar, front, &MU, &mut list)?,
        Logic::Pdl => add_all(alloc, grammar, front, &PDL, &mut list)?,
        Logic::Ctl => {
            add_all(alloc, grammar, front, &QUANTIFIERS, &mut list)?;
            add_all(alloc, grammar, front, &PATHS, &mut list)?;
        }
        Logic::Ltl | Logic::Word => add_all(alloc, grammar, front, &PATHS, &mut list)?,
    }
    if grammar.has_bounds() {
        add_all(alloc, grammar, front, &BOUNDS, &mut list)?;
    }
    if is_whole(alloc, grammar, front)? {
        add(&mut list, "the end of the formula")?;
    }
    Ok(list)
}

// words: where `_` may follow, they are actions
fn add_names(
    alloc: Global,
    grammar: Grammar,
    front: &[u8],
    list: &mut String,
) -> Result<(), AllocError> {
    if may_follow(alloc, grammar, front, b"_")? {
        return add(list, "an action");
    }
    if may_be_proposition(alloc, grammar, front)? {
        add(list, "a proposition")?;
    }
    if matches!(grammar.logic, Logic::Mu) && may_follow(alloc, grammar, front, b"X")? {
        add(list, "a variable")?;
    }
    Ok(())
}

/// May a proposition follow the front?
pub(crate) fn may_be_proposition(
    alloc: Global,
    grammar: Grammar,
    front: &[u8],
) -> Result<bool, AllocError> {
    may_follow(alloc, grammar, front, b"p")
}

fn add(list: &mut String, told: &str) -> Result<(), AllocError> {
    if !list.is_empty() {
        list.push_str(", ")?;
    }
    list.push_str(told)?;
    Ok(())
}

fn add_all(
    alloc: Global,
    grammar: Grammar,
    front: &[u8],
    candidates: &[Candidate],
    list: &mut String,
) -> Result<(), AllocError> {
    for candidate in candidates {
        if may_follow(alloc, grammar, front, candidate.token)? {
            add(list, candidate.told)?;
        }
    }
    Ok(())
}

// a blank keeps the token apart from the one before it
fn may_follow(
    alloc: Global,
    grammar: Grammar,
    front: &[u8],
    token: &[u8],
) -> Result<bool, AllocError> {
    let mut text = Vec::new(alloc);
    text.extend_from_slice(front)?;
    text.push(b' ')?;
    text.extend_from_slice(token)?;
    match grammar.refusal(alloc, &text) {
        Some(ParseRefusal::Syntax { at }) => Ok(at > front.len() as u64 + 1),
        Some(ParseRefusal::NoMemory) => Err(AllocError),
        _ => Ok(true),
    }
}

fn is_whole(alloc: Global, grammar: Grammar, front: &[u8]) -> Result<bool, AllocError> {
    match grammar.refusal(alloc, front) {
        Some(ParseRefusal::Syntax { .. }) => Ok(false),
        Some(ParseRefusal::NoMemory) => Err(AllocError),
        _ => Ok(true),
    }
}
