// The rules of games, automata, documents and tasks, each in a few words: how it is broken.

use ml_game_check::Rule;

/// What is read where a document is refused.
#[derive(Clone, Copy, PartialEq, Eq)]
pub(crate) enum Shape {
    /// A document with a structure.
    Model,
    /// A document with a refutation.
    Refutation,
    /// A document of a problem that stays undecided.
    Undecided,
    /// A document of a task that stays undecided.
    UndecidedTask,
    /// A task.
    Task,
    /// A machine or an environment.
    Machine,
    /// Answers behind a file of requirements.
    Answers,
}

/// How the text of a game, with or without a solution, breaks the rule.
pub(crate) fn of_game(rule: u32) -> &'static str {
    match rule {
        1 =>
            "isn't expected here; a vertex looks like `3 5 0 1,2;` (id, priority, owner, successors), and an entry of a solution like `3 0 1;` (id, winner, move)",
        2 => "is the id of an earlier vertex or entry",
        3 => "is no vertex of the game",
        4 =>
            "is one too many: a game has at most 200,000 vertices and 2,000,000 successors, and a solution at most 200,000 entries",
        _ => "is above 4,294,967,294",
    }
}

/// How the text of an automaton breaks the rule.
pub(crate) fn of_automaton(rule: u32) -> &'static str {
    match rule {
        1 => "isn't expected here; docs/AUTOMATA.md says which part of HOA is read",
        2 => "is out of range (numbers begin at 0), or is a state that came before",
        _ =>
            "passes a limit: an automaton has at most 1,000 states, 8 propositions and 100,000 edges, and a label at most 1,000 operators and 1,000 open parentheses",
    }
}

/// How an entry of a solution breaks the rule.
pub(crate) fn of_solution(rule: Rule) -> &'static str {
    match rule {
        Rule::HasMove => "the winner of this vertex owns it, so its entry needs a move",
        Rule::MovesAlong =>
            "the winner of this vertex owns it, and the move of its entry leads to none of its successors",
        Rule::StaysClaimed =>
            "from this vertex a play may go on to one that has no entry for the same winner",
        Rule::NoBadCycle =>
            "a play may go round a cycle through this vertex for ever, and its priority, the highest on the cycle, is bad for its winner",
    }
}

/// Why a file of requirements has no answers behind it.
const NO_ANSWERS: &str =
    "no answers stand behind the file; they begin with the line `mlsolver answers 1`, as `ask files` writes it, and the line before it needs an end";

/// How an item of a file of requirements breaks the rule.
pub(crate) fn of_requirements(rule: u32) -> &'static str {
    match rule {
        61 =>
            "the first item has to be `logic` and one of `mu`, `pdl`, `ctl`, `ltl` and `word`, at the front of a line; where it stands again, it names the same logic",
        62 =>
            "an item begins with `require`, `possible`, `follows`, `signals`, `enum` or `define`, and an `enum` stands in `ctl`, `ltl` and `word` alone; a line that continues an item begins with a blank",
        63 =>
            "a name belongs here: that of a requirement or question is a letter, and then letters, digits, `_`, `-` and `.`; signals and the names of `enum` and `define` are propositions, and an `enum` has two values at least; each has at most 64 bytes",
        64 => "a colon belongs here, behind the name",
        65 => "is a name that an earlier item has, or a proposition that is declared before",
        67 =>
            "with definitions and bounds written out, the formula has more than 1,000 occurrences of operators and names",
        68 =>
            "isn't declared: where a file has `signals`, each proposition is declared before, by `signals`, `enum` or `define`",
        69 => "stands in a formula before its definition ends; a definition comes first",
        71 => NO_ANSWERS,
        _ => "this is the 4,097th item behind the first, and a file has at most 4,096",
    }
}

// do the lines of a task stand behind a title and an answer?
pub(crate) fn is_of_task(shape: Shape) -> bool {
    matches!(shape, Shape::Machine | Shape::UndecidedTask)
}

/// How a line of a document or a task breaks the rule.
pub(crate) fn of_document(shape: Shape, line: usize, rule: u32) -> &'static str {
    match rule {
        1 | 3 if is_of_task(shape) => of_realized(line, rule),
        1 => of_head(line),
        2 | 45 => "the formula is refused",
        3 => match shape {
            Shape::Refutation => "this command reads documents with `answer unsatisfiable`",
            _ => "this command reads documents with `answer satisfiable`",
        },
        4 =>
            "`path` reads any formula in `ltl` and `word`, and in `ctl` `E f` or `A f` where f has no `E` and no `A`",
        11 if matches!(shape, Shape::Undecided | Shape::UndecidedTask) =>
            "expected: `cause positions` and a number, or `cause closure 4096`; then `end` and nothing behind it",
        11 if shape == Shape::Answers =>
            "expected: `states` and a number, `start` and a number, a `state` line for each state, then `edge` lines with a state, an action and a state, then `end`",
        11..=17 => of_structure(line, rule),
        21..=31 => of_refutation(rule),
        41..=46 => of_task(line, rule),
        71..=72 => of_answers(rule),
        _ => of_machine(rule),
    }
}

fn of_head(line: usize) -> &'static str {
    match line {
        1 => "expected: `mlsolver 1` or `mlsolver 2`",
        2 => "expected: `answer satisfiable`, `answer unsatisfiable` or `answer undecided`",
        3 => "expected: `logic` and one of `mu`, `pdl`, `ctl`, `ltl` and `word`",
        4 => "expected: `sense plain` or `sense negated`",
        _ => "expected: `formula`, one blank and a formula",
    }
}

fn of_realized(line: usize, rule: u32) -> &'static str {
    match (line, rule) {
        (1, _) => "expected: `mlsolver realize 1`",
        (_, 1) => "expected: `answer realizable`, `answer unrealizable` or `answer undecided`",
        _ => "an undecided task has no machine and no environment to check",
    }
}

fn of_structure(line: usize, rule: u32) -> &'static str {
    match rule {
        11 => match line {
            6 => "expected: `states` and a number",
            7 => "expected: `start` and a number",
            _ =>
                "expected: a `state` line for each state, then `edge` lines with a state, an action and a state, then `end` and nothing behind it",
        },
        12 => "a number has to be decimal, without leading zeros, and at most 4,294,967,295",
        13 => "a structure has at least one state",
        14 => "states are numbered from 0, so the start has to be below their number",
        15 => "states come in the order 0, 1, 2 and so on",
        16 =>
            "the propositions of a state have to be names, in ascending order of their bytes, each once",
        _ =>
            "an edge has a state, an action and a state of this structure, and edges come in ascending order, each once",
    }
}

fn of_refutation(rule: u32) -> &'static str {
    match rule {
        21 =>
            "expected: the lines in the order that docs/DOCUMENTS.md shows, with single blanks between their words, and nothing behind `end`",
        22 => "a number has to be decimal, without leading zeros, and at most 4,294,967,295",
        23 => "a refutation has at least one entry",
        24 => "entries come in the order 0, 1, 2 and so on",
        25 => "the nodes of a sequent have to be in ascending order, each once",
        26 => "`live` has to be at most the number behind `names`",
        27 =>
            "items and the names of each have to be in ascending order, each once, and every name has to be in use",
        28 => "there has to be one height more than there are names",
        29 => "the entry has to be below the number of entries, and the name below that of names",
        30 => "this split lies inside 4,096 others, and that is too deep",
        _ => "the table of sequents, or of stacks, has no line with this number",
    }
}

fn of_task(line: usize, rule: u32) -> &'static str {
    match rule {
        41 => match line % 4 {
            1 => "expected: `inputs` and names, with one blank in front of each",
            2 => "expected: `outputs` and names, with one blank in front of each",
            3 => "expected: `formula`, one blank and a formula",
            _ => "expected: the end of the task, since its formula is one line, and the last",
        },
        42 =>
            "a name has to begin with a lower-case letter and go on with letters, digits and `_`, at most 64 bytes in all; `tt`, `true`, `ff` and `false` are reserved",
        43 => "each name may come only once among the inputs and outputs",
        44 => "there are more than 8 inputs and outputs",
        _ => "the formula has a proposition that is neither an input nor an output",
    }
}

fn of_machine(rule: u32) -> &'static str {
    match rule {
        51 =>
            "expected: `states` and a number; then for each state its `state` line, in an environment a `play` line, and one `on` line for each set in ascending order; then `end` and nothing behind it",
        52 => "a number has to be decimal, without leading zeros, and at most 4,294,967,295",
        53 => "a machine or an environment has at least one state",
        54 => "states come in the order 0, 1, 2 and so on",
        55 =>
            "the empty set is `-`; any other is written by its inputs or outputs, in the order of the task, each once",
        _ => "states are numbered from 0, so the state behind `goto` has to be below their number",
    }
}

fn of_answers(rule: u32) -> &'static str {
    match rule {
        71 =>
            "expected: the line of the next question with one of its answers, `rest` behind a conflict, `without` and the next name behind a refutation, or `end` and nothing behind it",
        _ =>
            "the names have to be those of requirements, in the order of the file, each once; a line of the rest has names of the rest, and a conflict has one name at least",
    }
}

/// Why the answer in this line is wrong.
pub(crate) fn of_wrong_answer(has_refutation: bool) -> &'static str {
    if has_refutation {
        "the refutation behind it isn't one of the requirements that are named and the question, or a structure behind `without` doesn't meet the others and the question"
    } else {
        "the structure behind it doesn't meet all requirements that are asked about, and the question"
    }
}

/// How a line of a refutation breaks the rule of acceptance.
pub(crate) fn of_acceptance(rule: u32) -> &'static str {
    match rule {
        1 => "the closure of the problem has more than 4,096 nodes",
        2 => "a node isn't in the graph, or entry 0 doesn't have exactly the root",
        3 => "a name in use is in no item of the entry",
        4 =>
            "the node of the item isn't in the sequent, or its guess isn't an odd priority of the graph",
        5 => "the node isn't an or-node of the spread, or is decided already",
        6 => "the line names no contradiction among the nodes of the spread",
        7 => "the node isn't a diamond of the spread",
        8 => "the sequent of the entry isn't within the targets of the diamond",
        9 => "the condition on names fails (docs/DOCUMENTS.md states it)",
        _ => "a height rises where it must not, or doesn't fall where it has to",
    }
}
