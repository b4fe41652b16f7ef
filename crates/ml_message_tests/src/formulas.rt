// Where formulas are refused, and what may follow there.
use ml_driver::{Command, Said, TextKind};
use ml_front::Logic;
use ml_messages::explanation;
use std::alloc::{AllocError, Global};
use std::test::Fail;

// the sentence about the text of a formula of this logic that is refused by this rule at this byte
fn told(
    alloc: Global,
    logic: Logic,
    text: &[u8],
    rule: u32,
    at: u64,
) -> Result<String, AllocError> {
    let command = Command::Find { logic, limit: 1 };
    let kind = TextKind::Formula;
    match explanation(alloc, command, Said::RefusedText { kind, rule, at }, text)? {
        Some(sentence) => Ok(sentence),
        None => Ok(String::new(alloc)),
    }
}

const ROWS: [(Logic, &[u8], u32, u64, &str); 22] = [
    (
        Logic::Mu,
        b"p q",
        1,
        2,
        "line 1, column 3: `q` isn't expected here; expected: `&`, `|`, `->`, `<->`, the end of the formula",
    ),
    (
        Logic::Word,
        b"G(p ->\n  ) & q",
        1,
        9,
        "line 2, column 3: `)` isn't expected here; expected: a proposition, `tt`, `ff`, `!`, `(`, `X`, `F`, `G`",
    ),
    (
        Logic::Word,
        b"G(p",
        1,
        3,
        "line 1, column 4: the formula ends too soon; expected: `)`, `&`, `|`, `->`, `<->`, `U`, `R`, `W`",
    ),
    (
        Logic::Ctl,
        b"G p",
        1,
        0,
        "line 1, column 1: `G` isn't expected here; expected: a proposition, `tt`, `ff`, `!`, `(`, `E`, `A`",
    ),
    (
        Logic::Mu,
        b"<p",
        1,
        2,
        "line 1, column 3: the formula ends too soon; expected: `>`",
    ),
    (
        Logic::Mu,
        b"<)p",
        1,
        1,
        "line 1, column 2: `)` isn't expected here; expected: an action, `_`, `>`",
    ),
    (
        Logic::Mu,
        b"mu x. p",
        1,
        3,
        "line 1, column 4: `x` isn't expected here; expected: a variable",
    ),
    (
        Logic::Pdl,
        b"<a;>p",
        1,
        3,
        "line 1, column 4: `>` isn't expected here; expected: an action, `tt`, `ff`, `!`, `(`, `_`",
    ),
    (
        Logic::Ltl,
        b"p \xe2\x88\xa7 q",
        1,
        2,
        "line 1, column 3: `\u{2227}` isn't expected here; expected: `&`, `|`, `->`, `<->`, `U`, `R`, `W`, the end of the formula",
    ),
    (
        Logic::Ltl,
        b"F[0,3] p",
        1,
        1,
        "line 1, column 2: `[` isn't expected here; expected: a proposition, `tt`, `ff`, `!`, `(`, `X`, `F`, `G`; operators have bounds in files of requirements alone: write `X X p` for `X[2] p` (docs/FORMULAS.md)",
    ),
    (
        Logic::Ctl,
        b"A X [2] p",
        1,
        4,
        "line 1, column 5: `[` isn't expected here; expected: a proposition, `tt`, `ff`, `!`, `(`, `E`, `A`, `X`, `F`, `G`; operators have bounds in files of requirements alone: write `X X p` for `X[2] p` (docs/FORMULAS.md)",
    ),
    (
        Logic::Word,
        b"G(x <= 3)",
        1,
        4,
        "line 1, column 5: `<` isn't expected here; expected: `)`, `&`, `|`, `->`, `<->`, `U`, `R`, `W`; there are no numbers to compare: take a proposition like `mode_3` for `mode = 3` (docs/FORMULAS.md)",
    ),
    (
        Logic::Mu,
        b"mode != 3",
        1,
        5,
        "line 1, column 6: `!` isn't expected here; expected: `&`, `|`, `->`, `<->`, the end of the formula; there are no numbers to compare: take a proposition like `mode_3` for `mode = 3` (docs/FORMULAS.md)",
    ),
    (
        Logic::Word,
        b"G(Request -> q)",
        1,
        2,
        "line 1, column 3: `R` isn't expected here; expected: a proposition, `tt`, `ff`, `!`, `(`, `X`, `F`, `G`; a proposition begins with a lower-case letter (docs/FORMULAS.md)",
    ),
    (
        Logic::Ltl,
        b"F(P & q)",
        1,
        2,
        "line 1, column 3: `P` isn't expected here; expected: a proposition, `tt`, `ff`, `!`, `(`, `X`, `F`, `G`; a proposition begins with a lower-case letter (docs/FORMULAS.md)",
    ),
    (
        Logic::Pdl,
        b"<a>Open",
        1,
        3,
        "line 1, column 4: `Open` isn't expected here; expected: a proposition, `tt`, `ff`, `!`, `(`, `<`, `[`, `repeat`; a proposition begins with a lower-case letter (docs/FORMULAS.md)",
    ),
    (
        Logic::Mu,
        b"<a>Open",
        2,
        3,
        "line 1, column 4: the variable `Open` has no `mu` or `nu` around it; a proposition begins with a lower-case letter (docs/FORMULAS.md)",
    ),
    (
        Logic::Mu,
        b"mu X. <>Y",
        2,
        8,
        "line 1, column 9: the variable `Y` has no `mu` or `nu` around it",
    ),
    (
        Logic::Mu,
        b"mu X. !X",
        3,
        7,
        "line 1, column 8: between the variable `X` and its `mu` or `nu` there is a `<->`, or an odd number of negations (the left side of `->` counts as one)",
    ),
    (
        Logic::Mu,
        b"p & q",
        4,
        4,
        "line 1, column 5: here the formula passes 1,000 occurrences of operators and names (`<->` counts as three)",
    ),
    (
        Logic::Mu,
        b"((p))",
        5,
        1,
        "line 1, column 2: here more than 1,000 parentheses are open",
    ),
    (
        Logic::Mu,
        b"p",
        6,
        0,
        "line 1, column 1: this name has more than 64 bytes",
    ),
];

#[test]
fn formulas(rt: HostRuntime) -> Result<(), Fail> {
    for (logic, text, rule, at, wanted) in ROWS {
        let sentence = told(rt.alloc(), logic, text, rule, at)?;
        assert_eq!(rt; sentence.as_str(), wanted);
    }
    Ok(())
}
