// Where documents, tasks, games, automata and requirements are refused, and of which problem a document speaks.
use ml_ask_text::Form;
use ml_base::DocFault;
use ml_driver::{Command, Engine, Said, TextKind};
use ml_front::Logic;
use ml_game_check::Rule;
use ml_messages::explanation;
use ml_spec::SpecRule;
use std::alloc::{AllocError, Global};
use std::test::Fail;

const FIND: Command = Command::Find {
    logic: Logic::Mu,
    limit: 1,
};

const SOLVE_GAME: Command = Command::SolveGame {
    engine: Engine::Recursive,
};

const DETERMINISE: Command = Command::Determinise { limit: 1 };

const MAKE: Command = Command::Make { limit: 1 };

const REALIZE: Command = Command::Realize { limit: 1 };

const ASK: Command = Command::Ask {
    form: Form::Lines,
    limit: 1,
};

// the sentence about the input of a command, of which this is said
fn told(alloc: Global, command: Command, input: &[u8], said: Said) -> Result<String, AllocError> {
    match explanation(alloc, command, said, input)? {
        Some(sentence) => Ok(sentence),
        None => Ok(String::new(alloc)),
    }
}

const ROWS: [(Command, &[u8], Said, &str); 32] = [
    (
        Command::Show,
        b"mlsolver 2\nanswer undecided\nlogic mu\nsense plain\nformula p\ncause position 5\nend\n",
        Said::RefusedDocument(DocFault { line: 6, rule: 11 }),
        "line 6: `cause position 5`: expected: `cause positions` and a number, or `cause closure 4096`; then `end` and nothing behind it",
    ),
    (
        Command::Show,
        b"mlsolver realize 1\nanswer undecided\ninputs r\noutputs g\nformula r\ncause position 5\nend\n",
        Said::RefusedDocument(DocFault { line: 6, rule: 11 }),
        "line 6: `cause position 5`: expected: `cause positions` and a number, or `cause closure 4096`; then `end` and nothing behind it",
    ),
    (
        Command::Show,
        b"mlsolver realize 1\nanswer undecided\ninputs r\n",
        Said::RefusedDocument(DocFault { line: 4, rule: 41 }),
        "line 4 is missing, or has no line end: expected: `outputs` and names, with one blank in front of each",
    ),
    (
        Command::Show,
        b"mlsolver 2\nanswer unsatisfiable\nlogic mu\nsense plain\nformula p\nnames 1\nsequents 0\nstacks 0\nentries 0\n",
        Said::RefusedDocument(DocFault { line: 9, rule: 23 }),
        "line 9: `entries 0`: a refutation has at least one entry",
    ),
    (
        Command::CheckModel,
        b"mlsolver 2\nanswer satisfiable\nlogic mu\nsense plain\nformula p &\nstates 1\n",
        Said::RefusedDocument(DocFault { line: 5, rule: 2 }),
        "line 5, column 12: the formula ends too soon; expected: a proposition, a variable, `tt`, `ff`, `!`, `(`, `<`, `[`, `mu`, `nu`",
    ),
    (
        Command::CheckModel,
        b"mlsolver 2\nanswer unsatisfiable\n",
        Said::RefusedDocument(DocFault { line: 2, rule: 3 }),
        "line 2: `answer unsatisfiable`: this command reads documents with `answer satisfiable`",
    ),
    (
        Command::CheckModel,
        b"mlsolver 2\nanswer satisfiable\nlogic mu\nsense plain\nformula p\nstates 1\nstart 1\n",
        Said::RefusedDocument(DocFault { line: 7, rule: 14 }),
        "line 7: `start 1`: states are numbered from 0, so the start has to be below their number",
    ),
    (
        Command::CheckModel,
        b"mlsolver 2\n",
        Said::RefusedDocument(DocFault { line: 2, rule: 1 }),
        "line 2 is missing, or has no line end: expected: `answer satisfiable`, `answer unsatisfiable` or `answer undecided`",
    ),
    (
        Command::CheckModel,
        b"mlsolver 2\nanswer satisfiable\nlogic ctl\nsense negated\nformula E F p\n",
        Said::Holds,
        "holds: the negation of E F p, logic ctl",
    ),
    (
        Command::CheckModel,
        b"mlsolver 2\nanswer satisfiable\nlogic mu\nsense plain\nformula p10 & p11 & p12 & p13 & p14 & p15 & p16 & \
          p17 & p18 & p19 & p20 & p21 & p22 & p23 & p24 & p25 & p26 & p27 & p28 & p29 & p30 & p31 & p32 & p33 & p34 & \
          p35 & p36 & p37 & p38 & p39 & p40 & p41 & p42 & p43 & p44 & p45 & p46 & p47 & p48 & p49 & p50 & p51 & p52 & \
          p53 & p54 & p55 & p56 & p57 & p58 & p59\n",
        Said::Holds,
        "holds: p10 & p11 & p12 & p13 & p14 & p15 & p16 & p17 & p18 & p19 & p20 & p21 & p22 & p23 & p24 & p25 & p26 \
          & p27 & p28 & p29 & p30 & p31 & p32 & p33 & p34 & p35 & p36 & p37 & p38 & p39 & p40 & p41 & p42 & p4 .., \
          logic mu",
    ),
    (
        Command::CheckRefutation,
        b"mlsolver 2\nanswer unsatisfiable\nlogic mu\nsense plain\nformula (p & !p)\n",
        Said::Accepted,
        "refuted: (p & !p), logic mu",
    ),
    (
        Command::CheckRefutation,
        b"mlsolver 2\nanswer unsatisfiable\nlogic mu\nsense plain\nformula p\nnames 0\n",
        Said::RejectedLine { line: 6, rule: 3 },
        "line 6: `names 0`: a name in use is in no item of the entry",
    ),
    (
        Command::CheckModel,
        b"",
        Said::NotTotal(3),
        "in CTL* and LTL each state needs an edge with the action `_`",
    ),
    (
        Command::CheckModel,
        b"",
        Said::NotAWord(3),
        "on words each state needs exactly one edge with the action `_`",
    ),
    (
        REALIZE,
        b"inputs r\noutputs g\nformula G(r -> F q)\n",
        Said::RefusedDocument(DocFault { line: 3, rule: 46 }),
        "line 3: the formula has the proposition `q`, which is neither an input nor an output",
    ),
    (
        Command::CheckMachine,
        b"mlsolver realize 1\nanswer realizable\ninputs r\noutputs g\nformula GF(r U grnt) | X tt\n",
        Said::RefusedDocument(DocFault { line: 5, rule: 46 }),
        "line 5: the formula has the proposition `grnt`, which is neither an input nor an output",
    ),
    (
        REALIZE,
        b"inputs r\noutputs g\nformula G(r -> \n",
        Said::RefusedDocument(DocFault { line: 3, rule: 45 }),
        "line 3, column 16: the formula ends too soon; expected: a proposition, `tt`, `ff`, `!`, `(`, `X`, `F`, `G`",
    ),
    (
        REALIZE,
        b"inputs r\n",
        Said::RefusedDocument(DocFault { line: 2, rule: 41 }),
        "line 2 is missing, or has no line end: expected: `outputs` and names, with one blank in front of each",
    ),
    (
        SOLVE_GAME,
        b"parity 1;\n0 0 0 5;",
        Said::RefusedText {
            kind: TextKind::Game,
            rule: 3,
            at: 16,
        },
        "line 2, column 7: `5` is no vertex of the game",
    ),
    (
        SOLVE_GAME,
        b"0 0 0 0",
        Said::RefusedText {
            kind: TextKind::Game,
            rule: 1,
            at: 7,
        },
        "line 1, column 8: the text ends too soon",
    ),
    (
        Command::CheckGame,
        b"0 0 0 0; paritysol; 0 0;",
        Said::RejectedVertex {
            id: 0,
            rule: Rule::HasMove,
        },
        "the winner of this vertex owns it, so its entry needs a move",
    ),
    (
        DETERMINISE,
        b"HOA: v2",
        Said::RefusedText {
            kind: TextKind::Automaton,
            rule: 1,
            at: 5,
        },
        "line 1, column 6: `v2` isn't expected here; docs/AUTOMATA.md says which part of HOA is read",
    ),
    (
        ASK,
        b"logic ltl\nrequire a p\n",
        Said::RefusedRequirements {
            line: 2,
            column: 11,
            rule: SpecRule::NoColon,
        },
        "line 2, column 11: a colon belongs here, behind the name",
    ),
    (
        ASK,
        b"logic word\nrequire a: G(p -> # so\n  ) & q\nrequire b: p\n",
        Said::RefusedRequirements {
            line: 3,
            column: 3,
            rule: SpecRule::Syntax,
        },
        "line 3, column 3: `)` isn't expected here; expected: a proposition, `tt`, `ff`, `!`, `(`, `X`, `F`, `G`",
    ),
    (
        ASK,
        b"logic mu\nrequire a: p &\nrequire b: p\n",
        Said::RefusedRequirements {
            line: 2,
            column: 15,
            rule: SpecRule::Syntax,
        },
        "line 2, column 15: the formula ends too soon; expected: a proposition, a variable, `tt`, `ff`, `!`, `(`, `<`, `[`, `mu`, `nu`",
    ),
    (
        ASK,
        b"logic ltl\n require a: p\n",
        Said::RefusedRequirements {
            line: 1,
            column: 1,
            rule: SpecRule::NoLogic,
        },
        "line 1, column 1: an item begins in column 1; line 2 begins with a blank, so it continues the item before it",
    ),
    (
        ASK,
        b" logic ltl\nrequire a: p\n",
        Said::RefusedRequirements {
            line: 1,
            column: 2,
            rule: SpecRule::NoLogic,
        },
        "line 1, column 2: an item begins in column 1; line 1 begins with a blank, so it continues the item before it",
    ),
    (
        ASK,
        b"logic ltl\nrequire a: G p\n possible b: q # so\n",
        Said::RefusedRequirements {
            line: 3,
            column: 2,
            rule: SpecRule::Syntax,
        },
        "line 3, column 2: an item begins in column 1; line 3 begins with a blank, so it continues the item before it",
    ),
    (
        ASK,
        b"logic ltl\nrequire a: G p &\n  follows U )\n",
        Said::RefusedRequirements {
            line: 3,
            column: 13,
            rule: SpecRule::Syntax,
        },
        "line 3, column 13: `)` isn't expected here; expected: a proposition, `tt`, `ff`, `!`, `(`, `X`, `F`, `G`",
    ),
    (
        ASK,
        b"logic word\nrequire a: G(mode = 3)\n",
        Said::RefusedRequirements {
            line: 2,
            column: 19,
            rule: SpecRule::Syntax,
        },
        "line 2, column 19: `=` isn't expected here; expected: `)`, `&`, `|`, `->`, `<->`, `U`, `R`, `W`; there are no numbers to compare: take a proposition like `mode_3` for `mode = 3` (docs/FORMULAS.md)",
    ),
    (
        MAKE,
        b"inputs a\noutputs f\nformula G(a -> F grnt)",
        Said::RefusedDocument(DocFault { line: 3, rule: 46 }),
        "line 3: the formula has the proposition `grnt`, which is neither an input nor an output",
    ),
    (
        FIND,
        b"",
        Said::TooLong,
        "the input is longer than this command reads",
    ),
];

#[test]
fn documents(rt: HostRuntime) -> Result<(), Fail> {
    for (command, input, said, wanted) in ROWS {
        let sentence = told(rt.alloc(), command, input, said)?;
        assert_eq!(rt; sentence.as_str(), wanted);
    }
    Ok(())
}
