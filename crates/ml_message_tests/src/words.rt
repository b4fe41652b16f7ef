// Why words are no command.
use ml_messages::words_fault;
use std::alloc::{AllocError, Global};
use std::test::Fail;

// the sentence about these words, which are parted by one blank
fn told(alloc: Global, call: &str) -> Result<String, AllocError> {
    let mut words = Vec::new(alloc);
    for word in call.split(' ') {
        words.push(String::from_str(alloc, word)?)?;
    }
    match words_fault(alloc, &words)? {
        Some(sentence) => Ok(sentence),
        None => Ok(String::new(alloc)),
    }
}

const ROWS: [(&str, &str); 25] = [
    (
        "ask home.spec",
        "`home.spec` is a word too many; the input is read from standard input: `mlsolver ask < home.spec`",
    ),
    (
        "ask files home.spec",
        "`home.spec` is a word too many; the input is read from standard input: `mlsolver ask files < home.spec`",
    ),
    (
        "check-model bar.doc",
        "`bar.doc` is a word too many; the input is read from standard input: `mlsolver check-model < bar.doc`",
    ),
    (
        "find ltl lift.ltl",
        "`lift.ltl` is a word too many; the input is read from standard input: `mlsolver find ltl < lift.ltl`",
    ),
    (
        "find lift.ltl",
        "`lift.ltl` is no logic: `mu`, `pdl`, `ctl`, `ltl` or `word`",
    ),
    (
        "find",
        "`find` lacks its logic: `mu`, `pdl`, `ctl`, `ltl` or `word`",
    ),
    (
        "solve-game fast",
        "`fast` is no engine: `recursive`, `measures` or `tangles`",
    ),
    (
        "solve-game recursive game.txt",
        "`game.txt` is a word too many; the input is read from standard input: `mlsolver solve-game recursive < game.txt`",
    ),
    (
        "gen fair 9",
        "`9` is no number of the family `fair`, which has those from 1 to 3",
    ),
    (
        "bench or 017x",
        "`017x` is no number of the family `or`, which has those from 1 to 16",
    ),
    ("gen step", "`gen step` lacks its number, from 1 to 400"),
    (
        "gen nor 3",
        "`nor` is no family: `and`, `or`, `step`, `fair` or `loop`",
    ),
    ("gen and 3 4", "`4` is a word too many"),
    ("gen and 3 --limit 4", "`gen` has no limit"),
    ("findd mu", "`findd` is no command"),
    ("--limit 5", "a command is missing"),
    ("find mu --limit", "`--limit` lacks its number"),
    (
        "find mu --limit 200001",
        "`200001` is no limit, which is a number from 1 to 200000 with at most six digits",
    ),
    (
        "find mu --limit=0",
        "`0` is no limit, which is a number from 1 to 200000 with at most six digits",
    ),
    (
        "make --limit 0000001",
        "`0000001` is no limit, which is a number from 1 to 200000 with at most six digits",
    ),
    ("path --limit 5", "`path` has no limit"),
    (
        "find mu --limit 5 --limit 6",
        "`--limit` may stand only once",
    ),
    (
        "find mu --fast",
        "`--fast` is no option; the only one is `--limit N`",
    ),
    ("--help", ""),
    ("", ""),
];

#[test]
fn words(rt: HostRuntime) -> Result<(), Fail> {
    for (call, wanted) in ROWS {
        let sentence = told(rt.alloc(), call)?;
        assert_eq!(rt; sentence.as_str(), wanted);
    }
    Ok(())
}
