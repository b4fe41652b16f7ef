// How the program is called, for standard error.

use ml_driver::{Further, TABLE};
use ml_messages::words_fault;
use std::io;

// what stands behind the first word of a command
fn further_words(further: Further) -> &'static str {
    match further {
        Further::Nothing => "",
        Further::Limit => "[--limit N]",
        Further::Logic => "LOGIC [--limit N]",
        Further::Files => "[files] [--limit N]",
        Further::Engine => "ENGINE",
        Further::Family => "FAMILY N",
    }
}

/// Tells on standard error what is wrong with words that are no command, as far as that is known, and how the program is
/// called.
pub(crate) fn explain(rt: &(impl Eprint + AllocGlobal), words: &[String]) -> io::Result<()> {
    if let Ok(Some(fault)) = words_fault(rt.alloc(), words) {
        eprintln!(rt; "mlsolver: {fault}")?;
    }
    for (word, verb) in TABLE {
        let call = format!(in rt.alloc(); "{word} {}", further_words(verb.further()))?;
        eprintln!(rt; "  mlsolver {call:<25} {}", verb.purpose())?;
    }
    eprintln!(rt; "LOGIC is mu, pdl, ctl, ltl or word; ENGINE recursive, measures or tangles;")?;
    eprintln!(rt; "FAMILY and, or, step, fair or loop; N has one to six digits.")?;
    eprintln!(rt;
        "All but gen and bench read standard input. The exit status is 0 for yes or done,"
    )?;
    eprintln!(rt;
        "1 for no, 2 for undecided, 3 for words like these, 4 for a refused input, 5 where"
    )?;
    eprintln!(rt; "standard input fails, 6 where standard output fails, and 7 without memory.")?;
    eprintln!(rt; "See docs/GUIDE.md, or the manual: man docs/mlsolver.1")
}
