// The words of questions.
ghost use Rattle.std.specs.Prelude.{◌≡◌, ◌++◌, OnOk};
ghost use Rattle.std.specs.List.{flat_map};
ghost use Rattle.ml_lines.specs.Lines.{next};
ghost use Rattle.ml_answers.specs.Lines as lines;
ghost use Rattle.ml_answers.specs.Lines.{asked_name};

use ml_base::NoMemory;
use ml_lines::write_next_word;
use ml_spec::{Item, Kind, Question};

// the name of the item with this number; of none past the last one
pub(crate) fn name_at(items: &[Item], number: usize) -> &[u8]
    ensures { result.now ≡ lines.name_at items.now number }
{
    match items.get(number) {
        Some(item) => item.name.bytes(),
        None => b"",
    }
}

// the first word of a question
pub(crate) fn first_word(items: &[Item], question: Question) -> &[u8]
    ensures { result.now ≡ lines.first_word items.now question }
{
    match question {
        Question::Consistent => b"consistent",
        Question::Rest => b"rest",
        Question::Asks(number) => match items.get(number) {
            Some(item) => item.kind.word(),
            None => b"",
        },
    }
}

// does a structure answer the question with yes?
pub(crate) fn wants_structure(items: &[Item], question: Question) -> bool
    ensures { result ≡ lines.wants_structure items.now question }
{
    match question {
        Question::Consistent | Question::Rest => true,
        Question::Asks(number) => match items.get(number) {
            Some(item) => !matches!(item.kind, Kind::Follows),
            None => true,
        },
    }
}

// the name of what is asked, behind a word
pub(crate) fn write_asked_name(
    out: &mut Vec<u8>,
    items: &[Item],
    question: Question,
) -> Result<(), NoMemory>
    ensures { OnOk result (out.new.items ≡ out.old.items ++ flat_map next (asked_name items.now question)) }
{
    match question {
        Question::Consistent | Question::Rest => Ok(()),
        Question::Asks(number) => write_next_word(out, name_at(items, number)),
    }
}
