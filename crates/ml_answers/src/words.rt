// The words of questions.
ghost use Rattle.std.specs.Prelude.{◌≡◌};
ghost use Rattle.ml_answers.specs.Lines as lines;

use ml_spec::{Item, Kind, Question};

// the name of the item with this number; of none past the last one
pub(crate) fn name_at(items: &[Item], number: usize) -> &[u8]
    ensures { result.now ≡ lines.name_at items.now number }
{
    match items.get(number) {
        Some(item) => item.name.bytes(),
        None => b"",
    }
}

// the first word of a question
pub(crate) fn first_word(items: &[Item], question: Question) -> &[u8]
    ensures { result.now ≡ lines.first_word items.now question }
{
    match question {
        Question::Consistent => b"consistent",
        Question::Rest => b"rest",
        Question::Asks(number) => match items.get(number) {
            Some(item) => item.kind.word(),
            None => b"",
        },
    }
}

// does a structure answer the question with yes?
pub(crate) fn wants_structure(items: &[Item], question: Question) -> bool
    ensures { result ≡ lines.wants_structure items.now question }
{
    match question {
        Question::Consistent | Question::Rest => true,
        Question::Asks(number) => match items.get(number) {
            Some(item) => !matches!(item.kind, Kind::Follows),
            None => true,
        },
    }
}

pub(crate) fn yes_or_no(yes: bool) -> &'static [u8]
    ensures { result.now ≡ lines.yes_or_no yes }
{
    if yes { b"yes" } else { b"no" }
}
