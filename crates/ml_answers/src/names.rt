// The names behind `because`.
ghost use Rattle.std.specs.Prelude.{ℕ, ◌≡◌, Bool, List, [], true, None, Some, length, IfOk, MatchOption};
ghost use Rattle.std.specs.List.{AllByRecursion};
ghost use Rattle.std.specs.Option.{is_none};
ghost use Rattle.ml_spec.specs.Items.{is_name};
ghost use Rattle.ml_spec.specs.Specification.{AreNew};
ghost use Rattle.ml_answers.specs.private.Marks as marks;
ghost use Rattle.ml_answers.specs.private.Marks.{heads, left_by, mark_at, scan, split_at, split_words, MarkedBy};
ghost use Rattle.ml_answers.specs.private.Words.{some_left, words_left, Agrees};

use ml_base::NoMemory;
use ml_lines::split_word;
use ml_spec::Item;
use std::alloc::Global;

/// How a line of an answer names an item.
#[derive(Clone, Copy, PartialEq, Eq)]
pub(crate) enum Mark {
    Unnamed,
    /// Behind `because`: without it a structure meets the others.
    Needed,
    /// Behind `perhaps:`: that is left open.
    Perhaps,
}

/// Words that were not yet read.
#[derive(Clone, Copy)]
pub(crate) struct Names<'a> {
    /// None where no word is left.
    pub(crate) rest: Option<&'a [u8]>,
}

impl<'a> Names<'a> {
    /// Takes the next word, if it is this one.
    fn takes(&mut self, name: &[u8]) -> bool
        ensures taken { result ≡ heads (words_left self.old) name.now }
        ensures left { words_left self.new ≡ left_by result (words_left self.old) }
    {
        match self.rest {
            Some(rest) => {
                let (word, behind) = split_word(rest);
                if word == name {
                    self.rest = behind;
                    true
                } else {
                    false
                }
            }
            None => false,
        }
    }

    /// Are the words all read?
    fn are_none(&self) -> bool
        ensures { result ≡ is_none self.now.rest }
    {
        self.rest.is_none()
    }

    /// Are the words all read, or does `perhaps:` come next?
    fn are_over(&self) -> bool
        ensures { result ≡ marks.is_over (words_left self.now) }
    {
        match self.rest {
            Some(rest) => {
                let (word, _) = split_word(rest);
                word == b"perhaps:".as_slice()
            }
            None => true,
        }
    }
}

// the words behind `perhaps:`, where it stands among these
fn behind_perhaps<'a>(names: Names<'a>) -> Option<Names<'a>>
    ensures { MatchOption result (marks.behind_perhaps (words_left names.entry) ≡ None)
        (λ r. marks.behind_perhaps (words_left names.entry) ≡ Some (words_left r)) }
{
    let mut words = names.rest;
    while let Some(rest) = words {
        let (word, behind) = split_word(rest);
        words = behind;
        if word == b"perhaps:".as_slice() {
            return Some(Names { rest: behind });
        }
    }
    None
}

/// The marks that these words give the items: those behind `because` up to `perhaps:`, and those behind that, each the name of
/// a requirement that is among these, in their order, and each once. `None` where the words aren't such names; `wants_some`
/// tells whether there has to be one.
///
/// Cost: linear in the items and the words.
pub(crate) fn read_marks(
    alloc: Global,
    items: &[Item],
    among: &[bool],
    wants_some: bool,
    words: Names,
) -> Result<Option<Vec<Mark>>, NoMemory>
    requires among { length among.now ≡ length items.now }
    requires new { AreNew items.now }
    requires named { AllByRecursion (λ x. is_name x.name ≡ true) items.now }
    ensures { IfOk result (λ made. (S : ℕ → Bool) → Agrees items.now S among.now
        → MatchOption made ((ms : List Mark) → ¬ (MarkedBy S wants_some items.now ms (words_left words.entry)))
        (λ ms. MarkedBy S wants_some items.now ms.items (words_left words.entry))) }
{
    match split_names(words, wants_some) {
        Some((needed, perhaps)) => mark_items(alloc, items, among, needed, perhaps),
        None => Ok(None),
    }
}

// the words behind `because`, without the dash where that stands for none, and those behind `perhaps:`; `None` where there is
// none where one has to be
fn split_names<'a>(words: Names<'a>, wants_some: bool) -> Option<(Names<'a>, Names<'a>)>
    ensures { MatchOption result (split_words wants_some (words_left words.entry) ≡ None)
        (λ r. split_words wants_some (words_left words.entry) ≡ Some (words_left r.0, words_left r.1)) }
{
    let perhaps = behind_perhaps(words);
    let mut needed = words;
    let dashed = needed.takes(b"-");
    let over = needed.are_over();
    cut_names(needed, perhaps, dashed, over, wants_some)
}

// these words for needed ones, where a dash may stand before them and they may be over, and those behind `perhaps:`
fn cut_names<'a>(
    needed: Names<'a>,
    perhaps: Option<Names<'a>>,
    dashed: bool,
    over: bool,
    wants_some: bool,
) -> Option<(Names<'a>, Names<'a>)>
    requires { over ≡ marks.is_over (words_left needed) }
    ensures { MatchOption result (split_at wants_some dashed (words_left needed.entry) (some_left perhaps.entry) ≡ None)
        (λ r. split_at wants_some dashed (words_left needed.entry) (some_left perhaps.entry) ≡ Some (words_left r.0, words_left r.1)) }
{
    match perhaps {
        Some(unsettled) => {
            if unsettled.are_none() {
                None
            } else if dashed {
                if over {
                    Some((needed, unsettled))
                } else {
                    None
                }
            } else {
                if over {
                    None
                } else {
                    Some((needed, unsettled))
                }
            }
        }
        None => {
            let unsettled = Names { rest: None };
            if dashed {
                if over {
                    if wants_some {
                        None
                    } else {
                        Some((needed, unsettled))
                    }
                } else {
                    None
                }
            } else {
                if over {
                    None
                } else {
                    Some((needed, unsettled))
                }
            }
        }
    }
}

// the mark of an item with this name, which may be named or not, before these words
fn next_mark(may: bool, name: &[u8], needed: &mut Names, perhaps: &mut Names) -> Mark
    ensures mark { result ≡ mark_at may name.now (words_left needed.old) (words_left perhaps.old) }
    ensures needed { words_left needed.new ≡ left_by (marks.is_needed result) (words_left needed.old) }
    ensures perhaps { words_left perhaps.new ≡ left_by (marks.is_unsettled result) (words_left perhaps.old) }
{
    if !may {
        Mark::Unnamed
    } else if needed.takes(name) {
        Mark::Needed
    } else if perhaps.takes(name) {
        Mark::Perhaps
    } else {
        Mark::Unnamed
    }
}

// the marks of items, where both have the next name in its place
fn mark_items(
    alloc: Global,
    items: &[Item],
    among: &[bool],
    mut needed: Names,
    mut perhaps: Names,
) -> Result<Option<Vec<Mark>>, NoMemory>
    requires among { length among.now ≡ length items.now }
    ensures { IfOk result (λ made. (S : ℕ → Bool) → Agrees items.now S among.now
        → MatchOption made
        ((marks.is_over (scan S 0 items.now (words_left needed.entry) (words_left perhaps.entry)).needed ≡ true)
        → ¬ ((scan S 0 items.now (words_left needed.entry) (words_left perhaps.entry)).unsettled ≡ []))
        (λ ms. ((scan S 0 items.now (words_left needed.entry) (words_left perhaps.entry)).marks ≡ ms.items)
        × (marks.is_over (scan S 0 items.now (words_left needed.entry) (words_left perhaps.entry)).needed ≡ true)
        × ((scan S 0 items.now (words_left needed.entry) (words_left perhaps.entry)).unsettled ≡ []))) }
{
    let mut marks = Vec::new(alloc);
    for number in 0..items.len() {
        let item = &items[number];
        let may = item.kind.is_requirement() && among[number];
        let mark = next_mark(may, item.name.bytes(), &mut needed, &mut perhaps);
        marks.push(mark)?;
    }
    if needed.are_over() {
        if perhaps.are_none() {
            Ok(Some(marks))
        } else {
            Ok(None)
        }
    } else {
        Ok(None)
    }
}
