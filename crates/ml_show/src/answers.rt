// Answers to files of requirements, as people read them.
ghost use Rattle.std.specs.Prelude.{IfOk};
ghost use Rattle.ml_show.specs.Pages.{EndsWithLf};

use crate::models::append_model;
use crate::page::Page;
use crate::refutations::refutation_page;
use ml_base::NoMemory;
use ml_front::Problem;
use ml_kripke::Model;
use ml_refutation::Refutation;
use std::alloc::Global;

/// The answers to the questions of a file of requirements, each with what shows it, as a text that grows answer by answer.
#[derive(Drop)]
pub struct AnswersPage {
    page: Page,
}

impl AnswersPage {
    /// A text without answers.
    pub fn new(alloc: Global) -> AnswersPage {
        AnswersPage {
            page: Page::new(alloc),
        }
    }

    /// Begins the next answer, with its line.
    pub fn begin(&mut self, line: &[u8]) -> Result<(), NoMemory> {
        if !self.page.is_empty() {
            self.page.end_line()?;
        }
        self.page.begin(0, 4)?;
        self.page.words(line)?;
        self.page.end_line()
    }

    /// A structure that shows the answer: a table of its moments, or its states.
    pub fn model(&mut self, alloc: Global, model: &Model) -> Result<(), NoMemory> {
        self.page.end_line()?;
        append_model(alloc, &mut self.page, b"It is shown at", model)?;
        self.page.end_line()
    }

    /// A structure that shows what is otherwise without the requirement of this name.
    pub fn model_without(
        &mut self,
        alloc: Global,
        name: &[u8],
        model: &Model,
    ) -> Result<(), NoMemory> {
        self.page.end_line()?;
        self.page.begin(0, 0)?;
        self.page.word(b"Without")?;
        self.page.word(name)?;
        append_model(
            alloc,
            &mut self.page,
            b"it is otherwise, as is shown at",
            model,
        )?;
        self.page.end_line()
    }

    /// A refutation that shows the answer, step by step.
    pub fn refutation(
        &mut self,
        alloc: Global,
        problem: &Problem,
        refutation: &Refutation,
    ) -> Result<(), NoMemory> {
        self.page.end_line()?;
        self.page
            .append(&refutation_page(alloc, problem, refutation)?)?;
        self.page.end_line()
    }

    /// A sentence.
    pub fn say(&mut self, sentence: &[u8]) -> Result<(), NoMemory> {
        self.page.end_line()?;
        self.page.begin(0, 0)?;
        self.page.words(sentence)?;
        self.page.end_line()
    }

    /// The text, up to here, and what is said at its end.
    pub fn finish(self, sentence: &[u8]) -> Result<Vec<u8>, NoMemory>
        ensures { IfOk result (λ text. EndsWithLf text.items) }
    {
        let mut page = self.page;
        page.end_line()?;
        page.begin(0, 0)?;
        page.words(sentence)?;
        page.finish()
    }
}
