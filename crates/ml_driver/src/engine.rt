// How a parity game is solved.
ghost use Rattle.std.specs.Prelude.{◌≡◌};
ghost use Rattle.ml_driver.specs.Games.{engine_named, engine_word};

/// How `solve-game` solves a parity game.
#[derive(Clone, Copy, PartialEq, Eq)]
pub enum Engine {
    /// By Zielonka's recursion.
    Recursive,
    /// By the least progress measures of both players.
    Measures,
    /// By tangles and a counted recursion, checked.
    Tangles,
}

impl Engine {
    /// The word that names the engine.
    pub fn word(self) -> &'static [u8]
        ensures { result.now ≡ engine_word self }
    {
        match self {
            Engine::Recursive => b"recursive",
            Engine::Measures => b"measures",
            Engine::Tangles => b"tangles",
        }
    }

    /// The engine that a word names; `None` where it names none.
    pub fn named(word: &[u8]) -> Option<Engine>
        ensures { result ≡ engine_named word.now }
    {
        if word == Engine::Recursive.word() {
            Some(Engine::Recursive)
        } else if word == Engine::Measures.word() {
            Some(Engine::Measures)
        } else if word == Engine::Tangles.word() {
            Some(Engine::Tangles)
        } else {
            None
        }
    }
}
