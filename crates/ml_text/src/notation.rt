// What a logic tells the reader of texts.
ghost use Rattle.std.specs.Prelude.{◌≡◌, ◌<◌, ◌≤◌, ℕ, List, length, IfOk};
ghost use Rattle.std.specs.Option.{option_map};
ghost use Rattle.ml_text.specs.Items.{bytes_of};
ghost use Rattle.ml_text.specs.NotedItems.{name_bytes};
ghost use Rattle.ml_text.specs.Spelling.{Spells};
ghost use Rattle.ml_text.specs.private.Tables.{IsLike, Tables};
ghost use Rattle.ml_text.specs.private.Views.{GivesBack, mode_view, turn_view};

use crate::forms::{Mode, Role, Turn};
use crate::limits::{Bracket, MOST_OCCURRENCES};
use crate::token::{Placed, WordStart};
use ml_base::NoMemory;
use std::alloc::Global;

/// The notation of a logic whose texts are read by `read`: its signs, the forms of its operands, its operators, and how a tree
/// is made.
///
/// A value of the logic has what is to be known of the whole text before it is read, such as which parentheses are
/// marked. The ghost member `tables` says what the logic is: its grammar as tables, and what its signs count.
pub trait Notation {
    /// What a token is, without its name.
    type Kind: Copy;
    /// What is kept of the signs before.
    type Context: Copy;
    /// A sort of operands.
    type Sort: Copy;
    /// A token with its name.
    type Sign: Drop;
    /// What texts stand for.
    type Tree: Drop;
    /// A form of which a sign is to come.
    type Wait: Drop;
    /// A form of which an operand is to come.
    type Hold: Drop;

    ghost tables: { Tables Self.Kind Self.Context Self.Sort Self.Sign Self.Tree Self.Wait Self.Hold };

    /// Is the value made for this text?
    ghost IsFor: { Self → List ℕ → Type 0 };

    /// Which letters begin a word.
    fn words() -> WordStart
        ensures { result ≡ tables.signs.words };

    /// What a token of the text is, whose bytes spell it.
    fn kind_of(&self, text: &[u8], placed: Placed) -> Self::Kind
        requires made { IsFor self.now text.now }
        requires place { (placed.start ≤ placed.end) × (placed.end ≤ length text.now) }
        requires spells { Spells tables.signs.words (bytes_of text.now placed) placed.token }
        ensures sign { tables.named result (bytes_of text.now placed) ≡ tables.signs.sign_at text.now placed }
        ensures can_name { tables.CanName result (name_bytes text.now placed) };

    /// The sign of a kind, whose name, if it has one, has these bytes.
    fn sign_of(alloc: Global, kind: Self::Kind, bytes: &[u8]) -> Result<Self::Sign, NoMemory>
        requires { tables.CanName kind bytes.now }
        ensures { IfOk result (λ sign. tables.sign sign ≡ tables.named kind bytes.now) };

    /// The context of the first sign.
    fn first() -> Self::Context
        ensures { result ≡ tables.signs.first };

    /// The context behind a sign.
    fn behind(kind: Self::Kind) -> Self::Context
        ensures { (word : List ℕ) → result ≡ tables.signs.behind (tables.named kind word) };

    /// As how many occurrences a sign counts.
    fn weight(context: Self::Context, kind: Self::Kind) -> u32
        ensures weight { (word : List ℕ) → result ≡ tables.signs.weight context (tables.named kind word) }
        ensures small { result ≤ MOST_OCCURRENCES };

    /// Which parenthesis a sign is.
    fn bracket(kind: Self::Kind) -> Bracket
        ensures { (word : List ℕ) → result ≡ tables.signs.bracket (tables.named kind word) };

    /// Is the place of a sign wanted?
    fn is_noted(context: Self::Context, kind: Self::Kind) -> bool
        ensures { (word : List ℕ) → result ≡ tables.signs.is_noted context (tables.named kind word) };

    /// The sort of a text.
    fn whole() -> Self::Sort
        ensures { tables.sort result ≡ tables.grammar.whole };

    /// The forms of a sort, of which nothing is read.
    fn start(sort: Self::Sort) -> Self::Wait
        ensures { tables.wait result ≡ tables.grammar.start (tables.sort sort) };

    /// What a sign does to a form of which one is to come; `None` where no text goes on so.
    fn shift(
        alloc: Global,
        wait: Self::Wait,
        sign: Self::Sign,
    ) -> Result<Option<Turn<Self::Sign, Self::Tree, Self::Wait, Self::Hold>>, NoMemory>
        ensures turn { IfOk result (λ turn.
            option_map (turn_view tables) turn ≡ tables.grammar.shift (tables.wait wait) (tables.sign sign)) }
        ensures gives_back { IfOk result (λ turn. GivesBack tables turn (tables.sign sign)) };

    /// The sort of the operand that a form holds.
    fn sort(hold: &Self::Hold) -> Self::Sort
        ensures { tables.sort result ≡ tables.grammar.sort (tables.hold hold.now) };

    /// Its level: it goes on with the operators of this level and of tighter ones.
    fn level(hold: &Self::Hold) -> u8
        ensures { result ≡ tables.grammar.level (tables.hold hold.now) };

    /// A form behind its operand.
    fn resume(
        alloc: Global,
        hold: Self::Hold,
        tree: Self::Tree,
    ) -> Result<Mode<Self::Tree, Self::Wait>, NoMemory>
        ensures { IfOk result (λ mode.
            mode_view tables mode ≡ tables.grammar.resume (tables.hold hold) (tables.tree tree)) };

    /// What a sign is behind an operand.
    fn role(sort: Self::Sort, sign: &Self::Sign) -> Role
        ensures { result ≡ tables.grammar.role (tables.sort sort) (tables.sign sign.now) };

    /// Do the operators of this level group to the left?
    fn groups_left(sort: Self::Sort, level: u8) -> bool
        ensures { result ≡ tables.grammar.groups_left (tables.sort sort) level };

    /// Two operands with an operator between them.
    fn join(
        alloc: Global,
        operator: Self::Sign,
        left: Self::Tree,
        right: Self::Tree,
    ) -> Result<Self::Tree, NoMemory>
        ensures { IfOk result (λ tree.
            tables.tree tree ≡ tables.grammar.join (tables.sign operator) (tables.tree left) (tables.tree right)) };

    /// An operand with a sign behind it; `None` where no text goes on so.
    fn post(
        alloc: Global,
        sign: Self::Sign,
        tree: Self::Tree,
    ) -> Result<Option<Self::Tree>, NoMemory>
        ensures { IfOk result (λ whole.
            option_map tables.tree whole ≡ tables.grammar.post (tables.sign sign) (tables.tree tree)) };

    // what a sign does doesn't depend on its name
    ghost alike: { (kind : Self.Kind) (word other : List ℕ) → IsLike tables.grammar (tables.named kind word) (tables.named kind other) };
}
