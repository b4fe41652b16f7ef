// A line of a machine or of an environment tells something, or breaks the first of its rules.
ghost use Rattle.std.specs.Prelude.{ℕ, ◌≡◌, ◌≢◌, ◌<◌, ◌≤◌, ◌^◌, ◌∷◌, ◌++◌, [], List, MatchOption, IfErr, IfOk, codes, length};
ghost use Rattle.ml_lines.specs.Lines.{Line, Word, number};
ghost use Rattle.ml_lines.specs.Reading.{words_of};
ghost use Rattle.ml_lists.specs.Documents.{IsFirstBroken};
ghost use Rattle.ml_realize_text.specs.RealizeRules.{AtPlay, AtReply, AtState, AtStates, AtStep, IsReplyLine, IsStepLine, Signals, rule_number};
ghost use Rattle.ml_realize_text.specs.RealizeText.{play_line, state_line, states_line};
ghost use Rattle.ml_realize_text.specs.private.Reads.{Breaks, IsReply, IsStep, environment_of, machine_of, numbered_rules, on_words, IsPlayed};

use crate::line_rule::LineRule;
use crate::sets::{behind_set, read_set, split_last_word};
use ml_base::Name;
use ml_lines::{are_words, one_word, read_number, text_behind, word_behind};
use ml_synthesis::MachineStep;

// the number of a line that is a fixed word and a number
fn numbered(line: &[u8], fixed: &[u8]) -> Result<u32, LineRule>
    ensures read { IfOk result (λ n. (words_of line.now ≡ fixed.now ∷ number n ∷ []) × (n < 2 ^ 32)) }
    ensures refused { IfErr result (λ rule. IsFirstBroken (numbered_rules fixed.now []) (words_of line.now) (rule_number rule)) }
{
    match word_behind(line, fixed) {
        Some(word) => match read_number(word) {
            Some(n) => Ok(n),
            None => Err(LineRule::Numbers),
        },
        None => Err(LineRule::OfKind),
    }
}

// how many states there are
pub(crate) fn states_of(line: &[u8]) -> Result<u32, LineRule>
    ensures read { IfOk result (λ n. (words_of line.now ≡ states_line n) × (0 < n) × (n < 2 ^ 32)) }
    ensures refused { IfErr result (λ rule. (g : Signals) → Breaks (AtStates g) (words_of line.now) rule) }
{
    match numbered(line, b"states") {
        Ok(states) => {
            if states > 0 {
                Ok(states)
            } else {
                Err(LineRule::HasStates)
            }
        }
        Err(rule) => Err(rule),
    }
}

// is it the line of this state?
pub(crate) fn check_state(line: &[u8], state: u32) -> Result<(), LineRule>
    ensures read { IfOk result (λ none. words_of line.now ≡ state_line state) }
    ensures refused { IfErr result (λ rule. (g : Signals) (n : ℕ) → Breaks (AtState g n state) (words_of line.now) rule) }
{
    match numbered(line, b"state") {
        Ok(told) => {
            if told == state {
                Ok(())
            } else {
                Err(LineRule::NextState)
            }
        }
        Err(rule) => Err(rule),
    }
}

// the words that are given and the word of the next state, in a text `ws goto w`
fn split_goto(text: &[u8]) -> Option<(&[u8], &[u8])>
    ensures { MatchOption result ((given : List Word) (w : Word) → 0 < length given → words_of text.now ≢ given ++ (codes "goto" ∷ w ∷ []))
        (λ p. words_of text.now ≡ words_of p.0.now ++ (codes "goto" ∷ p.1.now ∷ [])) }
{
    let (front, last) = split_last_word(text)?;
    let (given, goto) = split_last_word(front)?;
    if goto == b"goto".as_slice() {
        Some((given, last))
    } else {
        None
    }
}

// what stands behind `on`, the words of a set, and a further word
fn behind_on<'a>(line: &'a [u8], names: &[Name], set: u32, fixed: &[u8]) -> Option<&'a [u8]>
    requires { set < 2 ^ length names.now }
    ensures { MatchOption result ((w : Word) (ws : Line) → words_of line.now ≢ on_words names.now set fixed.now (w ∷ ws))
        (λ rest. words_of line.now ≡ on_words names.now set fixed.now (words_of rest.now)) }
{
    let behind = text_behind(line, b"on")?;
    let behind = behind_set(behind, names, set)?;
    text_behind(behind, fixed)
}

// the words that are given and the word of the next state, where the line is that of a step on the set
fn step_words<'a>(line: &'a [u8], inputs: &[Name], set: u32) -> Option<(&'a [u8], &'a [u8])>
    requires { set < 2 ^ length inputs.now }
    ensures { MatchOption result ((given : List Word) (w : Word) → ¬ (IsStepLine inputs.now set (words_of line.now) given w))
        (λ p. IsStepLine inputs.now set (words_of line.now) (words_of p.0.now) p.1.now) }
{
    if are_words(line) {
        match behind_on(line, inputs, set, b"give") {
            Some(tail) => split_goto(tail),
            None => None,
        }
    } else {
        None
    }
}

// what a machine does on a set of inputs
pub(crate) fn step_of(
    line: &[u8],
    inputs: &[Name],
    outputs: &[Name],
    states: u32,
    set: u32,
) -> Result<MachineStep, LineRule>
    requires is_set { set < 2 ^ length inputs.now }
    requires few { length outputs.now ≤ 8 }
    ensures read { IfOk result (IsStep inputs.now outputs.now states set (words_of line.now)) }
    ensures refused { IfErr result (λ rule. (i : ℕ) → Breaks (AtStep (machine_of inputs.now outputs.now) states i set) (words_of line.now) rule) }
{
    let Some((given, word)) = step_words(line, inputs, set) else {
        return Err(LineRule::OfKind);
    };
    let Some(next) = read_number(word) else {
        return Err(LineRule::Numbers);
    };
    let Some(give) = read_set(given, outputs) else {
        return Err(LineRule::Sets);
    };
    if next < states {
        Ok(MachineStep { give, next })
    } else {
        Err(LineRule::InRange)
    }
}

// the words behind `play`
fn play_words(line: &[u8]) -> Option<&[u8]>
    ensures { MatchOption result (¬ (IsPlayed (words_of line.now)))
        (λ rest. IsPlayed (words_of line.now) × (words_of line.now ≡ codes "play" ∷ words_of rest.now)) }
{
    if are_words(line) {
        text_behind(line, b"play")
    } else {
        None
    }
}

// the set of inputs that an environment plays
pub(crate) fn play_of(line: &[u8], inputs: &[Name]) -> Result<u32, LineRule>
    requires { length inputs.now ≤ 8 }
    ensures read { IfOk result (λ set. (words_of line.now ≡ play_line inputs.now set) × (set < 2 ^ length inputs.now)) }
    ensures refused { IfErr result (λ rule. (outs : List Word) (n i : ℕ) → Breaks (AtPlay (environment_of inputs.now outs) n i) (words_of line.now) rule) }
{
    let Some(words) = play_words(line) else {
        return Err(LineRule::OfKind);
    };
    match read_set(words, inputs) {
        Some(set) => Ok(set),
        None => Err(LineRule::Sets),
    }
}

// the word of the next state, where the line is that of a set that comes back
fn reply_word<'a>(line: &'a [u8], outputs: &[Name], set: u32) -> Option<&'a [u8]>
    requires { set < 2 ^ length outputs.now }
    ensures { MatchOption result ((w : Word) → ¬ (IsReplyLine outputs.now set (words_of line.now) w))
        (λ w. IsReplyLine outputs.now set (words_of line.now) w.now) }
{
    if are_words(line) {
        one_word(behind_on(line, outputs, set, b"goto")?)
    } else {
        None
    }
}

// where an environment goes on a set of outputs
pub(crate) fn reply_of(
    line: &[u8],
    outputs: &[Name],
    states: u32,
    set: u32,
) -> Result<u32, LineRule>
    requires { set < 2 ^ length outputs.now }
    ensures read { IfOk result (IsReply outputs.now states set (words_of line.now)) }
    ensures refused { IfErr result (λ rule. (ins : List Word) (i : ℕ) → Breaks (AtReply (environment_of ins outputs.now) states i set) (words_of line.now) rule) }
{
    let Some(word) = reply_word(line, outputs, set) else {
        return Err(LineRule::OfKind);
    };
    let Some(next) = read_number(word) else {
        return Err(LineRule::Numbers);
    };
    if next < states {
        Ok(next)
    } else {
        Err(LineRule::InRange)
    }
}
