// What crosses to C and Rust as words: an answer as six, why a run or a recovery stopped, a flag, a gauge's light, what an inspector keeps.
// These are functions, and no `From`: neither the types nor the arrays are of this crate.
#![tactic(auto)]

ghost use Rattle.std.specs.Prelude.{◌≡◌};
ghost use Rattle.words.specs.Words.{why_word, WrittenAs, ending_words, flag_word};
ghost use Rattle.words.specs.Words.{NoteClaim, light_words, light_value, state_of, state_words};

use entries::Ending;
use gauge::{Gauge, Light};
use inspector::State;
use queue::Answer;
use run::Why;

// An answer as six words: its number, and its numbers in the papers' order, with 0 behind them.
pub use run::words_of;

// Why a run stopped, as a number.
pub fn why_of(why: Why) -> u64
    ensures { result ≡ why_word why }
{
    // C's numbers, which tools/header reads from these arms and from those of `ending_of` and `light_of`
    match why {
        Why::NoWords => 0,
        Why::NoCommand => 1,
        Why::NoRoom => 2,
    }
}

// ---- the journal

// What of an answer decides whether its call is written, from its words: the number of a refusal.
pub fn refusal_in(words: &[u64; 6]) -> Answer
    ensures { WrittenAs words.now result }
{
    // the kinds are C's numbers, and any word may come
    match words {
        [9, number, ..] => Answer::No(*number),
        _ => Answer::Done,
    }
}

// Why reading stopped, as two words: 0 a cut, 1 a bad kind, 2 a 1 where zero is due, 3 a broken pair, or 4 and the number that a step gets.
pub fn ending_of(ending: Ending) -> [u64; 2]
    ensures { result ≡ ending_words ending }
{
    match ending {
        Ending::Cut => [0, 0],
        Ending::Kind => [1, 0],
        Ending::Zero => [2, 0],
        Ending::Pair => [3, 0],
        Ending::Gets(number) => [4, number],
    }
}

// ---- the gauge

// The word of a flag that is to say `so`: the word that it has, if that says so already, else 1 or 0. So a flag that stays keeps its word.
#[tactic(auto, unfolding(crate::specs::Words::flag_word))]
pub fn flag_word(word: u64, so: bool) -> u64
    ensures { result ≡ flag_word word so }
{
    match (so, word) {
        (false, _) => 0,
        (true, 0) => 1,
        (true, kept) => kept,
    }
}

// The gauge after what a poll at `time` answered, in words: the kinds 3 and 4 hand out a timer, whose deadline is the fourth word.
pub fn note_words(g: Gauge, time: u64, words: [u64; 6]) -> Gauge
    ensures { NoteClaim g time words result }
{
    // the kinds are C's numbers, and any word may come
    match words {
        [3 | 4, _, _, deadline, ..] => gauge::note(g, gauge::lateness_of(time, deadline)),
        _ => g,
    }
}

// A reading as two words: 0 calm, 1 slow, 2 late, or 3 and the number of the refusal.
pub fn light_of(reading: Result<Light, u64>) -> [u64; 2]
    ensures { result ≡ light_words reading }
{
    match reading {
        Ok(Light::Calm) => [0, 0],
        Ok(Light::Slow(_)) => [1, 0],
        Ok(Light::Late(_)) => [2, 0],
        Err(number) => [3, number],
    }
}

// What the light carries: the smoothed lateness where it is slow, the worst where it is late, else 0.
pub fn value_of(reading: Result<Light, u64>) -> f64
    ensures { result ≡ light_value reading }
{
    match reading {
        Ok(Light::Slow(x) | Light::Late(x)) => x,
        Ok(Light::Calm) | Err(_) => 0.0,
    }
}

// ---- the inspector

// What the lines so far have come to, as words: 0, how many are pending, the clock and the number of lines; or another number, and the number of
// the first line that was bad.
#[tactic(auto, unfolding(crate::specs::Words::state_of))]
pub fn state_of(words: &[u64; 4]) -> State
    ensures { result ≡ state_of words.now }
{
    match *words {
        [0, count, clock, lines] => State::Good(count as usize, clock, lines),
        [_, line, ..] => State::Bad(line),
    }
}

// The same in words.
pub fn state_words(state: State) -> [u64; 4]
    ensures { result ≡ state_words state }
{
    match state {
        State::Good(count, clock, lines) => [0, count as u64, clock, lines],
        State::Bad(line) => [1, line, 0, 0],
    }
}
