ghost use Rattle.std.specs.Prelude.{◌≡◌, ◌-◌, ◌<◌, ◌≤◌, length};
ghost use Rattle.map_grammar.specs.Grammar.{is};
ghost use Rattle.map_grammar.specs.MapText.{braces_length, declaration_length, nesting_limit, string_length, too_deep};

use crate::word::Word;
use cm_core::Place;

/// How deep braces may nest.
const NESTING_LIMIT: usize = 256;

/// The place of the first brace that is nested deeper than the limit.
#[tactic(auto, unfolding(crate::specs::MapText::too_deep))]
pub(crate) fn too_deep(words: &[Word]) -> Option<Place>
    ensures { result ≡ too_deep words.now }
{
    let mut open = 0;
    for word in words {
        if word.is("{") {
            if open == NESTING_LIMIT {
                return Some(word.place);
            }
            open += 1;
        } else if word.is("}") {
            open = less_one(open);
        }
    }
    None
}

/// How many words the first top-level declaration has: up to the `}` that closes its first `{`, or up to its
/// first string where it begins with `extern`, or all.
#[tactic(auto, unfolding(crate::specs::MapText::declaration_length))]
pub(crate) fn declaration_length(words: &[Word]) -> usize
    ensures value { result ≡ declaration_length words.now }
    ensures within { result ≤ length words.now }
    ensures some { 0 < length words.now → 0 < result }
{
    match words {
        [first, rest @ ..] if first.is("extern") => 1 + string_length(rest),
        _ => braces_length(words),
    }
}

fn string_length(words: &[Word]) -> usize
    ensures value { result ≡ string_length words.now }
    ensures within { result ≤ length words.now }
{
    for (count, word) in words.iter().enumerate() {
        if word.is_string() {
            return count + 1;
        }
    }
    words.len()
}

fn braces_length(words: &[Word]) -> usize
    ensures value { result ≡ braces_length 0 words.now }
    ensures within { result ≤ length words.now }
    ensures some { 0 < length words.now → 0 < result }
{
    let mut open = 0;
    for (count, word) in words.iter().enumerate() {
        if word.is("{") {
            open += 1;
        } else if word.is("}") {
            if open == 1 {
                return count + 1;
            }
            open = less_one(open);
        }
    }
    words.len()
}

/// One less, but not below 0.
fn less_one(n: usize) -> usize
    ensures { result ≡ n - 1 }
{
    n.saturating_sub(1)
}
