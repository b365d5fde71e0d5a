// Which words of 32 bits are within their columns, and which are a situation: `layout::WORDS` of them, all within.
#![tactic(auto)]

pub mod layout;

ghost use Rattle.std.specs.Prelude.{◌≡◌, ◌≤◌, length};
ghost use Rattle.lists.specs.Every.{every_to};
ghost use Rattle.columns.specs.Columns as Spec;

// Whether the first n words are within, all of them looked at: several at a time, which a search for the first that is not could not do.
fn all_within(words: &[u32], greatest: &[u32], n: usize) -> bool
    requires { (n ≤ length words.now) × (n ≤ length greatest.now) }
    ensures { result ≡ every_to n (Spec.in_column greatest.now words.now) }
{
    let mut ok = true;
    for i in 0..n {
        ok = ok & (words[i] <= greatest[i]);
    }
    ok
}

// How many of the first n words come before the first that is not within.
fn front_to(words: &[u32], greatest: &[u32], n: usize) -> usize
    requires { (n ≤ length words.now) × (n ≤ length greatest.now) }
    ensures { result ≡ Spec.front_to n (Spec.in_column greatest.now words.now) }
{
    if all_within(words, greatest, n) {
        return n;
    }
    for i in 0..n {
        if words[i] > greatest[i] {
            return i;
        }
    }
    n
}

// How many words there are before the first that is missing or none of its column's values. `greatest` has the greatest value of each column.
pub fn front_within(words: &[u32], greatest: &[u32]) -> usize
    ensures { result ≡ Spec.front_within greatest.now words.now }
{
    if words.len() < greatest.len() {
        return front_to(words, greatest, words.len());
    }
    front_to(words, greatest, greatest.len())
}

// The same by the columns of a situation.
pub fn words_within(words: &[u32]) -> usize
    ensures { result ≡ Spec.words_within words.now }
{
    let greatest = layout::GREATEST;
    front_within(words, &greatest)
}

// Whether they are a situation: as many words as it has, all within.
pub fn is_situation(words: &[u32]) -> bool
    ensures { result ≡ Spec.is_situation words.now }
{
    let whole = words.len() == layout::WORDS;
    if whole {
        return words_within(words) == layout::WORDS;
    }
    false
}
