// A function record among other words, by its sizes as written.
ghost use Rattle.std.specs.Prelude.{◌≡◌, ◌≤◌, length};
ghost use Rattle.model.specs.Function.{function_length};
ghost use Rattle.mir.specs.Framed.{WordAt, Framed};

// Word i, or 0 past the end.
pub fn word(words: &[u32], i: usize) -> usize
    ensures { WordAt words.now i result }
{
    words.get(i).copied().unwrap_or(0) as usize
}

// How long the record that begins these words is.
#[tactic(auto, unfolding(model::specs::Function::function_length))]
pub fn function_length(words: &[u32]) -> usize
    ensures { result ≡ function_length words.now }
{
    4 + word(words, 0) + 2 * word(words, 2) + 2 * word(words, 3)
}

// The end of the record that begins at word `at`, or of the words where it is cut off.
pub fn record_end(words: &[u32], at: usize) -> usize
    requires { at ≤ length words.now }
    ensures { Framed words.now at result }
{
    let rest = &words[at..];
    at + function_length(rest).min(rest.len())
}
