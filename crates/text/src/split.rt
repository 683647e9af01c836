// The two records in one list of words, by their sizes as written.
ghost use Rattle.std.specs.Prelude.{◌≡◌};
ghost use Rattle.model.specs.Types.{types_length};
ghost use Rattle.text.specs.Parted.{Parted};

use mir::split::word;

// How long a type record is by its sizes.
#[tactic(auto, unfolding(model::specs::Types::types_length))]
pub fn types_length(words: &[u32]) -> usize
    ensures { result ≡ types_length words.now }
{
    2 + 2 * word(words, 0) + word(words, 1)
}

// Where the function record begins: behind the type record, or at the end of the words.
pub fn function_start(words: &[u32]) -> usize
    ensures { Parted words.now result }
{
    types_length(words).min(words.len())
}
