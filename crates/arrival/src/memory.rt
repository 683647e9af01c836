// What a run alone keeps for each block, in one lent array: the count of the state stored for it (its nodes and 1 more, or 0 for
// none), then whether it was visited. Each has 256 words, one for a block.
ghost use Rattle.std.specs.Prelude.{◌≡◌, not, ◌≤◌, eqb, length};
ghost use Rattle.model.specs.Words.{word};
ghost use Rattle.arrival.specs.Shares.{kept_in, visited_in, Stores, Visited, Unvisited, KeptFor};

// The count stored for the block b.
// Kept: 0 for none, and no Option, since it is the word that stands in the lent array.
#[tactic(auto, using(crate::proofs::Memo::kept_word))]
pub fn stored(memo: &[u32], b: usize) -> u32
    requires { KeptFor b memo.now }
    ensures { result ≡ word (kept_in memo.now) b }
{
    memo[b]
}

// A state of this count is stored for it.
pub fn set_stored(memo: &mut [u32], b: usize, k: u32)
    requires { KeptFor b memo.old }
    ensures { Stores memo.old b k memo.new }
{
    memo[b] = k;
}

// Was the block b visited in this pass?
#[tactic(auto, using(crate::proofs::Memo::visited_word))]
pub fn visited(memo: &[u32], b: usize) -> bool
    requires { KeptFor b memo.now }
    ensures { result ≡ not (eqb (word (visited_in memo.now) b) 0) }
{
    memo[256 + b] != 0
}

// It is visited.
pub fn set_visited(memo: &mut [u32], b: usize)
    requires { KeptFor b memo.old }
    ensures { Visited memo.old b memo.new }
{
    memo[256 + b] = 1;
}

// None was visited: a pass begins.
pub fn clear_visited(memo: &mut [u32])
    requires { 512 ≤ length memo.old }
    ensures { Unvisited memo.old memo.new }
{
    memo[256..].fill(0);
}
