// The waiting blocks (`WorkQueue`) as bits, one for each rank: bit r % 64 of word r / 64. Lowest rank first; an insert of a block that
// waits changes nothing.
#![tactic(auto)]

ghost use Rattle.std.specs.Prelude.{◌≡◌, ◌%◌, ◌^◌, ◌<◌, ◌≤◌, length};
ghost use Rattle.std.specs.Int.Count.{count_trailing_zeros};
ghost use Rattle.queue.specs.Bits.{Four, put_in, first_rank};
ghost use Rattle.refusal.specs.Refusal.{found};
ghost use Rattle.queue.specs.Popped.{Inserts, Popping};
ghost use Rattle.queue.specs.Sequences.{bit_popped, bit_rest};

// The bit of rank r in its word.
fn mask(r: usize) -> u64
    ensures { result ≡ 2 ^ (r % 64) }
{
    1u64 << (r % 64)
}

// The block of rank r waits.
pub fn insert(waits: &mut [u64], r: usize)
    requires four { Four waits.old }
    requires r_bound { r < 256 }
    ensures inserts { Inserts waits.old r waits.new }
    ensures words { waits.new ≡ put_in waits.old r }
{
    waits[r / 64] |= mask(r);
}

// The trailing zeros of a word: below 64 if it isn't 0.
fn zeros(w: u64) -> usize
    ensures value { result ≡ count_trailing_zeros 64 w }
    ensures below { (w ≡ 0 → ⊥) → result < 64 }
{
    w.trailing_zeros() as usize
}

// The lowest rank whose bit is set, or 256.
fn first_rank(waits: &[u64]) -> usize
    requires { Four waits.now }
    ensures { result ≡ first_rank waits.now }
{
    for (k, w) in waits.iter().enumerate() {
        if *w != 0 {
            return 64 * k + zeros(*w);
        }
    }
    256
}

// The waiting block of lowest rank among n, which waits no more. The block of each rank is lent.
pub fn pop(waits: &mut [u64], blocks: &[u32], n: usize) -> Option<usize>
    requires four { Four waits.old }
    requires n_bound { n ≤ 256 }
    requires n_in_bounds { n ≤ length blocks.now }
    ensures popping { Popping blocks.now n waits.old waits.new result }
    ensures words { waits.new ≡ bit_rest n waits.old }
    ensures block { found result ≡ bit_popped blocks.now n waits.old }
{
    let r = first_rank(waits);
    if n <= r {
        return None;
    }
    waits[r / 64] ^= mask(r);
    Some(blocks[r] as usize)
}
