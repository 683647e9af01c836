// The arrays of a state changed where they stand: room is made for nodes, or nodes give way to a folded one.
ghost use Rattle.std.specs.Prelude.{◌≡◌, ◌+◌, length};
ghost use Rattle.base.specs.Ranges.{Range};
ghost use Rattle.state.specs.Spliced.{cleared, splice, Padded, Gap, Gapped};

// The words from..end become zero.
#[tactic(auto, unfolding(crate::specs::Spliced::cleared))]
pub fn clear(a: &mut [u16], from: usize, end: usize)
    requires { Range from end (length a.old) }
    ensures { a.new ≡ cleared a.old from end }
{
    a[from..end].fill(0);
}

// Of n words with zeros behind them, the one at i gives way to `gap` zeros.
pub fn make_room(a: &mut [u16], n: usize, i: usize, gap: usize)
    requires gap { Gap n i gap }
    requires padded { Padded a.old n }
    ensures { a.new ≡ splice a.old i gap (i + 1) n }
{
    a.copy_within(i + 1..n, i + gap);
    clear(a, i, i + gap);
}

// Of n words with zeros behind them, those from i up to j give way to one zero.
pub fn close_up(a: &mut [u16], n: usize, i: usize, j: usize)
    requires gapped { Gapped n i j }
    requires padded { Padded a.old n }
    ensures { a.new ≡ splice a.old i 1 j n }
{
    a.copy_within(j..n, i + 1);
    clear(a, i + 1 + (n - j), n);
    a[i] = 0;
}
