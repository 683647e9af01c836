// A state in a share of the store: load and save.
ghost use Rattle.std.specs.Prelude.{◌≡◌};
ghost use Rattle.state.specs.Spliced.{fronted};
ghost use Rattle.state.specs.Share.{Share, Has, HoldsNodes, Loads, Saves};

use crate::nodes::State;

pub fn load(share: &[u16], n: usize) -> [u16; 512]
    requires { Has n share.now }
    ensures { result ≡ fronted share.now n }
{
    let mut a = [0; 512];
    a[..n].copy_from_slice(&share[..n]);
    a
}

// The state of n nodes that a share holds.
pub fn load_state<'a>(forms: &'a [u16], whats: &'a [u16], n: usize) -> State
    requires { HoldsNodes n forms.now whats.now }
    ensures { Loads forms.now whats.now n result }
{
    State {
        forms: load(forms, n),
        whats: load(whats, n),
        nodes: n,
    }
}

pub fn save_state(s: State, forms: &mut [u16], whats: &mut [u16])
    requires { Share forms.old whats.old }
    ensures { Saves s forms.new whats.new }
{
    forms.copy_from_slice(&s.forms);
    whats.copy_from_slice(&s.whats);
}
