// Reading a function record: L, A, B, I; local types[L]; start[B], rank[B]; op[I], arg[I].
ghost use Rattle.std.specs.Prelude.{◌≡◌, ◌+◌, ◌<◌};
ghost use Rattle.model.specs.Function.{nlocals, nargs, nblocks, nitems, local_types, start, rank, op, arg, stop};
ghost use Rattle.base.specs.Ranges.{Range};
ghost use Rattle.mir.specs.Sizes.{Laid};
ghost use Rattle.mir.specs.Parts.{ops_start, ops_part, args_part};

// A function record that is as long as its sizes say.
#[derive(Clone, Copy)]
pub struct Record<'a> {
    pub words: &'a [u32],
    pub ghost laid: { Laid words.now },
}

impl<'a> Record<'a> {
    pub fn nlocals(&self) -> usize
        ensures { result ≡ nlocals self.now.words.now }
    {
        self.words[0] as usize
    }

    pub fn nargs(&self) -> usize
        ensures { result ≡ nargs self.now.words.now }
    {
        self.words[1] as usize
    }

    pub fn nblocks(&self) -> usize
        ensures { result ≡ nblocks self.now.words.now }
    {
        self.words[2] as usize
    }

    pub fn nitems(&self) -> usize
        ensures { result ≡ nitems self.now.words.now }
    {
        self.words[3] as usize
    }

    #[tactic(auto, unfolding(model::specs::Function::start))]
    pub fn start_of(&self, b: usize) -> usize
        requires b_bound { b < nblocks self.now.words.now }
        ensures { result ≡ start self.now.words.now b }
    {
        self.words[4 + self.nlocals() + b] as usize
    }

    #[tactic(auto, unfolding(model::specs::Function::rank))]
    pub fn rank_of(&self, b: usize) -> usize
        requires b_bound { b < nblocks self.now.words.now }
        ensures { result ≡ rank self.now.words.now b }
    {
        self.words[4 + self.nlocals() + self.nblocks() + b] as usize
    }

    // Where op[I] stands.
    pub fn ops_at(&self) -> usize
        ensures { result ≡ ops_start self.now.words.now }
    {
        let n = self.nblocks();
        4 + self.nlocals() + n + n
    }

    #[tactic(auto, unfolding(model::specs::Function::op))]
    pub fn op_of(&self, i: usize) -> u32
        requires i_bound { i < nitems self.now.words.now }
        ensures { result ≡ op self.now.words.now i }
    {
        self.words[self.ops_at() + i]
    }

    #[tactic(auto, unfolding(model::specs::Function::arg))]
    pub fn arg_of(&self, i: usize) -> u32
        requires i_bound { i < nitems self.now.words.now }
        ensures { result ≡ arg self.now.words.now i }
    {
        self.words[self.ops_at() + self.nitems() + i]
    }

    // Where the items of the block b end.
    #[tactic(auto, unfolding(model::specs::Function::stop))]
    pub fn stop_of(&self, b: usize) -> usize
        requires b_bound { b < nblocks self.now.words.now }
        ensures { result ≡ stop self.now.words.now b }
    {
        if b + 1 < self.nblocks() {
            self.start_of(b + 1)
        } else {
            self.nitems()
        }
    }

    // The local types.
    #[tactic(auto, unfolding(model::specs::Function::local_types))]
    pub fn local_types(&self) -> &'a [u32]
        ensures { result.now ≡ local_types self.now.words.now }
    {
        &self.words[4..4 + self.nlocals()]
    }

    // The items from i up to j: their codes, and their args.
    #[tactic(auto, unfolding(crate::specs::Parts::ops_part))]
    pub fn ops_from(&self, i: usize, j: usize) -> &'a [u32]
        requires range { Range i j (nitems self.now.words.now) }
        ensures { result.now ≡ ops_part self.now.words.now i j }
    {
        let o = self.ops_at();
        &self.words[o + i..o + j]
    }

    #[tactic(auto, unfolding(crate::specs::Parts::args_part))]
    pub fn args_from(&self, i: usize, j: usize) -> &'a [u32]
        requires range { Range i j (nitems self.now.words.now) }
        ensures { result.now ≡ args_part self.now.words.now i j }
    {
        let o = self.ops_at() + self.nitems();
        &self.words[o + i..o + j]
    }
}
