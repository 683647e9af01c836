// Kinds of types, and what can be done with a place of each. A type record names a kind by a number: 0 opaque, 1 plain pointer,
// 2 mutable reference, 3 box, 4 array or slice, 5 tuple, 6 struct, 7 enum, 8 variant, 9 closure, 10 coroutine.
ghost use Rattle.std.specs.Prelude.{◌≡◌};
ghost use Rattle.model.specs.Types.{pointer, fielded, shut, sticky, below, form};
ghost use Rattle.type_record.specs.Kinds.{kind_code, kind_named};

// Other: a number above 10, which names none.
#[derive(Clone, Copy, Debug, PartialEq, Eq)]
pub enum Kind {
    Opaque,
    Pointer,
    Reference,
    Box,
    Array,
    Tuple,
    Struct,
    Enum,
    Variant,
    Closure,
    Coroutine,
    Other,
}

impl From<u32> for Kind {
    ghost from_gives = { λ n k. k ≡ kind_named n };

    #[tactic(auto, unfolding(crate::specs::Kinds::kind_named))]
    fn from(n: u32) -> Kind {
        match n {
            0 => Kind::Opaque,
            1 => Kind::Pointer,
            2 => Kind::Reference,
            3 => Kind::Box,
            4 => Kind::Array,
            5 => Kind::Tuple,
            6 => Kind::Struct,
            7 => Kind::Enum,
            8 => Kind::Variant,
            9 => Kind::Closure,
            10 => Kind::Coroutine,
            _ => Kind::Other,
        }
    }
}

impl Kind {
    // Kinds with a pointee.
    #[tactic(auto, unfolding(model::specs::Types::pointer))]
    pub fn pointer(self) -> bool
        ensures { result ≡ pointer (kind_code self) }
    {
        matches!(self, Kind::Pointer | Kind::Reference | Kind::Box)
    }

    // Kinds that a field opens.
    #[tactic(auto, unfolding(model::specs::Types::fielded))]
    pub fn fielded(self) -> bool
        ensures { result ≡ fielded (kind_code self) }
    {
        matches!(
            self,
            Kind::Tuple | Kind::Struct | Kind::Closure | Kind::Coroutine
        )
    }

    // Kinds that cannot be opened.
    #[tactic(auto, unfolding(model::specs::Types::shut))]
    pub fn shut(self) -> bool
        ensures { result ≡ shut (kind_code self) }
    {
        matches!(self, Kind::Opaque | Kind::Array | Kind::Variant)
    }

    // Does a node of this kind stay open when it meets a folded one? m: some step above was behind a mutable reference.
    #[tactic(auto, unfolding(model::specs::Types::sticky))]
    pub fn sticky(self, m: bool) -> bool
        ensures { result ≡ sticky m (kind_code self) }
    {
        match self {
            Kind::Tuple | Kind::Closure | Kind::Coroutine => true,
            Kind::Struct => !m,
            _ => false,
        }
    }

    // m for what lies below a node of this kind.
    #[tactic(auto, unfolding(model::specs::Types::below))]
    pub fn below(self, m: bool) -> bool
        ensures { result ≡ below m (kind_code self) }
    {
        m || self == Kind::Reference
    }

    // The form of an open node in a state.
    #[tactic(auto, unfolding(model::specs::Types::form))]
    pub fn form(self) -> u16
        ensures { result ≡ form (kind_code self) }
    {
        match self {
            Kind::Pointer | Kind::Reference | Kind::Box => 1,
            Kind::Struct | Kind::Enum => 2,
            Kind::Closure => 3,
            Kind::Coroutine => 4,
            Kind::Tuple => 5,
            _ => 0,
        }
    }
}
