// Where reading and writing stand while trees are joined.
ghost use Rattle.std.specs.Prelude.{◌≡◌, not, ◌&&◌, eqb};
ghost use Rattle.model.specs.Types.{sticky};
ghost use Rattle.type_record.specs.Kinds.{kind_code};

use type_record::kinds::Kind;

// An index into each of the two trees that are read, and one into what is written. Where one tree is read, `second` is 0.
#[derive(Clone, Copy)]
pub struct Marks {
    pub first: usize,
    pub second: usize,
    pub out: usize,
}

// Just past what was read and written; whether the first tree changed.
#[derive(Clone, Copy)]
pub struct Ends {
    pub to: Marks,
    pub changed: bool,
}

// Does a node of form f and of this kind stay open when it meets a folded one?
pub fn stays(f: u16, m: bool, kind: Kind) -> bool
    ensures { result ≡ (not (eqb f 0) && sticky m (kind_code kind)) }
{
    f != 0 && kind.sticky(m)
}
