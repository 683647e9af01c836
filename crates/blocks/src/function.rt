// A function record that passes refusals 2 and 4, over types that pass.
ghost use Rattle.blocks.specs.Accepted.{Accepted};

use mir::function::Record;
use type_record::types::Types;

#[derive(Clone, Copy)]
pub struct Function<'a> {
    pub types: Types<'a>,
    pub record: Record<'a>,
    pub ghost accepted: { Accepted types.words.now types.offs.now record.words.now },
}
