// MIR statements as they are: a list of assignments by kind, and the items that they give.
#![tactic(auto)]

ghost use Rattle.std.specs.Prelude.{length};
ghost use Rattle.assign.specs.Answers.{Gives, Numbered};

use give::{Pen, put_all};
use known::all_known;
use list::list_ok;
use refusal::Refusal;
use statements::{small, wipe};

pub mod give;
pub mod known;
pub mod list;

// The items of a list of statements, in the buffer: count, op[], arg[], then zeros; their number. A refusal leaves zeros.
pub fn statement_items(list: &[u32], out: &mut [u32]) -> Result<usize, Refusal>
    ensures gives { Gives list.now (length out.old) out.new result }
    ensures numbered { Numbered result }
{
    wipe(out);
    if !list_ok(list) {
        return Err(Refusal::BadFunction);
    }
    if !all_known(list) {
        return Err(Refusal::UnknownStatement);
    }
    let none = Pen {
        from: 0,
        at: 0,
        total: None,
    };
    let n = put_all(out, none, list).at;
    if out.is_empty() || (out.len() - 1) / 2 < n {
        return Err(Refusal::ShortStore);
    }
    out[0] = small(n);
    let all = Pen {
        from: 0,
        at: 0,
        total: Some(n),
    };
    put_all(out, all, list);
    Ok(n)
}
