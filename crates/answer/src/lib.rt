// What `ghosts` answers to a text: words read from it, the call, and its answer as text.
#![tactic(auto)]

ghost use Rattle.std.specs.Prelude.{◌≡◌, ◌≤◌, length, take};
ghost use Rattle.model.specs.Answer.{done};
ghost use Rattle.model.specs.Ghosts.{fresh, close, printed, ghosts};
ghost use Rattle.model.specs.Promised.{Answered};
ghost use Rattle.answer.specs.Said.{Ended, Says, Printed, Responds, answer_of};

use fold_unfold::ghost_statements;
use mir::split::function_length;
use refusal::Refusal;
use text::print::{print_record, print_refusal};
use text::scan::{Scan, close, fresh, scan_piece};
use text::split::function_start;

// Room for the words of a text.
pub fn room() -> [u32; 4096]
    ensures { length result ≡ 4096 }
{
    [0; 4096]
}

// The statements of a function, or the refusal.
fn answer_records(types: &[u32], fun: &[u32], text: &mut [u8]) -> usize
    requires { length text.old ≡ 14336 }
    ensures { Says text.old text.new result (answer_of types.now fun.now) }
{
    // A store for 16 join points, a buffer for 1,024 entries, which are of 341 statements at the most.
    let mut forms = [0u16; 8192];
    let mut whats = [0u16; 8192];
    let mut out = [0u32; 2050];
    let mut told = [0u32; 341];
    match ghost_statements(types, fun, &mut forms, &mut whats, &mut out, &mut told) {
        Ok(_) => print_record(&out, &told, text),
        Err(e) => print_refusal(text, u32::from(e)),
    }
}

// Both records in these words; spare words are refused.
fn answer_words(words: &[u32], text: &mut [u8]) -> usize
    requires { length text.old ≡ 14336 }
    ensures { Says text.old text.new result (printed (done words.now)) }
{
    let (types, fun) = words.split_at(function_start(words));
    if function_length(fun) < fun.len() {
        return print_refusal(text, u32::from(Refusal::BadFunction));
    }
    answer_records(types, fun, text)
}

// The answer to a text that has been read to its end, in whatever pieces.
pub fn respond(s: Option<Scan>, words: &[u32], text: &mut [u8]) -> usize
    requires ended { Ended s words.now }
    requires text_len { length text.old ≡ 14336 }
    ensures responds { Responds s words.now text.old text.new result }
    ensures within { result ≤ length text.old }
    ensures answered { Answered (take result text.new) }
{
    match s {
        Some(s) => answer_words(&words[..s.total], text),
        None => print_refusal(text, u32::from(Refusal::BadFunction)),
    }
}

// The answer to a whole text. text has room for 14 bytes for each of 1,024 entries; zeros stand behind what is printed.
pub fn ghosts(bytes: &[u8], text: &mut [u8]) -> usize
    requires { length text.old ≡ 14336 }
    ensures printed { Printed (length text.old) (ghosts bytes.now) result text.new }
    ensures answered { Answered (take result text.new) }
{
    let mut words = room();
    let s = scan_piece(fresh(), bytes, &mut words);
    let s = close(s, &mut words);
    let n = respond(s, &words, text);
    text[n..].fill(0);
    n
}
