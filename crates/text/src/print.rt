// A statement record as text, one line per statement; or `refused` and the number.
ghost use Rattle.std.specs.Prelude.{◌≡◌, [], ◌∷◌, ◌++◌, ◌+◌, ◌*◌, ◌<◌, ◌≤◌, length, drop};
ghost use Rattle.model.specs.Words.{word};
ghost use Rattle.model.specs.Ghosts.{number};
ghost use Rattle.records.specs.Entries.{Whole, entries_of};
ghost use Rattle.text.specs.Printing.{Writes, entry_text, point, ends, verb_now, told_bytes, FewDigits, Moves, kept_for, Prints, Refuses};

use mir::items::{DEREF, DOWNCAST, FIELD, INDEX, ROOT};
use statements::numbers::DASH;
use statements::{BEFORE, ENTRY, FOLD};

const NEWLINE: u8 = 10;

fn put(text: &mut [u8], at: usize, c: u8) -> usize
    requires { at + 1 ≤ length text.old }
    ensures { Writes text.old text.new at result (c ∷ []) }
{
    text[at] = c;
    at + 1
}

fn put_all(text: &mut [u8], at: usize, s: &[u8]) -> usize
    requires { at + length s.now ≤ length text.old }
    ensures { Writes text.old text.new at result s.now }
{
    let end = at + s.len();
    text[at..end].copy_from_slice(s);
    end
}

// A decimal number.
fn put_number(text: &mut [u8], at: usize, n: u32) -> usize
    requires { at + length (number n) ≤ length text.old }
    ensures { Writes text.old text.new at result (number n) }
{
    if n < 10 {
        return put(text, at, b'0' + n as u8);
    }
    let a = put_number(text, at, n / 10);
    put(text, a, b'0' + (n % 10) as u8)
}

// Bytes, and a number behind them.
fn put_numbered(text: &mut [u8], at: usize, s: &[u8], n: u32) -> usize
    requires { at + (length s.now + length (number n)) ≤ length text.old }
    ensures { Writes text.old text.new at result (s.now ++ number n) }
{
    let a = put_all(text, at, s);
    put_number(text, a, n)
}

// What one entry adds to a line: a local, an element, a point or a verb, which ends in the `_` of the local behind it.
fn put_entry(text: &mut [u8], at: usize, op: u32, arg: u32) -> usize
    requires { at + 13 ≤ length text.old }
    ensures { Writes text.old text.new at result (entry_text (op, arg)) }
{
    match op {
        ROOT => put_number(text, at, arg),
        DEREF => put_all(text, at, b".*"),
        FIELD => put_numbered(text, at, b".", arg),
        DOWNCAST => put_numbered(text, at, b".as", arg),
        INDEX => put_all(text, at, b".[]"),
        BEFORE => put_numbered(text, at, b"at ", arg),
        ENTRY => put_all(text, at, b"entry"),
        FOLD => put_all(text, at, b" fold _"),
        _ => put_all(text, at, b" unfold _"),
    }
}

// Is this a point's op?
#[tactic(auto, unfolding(crate::specs::Printing::point))]
fn is_point(op: u32) -> bool
    ensures { result ≡ point op }
{
    matches!(op, BEFORE | ENTRY)
}

// Does a line end before entry k? A point is there, or the record's end.
fn ends(out: &[u32], k: usize) -> bool
    requires whole { Whole out.now }
    requires k_bound { k ≤ word out.now 1 }
    ensures { result ≡ ends (drop k (entries_of out.now)) }
{
    k == out[1] as usize || is_point(out[2 + k])
}

#[derive(Clone, Copy)]
pub enum Verb {
    Fold,
    Unfold,
}

// Where printing has come to: the next byte, how many lines have ended, and the line's verb, once it is printed.
#[derive(Clone, Copy)]
pub struct Pen {
    pub at: usize,
    pub line: usize,
    pub verb: Option<Verb>,
}

// The line's verb behind an entry with this op.
#[tactic(auto, unfolding(crate::specs::Printing::verb_now))]
fn verb_now(verb: Option<Verb>, op: u32) -> Option<Verb>
    ensures { result ≡ verb_now verb op }
{
    if op < FOLD {
        verb
    } else if op == FOLD {
        Some(Verb::Fold)
    } else {
        Some(Verb::Unfold)
    }
}

// The number of a line, or 0 if there is none.
fn number_of(told: &[u32], line: usize) -> u32
    ensures { result ≡ word told.now line }
{
    told.get(line).copied().unwrap_or(0)
}

// What is told at the end of a line with this verb.
fn put_told(text: &mut [u8], at: usize, verb: Option<Verb>, n: u32) -> usize
    requires verb_in_bounds { at + kept_for verb ≤ length text.old }
    requires n_bound { n < 1000 }
    ensures { Writes text.old text.new at result (told_bytes verb n) }
{
    let Some(v) = verb else {
        return at;
    };
    if n == DASH {
        return put_all(text, at, b" -");
    }
    match v {
        Verb::Fold => at,
        Verb::Unfold => put_numbered(text, at, b" ", n),
    }
}

// Entry k; if its line ends there, what is told and a newline.
fn print_entry(out: &[u32], told: &[u32], k: usize, text: &mut [u8], p: Pen) -> Pen
    requires whole { Whole out.now }
    requires k_bound { k < word out.now 1 }
    requires verb_in_bounds { p.at + kept_for p.verb + 14 ≤ length text.old }
    requires few_digits { FewDigits told.now }
    requires line_le_k { p.line ≤ k }
    ensures { Moves told.now text.old text.new p result (drop k (entries_of out.now)) }
{
    let e = out[1] as usize;
    let a = put_entry(text, p.at, out[2 + k], out[2 + e + k]);
    let v = verb_now(p.verb, out[2 + k]);
    if !ends(out, k + 1) {
        return Pen {
            at: a,
            verb: v,
            ..p
        };
    }
    let b = put_told(text, a, v, number_of(told, p.line));
    Pen {
        at: put(text, b, NEWLINE),
        line: p.line + 1,
        verb: None,
    }
}

// The lines of a statement record, each with its number.
pub fn print_record(out: &[u32], told: &[u32], text: &mut [u8]) -> usize
    requires whole { Whole out.now }
    requires out_in_bounds { 14 * word out.now 1 ≤ length text.old }
    requires few_digits { FewDigits told.now }
    ensures { Prints out.now told.now text.old text.new result }
{
    let mut p = Pen {
        at: 0,
        line: 0,
        verb: None,
    };
    for k in 0..out[1] as usize {
        p = print_entry(out, told, k, text, p);
    }
    p.at
}

// A refusal as text.
#[tactic(auto, using(records::specs::Digits::length_number))]
pub fn print_refusal(text: &mut [u8], r: u32) -> usize
    requires { 19 ≤ length text.old }
    ensures { Refuses text.old text.new result r }
{
    let a = put_numbered(text, 0, b"refused ", r);
    put(text, a, NEWLINE)
}
