// The program: both records from standard input as decimal words, the statements to standard output.
#![tactic(auto)]

ghost use Rattle.std.specs.Prelude.{◌≡◌, length};
ghost use Rattle.ghosts.specs.Heard.{Brings, Takes, HeardAll, ReadsWhole};

use answer::{respond, room};
use std::alloc::{AllocError, Global};
use std::io;
use std::io::Read;
use std::process::ExitCode;
use text::scan::{Scan, close, fresh, scan_piece};

// Room for what is printed: 14 bytes at the most for each of 1,024 entries.
fn page() -> [u8; 14336]
    ensures { length result ≡ 14336 }
{
    [0; 14336]
}

// Where reading has come to: more may come, or the input has ended.
#[derive(Clone, Copy)]
enum Input {
    More(Option<Scan>),
    End(Option<Scan>),
}

// So many bytes of buf, which a read brought, are scanned; none is the end of the input.
fn hear(s: Option<Scan>, n: usize, buf: &[u8], words: &mut [u32]) -> Input
    requires { length words.old ≡ 4096 }
    ensures { Brings n buf.now s words.old result words.new }
{
    let s = scan_piece(s, &buf[..n.min(buf.len())], words);
    if n == 0 {
        Input::End(s)
    } else {
        Input::More(s)
    }
}

// One read, whatever it brings.
fn read_some<R: Read>(input: &mut R, s: Option<Scan>, words: &mut [u32]) -> io::Result<Input>
    requires { length words.old ≡ 4096 }
    ensures { Takes (R.remaining input.old) (R.remaining input.new) s words.old result words.new }
{
    let mut buf = [0u8; 4096];
    let n = input.read(&mut buf)?;
    Ok(hear(s, n, &buf, words))
}

// The words of the whole input, if it is read to its end. More may still come only after more reads than any run makes, since nothing says
// that an input ends.
fn read_all<R: Read>(input: &mut R, words: &mut [u32]) -> io::Result<Input>
    requires { length words.old ≡ 4096 }
    ensures heard { HeardAll result words.new }
    ensures whole { ReadsWhole (R.remaining input.old) result words.new }
{
    let mut s = fresh();
    for _ in 0..u64::MAX {
        match read_some(input, s, words)? {
            Input::More(t) => s = t,
            Input::End(t) => return Ok(Input::End(close(t, words))),
        }
    }
    Ok(Input::More(s))
}

// The system's text of an error, without its number.
fn reason(alloc: Global, error: io::Error) -> Result<String, AllocError> {
    let text = error.to_string(alloc)?;
    match text.as_str().split_once(" (os error ") {
        Some((front, _)) => String::from_str(alloc, front),
        None => Ok(text),
    }
}

// A line on standard error: what failed, and why.
fn fail(rt: &(impl Eprint + AllocGlobal), what: &str, error: io::Error) {
    let _ = match reason(rt.alloc(), error) {
        Ok(why) => eprintln!(rt; "{what}: {why}"),
        Err(_) => eprintln!(rt; "{what}: {error}"),
    };
}

// Status 1 where standard input cannot be read to its end, or standard output cannot be written.
fn main(rt: HostRuntime) -> ExitCode {
    let mut words = room();
    let mut text = page();
    let s = match read_all(&mut rt.stdin(), &mut words) {
        Ok(Input::End(s)) => s,
        Ok(Input::More(_)) => return ExitCode::FAILURE,
        Err(e) => {
            fail(&rt, "ghosts: cannot read standard input", e);
            return ExitCode::FAILURE;
        }
    };
    let n = respond(s, &words, &mut text);
    if let Err(e) = rt.write_all(&text[..n]) {
        fail(&rt, "ghosts: cannot write standard output", e);
        return ExitCode::FAILURE;
    }
    ExitCode::SUCCESS
}
