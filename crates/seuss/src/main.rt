//! The program: the real files and streams, and the arguments that it was called with, for
//! the top call. What the refusals' lines don't say to a person is written behind them.
#![tactic(auto)]

ghost use Rattle.std.specs.Prelude.{◌≡◌, drop};

mod hints;
mod kept;
mod version;

use crate::hints::{Refused, explain};
use crate::kept::{HEAD_BYTES, KeptHead, KeptLine};
use edge_files::StdFiles;
use edge_streams::{StdSink, StdSource};
use seuss_top::{NoForm, Plain, Refusal, finish, run_plain};
use std::alloc::Global;
use std::env::Env;
use std::io::{Error, Read};
use std::process::ExitCode;
use std::{env, fs, io, rt};

/// The arguments without the first, which is the program's name.
fn after_name(all: &[String]) -> &[String]
    ensures { result.now ≡ drop 1 all.now }
{
    match all {
        [_name, arguments @ ..] => arguments,
        [] => &[],
    }
}

/// What the program was called with, its name first. Where an argument isn't UTF-8 they are in
/// no form.
fn arguments(rt: &(impl Env + Alloc<A = Global>)) -> Result<Vec<String>, Refusal<NoForm>> {
    match env::args(rt) {
        Ok(all) => all.collect(rt.alloc()).map_err(|_| Refusal::Memory),
        Err(error) if error.kind() == io::ErrorKind::OutOfMemory => Err(Refusal::Memory),
        Err(_) => Err(Refusal::Own(NoForm)),
    }
}

/// The bytes that an ELF file begins with.
const ELF_HEAD: &[u8; HEAD_BYTES] = b"\x7fELF";

/// Whether the file of this name is an ordinary one, with other first bytes than an ELF file's.
/// No other is opened, since it could wait for bytes.
fn is_no_elf<R: rt::Files>(rt: &R, name: &str) -> bool {
    let mut head = [0; HEAD_BYTES];
    match fs::metadata(rt, name) {
        Ok(metadata) if metadata.is_file() => {}
        _ => return false,
    }
    match fs::open(rt, name).and_then(|mut file| file.read(&mut head)) {
        Ok(HEAD_BYTES) => head != *ELF_HEAD,
        Ok(_) => true,
        Err(_) => false,
    }
}

/// The word at this place, or nothing.
fn word(arguments: &[String], at: usize) -> &str {
    match arguments.get(at) {
        Some(word) => word.as_str(),
        None => "",
    }
}

/// Runs the command that the program was called with, and ends with its status.
fn main(rt: HostRuntime) -> ExitCode {
    let mut errs = KeptLine::new(StdSink::new(rt.stderr()));
    let status = match arguments(&rt) {
        Ok(all) => {
            let words = after_name(&all);
            let mut files = StdFiles::new(&rt);
            let mut source = KeptHead::new(StdSource::new(rt.reader()));
            let mut sink = StdSink::new(io::writer(&rt));
            let Plain::Done(status) = run_plain(
                rt.alloc(),
                words,
                &mut files,
                &mut source,
                &mut sink,
                &mut errs,
            );
            let refused = Refused {
                status,
                line: errs.line(),
                command: word(words, 0),
                file: word(words, 1),
                error: match status {
                    4 => source.below().last_error(),
                    5 => sink.last_error(),
                    6 => files.last_error(),
                    _ => None,
                },
                is_no_elf: match words.len() {
                    1 => source.head() != ELF_HEAD.as_slice(),
                    _ => status == 2 && is_no_elf(&rt, word(words, 1)),
                },
            };
            let _ = explain(&mut rt.stderr(), &refused);
            status
        }
        Err(refusal) => {
            let status = finish(&mut errs, Err(refusal));
            let _ = explain(&mut rt.stderr(), &Refused::without_words(status));
            status
        }
    };
    ExitCode::from(status)
}
