//! The program: the process's own words and standard streams, handed to the top call.
#![tactic(auto)]

ghost use Rattle.std.specs.Prelude.{◌≡◌, drop, IfOk};
ghost use Rattle.std.specs.Process.{exit_status};
ghost use Rattle.std.specs.Vec.Iter.{into_iter_items};

use byte_io::standard::{StdSink, StdSource};
use byte_io::traits::OpenGate;
use std::alloc::{AllocError, Global};
use std::env::Args;
use std::io::ErrorKind;
use std::process::ExitCode;
use std::rt::Env;
use std::{env, io};
use tracesmb_top::{say_out_of_memory, trace_top};

/// The words behind the program's name, all of them in their order.
fn words_behind_name(alloc: Global, args: Args) -> Result<Vec<String>, AllocError>
    ensures { IfOk result (λ words. words.items ≡ drop 1 (into_iter_items args)) }
{
    let mut rest = args;
    let _name = rest.next();
    let mut words = Vec::new(alloc);
    'words: while let Some(word) = rest.next() {
        words.push(word)?;
    }
    Ok(words)
}

/// The words behind the program's name.
fn command_words(rt: &(impl Env + AllocGlobal)) -> io::Result<Vec<String>> {
    Ok(words_behind_name(rt.alloc(), env::args(rt)?)?)
}

/// The process ends with this status.
fn exit_code(status: u8) -> ExitCode
    ensures { exit_status result ≡ status }
{
    ExitCode::from(status)
}

fn main(rt: HostRuntime) -> ExitCode {
    let alloc: Global = rt.alloc();
    let mut input = StdSource::new(rt.stdin());
    let mut trace = StdSink::new(rt.stdout());
    let mut text = StdSink::new(rt.stderr());
    let words = match command_words(&rt) {
        Ok(words) => words,
        Err(fault) if fault.kind() == ErrorKind::OutOfMemory => {
            return exit_code(say_out_of_memory(&mut text));
        }
        // Words that can't be read, as one that isn't UTF-8, have no written form either.
        Err(_) => Vec::new(alloc),
    };
    exit_code(trace_top(
        &rt, alloc, &words, &mut input, &mut trace, &mut text, &OpenGate,
    ))
}
