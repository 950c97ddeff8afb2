//! The program: the studio over the files of the system, standard output and standard error.
#![tactic(auto)]

use help_pages::page::{page_of, put_page};
use mill_io::file_shelf::FileShelf;
use mill_io::gate::OpenGate;
use mill_io::output_sink::OutputSink;
use mill_io::program::program_of;
use report_text::cause::Cause;
use report_text::fault_line::fault_line;
use std::alloc::Global;
use std::io::ErrorKind;
use std::process::ExitCode;
use std::rt::Env;
use std::{env, io};
use studio_run::answer::studio;

fn main(rt: HostRuntime) -> ExitCode {
    let alloc = rt.alloc();
    let mut out = OutputSink::output(rt);
    let mut err = OutputSink::errors(rt);
    let words = match words(&rt) {
        Ok(words) => words,
        Err(error) if error.kind() == ErrorKind::OutOfMemory => {
            fault_line(&Cause::OutOfMemory, &mut err);
            return ExitCode::from(Cause::OutOfMemory.status());
        }
        Err(_) => Vec::new(alloc),
    };
    // All other programs but the pages are the studio's, which knows no such words.
    if let Some(page) = page_of(program_of(&words), &words) {
        return ExitCode::from(put_page(page, &mut out, &mut err).status());
    }
    let mut shelf = FileShelf::new(&rt);
    let answer = studio(
        &rt, alloc, &words, &mut shelf, &mut out, &mut err, &OpenGate,
    );
    ExitCode::from(answer.status)
}

// The arguments without the program's name. Arguments that cannot be had whole, as one that is no text, are an unknown command.
fn words<R: Env + Alloc<A = Global>>(rt: &R) -> io::Result<Vec<String>> {
    let mut words = Vec::new(rt.alloc());
    for word in env::args(rt)?.skip(1) {
        words.push(word)?;
    }
    Ok(words)
}
