//! The program: the words after its name, standard input to standard output, and the status.
#![tactic(auto)]

ghost use Rattle.am_lab_words.specs.Ranges.{IsInRange};
ghost use Rattle.std.specs.Prelude.{IfOk};

use am_io::{StdSink, StdSource};
use am_lab::{answer, answer_no_memory};
use am_lab_words::{Asked, line_words, read_words, words_are_no_text};
use clap::Error;
use clap::error::ErrorKind;
use std::alloc::{AllocError, Global};
use std::env::Args;
use std::io::ErrorKind as IoKind;
use std::process::ExitCode;
use std::{env, io};

// The words of the command line, with the program's name: none where some argument is no text. It fails where there was no memory to
// read them.
fn words_of(alloc: Global, read: io::Result<Args>) -> Result<Option<Vec<String>>, AllocError> {
    let mut words = Vec::new(alloc);
    match read {
        Ok(args) => {
            for word in args {
                words.push(word)?;
            }
            Ok(Some(words))
        }
        Err(error) if error.kind() == IoKind::OutOfMemory => Err(AllocError),
        Err(_) => Ok(None),
    }
}

// What is asked for, and the words that a line of a report is to begin with.
#[derive(Drop)]
struct Question {
    asked: Asked,
    given: String,
}

// Of the words, which ask for this, those that a line is to begin with, with a space between them.
fn given_by(alloc: Global, asked: Asked, words: &[String]) -> Result<String, AllocError> {
    let rest = match words {
        [_, rest @ ..] => rest,
        [] => words,
    };
    line_words(asked, rest).join(alloc, " ")
}

// What the words ask for, or clap's text about them.
fn asked_by(alloc: Global, words: Option<Vec<String>>) -> Result<Question, Error>
    ensures { IfOk result (λ question. IsInRange question.asked) }
{
    match words {
        Some(words) => {
            let asked = read_words(alloc, &words)?;
            let given = given_by(alloc, asked, &words)?;
            Ok(Question { asked, given })
        }
        None => Err(words_are_no_text(alloc)),
    }
}

// Prints what clap says of the words: help and the version to standard output, and what is wrong with them to standard error.
fn tell<R: Print + Eprint>(rt: &R, told: &Error) -> u8 {
    match told.print(rt) {
        Ok(()) if told.use_stderr() => 2,
        Ok(()) => 0,
        Err(_) => 5,
    }
}

fn main(rt: HostRuntime) -> ExitCode {
    let alloc = rt.alloc();
    let mut sink = StdSink::new(rt.stdout());
    let Ok(words) = words_of(alloc, env::args(&rt)) else {
        return ExitCode::from(answer_no_memory(&mut sink));
    };
    match asked_by(alloc, words) {
        Ok(Question { asked, given }) => {
            let mut source = StdSource::new(rt.stdin());
            ExitCode::from(answer(alloc, asked, given.as_bytes(), &mut source, &mut sink))
        }
        Err(told) if told.kind() == ErrorKind::OutOfMemory => {
            ExitCode::from(answer_no_memory(&mut sink))
        }
        Err(told) => ExitCode::from(tell(&rt, &told)),
    }
}
