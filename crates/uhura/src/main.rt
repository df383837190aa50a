//! Uhura: reads a script of edits and questions, and answers line by line; or reads a document, and checks it;
//! or measures itself on a large plan.
#![tactic(auto)]

mod arguments;
mod bytes;
#[cfg(test)]
mod counts;
mod document;
mod measure;
mod outbox;
mod run;
mod script;
mod status;
mod task;
#[cfg(test)]
mod tests;
mod verdict;

use arguments::arguments;
use run::run;
use status::Status;
use std::process::ExitCode;
use uhura_io::{InputSource, OutputSink};

fn main(rt: HostRuntime) -> ExitCode {
    let status = match arguments(&rt) {
        Ok(words) => run(
            rt.alloc(),
            &words,
            &mut InputSource::new(rt.stdin()),
            &mut OutputSink::new(rt.stdout()),
        ),
        Err(status) => status,
    };
    ExitCode::from(status as u8)
}
