//! The second program: real files and streams under its top call.
#![tactic(auto)]

ghost use Rattle.std.specs.Prelude.{◌≡◌, ◌<◌};

use marple_base::{FileInputs, StdSink, Steps};
use std::alloc::{AllocError, Global};
use std::env;
use std::io::ErrorKind;
use std::marker::Brand;
use std::process::ExitCode;
use std::sync::ledger::{Blank, Ledger};
use tools_cli::{
    FileParts, ToolStatus, folder_word, marple_tools, operands_of, trace_files, trace_words,
};

/// The words after the program's name. Where they aren't text there are none, which is no command.
fn words_of(rt: &HostRuntime) -> Result<Vec<String>, AllocError> {
    let alloc = rt.alloc();
    let mut words = Vec::new(alloc);
    match env::args(rt) {
        Ok(all) => {
            for word in all.skip(1) {
                words.push(word)?;
            }
            Ok(words)
        }
        Err(error) if error.kind() == ErrorKind::OutOfMemory => Err(AllocError),
        Err(_) => Ok(words),
    }
}

/// Runs the command under the one counter of this ledger.
fn run<L: Ledger>(rt: HostRuntime, alloc: Global, words: &[String], blank: Blank) -> u8
    requires name { blank.name ≡ L.name }
    requires parts { blank.parts ≡ L.parts }
    requires whole { 0 < blank.parts }
{
    let mut steps = Steps::<L>::new(blank);
    let operands = match operands_of(alloc, words) {
        Ok(operands) => operands,
        Err(AllocError) => return ToolStatus::Memory.number(),
    };
    let mut inputs = FileInputs::new(rt, operands.as_slice());
    let mut traces = match trace_files(rt, trace_words(operands.as_slice())) {
        Ok(traces) => traces,
        Err(AllocError) => return ToolStatus::Memory.number(),
    };
    let mut parts = FileParts::new(rt, folder_word(words));
    let mut out = StdSink::output(rt);
    let mut err = StdSink::error(rt);
    let status = marple_tools(
        alloc,
        words,
        &mut inputs,
        traces.as_mut_slice(),
        &mut parts,
        &mut out,
        &mut err,
        &mut steps,
    );
    drop(parts);
    drop(traces);
    status.number()
}

fn main(rt: HostRuntime) -> ExitCode {
    let status = match words_of(&rt) {
        Ok(words) => run::<Brand>(rt, rt.alloc(), words.as_slice(), Blank::new(1)),
        Err(AllocError) => ToolStatus::Memory.number(),
    };
    ExitCode::from(status)
}
