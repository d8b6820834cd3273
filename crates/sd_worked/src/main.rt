// Plays worked cases of the program's words, and of what they read: standard input has many, standard output gets what each writes
// and its status.
//
// A line `== NAME` begins a case, whose text is all lines up to the next such line. What is written stands between the name
// and a line `= STATUS`. Lines that begin with `% ` may stand in front of the text:
//
// - `% idmap`, `% netgroup`, `% sudo`: which tool is run, where it is not `scenario`. The words of the last two are the name.
// - `% words WORDS`: other words.
// - `% read N`, `% write N`: this call of the source that is read first, or of the sink, fails.
// - `% fill N`: so many bytes `#` stand in front of the text. `% many N`: so many lines `domain ..` stand there, and of what
//   is written only the end is printed.
// - `% lines`: the text's lines are read one by one as names, configurations, entries and what these are (lines.rt), and what
//   they say is printed without a status.
// - `% sid`: the text's first line is read as a SID. `% murmur SEED`: it is hashed.
//
// `scenario` and `idmap` read the text. The others read a configuration and entries: the lines in front of a line `--`, and
// those behind it, or all lines where there is none. Where a text has none of the one or the other, those before stay.
#![tactic(auto)]

mod cases;
mod configs;
mod entries;
mod files;
mod lines;
mod names;
mod nets;
mod numbers;
mod output;
mod records;
mod tools;

use cases::Case;
use files::Files;
use sd_base::{Memory, ReaderSource, WriterSink};
use sd_plays::{Failure, cut_line, cut_text, print, read};
use std::alloc::Global;
use std::process::ExitCode;

/// What all cases of a text write.
fn play_all(alloc: Global, text: &[u8]) -> Result<Vec<u8>, Memory> {
    let mut out = Vec::new(alloc);
    let mut files = Files::new();
    let mut left = text;
    for _ in 0..text.len() {
        if left.is_empty() {
            break;
        }
        let (name, rest) = cut_line(left);
        let (text, rest) = cut_text(rest);
        let case = Case::of(name, text);
        files = case.files(files);
        out.extend_from_slice(name)?;
        out.push(b'\n')?;
        case.print(alloc, files, &mut out)?;
        left = rest;
    }
    Ok(out)
}

fn made(rt: &HostRuntime) -> Result<Vec<u8>, Failure> {
    let text = read(rt.alloc(), &mut ReaderSource::new(rt.stdin()))?;
    Ok(play_all(rt.alloc(), text.as_slice())?)
}

fn main(rt: HostRuntime) -> ExitCode {
    print(&mut WriterSink::new(rt.stdout()), made(&rt))
}
