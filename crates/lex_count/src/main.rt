//! Counts the preprocessing tokens of standard input. `bench/lex` measures the lexer by it.
#![tactic(auto)]

use c_lex::{LexFault, Lexer};
use cm_core::{FileNo, Names};
use cm_source::{Text, TextFault};
use std::alloc::Global;
use std::io::{self, Read, Write};
use std::process::ExitCode;

/// The number that places have as their file.
const FILE: FileNo = FileNo { index: 0 };

/// Why there is no count.
enum Fault {
    Text(TextFault),
    Token(LexFault),
}

impl From<TextFault> for Fault {
    fn from(fault: TextFault) -> Fault {
        Fault::Text(fault)
    }
}

impl From<LexFault> for Fault {
    fn from(fault: LexFault) -> Fault {
        Fault::Token(fault)
    }
}

/// How many tokens the bytes have as a file, line ends among them.
fn count(alloc: Global, bytes: &[u8]) -> Result<usize, Fault> {
    let text = Text::read(alloc, bytes)?;
    let mut names = Names::new(alloc);
    let mut lexer = Lexer::new(&text, FILE);
    // A bound for the proof: the lexer ends where the text does.
    for tokens in 0..usize::MAX {
        if lexer.next(&mut names)?.is_none() {
            return Ok(tokens);
        }
    }
    Ok(usize::MAX)
}

/// Writes the count of the tokens of standard input, or why there is none.
fn write_count(rt: &HostRuntime) -> io::Result<()> {
    let mut bytes = Vec::new(rt.alloc());
    rt.stdin().read_to_end(&mut bytes)?;
    let mut out = rt.stdout();
    match count(rt.alloc(), bytes.as_slice()) {
        Ok(tokens) => writeln!(out, "{tokens} tokens"),
        Err(Fault::Text(fault)) => writeln!(out, "no text: {fault:?}"),
        Err(Fault::Token(fault)) => writeln!(out, "no token: {fault:?}"),
    }
}

fn main(rt: HostRuntime) -> ExitCode {
    match write_count(&rt) {
        Ok(()) => ExitCode::from(0),
        Err(_) => ExitCode::from(1),
    }
}
