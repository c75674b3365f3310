//! Runs of command lines on inputs, and the comparison of what is printed with what is wanted.

use lb_command::command;
use lb_test_support::texts::is_same;
use std::alloc::{AllocError, Global};
use std::fs::Files;
use std::os::unix::fs::FileExt;
use std::sync::Wait;
use std::test::Fail;
use std::thread::Threads;
use std::time::Clock;

/// The words of a command line, as the program gets them.
pub fn words_of(alloc: Global, line: &str) -> Result<Vec<String>, AllocError> {
    let mut words = Vec::new(alloc);
    for word in line.split(' ') {
        words.push(String::from_str(alloc, word)?)?;
    }
    Ok(words)
}

/// A run of the program: what it printed, and its status.
#[derive(Drop)]
pub struct Run {
    pub output: Vec<u8>,
    pub errors: Vec<u8>,
    pub status: u8,
}

/// The text of bytes that were printed.
fn text(bytes: &[u8]) -> &str {
    std::str::from_utf8(bytes).unwrap_or("no text")
}

impl Run {
    /// A run of a command line on an input.
    pub fn on<R: Files + AllocGlobal + Threads + Wait + Clock + Sync>(
        rt: &R,
        line: &str,
        input: &str,
    ) -> Result<Self, AllocError>
    where
        R::File: FileExt + Sync + Send,
    {
        let words = words_of(rt.alloc(), line)?;
        let mut output: Vec<u8> = Vec::new(rt.alloc());
        let mut errors: Vec<u8> = Vec::new(rt.alloc());
        let status = command(
            rt,
            words.as_slice(),
            &mut input.as_bytes(),
            &mut output,
            &mut errors,
        );
        Ok(Run {
            output,
            errors,
            status,
        })
    }

    /// The errors that are printed, and the status.
    pub fn push_errors(&self, said: &mut String) -> Result<(), AllocError> {
        let errors = text(self.errors.as_slice());
        write!(said, "{errors}status {}", self.status)
    }

    /// The errors that are printed, the status, and whether there is output.
    pub fn push_answer(&self, said: &mut String) -> Result<(), AllocError> {
        self.push_errors(said)?;
        if self.output.is_empty() {
            return Ok(());
        }
        said.push_str(" with output")
    }

    /// The output, the errors and the status, with `|` between them.
    pub fn push_apart(&self, said: &mut String) -> Result<(), AllocError> {
        let (output, errors) = (text(self.output.as_slice()), text(self.errors.as_slice()));
        write!(said, "{output}|{errors}|{}\n", self.status)
    }

    /// The output, then the errors, and the status.
    pub fn push_printed(&self, said: &mut String) -> Result<(), AllocError> {
        said.push_str(text(self.output.as_slice()))?;
        self.push_errors(said)
    }
}

/// The output, the errors and the status of a command line on an input, with `|` between them.
pub fn told<R: Files + AllocGlobal + Threads + Wait + Clock + Sync>(
    rt: &R,
    line: &str,
    input: &str,
) -> Result<String, AllocError>
where
    R::File: FileExt + Sync + Send,
{
    let mut said = String::new(rt.alloc());
    Run::on(rt, line, input)?.push_apart(&mut said)?;
    Ok(said)
}

/// Fails a test unless `said` is `wanted`. The failure shows `said`.
pub fn expect(said: &Result<String, AllocError>, wanted: &str) -> Result<(), Fail> {
    match said {
        Ok(said) if is_same(said.as_str(), wanted) => Ok(()),
        Ok(said) => Err(Fail::new(said.as_str())),
        Err(_) => Err(Fail::new("no memory")),
    }
}
