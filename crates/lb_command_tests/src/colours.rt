//! Explanations in colour: the bytes that a terminal gets for the lines of a page.

use lb_command::Painted;
use std::alloc::{AllocError, Global};
use std::io::Write;
use std::test::Fail;

/// A page with each kind of line: a refusal, a line of the text, the marks under it, a warning,
/// a note and a help.
const PAGE: &[u8] = b"refused: E16 cell in record 3
pump.csv:4:7: error: column `open` is bool, and `TRUE` is no value of it
    4 | storm,TRUE,4
      |       ^^^^
warning: `level` is an input of the node alone
-:1:1: note: in node main, which begins here
help: write `true`, in small letters, or 1
";

/// The page in colour: the word `error:` and the marks are red, `warning:` is yellow, and `help:`
/// is cyan.
const PAINTED: &[u8] = b"refused: E16 cell in record 3
pump.csv:4:7: \x1b[1;31merror:\x1b[0m column `open` is bool, and `TRUE` is no value of it
    4 | storm,TRUE,4
      |\x1b[1;31m       ^^^^\x1b[0m
\x1b[1;33mwarning:\x1b[0m `level` is an input of the node alone
-:1:1: note: in node main, which begins here
\x1b[1;36mhelp:\x1b[0m write `true`, in small letters, or 1
";

/// Bytes that are no text, and stay as they are.
const NO_TEXT: &[u8] = b"help: \xff\n";

/// The bytes that a terminal gets for these bytes; none if writing fails.
fn painted(alloc: Global, bytes: &[u8]) -> Result<Vec<u8>, AllocError> {
    let mut terminal: Vec<u8> = Vec::new(alloc);
    let sent = Painted::new(alloc, &mut terminal).write_all(bytes);
    if sent.is_err() {
        terminal.clear();
    }
    Ok(terminal)
}

#[test]
fn coloured_page(rt: HostRuntime) -> Result<(), Fail> {
    let found = painted(rt.alloc(), PAGE)?;
    assert!(rt; found.as_slice() == PAINTED);
    Ok(())
}

#[test]
fn bytes_that_are_no_text(rt: HostRuntime) -> Result<(), Fail> {
    let found = painted(rt.alloc(), NO_TEXT)?;
    assert!(rt; found.as_slice() == NO_TEXT);
    Ok(())
}

#[test]
fn terminal_that_fails(rt: HostRuntime) -> Result<(), Fail> {
    let mut room = [0u8; 20];
    let mut terminal = Painted::new(rt.alloc(), room.as_mut_slice());
    let failed = terminal.write_all(PAGE).is_err();
    assert!(rt; failed);
    Ok(())
}
