//! What the contract of `parse` doesn't say: that it answers, the texts of help and refusals, and
//! that the definitions mean what the reference says.

mod dialogue;
mod lines;
mod texts;

use htl_command::{ParseFault, parse, parse_question};
use std::alloc::Global;
use std::process::Abort;

/// The words of a line, which `|` divides.
fn words(rt: &impl Abort, alloc: Global, line: &str) -> Vec<String> {
    let mut words = Vec::new(alloc);
    for word in line.split('|') {
        let word = owned(rt, alloc, word);
        words.push(word).expect(rt, "the memory");
    }
    words
}

fn owned(rt: &impl Abort, alloc: Global, word: &str) -> String {
    String::from_str(alloc, word).expect(rt, "the memory")
}

/// Why a line is refused, or the help that it asks for.
fn fault_of(rt: &impl Abort, alloc: Global, line: &str) -> ParseFault {
    parse(alloc, words(rt, alloc, line)).expect_err(rt, "no job")
}

/// Why a line of a dialogue is refused, or the help that it asks for.
fn fault_of_question(rt: &impl Abort, alloc: Global, line: &str) -> ParseFault {
    parse_question(alloc, &words(rt, alloc, line)).expect_err(rt, "no question")
}

fn text_of(rt: &impl Abort, alloc: Global, fault: &ParseFault) -> String {
    fault.to_string(alloc).expect(rt, "the memory")
}
