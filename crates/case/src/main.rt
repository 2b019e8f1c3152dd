// Reads a case text from standard input and writes its frame to standard output.
#![tactic(auto)]

ghost use Rattle.std.specs.Prelude.{◌≤◌, length};

use std::io::{ErrorKind, Read};

// One byte more than a text has, so that a longer input is seen to be longer; nothing is read beyond it.
const READ_AT_MOST: usize = case_text::TEXT_LENGTH + 1;

// Fills the buffer, and says how much of it: all, or what came before the input's end. A read that fails ends the input, unless it was
// a signal that interrupted it.
fn read_full(input: &mut impl Read, into: &mut [u8]) -> usize
    ensures { result ≤ length into.new }
{
    let mut filled: usize = 0;
    for _ in 0..u64::MAX {
        if filled == into.len() {
            break;
        }
        match input.read(&mut into[filled..]) {
            Ok(0) => break,
            Ok(n) => filled += n,
            Err(error) => {
                if error.kind() != ErrorKind::Interrupted {
                    break;
                }
            }
        }
    }
    filled
}

fn main(rt: HostRuntime) {
    // no heap: a buffer for the longest text, and how much of it was read
    let mut text = [0u8; READ_AT_MOST];
    let n = read_full(&mut rt.reader(), &mut text);
    let mut counts = [0u32; case_text::COUNTS_LENGTH];
    let mut marks = [0u64; case_text::MARKS_LENGTH];
    let mut frame = [0u8; frame::FRAME_LENGTH];
    // a write that fails ends the program as one that succeeds does: there is nobody left to tell
    let _ = match ground_risk_case::print_case(&text[..n], &mut counts, &mut marks, &mut frame) {
        Ok(()) => rt.write_all(&frame),
        Err(_refusal) => rt.write_all(&frame[..frame::REFUSAL_LENGTH]),
    };
}
