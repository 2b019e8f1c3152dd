// Makes the random cases of docs/RANDOM_CASES.md and writes what the proved code prints for each, a line a case.
#![tactic(auto)]

mod aircraft_kinds;
mod class_kinds;
mod layout;
mod map_kinds;
mod mixed_kinds;
mod parts;
mod plain;
mod random;
mod steps;
mod tables;
mod text;
mod text_kinds;

use crate::aircraft_kinds::{
    area_limits, drawn_footprint, flagged_calm, flagged_plain, range_edges,
};
use crate::class_kinds::{
    class_entries, class_entries_without_credits, controlled_marks, offered_words, word_digits,
};
use crate::map_kinds::{count_edges, count_ties, footprint_shapes, many_people, row_boundaries};
use crate::mixed_kinds::{any_numbers, several_wrong};
use crate::parts::RandomCase;
use crate::plain::plain_case;
use crate::random::Source;
use crate::text::write_text;
use crate::text_kinds::{
    LONGER_FRAMES, any_byte, buffer_lengths, frame_lengths, text_lengths, wrong_digit,
    wrong_line_end,
};
use case_text::{COUNTS_LENGTH, MARKS_LENGTH, TEXT_LENGTH};
use frame::{FRAME_LENGTH, REFUSAL_LENGTH};
use ground_risk_case::print_case;
use refusal::Refusal;
use std::io;

const CASES_OF_A_KIND: u32 = 100;

// The longest buffers that are lent.
const TEXT_ROOM: usize = TEXT_LENGTH + 1;

const COUNTS_ROOM: usize = COUNTS_LENGTH + 1;

const MARKS_ROOM: usize = MARKS_LENGTH + 1;

const FRAME_ROOM: usize = FRAME_LENGTH + LONGER_FRAMES - 1;

#[derive(Drop)]
struct Buffers {
    text: [u8; TEXT_ROOM],
    counts: [u32; COUNTS_ROOM],
    marks: [u64; MARKS_ROOM],
    frame: [u8; FRAME_ROOM],
}

// The line that is printed for refusal 15, which leaves the frame buffer alone.
const BUFFER_TOO_SHORT_LINE: [u8; REFUSAL_LENGTH] = *b"0f\n";

fn write_line(
    rt: &impl Print,
    answer: Result<(), Refusal>,
    frame: &[u8; FRAME_ROOM],
) -> io::Result<()> {
    match answer {
        Ok(()) => rt.write_all(&frame[..FRAME_LENGTH]),
        Err(Refusal::FrameLength) => rt.write_all(&BUFFER_TOO_SHORT_LINE),
        Err(_) => rt.write_all(&frame[..REFUSAL_LENGTH]),
    }
}

// Writes the line of a case. What the buffers hold before makes no difference.
fn print_random_case(rt: &impl Print, buffers: &mut Buffers, case: RandomCase) -> io::Result<()> {
    write_text(&mut buffers.text, case);
    let t = case.text_length.min(TEXT_ROOM);
    let c = case.counts_length.min(COUNTS_ROOM);
    let m = case.footprint_length.min(MARKS_ROOM);
    let f = case.frame_length.min(FRAME_ROOM);
    let counts = &mut buffers.counts[..];
    let marks = &mut buffers.marks[..];
    let frame = &mut buffers.frame[..];
    let answer = print_case(
        &buffers.text[..t],
        &mut counts[..c],
        &mut marks[..m],
        &mut frame[..f],
    );
    write_line(rt, answer, &buffers.frame)
}

// Writes the lines of a kind, by what it makes of a plain case and of the case's number in the kind. The kind has a number since the
// numbers of its cases are made of it.
fn print_kind<F: Fn(RandomCase, u64) -> RandomCase>(
    rt: &impl Print,
    buffers: &mut Buffers,
    kind: u8,
    of_kind: F,
) -> io::Result<()>
    requires { F.IsAlwaysCallable of_kind }
{
    for i in 0..CASES_OF_A_KIND {
        let plain = plain_case(Source::of_case(u32::from(kind) * CASES_OF_A_KIND + i));
        print_random_case(rt, buffers, of_kind(plain, i.into()))?;
    }
    Ok(())
}

// A write that fails ends the program with its error.
fn main(rt: HostRuntime) -> io::Result<()> {
    let mut buffers = Buffers {
        text: [0; TEXT_ROOM],
        counts: [0; COUNTS_ROOM],
        marks: [0; MARKS_ROOM],
        frame: [0; FRAME_ROOM],
    };
    let b = &mut buffers;
    print_kind(&rt, b, 0, |plain, _| plain)?;
    print_kind(&rt, b, 1, drawn_footprint)?;
    print_kind(&rt, b, 2, range_edges)?;
    print_kind(&rt, b, 3, flagged_calm)?;
    print_kind(&rt, b, 4, flagged_plain)?;
    print_kind(&rt, b, 5, area_limits)?;
    print_kind(&rt, b, 6, row_boundaries)?;
    print_kind(&rt, b, 7, count_ties)?;
    print_kind(&rt, b, 8, count_edges)?;
    print_kind(&rt, b, 9, controlled_marks)?;
    print_kind(&rt, b, 10, word_digits)?;
    print_kind(&rt, b, 11, offered_words)?;
    print_kind(&rt, b, 12, class_entries_without_credits)?;
    print_kind(&rt, b, 13, class_entries)?;
    print_kind(&rt, b, 14, wrong_digit)?;
    print_kind(&rt, b, 15, wrong_line_end)?;
    print_kind(&rt, b, 16, text_lengths)?;
    print_kind(&rt, b, 17, buffer_lengths)?;
    print_kind(&rt, b, 18, frame_lengths)?;
    print_kind(&rt, b, 19, footprint_shapes)?;
    print_kind(&rt, b, 20, several_wrong)?;
    print_kind(&rt, b, 21, any_byte)?;
    print_kind(&rt, b, 22, any_numbers)?;
    print_kind(&rt, b, 23, many_people)
}
