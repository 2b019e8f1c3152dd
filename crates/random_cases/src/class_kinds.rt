// Kinds 9 to 13: the mark, the word and the class table.
use crate::parts::RandomCase;
use crate::steps::offered_word;

const MARKS: [u64; 8] = [0, 1, 2, 255, 3, 16, 128, 254];

// A count in each row of the class table from row 2 on, at 1 square kilometre.
const ROW_COUNTS: [u64; 6] = [4, 49, 499, 4999, 49999, 1000000];

pub(crate) fn controlled_marks(plain: RandomCase, i: u64) -> RandomCase {
    let mut case = plain.with_column((i % 5) as usize);
    case.mark = MARKS[(i % 8) as usize];
    case
}

// Each digit by itself, for i below 64.
fn single_digit(i: u64) -> u64 {
    let digit = i % 16;
    match i / 16 {
        0 => digit * 4096,
        1 => digit * 256,
        2 => digit * 16,
        _ => digit,
    }
}

pub(crate) fn word_digits(plain: RandomCase, i: u64) -> RandomCase {
    let mut case = plain.calm().with_column((i % 5) as usize);
    case.word = if i < 64 {
        single_digit(i)
    } else {
        case.source.below(65536)
    };
    case
}

pub(crate) fn offered_words(plain: RandomCase, i: u64) -> RandomCase {
    let mut case = plain.calm().with_column((i % 5) as usize);
    case.mark = i / 5 % 2;
    let j = i % 54;
    case.word = offered_word(j % 3, j / 3 % 3, j / 9 % 2, j / 18);
    case
}

pub(crate) fn class_entries(plain: RandomCase, i: u64) -> RandomCase {
    let mut case = plain.with_column((i % 5) as usize);
    let place = case.draw_place();
    case.cell_area = 1_000_000;
    case.mark = i / 30 % 2;
    case.with_count_marked(place, ROW_COUNTS[(i / 5 % 6) as usize])
}

pub(crate) fn class_entries_without_credits(plain: RandomCase, i: u64) -> RandomCase {
    let mut case = class_entries(plain, i);
    case.word = 0;
    case
}
