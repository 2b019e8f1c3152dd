// Kinds 20 and 22: several things wrong, and any numbers.
ghost use Rattle.std.specs.Prelude.{◌<◌};

use crate::parts::{RandomCase, SingleCount};
use crate::random::Source;

// The new value where z has the bit, else the old one.
fn where_set(z: u64, bit: u64, new: u64, old: u64) -> u64 {
    if z & bit == 0 { old } else { new }
}

pub(crate) fn several_wrong(plain: RandomCase, _i: u64) -> RandomCase {
    let mut case = plain.calm().with_column(4);
    let z = case.source.below(256) & case.source.below(256);
    let place = case.draw_place();
    case.dimension = where_set(z, 1, 49, case.dimension);
    case.mass = where_set(z, 2, 25_000_001, case.mass);
    case.speed = where_set(z, 4, 40_001, case.speed);
    case.cell_area = where_set(z, 8, 99, case.cell_area);
    if z & 16 != 0 {
        let count = 1_000_001;
        case.count_1 = Some(SingleCount { place, count });
    }
    if let Some(rows) = &mut case.rows {
        rows.marks = where_set(z, 32, 0, rows.marks);
    }
    case.mark = where_set(z, 64, 2, case.mark);
    case.word = where_set(z, 128, 65_535, case.word);
    case
}

// Once in four times a number of the draw, else the old one.
fn sometimes<F: Fn(&mut Source) -> u64>(source: &mut Source, old: u64, draw: F) -> u64
    requires { F.IsAlwaysCallable draw }
{
    if source.below(4) == 0 {
        draw(source)
    } else {
        old
    }
}

pub(crate) fn any_numbers(plain: RandomCase, _i: u64) -> RandomCase {
    let mut case = plain;
    let source = &mut case.source;
    case.dimension = sometimes(source, case.dimension, |s| s.bits_32());
    case.mass = sometimes(source, case.mass, |s| s.bits_32());
    case.speed = sometimes(source, case.speed, |s| s.bits_32());
    case.cell_area = sometimes(source, case.cell_area, |s| s.bits_32());
    case.mark = sometimes(source, case.mark, |s| s.below(256));
    case.word = sometimes(source, case.word, |s| s.below(65536));
    case
}
