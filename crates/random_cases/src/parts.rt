// What a random case holds.
use crate::random::Source;

// The rows from first to last have these marks, the others none.
#[derive(Clone, Copy)]
pub(crate) struct Rows {
    pub(crate) first: usize,
    pub(crate) last: usize,
    pub(crate) marks: u64,
}

// A count that is put in at a place of the map.
#[derive(Clone, Copy)]
pub(crate) struct SingleCount {
    pub(crate) place: usize,
    pub(crate) count: u64,
}

// A byte that is put in at a place of the text.
#[derive(Clone, Copy)]
pub(crate) struct Damage {
    pub(crate) place: usize,
    pub(crate) byte: u8,
}

#[derive(Clone, Copy)]
pub(crate) struct RandomCase {
    // the source after the draws that made the rest
    pub(crate) source: Source,
    // line 1 of the case text
    pub(crate) dimension: u64,
    pub(crate) mass: u64,
    pub(crate) speed: u64,
    pub(crate) cell_area: u64,
    pub(crate) mark: u64,
    pub(crate) word: u64,
    // the footprint; where there are none, all 64 rows are drawn
    pub(crate) rows: Option<Rows>,
    // each count is base and a draw below spread; then single counts are put in
    pub(crate) base: u32,
    pub(crate) spread: u64,
    pub(crate) count_1: Option<SingleCount>,
    pub(crate) count_2: Option<SingleCount>,
    pub(crate) damage: Option<Damage>,
    // how much of the text is given, and how much of each buffer is lent
    pub(crate) text_length: usize,
    pub(crate) counts_length: usize,
    pub(crate) footprint_length: usize,
    pub(crate) frame_length: usize,
}
