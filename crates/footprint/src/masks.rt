// The masks by which the counts of cells that aren't marked are made 0.

// A mask under which a count stays as it is.
const ALL: u32 = u32::MAX;

// For each number of four bits, the masks of four cells: ALL where a cell's bit is set, else 0.
pub(crate) static MASKS: [[u32; 4]; 16] = [
    [0, 0, 0, 0],
    [0, 0, 0, ALL],
    [0, 0, ALL, 0],
    [0, 0, ALL, ALL],
    [0, ALL, 0, 0],
    [0, ALL, 0, ALL],
    [0, ALL, ALL, 0],
    [0, ALL, ALL, ALL],
    [ALL, 0, 0, 0],
    [ALL, 0, 0, ALL],
    [ALL, 0, ALL, 0],
    [ALL, 0, ALL, ALL],
    [ALL, ALL, 0, 0],
    [ALL, ALL, 0, ALL],
    [ALL, ALL, ALL, 0],
    [ALL, ALL, ALL, ALL],
];
