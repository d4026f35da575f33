// The map of the lent working memory, in numbers of 32 bits: how many are lent, and where each part begins.
#![tactic(auto)]

pub const WORK_NUMBERS: usize = 16384;

// A module's layer: at most 8 modes of at most 1,024 mode times.
pub const LAYER_NUMBERS: usize = 8192;

// A module's marks: a row for each of 8 modes, with 32 ticks in a number.
pub const MARK_ROW_NUMBERS: usize = 63;

pub const MARK_ROW_TICKS: usize = 32 * MARK_ROW_NUMBERS;

pub const MARK_NUMBERS: usize = 8 * MARK_ROW_NUMBERS;

// The tests: at L the sum, or the bound, of the length L, up to 2,000; behind these the layer of one module, its marks, and the cells.
pub const LAYER_FROM: usize = 2001;

pub const MARKS_FROM: usize = LAYER_FROM + LAYER_NUMBERS;

pub const CELLS_FROM: usize = MARKS_FROM + MARK_NUMBERS;

pub const CELL_NUMBERS: usize = WORK_NUMBERS - CELLS_FROM;

// The writer of a tape: the layer of one module, and behind it the heads of its modes at each tick.
pub const HEADS_FROM: usize = LAYER_NUMBERS;
