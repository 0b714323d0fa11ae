// A case of each call: its lists are read, it is called with outputs that hold a known byte, and its answer and what it
// leaves are held to what is recorded, to zeros or to that byte. A case of the leaf magnitude is bits, and what they
// must become. All that the file has of a case is read, whatever the port answers, so that the next case begins where
// it should. The room of a list x is of_x, an array of the largest case's length, since there is no heap.
ghost use Rattle.std.specs.Prelude.{◌≡◌, length};

use crate::file;
use crate::file::{Answers, Left, Lent};
use assembly::Entries;
use landing::{Descendant, Target};
use model::{DiagonalLists, GlobalRow, Lengths, LentBuffers, Refusal, Settings};
use outcome::Outcome;
use solve::Factor;

// Room for the lists of a case: of pivots or entries; of rows; of global rows; of the numbers of a panel or a working
// buffer.
const COLUMNS: usize = 130;

const ROWS: usize = 1026;

const GLOBAL_ROWS: usize = 1024;

const NUMBERS: usize = 30000;

// The recorded answer, with which every case begins.
fn read_answer(answers: &mut Answers) -> Outcome {
    Outcome {
        number: answers.count(),
        a: answers.count(),
        b: answers.count(),
        rounds: answers.count(),
        positive: answers.count(),
        negative: answers.count(),
        zero: answers.count(),
    }
}

// ---- factor

fn read_settings(answers: &mut Answers) -> Settings {
    let ncol = answers.count();
    let nrow = answers.count();
    let nb = answers.count();
    let limit = answers.count();
    let lift = answers.count() == 1;
    let mode = outcome::mode_of(lift, answers.number());
    Settings {
        ncol,
        nrow,
        nb,
        mode,
        limit,
    }
}

// What the outputs hold after an answer of this number.
fn outputs_after(number: usize) -> Left {
    match number {
        0 => Left::Recorded,
        7..=9 | 23..=24 => Left::Zeros,
        _ => Left::Held,
    }
}

// What the working buffer holds after it.
fn work_after(number: usize) -> Left {
    match number {
        0 => Left::Zeros,
        _ => outputs_after(number),
    }
}

fn read_lengths(answers: &mut Answers) -> Lengths {
    Lengths {
        input: answers.count(),
        panel: answers.count(),
        d: answers.count(),
        sub: answers.count(),
        blocks: answers.count(),
        lifts: answers.count(),
        amounts: answers.count(),
        tests: answers.count(),
        order: answers.count(),
        marks: answers.count(),
        work: answers.count(),
    }
}

fn factor_left(answers: &mut Answers, number: usize, lent: &LentBuffers) -> bool {
    let left = outputs_after(number);
    let mut same = file::holds(answers, left, lent.panel);
    same &= file::holds(answers, left, lent.d);
    same &= file::holds(answers, left, lent.sub);
    same &= file::holds(answers, left, lent.blocks);
    same &= file::holds(answers, left, lent.lifts);
    same &= file::holds(answers, left, lent.amounts);
    same &= file::holds(answers, left, lent.tests);
    same &= file::holds(answers, left, lent.order);
    same &= file::holds(answers, left, lent.marks);
    same & file::holds(answers, work_after(number), lent.work)
}

fn factor_same(answers: &mut Answers, recorded: Outcome, c: Settings, n: Lengths) -> bool {
    let mut of_input = [0.0; NUMBERS];
    let mut of_panel = [f64::HELD; NUMBERS];
    let mut of_d = [f64::HELD; COLUMNS];
    let mut of_sub = [f64::HELD; COLUMNS];
    let mut of_blocks = [u8::HELD; COLUMNS];
    let mut of_lifts = [u8::HELD; COLUMNS];
    let mut of_amounts = [f64::HELD; COLUMNS];
    let mut of_tests = [u8::HELD; COLUMNS];
    let mut of_order = [usize::HELD; ROWS];
    let mut of_marks = [u8::HELD; ROWS];
    let mut of_work = [f64::HELD; NUMBERS];
    let input = file::list(answers, n.input, &mut of_input, Answers::number);
    let mut lent = LentBuffers {
        panel: file::first_of(n.panel, &mut of_panel),
        d: file::first_of(n.d, &mut of_d),
        sub: file::first_of(n.sub, &mut of_sub),
        blocks: file::first_of(n.blocks, &mut of_blocks),
        lifts: file::first_of(n.lifts, &mut of_lifts),
        amounts: file::first_of(n.amounts, &mut of_amounts),
        tests: file::first_of(n.tests, &mut of_tests),
        order: file::first_of(n.order, &mut of_order),
        marks: file::first_of(n.marks, &mut of_marks),
        work: file::first_of(n.work, &mut of_work),
    };
    let answer = factor::factor(c, input, &mut lent);
    let left = factor_left(answers, recorded.number, &lent);
    (Outcome::from(answer) == recorded) & left
}

pub(crate) fn factor_case(answers: &mut Answers) -> bool {
    let recorded = read_answer(answers);
    let c = read_settings(answers);
    let n = read_lengths(answers);
    factor_same(answers, recorded, c, n)
}

// ---- inertia

pub(crate) fn inertia_case(answers: &mut Answers) -> bool {
    let recorded = read_answer(answers);
    let length_d = answers.count();
    let length_sub = answers.count();
    let length_blocks = answers.count();
    let mut of_d = [0.0; COLUMNS];
    let mut of_sub = [0.0; COLUMNS];
    let mut of_blocks = [0u8; COLUMNS];
    let d = file::list(answers, length_d, &mut of_d, Answers::number);
    let sub = file::list(answers, length_sub, &mut of_sub, Answers::number);
    let blocks = file::list(answers, length_blocks, &mut of_blocks, Answers::block_byte);
    Outcome::from(inertia::inertia(d, sub, blocks)) == recorded
}

// ---- assembly, update and solve

// Whether the call answers as recorded, and leaves the list that it writes so.
fn list_same(
    answers: &mut Answers,
    recorded: Outcome,
    answer: Result<(), Refusal>,
    list: &[f64],
) -> bool {
    let left = file::holds(answers, Left::Recorded, list);
    (Outcome::from(answer) == recorded) & left
}

// A target's shape, and the lengths of the lists of entries and of its panel.
#[derive(Clone, Copy)]
struct AssemblyCounts {
    ncol: usize,
    nrow: usize,
    rows: usize,
    columns: usize,
    numbers: usize,
    panel: usize,
}

fn read_assembly(answers: &mut Answers) -> AssemblyCounts {
    AssemblyCounts {
        ncol: answers.count(),
        nrow: answers.count(),
        rows: answers.count(),
        columns: answers.count(),
        numbers: answers.count(),
        panel: answers.count(),
    }
}

pub(crate) fn assembly_case(answers: &mut Answers) -> bool {
    let recorded = read_answer(answers);
    let n = read_assembly(answers);
    let mut of_rows = [0usize; COLUMNS];
    let mut of_columns = [0usize; COLUMNS];
    let mut of_numbers = [0.0; COLUMNS];
    let mut of_panel = [0.0; NUMBERS];
    let entries = Entries {
        rows: file::list(answers, n.rows, &mut of_rows, Answers::count),
        columns: file::list(answers, n.columns, &mut of_columns, Answers::count),
        numbers: file::list(answers, n.numbers, &mut of_numbers, Answers::number),
    };
    let panel = file::list(answers, n.panel, &mut of_panel, Answers::number);
    let answer = assembly::assemble(n.ncol, n.nrow, entries, panel);
    list_same(answers, recorded, answer, panel)
}

// The shapes of a target and a descendant, the row of the target's first column, and the lengths of their lists.
#[derive(Clone, Copy)]
struct UpdateCounts {
    ncol: usize,
    nrow: usize,
    nk: usize,
    mk: usize,
    first: GlobalRow,
    rows: usize,
    panel: usize,
    kpanel: usize,
    kd: usize,
    ksub: usize,
    kblocks: usize,
    krows: usize,
}

fn read_update(answers: &mut Answers) -> UpdateCounts {
    UpdateCounts {
        ncol: answers.count(),
        nrow: answers.count(),
        nk: answers.count(),
        mk: answers.count(),
        first: GlobalRow(answers.global_row()),
        rows: answers.count(),
        panel: answers.count(),
        kpanel: answers.count(),
        kd: answers.count(),
        ksub: answers.count(),
        kblocks: answers.count(),
        krows: answers.count(),
    }
}

pub(crate) fn update_case(answers: &mut Answers) -> bool {
    let recorded = read_answer(answers);
    let n = read_update(answers);
    let mut of_rows = [0u32; GLOBAL_ROWS];
    let mut of_panel = [0.0; NUMBERS];
    let mut of_kpanel = [0.0; NUMBERS];
    let mut of_kd = [0.0; COLUMNS];
    let mut of_ksub = [0.0; COLUMNS];
    let mut of_kblocks = [0u8; COLUMNS];
    let mut of_krows = [0u32; GLOBAL_ROWS];
    let target = Target {
        ncol: n.ncol,
        nrow: n.nrow,
        first: n.first,
        rows: file::list(answers, n.rows, &mut of_rows, Answers::global_row),
    };
    let panel = file::list(answers, n.panel, &mut of_panel, Answers::number);
    let descendant = Descendant {
        nk: n.nk,
        mk: n.mk,
        panel: file::list(answers, n.kpanel, &mut of_kpanel, Answers::number),
        d: file::list(answers, n.kd, &mut of_kd, Answers::number),
        sub: file::list(answers, n.ksub, &mut of_ksub, Answers::number),
        blocks: file::list(answers, n.kblocks, &mut of_kblocks, Answers::block_byte),
        rows: file::list(answers, n.krows, &mut of_krows, Answers::global_row),
    };
    let answer = update::update(target, panel, descendant);
    list_same(answers, recorded, answer, panel)
}

// A root node's shape, and the lengths of the lists of its factor and of the vector.
#[derive(Clone, Copy)]
struct SystemCounts {
    ncol: usize,
    nrow: usize,
    panel: usize,
    d: usize,
    sub: usize,
    blocks: usize,
    order: usize,
    vector: usize,
}

fn read_system(answers: &mut Answers) -> SystemCounts {
    SystemCounts {
        ncol: answers.count(),
        nrow: answers.count(),
        panel: answers.count(),
        d: answers.count(),
        sub: answers.count(),
        blocks: answers.count(),
        order: answers.count(),
        vector: answers.count(),
    }
}

pub(crate) fn solve_case(answers: &mut Answers) -> bool {
    let recorded = read_answer(answers);
    let n = read_system(answers);
    let mut of_panel = [0.0; NUMBERS];
    let mut of_d = [0.0; COLUMNS];
    let mut of_sub = [0.0; COLUMNS];
    let mut of_blocks = [0u8; COLUMNS];
    let mut of_order = [0usize; COLUMNS];
    let mut of_vector = [0.0; COLUMNS];
    let panel = file::list(answers, n.panel, &mut of_panel, Answers::number);
    let diagonals = DiagonalLists {
        d: file::list(answers, n.d, &mut of_d, Answers::number),
        sub: file::list(answers, n.sub, &mut of_sub, Answers::number),
        blocks: file::list(answers, n.blocks, &mut of_blocks, Answers::block_byte),
    };
    let order = file::list(answers, n.order, &mut of_order, Answers::count);
    let vector = file::list(answers, n.vector, &mut of_vector, Answers::number);
    let factor = Factor {
        panel,
        diagonals,
        order,
    };
    let answer = solve::solve(n.ncol, n.nrow, factor, vector);
    list_same(answers, recorded, answer, vector)
}

// ---- magnitude

// Of bits every bit is held to what is recorded; of the number that they stand for, any not-a-number is as good as
// another.
pub(crate) fn magnitude_case(answers: &mut Answers) -> bool {
    let bits = answers.bits();
    let recorded = answers.bits();
    let of_number = scalar::magnitude(little_endian::number_of(bits));
    let wanted = little_endian::number_of(recorded);
    (scalar::magnitude_bits(bits) == recorded) & (of_number.bits() == wanted.bits())
}

// ---- LAPACK's pivot lists

pub(crate) fn to_lapack_case(answers: &mut Answers) -> bool {
    let recorded = read_answer(answers);
    let ncol = answers.count();
    let length_order = answers.count();
    let length_blocks = answers.count();
    let length_list = answers.count();
    let mut of_order = [0usize; COLUMNS];
    let mut of_blocks = [0u8; COLUMNS];
    let mut of_list = [i32::HELD; COLUMNS];
    let order = file::list(answers, length_order, &mut of_order, Answers::count);
    let blocks = file::list(answers, length_blocks, &mut of_blocks, Answers::block_byte);
    let list = file::first_of(length_list, &mut of_list);
    let answer = lapack::to_lapack(ncol, order, blocks, list);
    let left = file::holds(answers, outputs_after(recorded.number), list);
    (Outcome::from(answer) == recorded) & left
}

pub(crate) fn from_lapack_case(answers: &mut Answers) -> bool {
    let recorded = read_answer(answers);
    let ncol = answers.count();
    let length_list = answers.count();
    let length_order = answers.count();
    let length_blocks = answers.count();
    let mut of_list = [0i32; COLUMNS];
    let mut of_order = [usize::HELD; COLUMNS];
    let mut of_blocks = [u8::HELD; COLUMNS];
    let list = file::list(answers, length_list, &mut of_list, Answers::list_number);
    let order = file::first_of(length_order, &mut of_order);
    let blocks = file::first_of(length_blocks, &mut of_blocks);
    let answer = lapack::from_lapack(ncol, list, order, blocks);
    let left = outputs_after(recorded.number);
    let mut same = file::holds(answers, left, order);
    same &= file::holds(answers, left, blocks);
    (Outcome::from(answer) == recorded) & same
}
