// The declared types that the definitions in specs/ speak of, and that every crate above passes on.
// Nothing here computes: a reader may rely on the names and on the comments alone.
#![tactic(auto)]

// The most columns, rows, columns of a panel, and rounds of a block's lift that a call may ask for: most_columns,
// most_rows, widest_panel and most_rounds of specs/Sizes.antt.
pub const COLUMNS_MAX: usize = 128;

pub const ROWS_MAX: usize = 1024;

pub const WIDTH_MAX: usize = 64;

pub const LIMIT_MAX: usize = 64;

// A row of a node's panel, counted from 0: the source's li.
#[derive(Clone, Copy)]
pub struct LocalRow(pub usize);

// A row of the whole system: the source's g.
#[derive(Clone, Copy)]
pub struct GlobalRow(pub u32);

// A column of a node by its position in the elimination: the source's e, less the node's own offset.
#[derive(Clone, Copy)]
pub struct Elim(pub usize);

// What a pivot that is too small meets: refusal 7, 23 or 24, or a lift to the floor that Lift carries. An enum and no
// Option: the two are modes of equal standing, with names that docs/SCOPE.md asks for.
#[derive(Clone, Copy)]
pub enum Mode {
    Fail,
    Lift(f64),
}

// The settings of a factor call: columns, rows, panel width, mode, rounds that a block's lift may take.
#[derive(Clone, Copy)]
pub struct Settings {
    pub ncol: usize,
    pub nrow: usize,
    pub nb: usize,
    pub mode: Mode,
    pub limit: usize,
}

// The settings that steer the pivots, beside the node's columns and the panel width: what a pivot that is too small
// meets, and the rounds that a block's lift may take.
#[derive(Clone, Copy)]
pub struct Pivoting {
    pub mode: Mode,
    pub limit: usize,
}

// The lengths of a factor call's input and of the ten buffers that it writes.
#[derive(Clone, Copy)]
pub struct Lengths {
    pub input: usize,
    pub panel: usize,
    pub d: usize,
    pub sub: usize,
    pub blocks: usize,
    pub lifts: usize,
    pub amounts: usize,
    pub tests: usize,
    pub order: usize,
    pub marks: usize,
    pub work: usize,
}

// The panel at work: the node's rows and columns, the width by which its multipliers are laid out, and the panel's own
// columns, kb up to ke.
#[derive(Clone, Copy)]
pub struct Frame {
    pub nrow: usize,
    pub ncol: usize,
    pub nb: usize,
    pub kb: usize,
    pub ke: usize,
}

// A two-by-two pivot with its determinant, passed by value from the choice to elimination, tail and inertia.
#[derive(Clone, Copy)]
pub struct Block {
    pub d11: f64,
    pub d21: f64,
    pub d22: f64,
    pub det: f64,
}

// A pivot of D: a 1x1's number, or a block.
#[derive(Clone, Copy)]
pub enum Diagonal {
    One(f64),
    Two(Block),
}

// A greatest square and the row where it stood. (A place along a row is, by symmetry, a row too.)
#[derive(Clone, Copy)]
pub struct Greatest {
    pub square: f64,
    pub at: LocalRow,
}

// The pivot tests, in their order: which of them decided on a pivot. `test_number` of specs/Choice.antt gives the
// number that a caller is told.
#[derive(Clone, Copy)]
pub enum PivotTest {
    ZeroColumn,
    OwnDiagonal,
    RowTest,
    ExchangedDiagonal,
    Block,
}

// A chosen pivot at k: the test that decided on it; the row that is exchanged with k before anything else, which is k's
// own in every choice as the tests stand; and the row that is then exchanged with the pivot's last column.
#[derive(Clone, Copy)]
pub struct Chosen {
    pub test: PivotTest,
    pub p: LocalRow,
    pub kp: LocalRow,
}

// What the pivot tests choose at k: nothing, since the column test finds zero; a 1x1; a block.
#[derive(Clone, Copy)]
pub enum Choice {
    ZeroColumn,
    Single(Chosen),
    Block(Chosen),
}

// The chosen 1x1 as it is taken: its number, and where it was lifted by how much.
#[derive(Clone, Copy)]
pub struct OneSettled {
    pub d: f64,
    pub lift: Option<f64>,
}

// The chosen block as it is taken: its numbers, where it was lifted by how much, and the rounds that the lift used.
#[derive(Clone, Copy)]
pub struct TwoSettled {
    pub block: Block,
    pub lift: Option<f64>,
    pub rounds: usize,
}

// Why a chosen block cannot be taken: it is at or below its growth floor in Fail, or needs more rounds than the limit.
#[derive(Clone, Copy)]
pub enum Unfit {
    Low,
    OutOfRounds,
}

// What a step took: the pivot as it was chosen, its numbers, where it was lifted by how much, the rounds that its lift
// used.
#[derive(Clone, Copy)]
pub struct Pivot {
    pub chosen: Chosen,
    pub diagonal: Diagonal,
    pub lift: Option<f64>,
    pub rounds: usize,
}

// D as a call's lists hold it: d, the subdiagonal, and a byte that is 1 where a block begins.
#[derive(Clone, Copy)]
pub struct DiagonalLists<'a> {
    pub d: &'a [f64],
    pub sub: &'a [f64],
    pub blocks: &'a [u8],
}

// The record of pivots as a call's lists hold it: D; the rows exchanged; the lift bytes, the lift amounts, the test
// numbers, the order.
// (A function that is lent such a struct promises besides that its buffers stay the same ones; to lend them on it
// takes each into a local first.)
#[derive(Drop)]
pub struct PivotRecord<'a> {
    pub d: &'a mut [f64],
    pub sub: &'a mut [f64],
    pub blocks: &'a mut [u8],
    pub partners: &'a mut [u16],
    pub lifts: &'a mut [u8],
    pub amounts: &'a mut [f64],
    pub tests: &'a mut [u8],
    pub order: &'a mut [usize],
}

// The ten buffers that a factor call writes.
#[derive(Drop)]
pub struct LentBuffers<'a> {
    pub panel: &'a mut [f64],
    pub d: &'a mut [f64],
    pub sub: &'a mut [f64],
    pub blocks: &'a mut [u8],
    pub lifts: &'a mut [u8],
    pub amounts: &'a mut [f64],
    pub tests: &'a mut [u8],
    pub order: &'a mut [usize],
    pub marks: &'a mut [u8],
    pub work: &'a mut [f64],
}

// Counts of positive, negative and zero eigenvalues of D.
#[derive(Clone, Copy)]
pub struct Tally {
    pub positive: usize,
    pub negative: usize,
    pub zero: usize,
}

// What an accepted factor call reports: the rounds of all block lifts, and the inertia.
#[derive(Clone, Copy)]
pub struct Report {
    pub rounds: usize,
    pub inertia: Tally,
}

// The refusals 1 to 19 and 23 to 30 of docs/REFUSALS.md in order. `numbered` of specs/Answer.antt gives the number and
// the place of each. A check answers Ok(()) or one of these; a call answers Ok with what it accepts with, or one of
// these.
#[derive(Clone, Copy)]
pub enum Refusal {
    Shape,
    Width,
    Length,
    Floor,
    Limit,
    Input(Elim, LocalRow),
    ZeroColumn(Elim),
    Rounds(Elim),
    NotFinite(Elim),
    AssemblyLength,
    AssemblyPlace(usize),
    AssemblyNumber(usize),
    UpdateLength,
    TargetRows,
    DescendantRows,
    BlockByte(Elim),
    AbsentRow(usize),
    DescendantNumber(Elim),
    InertiaLength,
    ZeroPivot(Elim),
    LowBlock(Elim),
    BufferLength,
    OrderPlace(Elim),
    RightSide(LocalRow),
    BlockRow(Elim),
    ListNumber(Elim),
    ListPair(Elim),
}
