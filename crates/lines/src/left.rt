// What a factor call left, as its lines tell it: all of it, its pivots, its rows.
// A reader may rely on `sizes`: the lists have lengths that fit one another, and those of a `Left` are the program's.

ghost use Rattle.std.specs.Prelude.{length};
ghost use Rattle.lines.specs.Lengths.{LinesPre, PivotsPre, RowsPre};

use model::Settings;

// The settings that a call was made with, and its buffers as it left them. Nothing of its working buffer is printed.
#[derive(Clone, Copy)]
pub struct Left<'a> {
    pub c: Settings,
    pub panel: &'a [f64],
    pub d: &'a [f64],
    pub sub: &'a [f64],
    pub blocks: &'a [u8],
    pub lifts: &'a [u8],
    pub amounts: &'a [f64],
    pub tests: &'a [u8],
    pub order: &'a [usize],
    pub marks: &'a [u8],
    pub ghost sizes: { LinesPre c (length panel.now) (length d.now) (length sub.now) (length blocks.now)
        (length lifts.now) (length amounts.now) (length tests.now) (length order.now) (length marks.now) },
}

// Lists by position, of any one length.
#[derive(Clone, Copy)]
pub struct Pivots<'a> {
    pub d: &'a [f64],
    pub sub: &'a [f64],
    pub blocks: &'a [u8],
    pub lifts: &'a [u8],
    pub amounts: &'a [f64],
    pub tests: &'a [u8],
    pub ghost sizes: { PivotsPre (length d.now) (length sub.now) (length blocks.now) (length lifts.now)
        (length amounts.now) (length tests.now) },
}

// A panel of few columns and any number of rows, and the marks of its tail rows.
#[derive(Clone, Copy)]
pub struct Rows<'a> {
    pub nrow: usize,
    pub ncol: usize,
    pub panel: &'a [f64],
    pub marks: &'a [u8],
    pub ghost sizes: { RowsPre nrow ncol (length panel.now) (length marks.now) },
}
