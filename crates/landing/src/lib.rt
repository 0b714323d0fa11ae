// Rows of the system (GlobalRow), rows of the target's panel (LocalRow) and its columns (Elim) are three types.
// `local_row` is the one way from the first to the second, `column_of` the one way from the first to the third.
// Both lists of rows rise, so a search goes on where the one before it ended. `Target` and `Descendant` are what an
// update is given of its two nodes, whatever their sizes and lengths are.
#![tactic(auto)]

ghost use Rattle.std.specs.Prelude.{◌≡◌, ◌+◌, ◌-◌, ◌<◌, ◌≤◌, ◌^◌, eqb, length, Ok, IfSome};
ghost use Rattle.model.specs.Matrix.{naturals};
ghost use Rattle.model.specs.Factor.{every_from};
ghost use Rattle.model.specs.Assembly.{first_not};
ghost use Rattle.model.specs.Update.{place_from};
ghost use Rattle.model.specs.declared.Refusal.TheVariants.{AbsentRow};
ghost use Rattle.landing.specs.Rows.{rises_at, stands_at, lands_on, lands_at, first_from, there_at, found_of};
ghost use Rattle.landing.specs.Rows.{ColumnsPre, LocatePre, Located};

use model::{Elim, GlobalRow, LocalRow, Refusal};

// The target: its columns and rows, the global row of its first column, and its global rows.
#[derive(Clone, Copy)]
pub struct Target<'a> {
    pub ncol: usize,
    pub nrow: usize,
    pub first: GlobalRow,
    pub rows: &'a [u32],
}

// The descendant: its columns and the rows below them, its panel of (nk + mk)·nk numbers, d, subdiagonal and block
// bytes, and the global rows below its columns.
#[derive(Clone, Copy)]
pub struct Descendant<'a> {
    pub nk: usize,
    pub mk: usize,
    pub panel: &'a [f64],
    pub d: &'a [f64],
    pub sub: &'a [f64],
    pub blocks: &'a [u8],
    pub rows: &'a [u32],
}

// Whether the rows are strictly rising.
pub fn rising(rows: &[u32]) -> bool
    ensures { result ≡ every_from (rises_at (naturals rows.now) (length rows.now))
        (length rows.now) 0 }
{
    rows.is_sorted_by(|g, next| g < next)
}

// Whether g is the row of a column.
fn stands_at(first: GlobalRow, column: Elim, g: GlobalRow) -> bool
    requires { column.0 < 2 ^ 32 }
    ensures { result ≡ eqb g.0 (first.0 + column.0) }
{
    g.0 as usize == first.0 as usize + column.0
}

// Whether the target's first ncol rows are first, first + 1, ..
pub fn begins_at(t: Target) -> bool
    requires { ColumnsPre t.ncol (length t.rows.now) }
    ensures { result ≡ every_from (stands_at t.entry.first.0 (naturals t.entry.rows.now)) t.entry.ncol 0 }
{
    t.rows[..t.ncol]
        .iter()
        .enumerate()
        .all(|(j, g)| stands_at(t.first, Elim(j), GlobalRow(*g)))
}

// Whether g is the row of one of the target's columns.
pub fn lands(t: Target, g: GlobalRow) -> bool
    requires { t.ncol < 2 ^ 32 }
    ensures { result ≡ lands_on t.entry.first.0 t.entry.ncol g.0 }
{
    (t.first.0 <= g.0) & ((g.0 as usize) < t.first.0 as usize + t.ncol)
}

// The column that the landing row g lands on.
pub fn column_of(t: Target, g: GlobalRow) -> Elim
    requires { t.first.0 ≤ g.0 }
    ensures { result.0 ≡ g.0 - t.entry.first.0 }
{
    Elim((g.0 - t.first.0) as usize)
}

// The first of the descendant's rows that lands; their count where none does, and no Option, since what is done with
// the rows from there on is then nothing.
pub fn first_landing(t: Target, krows: &[u32]) -> usize
    requires { t.ncol < 2 ^ 32 }
    ensures { result ≡ first_from (lands_at t.entry.first.0 t.entry.ncol (naturals krows.now))
        (length krows.now) 0 }
{
    krows
        .iter()
        .position(|g| lands(t, GlobalRow(*g)))
        .unwrap_or(krows.len())
}

// The first of the rows, from row `from` on, that is g.
fn local_row(rows: &[u32], from: LocalRow, g: GlobalRow) -> Option<LocalRow>
    requires { from.0 ≤ length rows.now }
    ensures place { found_of result (length rows.now)
        ≡ place_from (naturals rows.now) g.0 (length rows.now - from.0) from.0 }
    ensures inside { IfSome result (λ p. p.0 < length rows.now) }
{
    // by places, since the search begins within the list and its answer is a place of the whole
    for i in from.0..rows.len() {
        let here = GlobalRow(rows[i]);
        if here.0 == g.0 {
            return Some(LocalRow(i));
        }
    }
    None
}

// The place of each of the descendant's rows from `start` on among the target's; or refusal 17, at the first that has
// none.
pub fn locate(rows: &[u32], krows: &[u32], start: usize, places: &mut [u16]) -> Result<(), Refusal>
    requires { LocatePre rows.now krows.now start (length places.old) }
    ensures value { result ≡ first_not (there_at rows.now (naturals krows.now)) AbsentRow
        (length krows.now - start) start }
    ensures located { result ≡ Ok tt
        → Located rows.now krows.now start (length krows.now) places.new }
{
    let mut from = 0;
    // by places: two lists go in step, and the refusal names the place
    for i in start..krows.len() {
        let place = local_row(rows, LocalRow(from), GlobalRow(krows[i]));
        let Some(found) = place else {
            return Err(Refusal::AbsentRow(i));
        };
        places[i] = found.0 as u16;
        from = found.0 + 1;
    }
    Ok(())
}
