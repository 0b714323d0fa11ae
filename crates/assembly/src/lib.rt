// Assembly: entries of the system added to a node's panel as they are listed, duplicates included.
// A reader may rely on `assemble` answering any arguments: it refuses and writes nothing, or each entry is added, in
// its turn, to whatever the panel holds.
#![tactic(auto)]

ghost use Rattle.std.specs.Prelude.{◌≡◌, ◌&&◌, leb, ltb, length};
ghost use Rattle.model.specs.Matrix.{view, vec, naturals};
ghost use Rattle.model.specs.Assembly.{entries_sound, first_not, place_sound, assembly_check};
ghost use Rattle.model.specs.Assembly.{added_at, assembled_from, assembly_of};
ghost use Rattle.grid.specs.Grid.{In};
ghost use Rattle.model.specs.declared.Refusal.TheVariants.{AssemblyPlace};
ghost use Rattle.checks.specs.Answers.{leaves};
ghost use Rattle.assembly.specs.Call.{entries_in, AddPre};

use model::{Elim, LocalRow, Refusal};

// Entries as they are listed: their local rows, columns and numbers.
#[derive(Clone, Copy)]
pub struct Entries<'a> {
    pub rows: &'a [usize],
    pub columns: &'a [usize],
    pub numbers: &'a [f64],
}

// ---- refusals

// Refusal 10's test. The panel's length is worked out once the shape is sound, so that the product fits.
fn entries_sound(ncol: usize, nrow: usize, es: Entries, panel: &[f64]) -> bool
    ensures { result ≡ entries_sound ncol nrow (entries_in es.entry) panel.now }
{
    if !checks::shape_sound(ncol, nrow) {
        return false;
    }
    let n = es.rows.len();
    (es.columns.len() == n) & ((es.numbers.len() == n) & (panel.len() == nrow * ncol))
}

// Refusal 11's test: row and column are a place of the lower triangle or of the tail.
fn place_sound(ncol: usize, nrow: usize, row: LocalRow, column: Elim) -> bool
    ensures { result ≡ ltb row.0 nrow && (ltb column.0 ncol && leb column.0 row.0) }
{
    (row.0 < nrow) & ((column.0 < ncol) & (column.0 <= row.0))
}

// Refusal 11: the first entry whose place is not in the panel's lower part.
fn first_bad_place(ncol: usize, nrow: usize, es: Entries) -> Result<(), Refusal>
    requires { length es.columns.now ≡ length es.rows.now }
    ensures { result ≡ first_not
        (place_sound ncol nrow (naturals es.entry.rows.now) (naturals es.entry.columns.now)) AssemblyPlace
        (length es.entry.rows.now) 0 }
{
    let mut places = es.rows.iter().zip(es.columns);
    let at = places.position(|(row, column)| !place_sound(
        ncol,
        nrow,
        LocalRow(*row),
        Elim(*column),
    ));
    match at {
        Some(k) => Err(Refusal::AssemblyPlace(k)),
        None => Ok(()),
    }
}

// Refusals 10 to 12.
fn assembly_check(ncol: usize, nrow: usize, es: Entries, panel: &[f64]) -> Result<(), Refusal>
    ensures { result ≡ assembly_check ncol nrow (entries_in es.entry) panel.now }
{
    if !entries_sound(ncol, nrow, es, panel) {
        return Err(Refusal::AssemblyLength);
    }
    first_bad_place(ncol, nrow, es)?;
    match checks::first_bad_number(es.numbers) {
        Some(k) => Err(Refusal::AssemblyNumber(k)),
        None => Ok(()),
    }
}

// ---- the entries

// v is added at a row and a column.
fn add_at(panel: &mut [f64], nrow: usize, row: LocalRow, column: Elim, v: f64)
    requires { In nrow row.0 column.0 (length panel.old) }
    ensures { view nrow panel.new ≡ added_at (view nrow panel.old) row.0 column.0 v }
{
    let start = grid::column_start(nrow, column.0);
    let at = row.0 + start;
    panel[at] = panel[at] + v;
}

// The entries are added as listed.
// origin: src/numeric/ldlt/node.rs, fn ll_factor_node
fn add_entries(nrow: usize, es: Entries, panel: &mut [f64])
    requires { AddPre nrow es.rows.now es.columns.now es.numbers.now (length panel.old) }
    ensures { view nrow panel.new ≡ assembled_from (naturals es.entry.rows.now) (naturals es.entry.columns.now)
        (vec es.entry.numbers.now) (length es.entry.rows.now) 0 (view nrow panel.old) }
{
    let Entries {
        rows,
        columns,
        numbers,
    } = es;
    // by places, as three lists are read at each
    for k in 0..rows.len() {
        add_at(panel, nrow, LocalRow(rows[k]), Elim(columns[k]), numbers[k]);
    }
}

// in: ncol and nrow, the node's columns and rows; es, the entries: three lists of one length.
// in and out: panel, nrow·ncol numbers, column-major; any on entry.
// Done, or refusal 10, 11 or 12.
pub fn assemble(ncol: usize, nrow: usize, es: Entries, panel: &mut [f64]) -> Result<(), Refusal>
    ensures { leaves result panel.new ≡ assembly_of ncol nrow (entries_in es.entry) panel.old }
{
    assembly_check(ncol, nrow, es, &panel[..])?;
    add_entries(nrow, es, panel);
    Ok(())
}
