// LAPACK's list of pivots, made of a head's order and block bytes, and turned back into them. A reader may rely on both
// calls answering any arguments: each refuses and writes nothing, or leaves what its definition says (model,
// specs/Lapack.antt). What either accepts the other turns back into the very same.
#![tactic(auto)]

ghost use Rattle.std.specs.Prelude.{◌≡◌, ◌≤◌, ◌<◌, ◌-◌, length, unsigned_abs, Ok};
ghost use Rattle.model.specs.Sizes.{most_columns};
ghost use Rattle.model.specs.Matrix.{naturals, places};
ghost use Rattle.model.specs.Lapack.{integers, number_of, is_negative, same_number, sizes_check, to_check};
ghost use Rattle.model.specs.Lapack.{place_from, stands_first, with_number, pivot_listed, list_of, to_lapack_of};
ghost use Rattle.model.specs.Lapack.{pair_sound, pivot_read, arranged_of, from_lapack_of};
ghost use Rattle.model.specs.ForthAndBack.{GivesAgain, GivesListAgain};
ghost use Rattle.lapack.specs.Walks.{stepped, walked, listing, SoundPre, PivotPre, NotePre, to_leaves};
ghost use Rattle.lapack.specs.Walks.{arranged, ListsPre, ReadPre, from_leaves};

use model::{COLUMNS_MAX, Elim, LocalRow, Refusal};

// Refusals 1 and 25, of ncol columns and three lengths.
fn sizes_check(ncol: usize, a: usize, b: usize, c: usize) -> Result<(), Refusal>
    ensures { result ≡ sizes_check ncol a b c }
{
    if COLUMNS_MAX < ncol {
        return Err(Refusal::Shape);
    }
    if !((a == ncol) & ((b == ncol) & (c == ncol))) {
        return Err(Refusal::BufferLength);
    }
    Ok(())
}

// ---- numbers of a list

// The number that names place p: counted from 1, and negative at a block.
fn number_of(block: bool, p: Elim) -> i32
    requires { p.0 < most_columns }
    ensures { result ≡ number_of block p.0 }
{
    let place = (p.0 + 1) as i32;
    if block { -place } else { place }
}

// Whether a number stands at a block.
fn is_negative(number: i32) -> bool
    ensures { result ≡ is_negative number }
{
    number < 0
}

// The place, from 1, that a number names.
fn place_named(number: i32) -> usize
    ensures { result ≡ unsigned_abs number }
{
    number.unsigned_abs() as usize
}

// Whether two numbers are equal.
fn same_number(a: i32, b: i32) -> bool
    ensures { result ≡ same_number a b }
{
    a == b
}

// ---- to LAPACK

// Refusals 1, 25, 26 and 16.
fn to_check(ncol: usize, order: &[usize], blocks: &[u8], list: &[i32]) -> Result<(), Refusal>
    ensures { result ≡ to_check ncol order.now blocks.now list.now }
{
    sizes_check(ncol, order.len(), blocks.len(), list.len())?;
    order::first_bad_row(order)?;
    checks::first_bad_byte(blocks)
}

// Where the row stands, from place e on; past the last place if it stands at none of them.
fn place_of(rows: &[usize], row: LocalRow, e: Elim) -> Elim
    requires { e.0 ≤ length rows.now }
    ensures { result.0 ≡ place_from (places rows.now) row.0 (length rows.now - e.0) e.0 }
{
    for p in e.0..rows.len() {
        if rows[p] == row.0 {
            return Elim(p);
        }
    }
    Elim(rows.len())
}

// A block's first row stands in its place.
fn stands_first(block: bool, rows: &[usize], order: &[usize], k: Elim) -> bool
    requires { (k.0 < length rows.now) × (k.0 < length order.now) }
    ensures { result ≡ stands_first block (places rows.now) (naturals order.now) k.0 }
{
    !block || rows[k.0] == order[k.0]
}

// Notes the number of place p at a pivot's columns k to e.
fn note_number(list: &mut [i32], k: Elim, e: Elim, block: bool, p: Elim)
    requires { NotePre k.0 e.0 p.0 (length list.old) }
    ensures same { length list.new ≡ length list.old }
    ensures noted { integers list.new ≡ with_number (integers list.old) k.0 e.0 (number_of block p.0) }
{
    let number = number_of(block, p);
    list[e.0] = number;
    list[k.0] = number;
}

// The pivot at k: the exchange that brings its last row to it, and its number; the next pivot's column.
// in: order, blocks / in and out: rows, the row that stands at each place by now; list
fn list_pivot(
    order: &[usize],
    blocks: &[u8],
    rows: &mut [usize],
    list: &mut [i32],
    k: Elim,
) -> Result<usize, Refusal>
    requires sound { SoundPre (length order.now) order.now blocks.now }
    requires pivot { PivotPre (length order.now) order.now k.0 rows.old }
    requires room { length list.old ≡ length order.now }
    ensures same { (length rows.new ≡ length rows.old) × (length list.new ≡ length list.old) }
    ensures listed { stepped result (listing rows.new list.new)
        ≡ pivot_listed (length order.now) (naturals order.now) (naturals blocks.now) k.0 (listing rows.old list.old) }
{
    let block = diagonal::block_begins(blocks, k);
    if !stands_first(block, rows, order, k) {
        return Err(Refusal::BlockRow(k));
    }
    let e = diagonal::last_column(k, block);
    let p = place_of(rows, LocalRow(order[e.0]), e);
    rows.swap(e.0, p.0);
    note_number(list, k, e, block, p);
    Ok(e.0 + 1)
}

// The numbers of all pivots, or refusal 28.
// in: order, blocks / out: rows, list, any on entry
fn list_pivots(
    order: &[usize],
    blocks: &[u8],
    rows: &mut [usize],
    list: &mut [i32],
) -> Result<(), Refusal>
    requires sound { SoundPre (length order.now) order.now blocks.now }
    requires room { (length rows.old ≡ length order.now) × (length list.old ≡ length order.now) }
    ensures same { (length rows.new ≡ length rows.old) × (length list.new ≡ length list.old) }
    ensures listed { walked result (listing rows.new list.new)
        ≡ list_of (length order.now) (naturals order.now) (naturals blocks.now) }
{
    buffers::in_order(rows);
    list.fill(0);
    let mut k = 0;
    // A block takes two columns, so no range counts the pivots.
    while k < order.len() {
        k = list_pivot(order, blocks, rows, list, Elim(k))?;
    }
    Ok(())
}

// LAPACK's list of pivots for an order and block bytes; `from_lapack` makes them of it again.
// in: ncol, a head's columns; order, its places' rows; blocks, its block bytes; ncol of each.
// out: list, ncol numbers, any on entry. Ok, or refusal 1, 25, 26, 16 or 28 and the list as it was.
pub fn to_lapack(
    ncol: usize,
    order: &[usize],
    blocks: &[u8],
    list: &mut [i32],
) -> Result<(), Refusal>
    ensures leaves { to_leaves result list.new ≡ to_lapack_of ncol order.now blocks.now list.old }
    ensures again { result ≡ Ok tt → GivesAgain ncol order.now blocks.now list.new }
{
    to_check(ncol, order, blocks, &list[..])?;
    let mut rows = [0; COLUMNS_MAX];
    let rows = &mut rows[0..ncol];
    // written at the end, since 28 may come late
    let mut numbers = [0; COLUMNS_MAX];
    let numbers = &mut numbers[0..ncol];
    list_pivots(order, blocks, rows, numbers)?;
    list.copy_from_slice(numbers);
    Ok(())
}

// ---- from LAPACK

// A negative number has its like after it.
fn pair_sound(list: &[i32], k: Elim) -> bool
    requires { k.0 < length list.now }
    ensures { result ≡ pair_sound (length list.now) (integers list.now) k.0 }
{
    !is_negative(list[k.0]) || (k.0 + 1 < list.len() && same_number(list[k.0 + 1], list[k.0]))
}

// The pivot at k: its exchange and its block bytes; the next pivot's column.
// in: list / in and out: rows, the row that stands at each place by now; blocks
fn read_pivot(
    list: &[i32],
    rows: &mut [usize],
    blocks: &mut [u8],
    k: Elim,
) -> Result<usize, Refusal>
    requires { ReadPre (length list.now) k.0 (length rows.old) (length blocks.old) }
    ensures same { (length rows.new ≡ length rows.old) × (length blocks.new ≡ length blocks.old) }
    ensures read { stepped result (arranged rows.new blocks.new)
        ≡ pivot_read (length list.now) (integers list.now) k.0 (arranged rows.old blocks.old) }
{
    if !pair_sound(list, k) {
        return Err(Refusal::ListPair(k));
    }
    let block = is_negative(list[k.0]);
    let e = diagonal::last_column(k, block);
    let place = place_named(list[k.0]);
    if !((e.0 < place) & (place <= list.len())) {
        return Err(Refusal::ListNumber(k));
    }
    rows.swap(e.0, place - 1);
    blocks[e.0] = 0;
    blocks[k.0] = u8::from(block);
    Ok(e.0 + 1)
}

// The order and the block bytes of all pivots, or refusal 30 or 29.
// out: rows, blocks, any on entry
fn read_pivots(list: &[i32], rows: &mut [usize], blocks: &mut [u8]) -> Result<(), Refusal>
    requires { ListsPre (length list.now) (length rows.old) (length blocks.old) }
    ensures same { (length rows.new ≡ length rows.old) × (length blocks.new ≡ length blocks.old) }
    ensures read { walked result (arranged rows.new blocks.new) ≡ arranged_of (length list.now) (integers list.now) }
{
    buffers::in_order(rows);
    blocks.fill(0);
    let mut k = 0;
    // A pair takes two columns, so no range counts the pivots.
    while k < list.len() {
        k = read_pivot(list, rows, blocks, Elim(k))?;
    }
    Ok(())
}

// The order and the block bytes that LAPACK's list of pivots stands for; `to_lapack` makes it of them again.
// in: ncol, a head's columns; list, ncol numbers. out: order, its places' rows; blocks, its block bytes; ncol of each,
// any on entry. Ok, or refusal 1, 25, 30 or 29 and both as they were.
pub fn from_lapack(
    ncol: usize,
    list: &[i32],
    order: &mut [usize],
    blocks: &mut [u8],
) -> Result<(), Refusal>
    ensures leaves { from_leaves result order.new blocks.new ≡ from_lapack_of ncol list.now order.old blocks.old }
    ensures again { result ≡ Ok tt → GivesListAgain ncol list.now order.new blocks.new }
{
    sizes_check(ncol, list.len(), order.len(), blocks.len())?;
    // written at the end, since a fault may come late
    let mut rows = [0; COLUMNS_MAX];
    let rows = &mut rows[0..ncol];
    let mut bytes = [0; COLUMNS_MAX];
    let bytes = &mut bytes[0..ncol];
    read_pivots(list, rows, bytes)?;
    order.copy_from_slice(rows);
    blocks.copy_from_slice(bytes);
    Ok(())
}
