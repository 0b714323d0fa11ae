// L.D of a panel's columns, formed before the later columns lose their sums: column t of g for the panel's column
// kb + t, rows from ke on. A reader may rely on the contract of products.
#![tactic(auto)]

ghost use Rattle.std.specs.Prelude.{◌≡◌, ◌+◌, ◌-◌, length};
ghost use Rattle.model.specs.Matrix.{view, with_column};
ghost use Rattle.model.specs.Step.{diagonals_in};
ghost use Rattle.grid.specs.Rules.{column_of};
ghost use Rattle.kernels.specs.Rules.{times, blended};
ghost use Rattle.products.specs.Products.{column_product, with_products};
ghost use Rattle.products.specs.Products.{ScalePre, BlendPre, ProductPre, ProductsPre};

use grid::column_start;
use model::{DiagonalLists, Elim};

// Rows from lo on of g's column t become those of the panel's column k times r.
fn scale_column(g: &mut [f64], panel: &[f64], nrow: usize, t: usize, k: usize, lo: usize, r: f64)
    requires { ScalePre nrow t k lo (length g.old) (length panel.now) }
    ensures { view nrow g.new
        ≡ with_column (view nrow g.old) t lo nrow (times (column_of (view nrow panel.now) k) r) }
{
    let out = column_start(nrow, t);
    let source = column_start(nrow, k);
    let a = lo + out;
    let b = nrow + out;
    let c = lo + source;
    let e = nrow + source;
    kernels::scale(&mut g[a..b], &panel[c..e], nrow - lo, r);
}

// Rows from lo on of g's column t become those of the panel's columns k and j times p and q, added.
fn blend_columns(
    g: &mut [f64],
    panel: &[f64],
    nrow: usize,
    t: usize,
    k: usize,
    j: usize,
    lo: usize,
    p: f64,
    q: f64,
)
    requires { BlendPre nrow t k j lo (length g.old) (length panel.now) }
    ensures { view nrow g.new
        ≡ with_column (view nrow g.old) t lo nrow
        (blended (column_of (view nrow panel.now) k) (column_of (view nrow panel.now) j)
        p q) }
{
    let out = column_start(nrow, t);
    let source = column_start(nrow, k);
    let second = column_start(nrow, j);
    let a = lo + out;
    let b = nrow + out;
    let c = lo + source;
    let e = nrow + source;
    let u = lo + second;
    let v = nrow + second;
    kernels::blend(&mut g[a..b], &panel[c..e], &panel[u..v], nrow - lo, p, q);
}

// Rows from lo on of g's column t become L.D of the panel's column k.
fn product_column(
    g: &mut [f64],
    panel: &[f64],
    x: DiagonalLists,
    nrow: usize,
    t: usize,
    k: usize,
    lo: usize,
)
    requires { ProductPre nrow t k lo (length g.old) (length panel.now) (length x.d.now)
        (length x.sub.now) x.blocks.now }
    ensures { view nrow g.new
        ≡ with_column (view nrow g.old) t lo nrow
        (column_product (diagonals_in x.entry) (view nrow panel.now) k) }
{
    let d = x.d;
    let sub = x.sub;
    if x.blocks[k] == 1 {
        blend_columns(g, panel, nrow, t, k, k + 1, lo, d[k], sub[k]);
        return;
    }
    if diagonal::ends_block(x.blocks, Elim(k)) {
        blend_columns(g, panel, nrow, t, k - 1, k, lo, sub[k - 1], d[k]);
        return;
    }
    scale_column(g, panel, nrow, t, k, lo, d[k]);
}

// The first columns of g become L.D of the panel's columns kb to ke, rows from ke on.
pub fn products(g: &mut [f64], panel: &[f64], x: DiagonalLists, nrow: usize, kb: usize, ke: usize)
    requires { ProductsPre nrow kb ke (length g.old) (length panel.now) (length x.d.now)
        (length x.sub.now) x.blocks.now }
    ensures { view nrow g.new
        ≡ with_products (view nrow g.old) (diagonals_in x.entry) (view nrow panel.now) kb ke nrow (ke - kb) }
{
    for k in kb..ke {
        product_column(g, panel, x, nrow, k - kb, k, ke);
    }
}
