// The pivot rule: which pivot is chosen in a panel, and what a block's determinant must pass.
// The tests and the roundings are those of model's specs/Choice.antt and specs/Head.antt, in their order.
#![tactic(auto)]

ghost use Rattle.std.specs.Prelude.{◌≡◌, true, length};
ghost use Rattle.model.specs.Scalar.{◌⊗◌, magnitude_of};
ghost use Rattle.model.specs.Root.{sqrt_of, alpha};
ghost use Rattle.model.specs.Matrix.{view};
ghost use Rattle.model.specs.Choice.{with_row, choose_of, column_greatest};
ghost use Rattle.model.specs.Head.{scale_of, growth_floor_of};
ghost use Rattle.greatest.specs.Greatest.{ColumnPre, Within, SquareOf, FoundIn};
ghost use Rattle.rule.specs.Chosen.{by_row, ChoiceWithin};
ghost use Rattle.rule.specs.Reach.{Reaches, ReachPre};

use model::{Block, Choice, Chosen, Elim, Frame, Greatest, LocalRow, PivotTest};

// Bunch and Kaufman's rule: a name for its two constants and its tests.
#[derive(Clone, Copy)]
pub struct PivotRule;

// The greatest magnitude of a block's numbers.
pub fn scale(b: Block) -> f64
    ensures { result ≡ scale_of b }
{
    let diagonal = scalar::maximum(scalar::magnitude(b.d11), scalar::magnitude(b.d22));
    scalar::maximum(diagonal, scalar::magnitude(b.d21))
}

// Chosen at k by a test, with the row kp: nothing is exchanged before kp is.
pub fn with_row(test: PivotTest, k: Elim, kp: LocalRow) -> Chosen
    ensures { result ≡ with_row test k.0 kp }
{
    Chosen {
        test,
        p: LocalRow(k.0),
        kp,
    }
}

impl PivotRule {
    // (1 + √17) / 8, each step rounded: the bound on growth is then the same for a 1x1 and for a block.
    pub const ALPHA: f64 = 0.6403882032022076;

    // A little less than 1 / ALPHA. How much less only decides how often a root is spared.
    const LOW_INVERSE: f64 = 1.56155281280883;

    // 2^-1000. From here on a square has all its digits, and so its root tells them back. How little it is only decides
    // how often a root is spared.
    const LEAST_SQUARE: f64 = 9.332636185032189e-302;

    // A block's determinant at or below this part of its scale squared counts as zero.
    pub const GROWTH_EPS: f64 = 1e-14;

    // What a diagonal must reach beside a greatest magnitude m.
    pub fn threshold(m: f64) -> f64
        ensures { result ≡ alpha ⊗ m }
    {
        PivotRule::ALPHA * m
    }

    // Whether own surely reaches the threshold beside the root of `square`, without the root: `low` is above the root
    // where its square is above `square`, and own reaches the threshold beside `low`. False says nothing.
    fn reaches(own: f64, square: f64) -> bool
        requires { ReachPre own square }
        ensures { result ≡ true → Reaches own square }
    {
        let low = own * PivotRule::LOW_INVERSE;
        (low * low > square) & (PivotRule::threshold(low) <= own)
    }

    // The root of a square that is 0, or x's: |x|, without the root, wherever the square is neither tiny nor infinite.
    // That it was rounded moves its root by less than half of x's last digit.
    fn root_of(square: f64, x: f64) -> f64
        requires { SquareOf square x }
        ensures { result ≡ sqrt_of square }
    {
        if (PivotRule::LEAST_SQUARE < square) & scalar::is_finite(square) {
            return scalar::magnitude(x);
        }
        square_root::sqrt(square)
    }

    // The row test and the exchanged diagonal's at k, where k's own diagonal has lost its test: own is its magnitude,
    // colmax the greatest of its column, in row imax. A block where neither holds.
    // origin: src/numeric/ldlt/bunch_kaufman.rs, fn ll_bk_panel_step
    fn choose_by_row(
        panel: &[f64],
        at: Frame,
        k: Elim,
        own: f64,
        colmax: f64,
        imax: LocalRow,
    ) -> Choice
        requires column_pre { ColumnPre at.nrow at.ncol k.0 at.ke (length panel.now) }
        requires within { Within k.0 at.ke imax.0 }
        ensures { result ≡ by_row (view at.nrow panel.now) k.0 at.ke own colmax imax }
    {
        let row = greatest::row_greatest(panel, at, k, imax);
        let rowmax = PivotRule::root_of(row.square, greatest::across(panel, at.nrow, imax, row.at));
        if own >= PivotRule::threshold(colmax) * (colmax / rowmax) {
            return Choice::Single(with_row(PivotTest::RowTest, k, LocalRow(k.0)));
        }
        if scalar::magnitude(grid::get(panel, at.nrow, imax.0, imax.0))
            >= PivotRule::threshold(rowmax)
        {
            Choice::Single(with_row(PivotTest::ExchangedDiagonal, k, imax))
        } else {
            Choice::Block(with_row(PivotTest::Block, k, imax))
        }
    }

    // The tests at k, by the root of the greatest square of its column. own is the diagonal's magnitude.
    // origin: src/numeric/ldlt/bunch_kaufman.rs, fn ll_bk_panel_step
    fn choose_by_root(panel: &[f64], at: Frame, k: Elim, own: f64, column: Greatest) -> Choice
        requires column_pre { ColumnPre at.nrow at.ncol k.0 at.ke (length panel.now) }
        requires own { own ≡ magnitude_of (view at.nrow panel.now k.0 k.0) }
        requires column { column ≡ column_greatest (view at.nrow panel.now) k.0 at.ke }
        requires found_in { FoundIn k.0 at.ke column (view at.nrow panel.now column.at.0 k.0) }
        ensures { result ≡ choose_of (view at.nrow panel.now) k.0 at.ke }
    {
        let colmax = PivotRule::root_of(column.square, grid::get(panel, at.nrow, column.at.0, k.0));
        if scalar::maximum(own, colmax) == 0.0 {
            return Choice::ZeroColumn;
        }
        if own >= PivotRule::threshold(colmax) {
            return Choice::Single(with_row(PivotTest::OwnDiagonal, k, LocalRow(k.0)));
        }
        PivotRule::choose_by_row(panel, at, k, own, colmax, column.at)
    }

    // The pivot at k of a panel; the test that chooses names itself. Squares are compared: an entry whose square
    // underflows is not seen.
    // origin: src/numeric/ldlt/bunch_kaufman.rs, fn ll_bk_panel_step
    pub fn choose(panel: &[f64], at: Frame, k: Elim) -> Choice
        requires { ColumnPre at.nrow at.ncol k.0 at.ke (length panel.now) }
        ensures value { result ≡ choose_of (view at.nrow panel.now) k.0 at.ke }
        ensures chosen_within { ChoiceWithin k.0 at.ke result }
    {
        let own = scalar::magnitude(grid::get(panel, at.nrow, k.0, k.0));
        let column = greatest::column_greatest(panel, at, k);
        if PivotRule::reaches(own, column.square) {
            Choice::Single(with_row(PivotTest::OwnDiagonal, k, LocalRow(k.0)))
        } else {
            PivotRule::choose_by_root(panel, at, k, own, column)
        }
    }

    // What a block's determinant must pass.
    pub fn growth_floor(b: Block) -> f64
        ensures { result ≡ growth_floor_of b }
    {
        let s = scale(b);
        PivotRule::GROWTH_EPS * s * s
    }
}
