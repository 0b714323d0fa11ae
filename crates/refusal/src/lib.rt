// A refusal as the number and the place that docs/REFUSALS.md gives it: the one table of them in code.
// A reader may rely on each being what `turned_away` says (model, specs/Answer.antt), whatever the call accepts with.
#![tactic(auto)]

ghost use Rattle.std.specs.Prelude.{◌≡◌};
ghost use Rattle.model.specs.Answer.{Said, refused, turned_away};

use model::Refusal;

// A refusal's number and its place A, B; 0, 0 if it names none.
#[derive(Clone, Copy, PartialEq, Eq)]
pub struct NumberAndPlace {
    pub number: usize,
    pub a: usize,
    pub b: usize,
}

// A number at a place.
fn at(number: usize, a: usize, b: usize) -> NumberAndPlace
    ensures { ◌≡◌ {A = Said (Unit {0})} (refused result.number result.a result.b) (refused number a b) }
{
    NumberAndPlace { number, a, b }
}

// The number and the place of a refusal.
impl From<Refusal> for NumberAndPlace {
    ghost from_gives = { λ why n. ◌≡◌ {A = Said (Unit {0})} (refused n.number n.a n.b) (turned_away why) };

    fn from(why: Refusal) -> NumberAndPlace {
        match why {
            Refusal::Shape => at(1, 0, 0),
            Refusal::Width => at(2, 0, 0),
            Refusal::Length => at(3, 0, 0),
            Refusal::Floor => at(4, 0, 0),
            Refusal::Limit => at(5, 0, 0),
            Refusal::Input(column, row) => at(6, column.0, row.0),
            Refusal::ZeroColumn(k) => at(7, k.0, 0),
            Refusal::Rounds(k) => at(8, k.0, 0),
            Refusal::NotFinite(k) => at(9, k.0, 0),
            Refusal::AssemblyLength => at(10, 0, 0),
            Refusal::AssemblyPlace(entry) => at(11, entry, 0),
            Refusal::AssemblyNumber(entry) => at(12, entry, 0),
            Refusal::UpdateLength => at(13, 0, 0),
            Refusal::TargetRows => at(14, 0, 0),
            Refusal::DescendantRows => at(15, 0, 0),
            Refusal::BlockByte(k) => at(16, k.0, 0),
            Refusal::AbsentRow(row) => at(17, row, 0),
            Refusal::DescendantNumber(k) => at(18, k.0, 0),
            Refusal::InertiaLength => at(19, 0, 0),
            Refusal::ZeroPivot(k) => at(23, k.0, 0),
            Refusal::LowBlock(k) => at(24, k.0, 0),
            Refusal::BufferLength => at(25, 0, 0),
            Refusal::OrderPlace(k) => at(26, k.0, 0),
            Refusal::RightSide(row) => at(27, row.0, 0),
            Refusal::BlockRow(k) => at(28, k.0, 0),
            Refusal::ListNumber(k) => at(29, k.0, 0),
            Refusal::ListPair(k) => at(30, k.0, 0),
        }
    }
}
