ghost use Rattle.std.specs.Prelude.{◌≡◌, List};
ghost use Rattle.rules.specs.declared.figures.PointFigures.{PointFigures};
ghost use Rattle.rules.specs.Law.{Stock as StockMeaning};
ghost use Rattle.pull_table.specs.Tables.{points_of};

use laws::StockLaws;
use pull_table::PullTable;

/// How a program equips the train of a run file: the laws that it goes by, over the pull table of the file.
pub trait Equipment {
    /// The laws of the train.
    type Stock: StockLaws + Drop;

    ghost stock: { Self → List PointFigures → StockMeaning };

    /// The laws of a train whose locomotive pulls by a table.
    fn equip(&self, table: PullTable) -> Self::Stock
        ensures { Self.Stock.meaning result ≡ stock self.now (points_of table) };
}
