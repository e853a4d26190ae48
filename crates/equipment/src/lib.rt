// How the programs equip the train of a run file.
#![tactic(auto)]

ghost use Rattle.std.specs.Prelude.{List};
ghost use Rattle.rules.specs.Layers.{scaled};
ghost use Rattle.rules.specs.Law.{rounded_falling};
ghost use Rattle.rules.specs.Sample.{example_stock};
ghost use Rattle.rules.specs.Table.{table_pull};

use answering::Equipment;
use laws::{Diesel, diesel};
use layers::Scale;
use pull_table::PullTable;

/// Cast iron blocks, wagons, and a DF4 locomotive that pulls nine tenths of the table of the run file.
pub struct NineTenths;

impl Equipment for NineTenths {
    type Stock = Diesel<Scale<PullTable>>;

    ghost stock = { λ _ points. example_stock (scaled 90 (rounded_falling (table_pull points))) };

    fn equip(&self, table: PullTable) -> Diesel<Scale<PullTable>> {
        diesel(Scale::new(table, 90).unwrap())
    }
}
