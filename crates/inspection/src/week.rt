use crate::calls::{Pulled, ask, mass, speed, stop};
use crate::show::show_sheet;
use crate::telling::{tell_calls, tell_history};
use history::{Call, Exchange, perform};
use laws::KindLetter::{F, H, P};
use laws::{KindLetter, diesel};
use layers::Scale;
use pull_table::PullTable;
use rules::{PointFigures, Question, SectionFigures, VehicleFigures};
use runfile::RunFile;
use sheet::Sheet;
use std::io;

/// What the week of a train goes by: the kind of brake of its run file, and its laws with the table of the file and with one
/// measured on the engine.
#[derive(Drop)]
pub struct Week {
    kind: KindLetter,
    planned: Pulled,
    measured: Pulled,
}

impl Week {
    /// The week of the train of a file; none where no file was read.
    pub fn of(file: &RunFile) -> Option<Week> {
        Some(Week {
            kind: file.kind()?,
            planned: diesel(nine_tenths(file.table()?)),
            measured: diesel(nine_tenths(measured_table())),
        })
    }

    /// The planner puts the questions of the file.
    pub fn plan(
        &self,
        rt: &HostRuntime,
        sheet: &mut Sheet,
        questions: &[Question],
    ) -> io::Result<()> {
        self.put_all(rt, "planned", sheet, &self.planned, questions)
    }

    /// The depot replaces the table by the one measured on the engine, and the questions are put again.
    pub fn measure(
        &self,
        rt: &HostRuntime,
        sheet: &mut Sheet,
        questions: &[Question],
    ) -> io::Result<()> {
        self.put_all(rt, "measured", sheet, &self.measured, questions)
    }

    // Puts the questions of the file by some laws.
    fn put_all(
        &self,
        rt: &HostRuntime,
        name: &str,
        sheet: &mut Sheet,
        stock: &Pulled,
        questions: &[Question],
    ) -> io::Result<()> {
        println!(rt; "{name}")?;
        for question in questions {
            let mut calls = [ask(stock, self.kind, *question)];
            perform(sheet, &mut calls);
            tell_calls(rt, stock, &calls)?;
        }
        show_sheet(rt, sheet)
    }

    /// The inspector cuts out brakes that did not hold, asks again, and restores them.
    pub fn inspect(&self, rt: &HostRuntime, sheet: &mut Sheet) -> io::Result<()> {
        let stock = &self.measured;
        let mut calls = [
            Exchange::from(Call::CutOut(1)),
            ask(stock, self.kind, stop(0, 100, 10)),
            Exchange::from(Call::CutOut(5)),
            ask(stock, self.kind, stop(2500, 100, 10)),
            ask(stock, self.kind, speed(0, 10)),
            Exchange::from(Call::CutOut(0)),
            ask(stock, self.kind, stop(0, 100, 10)),
            ask(stock, self.kind, speed(0, 10)),
            Exchange::from(Call::Restore(0)),
            Exchange::from(Call::Restore(1)),
            ask(stock, self.kind, stop(0, 100, 10)),
        ];
        perform(sheet, &mut calls);
        tell_history(rt, "inspected", sheet, stock, &calls)
    }

    /// The planner compares factors and kinds of brake, and asks for the mass on the driver's card.
    pub fn compare(&self, rt: &HostRuntime, sheet: &mut Sheet) -> io::Result<()> {
        let stock = &self.measured;
        let mut calls = [
            ask(stock, F, stop(0, 600, 10)),
            ask(stock, F, stop(0, 600, 7)),
            ask(stock, P, stop(0, 600, 10)),
            ask(stock, H, stop(0, 600, 10)),
            ask(stock, F, speed(0, 10)),
            ask(stock, F, speed(0, 7)),
            ask(stock, P, speed(0, 10)),
            ask(stock, H, speed(0, 10)),
            ask(stock, self.kind, mass(200, 600)),
            ask(stock, self.kind, mass(400, 600)),
            ask(stock, self.kind, mass(401, 600)),
        ];
        perform(sheet, &mut calls);
        tell_history(rt, "compared", sheet, stock, &calls)
    }

    /// The signal office sets the distance of its board, the train leaves its wagon behind, and its line is lifted.
    pub fn send_off(&self, rt: &HostRuntime, sheet: &mut Sheet) -> io::Result<()> {
        let stock = &self.measured;
        let mut calls = [
            Exchange::from(Call::SetDistance(300)),
            Exchange::from(Call::SetDistance(1500)),
            ask(stock, self.kind, stop(0, 600, 7)),
            ask(stock, self.kind, speed(0, 7)),
            Exchange::from(Call::Uncouple),
            ask(stock, self.kind, stop(0, 600, 7)),
            ask(stock, self.kind, speed(0, 7)),
            Exchange::from(Call::Lift),
            ask(stock, self.kind, stop(0, 600, 7)),
            ask(stock, self.kind, speed(0, 7)),
            ask(stock, self.kind, mass(200, 600)),
        ];
        perform(sheet, &mut calls);
        tell_history(rt, "sent off", sheet, stock, &calls)
    }

    /// The next week begins with the file again, a wagon more and a longer line.
    pub fn read_again(
        &self,
        rt: &HostRuntime,
        sheet: &mut Sheet,
        file: &mut RunFile,
        text: &[u8],
    ) -> io::Result<()> {
        let stock = &self.measured;
        let mut calls = [
            Exchange::from(Call::Couple(VehicleFigures::new('W', 40, 10))),
            Exchange::from(Call::Couple(VehicleFigures::new('W', 800, 300))),
            Exchange::from(Call::Append(SectionFigures::straight(1000, -60))),
            ask(stock, self.kind, stop(2500, 100, 10)),
            ask(stock, self.kind, speed(2500, 10)),
            ask(stock, self.kind, mass(200, 600)),
        ];
        match file.perform(sheet, text, &mut calls) {
            Ok(()) => tell_history(rt, "read again", sheet, stock, &calls),
            Err(fault) => println!(rt; "{fault}"),
        }
    }
}

// Nine tenths of what a table says.
fn nine_tenths(table: PullTable) -> Scale<PullTable> {
    Scale::new(table, 90).unwrap()
}

// The table that the depot measured on the engine.
fn measured_table() -> PullTable {
    PullTable::new(&[
        PointFigures::new(0, 39_200),
        PointFigures::new(150, 31_700),
        PointFigures::new(400, 19_500),
    ])
    .unwrap()
}
