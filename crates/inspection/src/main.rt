// One train through its week, from its run file on: read, pulled by a table measured on the engine, inspected, compared, sent off and
// read again. Each call is printed with its reply, a refused one with its number, and after each history the sheet.
#![tactic(auto)]

mod calls;
mod show;
mod telling;
mod week;

use runfile::RunFile;
use sheet::Sheet;
use show::{show_file, show_sheet};
use std::io::{self, Read};
use week::Week;

// The bytes of the longest run file, and one more by which a longer one is told.
const MOST_READ: usize = 65_537;

fn main(rt: HostRuntime) -> io::Result<()> {
    let mut text = Vec::with_capacity(rt.alloc(), MOST_READ)?;
    rt.stdin().take(MOST_READ as u64).read_to_end(&mut text)?;
    let mut sheet = Sheet::new();
    let mut file = RunFile::new();
    println!(&rt; "new sheet")?;
    show_sheet(&rt, &sheet)?;
    println!(&rt; "read")?;
    if let Err(fault) = file.read(&mut sheet, &text) {
        return println!(&rt; "{fault}");
    }
    show_file(&rt, &file)?;
    show_sheet(&rt, &sheet)?;
    let Some(week) = Week::of(&file) else {
        return Ok(());
    };
    week.plan(&rt, &mut sheet, file.questions())?;
    week.measure(&rt, &mut sheet, file.questions())?;
    week.inspect(&rt, &mut sheet)?;
    week.compare(&rt, &mut sheet)?;
    week.send_off(&rt, &mut sheet)?;
    week.read_again(&rt, &mut sheet, &mut file, &text)
}
