//! Makes the program's top call for each worked row of its standard input, over a source and sinks in memory. It writes
//! what came of each call that differs from its row, and each line that it can't read, and then how many rows and calls
//! there were. How a row is written stands at the head of the rows.
#![tactic(auto)]

mod call;
mod octets;
mod row;
mod table;

use anyhow::Result;
use call::difference;
use table::Table;

fn main(rt: HostRuntime) -> Result<()> {
    let alloc = rt.alloc();
    let mut table = Table::new(alloc);
    let mut differ = 0u64;
    for line in rt.lines(alloc) {
        let line = line?;
        if let Err(error) = table.take(alloc, line.as_str()) {
            differ = differ.saturating_add(1);
            println!(rt; "{line}\n  {error}")?;
        }
    }
    let mut calls = 0u64;
    for row in &table.rows {
        for cut in row.cuts() {
            calls = calls.saturating_add(1);
            if let Some(shown) = difference(&rt, alloc, row, *cut)? {
                differ = differ.saturating_add(1);
                println!(rt; "{}, cut {cut}\n  {shown}", row.name)?;
            }
        }
    }
    println!(rt; "{} rows, {calls} calls, {differ} differ", table.rows.len())?;
    Ok(())
}
