// The rows, line by line.
use crate::octets::Values;
use crate::row::Row;
use anyhow::{Context, Result};
use std::alloc::Global;

/// The rows that were read, and the values that have names.
#[derive(Drop)]
pub struct Table {
    pub rows: Vec<Row>,
    values: Values,
}

impl Table {
    pub fn new(alloc: Global) -> Table {
        Table {
            rows: Vec::new(alloc),
            values: Values::new(alloc),
        }
    }

    /// Takes a further line. An empty one, and one that begins with `#`, say nothing.
    pub fn take(&mut self, alloc: Global, line: &str) -> Result<()> {
        if line.is_empty() || line.starts_with('#') {
            return Ok(());
        }
        let (field, text) = line.split_once(':').context("a colon is missing")?;
        let text = text.trim();
        if let Some(name) = field.strip_prefix("value ") {
            return self.values.define(alloc, name, text);
        }
        if field == "name" {
            self.rows.push(Row::new(alloc, text.to_string(alloc)?))?;
            return Ok(());
        }
        let row = self.rows.last_mut().context("a name has to come first")?;
        row.take(alloc, &self.values, field, text)
    }
}
