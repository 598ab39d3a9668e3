//! Lines of a name and a count.
ghost use Rattle.std.specs.Prelude.{◌≡◌, ◌++◌, map, OnOk};
ghost use Rattle.and_report.specs.Report as report;
ghost use Rattle.and_report.specs.Rows.{row_view};

use and_policy::NoMemory;
use std::alloc::Global;

/// A name and its count.
#[derive(Clone, Copy)]
pub(crate) struct Row {
    pub(crate) name: &'static str,
    pub(crate) count: u64,
}

/// The row of this name and count.
pub(crate) fn count_row(name: &'static str, count: u64) -> Row
    ensures { row_view result ≡ report.row name.now count }
{
    Row { name, count }
}

/// Puts the bytes at the end of the text.
pub(crate) fn put(text: &mut Vec<u8>, bytes: &[u8]) -> Result<(), NoMemory>
    ensures { OnOk result (text.new.items ≡ text.old.items ++ bytes.now) }
{
    text.extend_from_slice(bytes).map_err(|_| NoMemory)
}

/// Puts the line of a name and a count.
pub(crate) fn put_counted(
    alloc: Global,
    name: &str,
    count: u64,
    text: &mut Vec<u8>,
) -> Result<(), NoMemory>
    ensures { OnOk result (text.new.items ≡ text.old.items ++ report.counted name.now count) }
{
    match format!(in alloc; "{name} {count}\n") {
        Ok(line) => put(text, line.as_bytes()),
        Err(_) => Err(NoMemory),
    }
}

/// Puts the line of a row, where its count is not 0.
fn put_counted_if(alloc: Global, name: &str, count: u64, text: &mut Vec<u8>) -> Result<(), NoMemory>
    ensures { OnOk result (text.new.items ≡ text.old.items ++ report.counted_if name.now count) }
{
    if count == 0 {
        Ok(())
    } else {
        put_counted(alloc, name, count, text)
    }
}

/// Puts one line for each row.
#[tactic(auto, using(crate::proofs::Texts::after_both))]
pub(crate) fn put_rows(alloc: Global, rows: &[Row], text: &mut Vec<u8>) -> Result<(), NoMemory>
    ensures { OnOk result (text.new.items ≡ text.old.items ++ report.all_rows (map row_view rows.now)) }
{
    match rows {
        [] => Ok(()),
        [row, rest @ ..] => {
            put_counted(alloc, row.name, row.count, text)?;
            put_rows(alloc, rest, text)
        }
    }
}

/// Puts one line for each row whose count is not 0.
#[tactic(auto, using(crate::proofs::Texts::after_both))]
pub(crate) fn put_some_rows(alloc: Global, rows: &[Row], text: &mut Vec<u8>) -> Result<(), NoMemory>
    ensures { OnOk result (text.new.items ≡ text.old.items ++ report.some_rows (map row_view rows.now)) }
{
    match rows {
        [] => Ok(()),
        [row, rest @ ..] => {
            put_counted_if(alloc, row.name, row.count, text)?;
            put_some_rows(alloc, rest, text)
        }
    }
}
