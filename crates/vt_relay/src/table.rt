//! The text of a table: each line names a process, the first line the one that follows process 0.

ghost use Rattle.std.specs.Prelude.{◌≡◌, ◌≤◌, IfOk, IfErr, length, map};
ghost use Rattle.std.specs.Str.Lines.{lines};
ghost use Rattle.vt_key.specs.declared.limits.TheConstants.{MAX_PROCESSES};
ghost use Rattle.vt_relay.specs.inside.Table.{IsRefusedLine, IsRefusedTable, IsRefusedText, IsTable, IsTableOf, next_said};

use std::alloc::{AllocError, Global};
use std::str;
use thiserror::Error;
use vt_key::MAX_PROCESSES;
use vt_text::read_number;

/// Why a text is no table.
#[derive(Debug, Clone, Copy, PartialEq, Eq, Error)]
pub enum TableFault {
    /// Memory was refused.
    #[error("memory was refused")]
    Memory,
    /// It is no text in UTF-8.
    #[error("it isn't text")]
    NoText,
    /// It has so many lines.
    #[error("{0} lines, and there may be 1 to 65536")]
    Lines(usize),
    /// The line of this number, from 1, isn't a number.
    #[error("line {0}: it isn't a number")]
    NoNumber(usize),
    /// The line of this number names this process, which has no line.
    #[error("line {0}: there is no process {1}")]
    NoProcess(usize, u64),
}

/// The process that a line names, of so many. The line has this number.
fn next_of(count: usize, line: &str, number: usize) -> Result<u32, TableFault>
    requires few { count ≤ MAX_PROCESSES }
    ensures ok { IfOk result (λ next. next_said count line.now ≡ Some next) }
    ensures err { IfErr result (IsRefusedLine count line.now number) }
{
    let Some(next) = read_number(line.as_bytes()) else {
        return Err(TableFault::NoNumber(number));
    };
    if next >= count as u64 {
        return Err(TableFault::NoProcess(number, next));
    }
    Ok(next as u32)
}

/// The processes that these lines name.
fn table_of(alloc: Global, lines: &[&str]) -> Result<Vec<u32>, TableFault>
    requires few { length lines.now ≤ MAX_PROCESSES }
    ensures ok { IfOk result (λ table. IsTable (length lines.now) (map (λ line. line.now) lines.now) table.items) }
    ensures err { IfErr result (IsRefusedTable (map (λ line. line.now) lines.now)) }
{
    let mut table = Vec::new(alloc);
    for (index, line) in lines.iter().enumerate() {
        let next = next_of(lines.len(), line, index + 1)?;
        let Ok(()) = table.push(next) else {
            return Err(TableFault::Memory);
        };
    }
    Ok(table)
}

/// The lines of a text.
fn lines_of(alloc: Global, text: &str) -> Result<Vec<&str>, AllocError>
    ensures { IfOk result (λ all. map (λ line. line.now) all.items ≡ lines text.now) }
{
    text.lines().collect(alloc)
}

/// The table that a text gives: its lines name processes, as many as there are lines, by numbers from 0.
///
/// The fault is the first one, line by line. [`TableFault::Memory`]: memory was refused.
pub fn read_table(alloc: Global, bytes: &[u8]) -> Result<Vec<u32>, TableFault>
    ensures ok { IfOk result (λ table. IsTableOf bytes.now table.items) }
    ensures few { IfOk result (λ table. length table.items ≤ MAX_PROCESSES) }
    ensures err { IfErr result (IsRefusedText bytes.now) }
{
    let Ok(text) = str::from_utf8(bytes) else {
        return Err(TableFault::NoText);
    };
    let Ok(lines) = lines_of(alloc, text) else {
        return Err(TableFault::Memory);
    };
    if lines.len() < 1 || lines.len() > MAX_PROCESSES as usize {
        return Err(TableFault::Lines(lines.len()));
    }
    table_of(alloc, lines.as_slice())
}
