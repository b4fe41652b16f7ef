// A measure in one flat list of numbers.

ghost use Rattle.std.specs.Prelude.{◌≡◌, ◌≢◌, ◌≤◌, ◌<◌, ◌+◌, ◌*◌, ◌++◌, ◌↔◌, IfOk, IsTrue, None, Some, drop, length, replicate, take};
ghost use Rattle.ml_progress.specs.Measure.{measure_at};
ghost use Rattle.ml_progress.specs.private.Tables.{IsRaised, table_of};

use crate::order::comes_before;
use ml_base::NoMemory;
use std::alloc::Global;
use std::marker::Model;

/// What each vertex has: a row of numbers, or the top. Contracts see the width of the rows, and the measure.
#[derive(Drop)]
pub(crate) struct Table {
    /// How many numbers a row has.
    width: usize,
    /// The rows of the vertices, one behind the other.
    numbers: Vec<u64>,
    /// Which vertices have the top. Their rows mean nothing.
    tops: Vec<bool>,
}

impl Model for Table {
    ghost use Rattle.std.specs.Prelude.{◌≡◌, ◌*◌, length};
    ghost use Rattle.ml_progress.specs.private.Tables.{TableRows, table_of};

    ghost Value = { TableRows };

    ghost view = { λ a. table_of a.width a.numbers.items a.tops.items };

    ghost invariant = { λ a. length a.numbers.items ≡ length a.tops.items * a.width };
}

/// The row that begins at `start`.
fn row_from(numbers: &[u64], start: usize, width: usize) -> &[u64]
    requires { start + width ≤ length numbers.now }
    ensures { result.now ≡ take width (drop start numbers.now) }
{
    &numbers[start..start + width]
}

/// Writes the row that begins at `start`.
fn write_row(numbers: &mut [u64], start: usize, row: &[u64])
    requires { start + length row.now ≤ length numbers.old }
    ensures { numbers.new ≡ take start numbers.old ++ (row.now ++ drop (length row.now) (drop start numbers.old)) }
{
    numbers[start..start + row.len()].copy_from_slice(row);
}

impl Table {
    /// The table in which each vertex has a row of zeros.
    pub(crate) fn new(alloc: Global, vertices: usize, width: usize) -> Result<Table, NoMemory>
        ensures wide { IfOk result (λ t. t.wide ≡ width) }
        ensures zeros { IfOk result (λ t. t.rows ≡ replicate vertices (Some (replicate width 0))) }
    {
        let count = vertices.checked_mul(width).ok_or(NoMemory)?;
        let numbers = vec![in alloc; 0; count]?;
        let tops = vec![in alloc; false; vertices]?;
        Ok(Table::of_parts(width, numbers, tops))
    }

    /// The table of these fields.
    fn of_parts(width: usize, numbers: Vec<u64>, tops: Vec<bool>) -> Table
        requires { length numbers.items ≡ length tops.items * width }
        ensures { result ≡ table_of width numbers.items tops.items }
    {
        Table {
            width,
            numbers,
            tops,
        }
    }

    /// Whether a vertex has the top.
    pub(crate) fn is_top(&self, vertex: usize) -> bool
        requires { vertex < length self.now.rows }
        ensures { IsTrue result ↔ (measure_at self.now.rows vertex ≡ None) }
    {
        self.tops[vertex]
    }

    /// The row of a vertex without the top.
    pub(crate) fn row(&self, vertex: usize) -> &[u64]
        requires low { vertex < length self.now.rows }
        requires listed { measure_at self.now.rows vertex ≢ None }
        ensures row { measure_at self.now.rows vertex ≡ Some result.now }
        ensures long { length result.now ≡ self.now.wide }
    {
        row_from(&self.numbers, vertex * self.width, self.width)
    }

    /// Gives a vertex this row, if what it has is below it. Says whether it is.
    pub(crate) fn raise(&mut self, vertex: usize, row: &[u64]) -> bool
        requires low { vertex < length self.old.rows }
        requires long { length row.now ≡ self.old.wide }
        ensures wide { self.new.wide ≡ self.old.wide }
        ensures raised { IsRaised (Some row.now) self.old.rows self.new.rows vertex result }
    {
        if self.is_top(vertex) || !comes_before(self.row(vertex), row) {
            return false;
        }
        let start = vertex * self.width;
        write_row(&mut self.numbers, start, row);
        true
    }

    /// Gives a vertex the top, if it hasn't. Says whether it has now first.
    pub(crate) fn raise_to_top(&mut self, vertex: usize) -> bool
        requires { vertex < length self.old.rows }
        ensures wide { self.new.wide ≡ self.old.wide }
        ensures raised { IsRaised None self.old.rows self.new.rows vertex result }
    {
        if self.tops[vertex] {
            return false;
        }
        self.tops[vertex] = true;
        true
    }
}
