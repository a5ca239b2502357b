//! The dictionary.
ghost use Rattle.std.specs.Prelude.{◌≡◌, ◌≢◌, ◌↔◌, ◌⊎◌, ℕ, ◌+◌, ◌-◌, ◌<◌, ◌≤◌, length, IfOk, slice_index, ℤ, pos};

use crate::NoMemory;
use crate::limits::MAX_ROWS;
use crate::lines::{Line, first_row_with, pivot_lines, with_sign};
use crate::loaded::LoadedRow;
use crate::places::Places;
use crate::slack_line::slack_line;
use criteria_model::{MAX_INCREMENTS, Row};
use std::alloc::Global;
use std::marker::Model;

/// A dictionary over the rows that were loaded.
///
/// Variables 1 to m are the increments minus 1, where m is the number of columns, and variable
/// m + i is the slack of row i. Row i says that its coefficients times the vector are at least its
/// `least`. Rows and columns are counted from 1.
#[derive(Drop)]
pub struct Dictionary {
    lines: Vec<Line>,
    // the variables of the columns, then 0 for the constant, then those of the rows
    places: Places,
    loaded: Vec<LoadedRow>,
    scale: i128,
    columns: u8,
    room_columns: u8,
    room_rows: u32,
    loads: u64,
    added: u64,
}

impl Model for Dictionary {
    ghost use Rattle.std.specs.Prelude.{vec_capacity};
    ghost use Rattle.fraction_free.specs.Dictionary.{DictionaryView};
    ghost use Rattle.fraction_free.specs.Representation.{IsRepresentation};

    ghost Value = { DictionaryView };

    ghost use Rattle.fraction_free.specs.View.{view_of};

    ghost view = { view_of };

    ghost invariant = { λ d. IsRepresentation (view_of d) d.places (vec_capacity d.lines) (vec_capacity d.loaded) };
}

impl Dictionary {
    ghost use Rattle.fraction_free.specs.Dictionary.{DictionaryView, IsDictionary, Satisfies, entry_in, constant_in, loaded_at};
    ghost use Rattle.fraction_free.specs.Changes.{empty_dictionary, next_count, AddsRow, IsPivoted, DropsRow, DropsLast};

    /// A dictionary with no rows, and with room for this many columns and rows.
    pub fn reserve(alloc: Global, cols: u8, rows: u32) -> Result<Dictionary, NoMemory>
        requires cols_some { 1 ≤ cols }
        requires cols_most { cols ≤ MAX_INCREMENTS }
        requires rows_most { rows ≤ MAX_ROWS }
        ensures empty { IfOk result (λ d. d ≡ empty_dictionary cols cols rows 0 0) }
        ensures dictionary { IfOk result (λ d. IsDictionary d) }
    {
        let room = usize::from(cols) + 1 + rows as usize;
        let mut places = Places::reserve(alloc, room)?;
        places.reset(cols);
        let lines = Vec::with_capacity(alloc, rows as usize)?;
        let loaded = Vec::with_capacity(alloc, rows as usize)?;
        Ok(Dictionary {
            lines,
            places,
            loaded,
            scale: 1,
            columns: cols,
            room_columns: cols,
            room_rows: rows,
            loads: 0,
            added: 0,
        })
    }

    /// Begins anew: no rows, and scale 1.
    pub fn load(&mut self, cols: u8)
        requires some { 1 ≤ cols }
        requires room { cols ≤ self.old.room_columns }
        ensures empty { self.new ≡ empty_dictionary cols self.old.room_columns self.old.room_rows (next_count self.old.loads) self.old.added }
        ensures dictionary { IsDictionary self.new }
    {
        self.lines.clear();
        self.loaded.clear();
        self.places.reset(cols);
        self.scale = 1;
        self.columns = cols;
        self.loads = self.loads.saturating_add(1);
    }

    /// One row more, whose slack is basic: the coefficients times the vector are at least `least`.
    pub fn add_row(&mut self, coefficients: &Row, least: i8)
        requires room { length self.old.loaded < self.old.room_rows }
        requires len { length coefficients.now ≡ self.old.columns }
        requires least { (least ≡ pos 0) ⊎ (least ≡ pos 1) }
        ensures added { AddsRow self.old self.new (record { coefficients = coefficients.now; least = least }) }
        ensures dictionary { IsDictionary self.new }
    {
        let line = slack_line(
            self.lines.as_slice(),
            &self.places,
            self.scale,
            self.columns,
            coefficients,
            least,
        );
        let _pushed = self.lines.push(line);
        let _pushed = self.loaded.push(LoadedRow {
            coefficients: *coefficients,
            least,
        });
        self.places.push();
        self.added = self.added.saturating_add(1);
    }

    /// Exchanges the basic variable of a row and the nonbasic variable of a column, at an entry
    /// that is not 0.
    pub fn pivot(&mut self, row: u32, col: u8)
        requires row_low { 1 ≤ row }
        requires row_high { row ≤ length self.old.loaded }
        requires col_low { 1 ≤ col }
        requires col_high { col ≤ self.old.columns }
        requires entry { entry_in self.old (row - 1) (col - 1) ≢ pos 0 }
        ensures pivoted { IsPivoted self.old self.new (row - 1) (col - 1) }
        ensures solutions { (x : ℕ → ℤ) → Satisfies self.new x ↔ Satisfies self.old x }
        ensures dictionary { IsDictionary self.new }
    {
        let at = row as usize - 1;
        let column = usize::from(col) - 1;
        let entry = pivot_lines(&mut self.lines, at, column, self.scale);
        self.scale = with_sign(entry, entry);
        self.places.swap(column, usize::from(self.columns) + 1 + at);
    }

    /// The last added row goes. Where its slack is nonbasic, it is first pivoted on the first row
    /// with an entry that is not 0.
    pub fn drop_last(&mut self)
        requires { 0 < length self.old.loaded }
        ensures dropped { DropsLast self.old self.new }
        ensures dictionary { IsDictionary self.new }
    {
        let columns = usize::from(self.columns);
        let place = self.places.place(columns + self.loaded.len());
        if place < columns {
            let row = first_row_with(self.lines.as_slice(), place);
            self.pivot(row as u32 + 1, place as u8 + 1);
            self.drop_row(row);
        } else {
            self.drop_row(place - columns - 1);
        }
    }

    /// The last added row goes, whose slack is basic in this row; the last line takes its place.
    fn drop_row(&mut self, row: usize)
        requires within { row < length self.old.loaded }
        requires slack { slice_index self.old.basic row ≡ self.old.columns + length self.old.loaded }
        ensures dropped { DropsRow self.old self.new row }
        ensures dictionary { IsDictionary self.new }
    {
        let rows = usize::from(self.columns) + 1;
        let last = self.lines.len() - 1;
        self.lines.swap(row, last);
        self.places.swap(rows + row, rows + last);
        let _line = self.lines.pop();
        let _row = self.loaded.pop();
        self.places.pop();
    }

    /// The number of rows.
    pub fn rows(&self) -> u32
        ensures value { result ≡ length self.now.loaded }
        ensures dictionary { IsDictionary self.now }
    {
        self.loaded.len() as u32
    }

    /// The number of columns, one for each increment.
    pub fn cols(&self) -> u8
        ensures value { result ≡ self.now.columns }
        ensures dictionary { IsDictionary self.now }
    {
        self.columns
    }

    /// The positive number by which each equation is multiplied.
    pub fn scale(&self) -> i128
        ensures value { result ≡ self.now.scale }
        ensures dictionary { IsDictionary self.now }
    {
        self.scale
    }

    /// How often `load` was called; it stands still at its last value.
    pub fn loads(&self) -> u64
        ensures { result ≡ self.now.loads }
    {
        self.loads
    }

    /// How often `add_row` was called; it stands still at its last value.
    pub fn added(&self) -> u64
        ensures { result ≡ self.now.added }
    {
        self.added
    }

    /// The number of a row at a column: what the nonbasic variable is multiplied by.
    pub fn entry(&self, row: u32, col: u8) -> i128
        requires row_low { 1 ≤ row }
        requires row_high { row ≤ length self.now.loaded }
        requires col_low { 1 ≤ col }
        requires col_high { col ≤ self.now.columns }
        ensures { result ≡ entry_in self.now (row - 1) (col - 1) }
    {
        let line = &self.lines[row as usize - 1];
        line.get(usize::from(col) - 1)
    }

    /// The constant of a row.
    pub fn constant(&self, row: u32) -> i128
        requires low { 1 ≤ row }
        requires high { row ≤ length self.now.loaded }
        ensures { result ≡ constant_in self.now (row - 1) }
    {
        let line = &self.lines[row as usize - 1];
        line.get(usize::from(self.columns))
    }

    /// The number of the variable that a row writes.
    pub fn basic(&self, row: u32) -> u32
        requires low { 1 ≤ row }
        requires high { row ≤ length self.now.loaded }
        ensures { result ≡ slice_index self.now.basic (row - 1) }
    {
        self.places.number(usize::from(self.columns) + row as usize)
    }

    /// The number of the variable of a column.
    pub fn nonbasic(&self, col: u8) -> u32
        requires low { 1 ≤ col }
        requires high { col ≤ self.now.columns }
        ensures { result ≡ slice_index self.now.nonbasic (col - 1) }
    {
        self.places.number(usize::from(col) - 1)
    }

    /// The coefficients and the least of the row that was added as that number.
    pub fn loaded(&self, row: u32) -> (Row, i8)
        requires low { 1 ≤ row }
        requires high { row ≤ length self.now.loaded }
        ensures coefficients { result.0 ≡ (loaded_at self.now.loaded (row - 1)).coefficients }
        ensures least { result.1 ≡ (loaded_at self.now.loaded (row - 1)).least }
    {
        let loaded = &self.loaded[row as usize - 1];
        (loaded.coefficients, loaded.least)
    }
}
