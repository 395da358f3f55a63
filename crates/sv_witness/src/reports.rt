//! The reports that are kept: which client gave which values for each position above the commit.
ghost use Rattle.std.specs.Prelude.{◌≡◌, ℕ, ◌<◌, ◌≤◌, ◌||◌, [], ◌∷◌, length, reverse, slice_index_or, OnOk};
ghost use Rattle.std.specs.List.{list_any, AllByRecursion};
ghost use Rattle.sv_wire.specs.declared.message.Done1.{Done1};
ghost use Rattle.sv_journal.specs.History.{reported};
ghost use Rattle.sv_witness.specs.Reports.{is_by, gives, is_nothing};
ghost use Rattle.sv_witness.specs.Kept.{no_row, kept_at, HasRoomFor, AreOnce, report_by, with_values, agrees};

use crate::report::Report;
use std::alloc::{AllocError, Global};
use std::marker::Model;
use sv_client::are_same_values;
use sv_wire::Done1;
use sv_world::{ClientId, Value};

/// The reports of one position.
#[derive(Debug, Drop)]
pub struct Row {
    reports: Vec<Report>,
}

impl Model for Row {
    ghost use Rattle.std.specs.Prelude.{◌-◌, reverse, vec_len, vec_capacity};
    ghost use Rattle.std.specs.Coded.{codes};
    ghost use Rattle.sv_witness.specs.contracts.report.Report as report;
    ghost use Rattle.sv_witness.specs.Kept.{RowView};

    ghost Value = { RowView };

    ghost coded = { Prim.hlevel (codes, report.the_row.coded) };

    ghost view = { λ a. record { reports = reverse a.reports.items; spare = vec_capacity a.reports - vec_len a.reports } };
}

impl Row {
    /// A row without reports, which takes no memory.
    fn new(alloc: Global) -> Row
        ensures { result ≡ no_row }
    {
        Row {
            reports: Vec::new(alloc),
        }
    }

    /// The reports in the order in which they came.
    fn in_order(&self) -> &[Report]
        ensures { result.now ≡ reverse self.now.reports }
    {
        self.reports.as_slice()
    }

    /// Makes room for one more report.
    fn reserve(&mut self) -> Result<(), AllocError>
        ensures reports { self.new.reports ≡ self.old.reports }
        ensures spare { self.old.spare ≤ self.new.spare }
        ensures ok { OnOk result (0 < self.new.spare) }
    {
        self.reports.reserve(1)
    }

    /// Adds a report. It takes no memory.
    fn push(&mut self, report: Report)
        requires { 0 < self.old.spare }
        ensures { self.new.reports ≡ report ∷ self.old.reports }
    {
        self.reports.push_reserved(report);
    }
}

/// The reports of all positions above the commit, each position's in the row at its place. The first row is of no position.
#[derive(Debug, Drop)]
pub struct Reports {
    alloc: Global,
    rows: Vec<Row>,
}

impl Model for Reports {
    ghost use Rattle.std.specs.Prelude.{List};
    ghost use Rattle.std.specs.Coded.{codes};
    ghost use Rattle.sv_witness.specs.contracts.report.Report as report;
    ghost use Rattle.sv_witness.specs.Kept.{RowView};

    ghost Value = { List RowView };

    ghost coded = { Prim.hlevel (codes, report.the_row.coded) };

    ghost view = { λ a. a.rows.items };
}

impl Reports {
    /// No reports, which take no memory.
    pub fn new(alloc: Global) -> Reports
        ensures { result ≡ [] }
    {
        Reports {
            alloc,
            rows: Vec::new(alloc),
        }
    }

    /// The reports of a position, in the order in which they came.
    pub fn of(&self, pos: u32) -> &[Report]
        ensures { result.now ≡ reverse (kept_at self.now pos) }
    {
        let place = pos as usize;
        if place < self.rows.len() {
            let row = &self.rows[place];
            return row.in_order();
        }
        &[]
    }

    /// Whether a client has reported a position.
    pub fn has_reported(&self, pos: u32, client: u16) -> bool
        ensures { result ≡ list_any (is_by client) (kept_at self.now pos) }
    {
        is_any_by(self.of(pos), client)
    }

    /// Whether values that a client gives for a position agree: a report gives them too, or they are none.
    pub fn agrees(&self, pos: u32, values: &[Value]) -> bool
        ensures { result ≡ agrees (kept_at self.now pos) values.now }
    {
        is_nothing(values) || are_given(self.of(pos), values)
    }

    /// Makes room for one more report of a position.
    pub fn reserve(&mut self, pos: u32) -> Result<(), AllocError>
        ensures same { (p : ℕ) → kept_at self.new p ≡ kept_at self.old p }
        ensures room { (p : ℕ) → HasRoomFor self.old p → HasRoomFor self.new p }
        ensures ok { OnOk result (HasRoomFor self.new pos) }
    {
        reserve_at(self.alloc, &mut self.rows, pos as usize)
    }

    /// Adds a report of a position. It takes no memory.
    pub fn add(&mut self, pos: u32, report: Report)
        requires { HasRoomFor self.old pos }
        ensures added { kept_at self.new pos ≡ report ∷ kept_at self.old pos }
        ensures others { (p : ℕ) → (p ≡ pos → ⊥) → slice_index_or self.new p no_row ≡ slice_index_or self.old p no_row }
    {
        add_at(&mut self.rows, pos as usize, report);
    }

    /// Lets go of the reports of the positions above the first up to the second, which are committed.
    pub fn forget(&mut self, first: u32, last: u32)
        ensures { (p : ℕ) → last < p → kept_at self.new p ≡ kept_at self.old p }
    {
        clear_rows(self.alloc, &mut self.rows, first as usize, last as usize);
    }
}

/// Makes rows without reports until there are so many.
fn make_rows(alloc: Global, rows: &mut Vec<Row>, count: usize) -> Result<(), AllocError>
    ensures same { (p : ℕ) → slice_index_or rows.new.items p no_row ≡ slice_index_or rows.old.items p no_row }
    ensures ok { OnOk result (count ≤ length rows.new.items) }
{
    for _ in rows.len()..count {
        rows.push(Row::new(alloc))?;
    }
    Ok(())
}

fn reserve_at(alloc: Global, rows: &mut Vec<Row>, place: usize) -> Result<(), AllocError>
    requires { place < 4294967296 }
    ensures same { (p : ℕ) → kept_at rows.new.items p ≡ kept_at rows.old.items p }
    ensures room { (p : ℕ) → HasRoomFor rows.old.items p → HasRoomFor rows.new.items p }
    ensures ok { OnOk result (HasRoomFor rows.new.items place) }
{
    make_rows(alloc, rows, place + 1)?;
    let row = &mut rows[place];
    row.reserve()
}

fn add_at(rows: &mut Vec<Row>, place: usize, report: Report)
    requires { HasRoomFor rows.old.items place }
    ensures added { kept_at rows.new.items place ≡ report ∷ kept_at rows.old.items place }
    ensures others { (p : ℕ) → (p ≡ place → ⊥) → slice_index_or rows.new.items p no_row ≡ slice_index_or rows.old.items p no_row }
{
    let row = &mut rows[place];
    row.push(report);
}

/// Empties the rows above the first place up to the last.
fn clear_rows(alloc: Global, rows: &mut Vec<Row>, first: usize, last: usize)
    requires { last < 4294967296 }
    ensures { (p : ℕ) → last < p → slice_index_or rows.new.items p no_row ≡ slice_index_or rows.old.items p no_row }
{
    for before in first..last {
        let place = before + 1;
        if place < rows.len() {
            rows[place] = Row::new(alloc);
        }
    }
}

fn is_nothing(values: &[Value]) -> bool
    ensures { result ≡ is_nothing values.now }
{
    let [_first, _rest @ ..] = values else {
        return true;
    };
    false
}

/// Whether a client has one of the reports.
fn is_any_by(reports: &[Report], client: u16) -> bool
    ensures { result ≡ list_any (is_by client) reports.now }
{
    let [first, rest @ ..] = reports else {
        return false;
    };
    first.client.0 == client || is_any_by(rest, client)
}

/// Whether one of the reports gives these values.
fn are_given(reports: &[Report], values: &[Value]) -> bool
    ensures { result ≡ list_any (gives values.now) reports.now }
{
    let [first, rest @ ..] = reports else {
        return false;
    };
    are_same_values(first.values.as_slice(), values) || are_given(rest, values)
}

/// Makes room for a report of each result's position.
pub fn reserve_all(reports: &mut Reports, results: &[Done1]) -> Result<(), AllocError>
    ensures same { (p : ℕ) → kept_at reports.new p ≡ kept_at reports.old p }
    ensures room { (p : ℕ) → HasRoomFor reports.old p → HasRoomFor reports.new p }
    ensures ok { OnOk result (AllByRecursion (λ (d : Done1). HasRoomFor reports.new d.pos) results.now) }
{
    let [first, rest @ ..] = results else {
        return Ok(());
    };
    reports.reserve(first.pos)?;
    reserve_all(reports, rest)
}

/// Keeps a client's results as its reports. It takes no memory.
pub fn add_all(reports: &mut Reports, client: u16, results: Vec<Done1>)
    requires once { AreOnce results.items }
    requires room { AllByRecursion (λ (d : Done1). HasRoomFor reports.old d.pos) results.items }
    ensures { (p : ℕ) → kept_at reports.new p ≡ with_values client (reported p results.items) (kept_at reports.old p) }
{
    let mut left = results.into_iter();
    while let Some(found) = left.next() {
        add_result(reports, client, found);
    }
}

fn add_result(reports: &mut Reports, client: u16, found: Done1)
    requires { HasRoomFor reports.old found.pos }
    ensures added { kept_at reports.new found.pos ≡ report_by client found.values ∷ kept_at reports.old found.pos }
    ensures others { (p : ℕ) → (p ≡ found.pos → ⊥) → slice_index_or reports.new p no_row ≡ slice_index_or reports.old p no_row }
{
    let Done1 { pos, values } = found;
    let report = Report {
        client: ClientId(client),
        values,
    };
    reports.add(pos, report);
}
