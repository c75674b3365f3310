//! The values of one recorded trace, part by part.

ghost use Rattle.std.specs.Prelude.{◌≡◌, ◌≢◌, ◌<◌, ◌≤◌, ℕ, length, IfSome};
ghost use Rattle.lb_traces.specs.Traces.{trace_at};

use crate::error::ShowError;
use crate::marks::{Marks, Shown};
use crate::options::{Format, ShowOptions};
use crate::page::Page;
use crate::signals::{Signals, signals_of};
use crate::svg::{MOST_INSTANTS, Picture};
use crate::table::{Block, push_title};
use crate::vcd::Dump;
use lb_check::{Checked, Verdict};
use lb_csv::{Column, CsvText, Player, deciding, end_at, first_at, trace_named};
use lb_flat::{FlatProgram, Ordered, eval_trace};
use lb_history::Cell;
use lb_traces::TraceSet;
use std::alloc::{AllocError, Global};
use std::mem::replace;

/// A painter, which takes the instants that are shown, one after another.
#[derive(Drop)]
enum Painter {
    Table(Block),
    Vcd(Dump),
    Svg(Picture),
}

impl Painter {
    /// Adds the text before the first instant.
    fn begin(&mut self, alloc: Global, page: &mut Page, shown: &Shown) {
        match self {
            Painter::Table(_) => push_title(page, shown),
            Painter::Vcd(dump) => dump.push_header(alloc, page, shown),
            Painter::Svg(_) => {}
        }
    }

    /// Adds the cells of an instant.
    fn push(&mut self, page: &mut Page, shown: &Shown, t: u32, cells: &[Cell]) {
        match self {
            Painter::Table(block) => block.push(page, shown, t, cells),
            Painter::Vcd(dump) => dump.push_instant(page, shown, t, cells),
            Painter::Svg(picture) => picture.push(page, cells),
        }
    }

    /// Adds the text that is left at the end.
    fn end(&mut self, page: &mut Page, shown: &Shown) {
        match self {
            Painter::Table(block) => block.write(page, shown),
            Painter::Vcd(dump) => dump.push_end(page, shown),
            Painter::Svg(picture) => picture.write(page, shown),
        }
    }
}

/// The subject of a text that is painted.
#[derive(Drop)]
struct Subject<'a> {
    trace: &'a str,
    program: &'a FlatProgram,
    verdict: Verdict,
    columns: Vec<Column>,
    signals: Signals,
    /// The first instant that is shown, and the instant behind the last.
    first: u32,
    end: u32,
}

impl<'a> Subject<'a> {
    /// The data of what is painted.
    fn shown(&self) -> Shown<'_> {
        Shown {
            trace: self.trace,
            marks: Marks {
                program: self.program,
                verdict: self.verdict,
            },
            columns: self.columns.as_slice(),
            signals: &self.signals,
            first: self.first,
            end: self.end,
        }
    }
}

/// A text that is painted, part by part.
#[derive(Drop)]
struct Painting<'a> {
    alloc: Global,
    subject: Subject<'a>,
    player: Player<'a>,
    /// The cells of the latest instant.
    cells: Vec<Cell>,
    painter: Painter,
    is_begun: bool,
}

impl<'a> Painting<'a> {
    ghost use Rattle.std.specs.Prelude.{◌+◌, true, false, Ok};
    ghost use Rattle.lb_csv.specs.Players.{next_played};
    ghost use Rattle.lb_show.specs.Paintings.{instants_left, parts_left};

    /// Paints the next instant.
    fn paint_instant(&mut self, page: &mut Page)
        requires { next_played self.old.player < self.old.player.end }
        ensures fewer { instants_left self.new < instants_left self.old }
        ensures begun { self.new.is_begun ≡ self.old.is_begun }
    {
        let shown = self.subject.shown();
        let t = self.player.next();
        self.player.advance();
        let read = self.player.read(shown.columns, &mut self.cells);
        page.cut_if(read.is_err());
        self.painter.push(page, &shown, t, self.cells.as_slice());
    }

    /// Paints instants until a part is full, at least one.
    fn paint_instants(&mut self, page: &mut Page)
        requires { next_played self.old.player < self.old.player.end }
        ensures fewer { instants_left self.new < instants_left self.old }
        ensures begun { self.new.is_begun ≡ self.old.is_begun }
    {
        self.paint_instant(page);
        'instants: while self.player.has_next() && !page.is_full() {
            self.paint_instant(page);
        }
    }

    /// Paints the next part, and returns whether more is left: first the text before the first
    /// instant, then instants, and then the text at the end.
    fn paint(&mut self, page: &mut Page) -> bool
        ensures { result ≡ true → parts_left self.new < parts_left self.old }
    {
        if !self.is_begun {
            self.painter.begin(self.alloc, page, &self.subject.shown());
            self.is_begun = true;
            return true;
        }
        if !self.player.has_next() {
            self.painter.end(page, &self.subject.shown());
            return false;
        }
        self.paint_instants(page);
        true
    }

    /// Adds the next part of the text, and returns whether more is left.
    fn write(&mut self, text: &mut Vec<u8>) -> Result<bool, AllocError>
        ensures { result ≡ Ok true → parts_left self.new < parts_left self.old }
    {
        let mut page = Page::of(replace(text, Vec::new(self.alloc)));
        let is_more = self.paint(&mut page);
        *text = page.whole()?;
        Ok(is_more)
    }
}

/// The text, by its format.
#[derive(Drop)]
enum Text<'a> {
    Csv(CsvText<'a>),
    Painted(Painting<'a>),
}

/// The values of one trace of a program, instant by instant up to the one that decides its verdict,
/// or to the end where it passed: a text that is written part by part. It holds the cells of one
/// instant in memory; for a picture it holds all that are shown.
///
/// ```text
/// let mut show = Show::new(alloc, source, &checked, &ordered, &set, &options)?;
/// let mut text = Vec::new(alloc);
/// while show.write(&mut text)? {
///     send(sink, &text)?;
///     text.clear();
/// }
/// send(sink, &text)?;
/// ```
pub struct Show<'a> {
    text: Text<'a>,
}

// Not derived, so that a caller drops it in one step.
impl Drop for Show<'_> {
    fn drop(self) {
        let Show { text: _ } = self;
    }
}

/// The cells of the elements that are shown, at the instant before `end`.
fn last_cells(
    alloc: Global,
    ordered: &Ordered,
    set: &TraceSet,
    k: u32,
    end: u32,
    columns: &[Column],
) -> Result<Vec<Cell>, AllocError>
    requires trace { k < length set.now.traces }
    requires end { end ≤ length (trace_at set.now.traces k).1 }
{
    let player = Player::new(alloc, ordered, set, k, end, end)?;
    let mut cells = Vec::new(alloc);
    player.read(columns, &mut cells)?;
    Ok(cells)
}

/// The number of the last instants that are shown; `None` for all.
fn last_of(options: &ShowOptions<'_>) -> Option<u32>
    ensures { options.now.format ≡ Format.Csv → result ≡ options.now.last }
{
    match options.format {
        Format::Svg => Some(options.last.unwrap_or(MOST_INSTANTS)),
        Format::Table | Format::Csv | Format::Vcd => options.last,
    }
}

/// The painter of a format. Comma-separated values have none. `last` has the cells of the last
/// instant; only a value change dump asks for them.
fn painter_of(alloc: Global, format: Format, last: Vec<Cell>) -> Option<Painter>
    ensures { IfSome result (λ painter. format ≢ Format.Csv) }
{
    match format {
        Format::Csv => None,
        Format::Table => Some(Painter::Table(Block::new(alloc))),
        Format::Vcd => Some(Painter::Vcd(Dump::new(alloc, last))),
        Format::Svg => Some(Painter::Svg(Picture::new(alloc))),
    }
}

impl<'a> Show<'a> {
    ghost use Rattle.std.specs.Prelude.{◌++◌, ◌-◌, true, false, [], Ok, Err, IfOk, OnOk};
    ghost use Rattle.lb_csv.specs.CsvTexts.{header, records};
    ghost use Rattle.lb_csv.specs.Players.{inputs_played, next_played, program_played};
    ghost use Rattle.lb_csv.specs.Shown.{names_of, numbers_of};
    ghost use Rattle.lb_flat.specs.Programs.{program_of};
    ghost use Rattle.lb_show.specs.Shows.{IsCsvOf, csv_rest, is_csv, parts_left};

    /// The values that the options ask for, of a program whose text is `source`, on these traces.
    ///
    /// Elements come in the order of their variables among those of the node, an array's first
    /// index slowest. Fails where the name of the trace, or of a variable, is unknown.
    pub fn new(
        alloc: Global,
        source: &[u8],
        checked: &Checked,
        ordered: &'a Ordered,
        set: &'a TraceSet,
        options: &ShowOptions<'a>,
    ) -> Result<Show<'a>, ShowError>
        ensures csv { options.now.format ≡ Format.Csv → IfOk result (λ show.
            (is_csv show ≡ true)
            × IsCsvOf (program_of ordered.now.program) set.now options.now (csv_rest show)) }
        ensures unknown { result ≡ Err ShowError.UnknownTrace → (k : ℕ) →
            k < length set.now.traces →
            (trace_at set.now.traces k).0 ≢ options.now.trace.now }
    {
        let Some(k) = trace_named(set, options.trace) else {
            return Err(ShowError::UnknownTrace);
        };
        let signals = signals_of(alloc, source, checked.elab())?;
        let columns = signals.columns(alloc, options.selection)?;
        let verdict = eval_trace(alloc, ordered, set, k)?;
        let end = end_at(deciding(verdict), set.length(k));
        let first = first_at(last_of(options), end);
        let player = Player::new(alloc, ordered, set, k, first, end)?;
        let last = match options.format {
            Format::Vcd => last_cells(alloc, ordered, set, k, end, columns.as_slice())?,
            _ => Vec::new(alloc),
        };
        match painter_of(alloc, options.format, last) {
            None => Ok(Show::csv(alloc, player, columns)),
            Some(painter) => {
                let subject = Subject {
                    trace: options.trace,
                    program: &ordered.program,
                    verdict,
                    columns,
                    signals,
                    first,
                    end,
                };
                Ok(Show::painted(alloc, player, subject, painter))
            }
        }
    }

    /// Comma-separated values.
    fn csv(alloc: Global, player: Player<'a>, columns: Vec<Column>) -> Show<'a>
        ensures csv { is_csv result ≡ true }
        ensures rest { csv_rest result ≡ header (names_of columns.items)
            ++ records (program_played player.entry) (inputs_played player.entry)
            (numbers_of columns.items) (next_played player.entry)
            (player.entry.end - next_played player.entry) }
    {
        Show {
            text: Text::Csv(CsvText::new(alloc, player, columns)),
        }
    }

    /// A text that is painted.
    fn painted(
        alloc: Global,
        player: Player<'a>,
        subject: Subject<'a>,
        painter: Painter,
    ) -> Show<'a> {
        Show {
            text: Text::Painted(Painting {
                alloc,
                subject,
                player,
                cells: Vec::new(alloc),
                painter,
                is_begun: false,
            }),
        }
    }

    /// Adds the next part of the text, which ends once the text has 64 KiB, and returns whether
    /// more is left. Once nothing is left, it is not called again.
    pub fn write(&mut self, text: &mut Vec<u8>) -> Result<bool, AllocError>
        ensures kept { is_csv self.new ≡ is_csv self.old }
        ensures csv { is_csv self.old ≡ true → OnOk result
            (text.old.items ++ csv_rest self.old ≡ text.new.items ++ csv_rest self.new) }
        ensures all { is_csv self.old ≡ true → result ≡ Ok false → csv_rest self.new ≡ [] }
        ensures fewer { result ≡ Ok true → parts_left self.new < parts_left self.old }
    {
        match &mut self.text {
            Text::Csv(csv) => csv.write(text),
            Text::Painted(painting) => painting.write(text),
        }
    }
}
