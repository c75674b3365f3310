//! A picture: a row for each element, in which Booleans are steps and integers labelled stretches.
//!
//! The row of an element has a gap where it is absent; nil is hatched, and the value of a fault is
//! red. A band marks the instant that decides.

use crate::marks::Shown;
use crate::page::Page;
use crate::verdict_line::push_verdict;
use crate::widths::digits;
use lb_csv::{Column, deciding};
use lb_history::Cell;
use lb_syntax::Kind;
use std::alloc::Global;

/// The number of the last instants that a picture has, unless another number is asked for.
pub(crate) const MOST_INSTANTS: u32 = 200;

/// The space round the picture, in pixels, as all lengths here.
const MARGIN: usize = 8;
/// The place at which the first row begins.
const TOP: usize = 48;
/// The height of a row.
const ROW: usize = 26;
/// The upper and the lower line of a row.
const HIGH: usize = 5;

const LOW: usize = 21;
/// The width of a character.
const CHARACTER: usize = 8;
/// The least width of an instant.
const LEAST: usize = 16;

/// The cells of the instants, one instant after another.
#[derive(Drop)]
pub(crate) struct Picture {
    cells: Vec<Cell>,
}

/// The layout of a picture.
#[derive(Clone, Copy)]
struct Frame {
    /// The numbers of instants and of elements.
    instants: usize,
    rows: usize,
    /// The place at which the first instant begins, and the width of each.
    left: usize,
    step: usize,
}

/// A stretch of instants at which an element holds the same cell.
#[derive(Clone, Copy)]
struct Stretch {
    cell: Cell,
    from: usize,
    to: usize,
}

/// The width of `characters` characters, in pixels.
fn text_width(characters: usize) -> usize {
    usize::saturating_add(usize::saturating_mul(characters, CHARACTER), 6)
}

/// Adds an attribute that is a number.
fn push_attribute(page: &mut Page, name: &str, n: usize) {
    page.push(" ");
    page.push(name);
    page.push("=\"");
    page.push_number(n as u64);
    page.push("\"");
}

/// Adds a text, with each character escaped that has a meaning of its own.
fn push_escaped(page: &mut Page, name: &str) {
    for b in name.as_bytes() {
        match *b {
            b'&' => page.push("&amp;"),
            b'<' => page.push("&lt;"),
            b'>' => page.push("&gt;"),
            b'"' => page.push("&quot;"),
            other => page.push_byte(other),
        }
    }
}

/// Adds a rectangle that begins at a place, without its colours.
fn push_box(page: &mut Page, x: usize, y: usize, width: usize, height: usize) {
    page.push("<rect");
    push_attribute(page, "x", x);
    push_attribute(page, "y", y);
    push_attribute(page, "width", width);
    push_attribute(page, "height", height);
}

impl Frame {
    /// The place at which an instant begins.
    fn x(&self, place: usize) -> usize {
        usize::saturating_add(self.left, usize::saturating_mul(place, self.step))
    }

    /// The place at which a row begins.
    fn y(&self, row: usize) -> usize {
        usize::saturating_add(TOP, usize::saturating_mul(row, ROW))
    }
}

impl Picture {
    /// A picture without an instant.
    pub(crate) fn new(alloc: Global) -> Picture {
        Picture {
            cells: Vec::new(alloc),
        }
    }

    /// Adds the cells of an instant.
    pub(crate) fn push(&mut self, page: &mut Page, cells: &[Cell]) {
        page.cut_if(self.cells.extend_from_slice(cells).is_err());
    }

    /// The cell of an element at an instant.
    fn cell(&self, frame: Frame, row: usize, place: usize) -> Cell {
        let at = usize::saturating_add(usize::saturating_mul(place, frame.rows), row);
        self.cells.get(at).copied().unwrap_or(Cell::Absent)
    }

    /// The stretch of an element that begins at an instant.
    fn stretch(&self, frame: Frame, row: usize, from: usize) -> Stretch {
        let cell = self.cell(frame, row, from);
        for to in usize::saturating_add(from, 1)..frame.instants {
            if self.cell(frame, row, to) != cell {
                return Stretch { cell, from, to };
            }
        }
        Stretch {
            cell,
            from,
            to: frame.instants,
        }
    }

    /// The least width of an instant that has room for the labels of an element.
    fn least_step(&self, frame: Frame, row: usize) -> usize {
        let mut least = LEAST;
        let mut from = 0;
        for _ in 0..frame.instants {
            let Stretch { cell, to, .. } = self.stretch(frame, row, from);
            if let Cell::Integer(z) = cell {
                let sign = usize::from(z < 0);
                let count = usize::saturating_add(digits(u64::from(z.unsigned_abs())), sign);
                let places = to.saturating_sub(from).max(1);
                least = least.max(text_width(count).div_ceil(places));
            }
            from = to;
        }
        least
    }

    /// The layout of the picture.
    fn frame(&self, shown: &Shown) -> Frame {
        let rows = shown.columns.len();
        let instants = self.cells.len().checked_div(rows).unwrap_or(0);
        let mut characters = 0;
        for column in shown.columns {
            characters = usize::max(characters, column.name.len());
        }
        let mut frame = Frame {
            instants,
            rows,
            left: usize::saturating_add(MARGIN, text_width(characters)),
            step: LEAST,
        };
        for row in 0..rows {
            frame.step = frame.step.max(self.least_step(frame, row));
        }
        frame
    }

    /// Adds the box of a stretch, with its number for an integer. A Boolean or absent stretch has
    /// none.
    fn push_stretch(page: &mut Page, frame: Frame, row: usize, stretch: Stretch) {
        let colours = match stretch.cell {
            Cell::Absent | Cell::Boolean(_) => return,
            Cell::Nil => " fill=\"url(#nil)\"/>\n",
            Cell::Bad => " fill=\"#d22\"/>\n",
            Cell::Integer(_) => " fill=\"#eef\" stroke=\"#448\"/>\n",
        };
        let x = frame.x(stretch.from);
        let y = usize::saturating_add(frame.y(row), HIGH);
        let width = frame.x(stretch.to).saturating_sub(x);
        push_box(page, x, y, width, LOW - HIGH);
        page.push(colours);
        if let Cell::Integer(z) = stretch.cell {
            page.push("<text");
            push_attribute(page, "x", usize::saturating_add(x, width / 2));
            push_attribute(page, "y", usize::saturating_add(y, 13));
            page.push(" text-anchor=\"middle\">");
            page.push_integer(z);
            page.push("</text>\n");
        }
    }

    /// Adds the line of an element along its Booleans.
    fn push_steps(&self, page: &mut Page, frame: Frame, row: usize) {
        page.push("<path fill=\"none\" stroke=\"#161\" stroke-width=\"2\" d=\"");
        let mut is_open = false;
        let mut from = 0;
        for _ in 0..frame.instants {
            let Stretch { cell, to, .. } = self.stretch(frame, row, from);
            if let Cell::Boolean(b) = cell {
                let y = usize::saturating_add(frame.y(row), if b { HIGH } else { LOW });
                if is_open {
                    page.push("V");
                } else {
                    page.push("M");
                    page.push_number(frame.x(from) as u64);
                    page.push(" ");
                }
                page.push_number(y as u64);
                page.push("H");
                page.push_number(frame.x(to) as u64);
            }
            is_open = matches!(cell, Cell::Boolean(_));
            from = to;
            if from >= frame.instants {
                break;
            }
        }
        page.push("\"/>\n");
    }

    /// Adds the row of an element.
    fn push_row(&self, page: &mut Page, frame: Frame, row: usize, column: &Column) {
        page.push("<text");
        push_attribute(page, "x", MARGIN);
        push_attribute(page, "y", usize::saturating_add(frame.y(row), 18));
        page.push(">");
        push_escaped(page, column.name.as_str());
        page.push("</text>\n");
        let mut from = 0;
        for _ in 0..frame.instants {
            let stretch = self.stretch(frame, row, from);
            Picture::push_stretch(page, frame, row, stretch);
            from = stretch.to;
            if from >= frame.instants {
                break;
            }
        }
        match column.kind {
            Kind::Bool => self.push_steps(page, frame, row),
            Kind::Int => {}
        }
    }

    /// Adds the numbers of instants, as many as fit.
    fn push_instants(page: &mut Page, frame: Frame, shown: &Shown) {
        let longest = text_width(digits(u64::from(shown.end)));
        let each = longest.div_ceil(frame.step.max(1)).max(1);
        for place in 0..frame.instants {
            let t = u64::from(shown.first).saturating_add(place as u64);
            let decides = deciding(shown.marks.verdict).map(u64::from) == Some(t);
            if place % each != 0 && !decides {
                continue;
            }
            page.push("<text");
            let half = frame.step / 2;
            push_attribute(page, "x", usize::saturating_add(frame.x(place), half));
            push_attribute(page, "y", if decides { TOP - 1 } else { TOP - 12 });
            page.push(" text-anchor=\"middle\"");
            page.push(if decides {
                " fill=\"#b00\">"
            } else {
                " fill=\"#666\">"
            });
            page.push_number(t);
            page.push("</text>\n");
        }
    }

    /// Adds the band of the instant that decides.
    fn push_band(page: &mut Page, frame: Frame, shown: &Shown) {
        let Some(t) = deciding(shown.marks.verdict) else {
            return;
        };
        let place = t.saturating_sub(shown.first) as usize;
        let height = usize::saturating_mul(frame.rows, ROW);
        push_box(page, frame.x(place), TOP, frame.step, height);
        page.push(" fill=\"#fd8\"/>\n");
    }

    /// Adds the whole picture.
    pub(crate) fn write(&self, page: &mut Page, shown: &Shown) {
        let frame = self.frame(shown);
        page.push(
            "<svg xmlns=\"http://www.w3.org/2000/svg\" font-family=\"monospace\" font-size=\"12\"",
        );
        let title = usize::saturating_add(shown.trace.len(), 24);
        let width = frame.x(frame.instants).max(text_width(title));
        push_attribute(page, "width", usize::saturating_add(width, MARGIN));
        push_attribute(
            page,
            "height",
            usize::saturating_add(frame.y(frame.rows), MARGIN),
        );
        page.push(
            ">\n<defs><pattern id=\"nil\" width=\"6\" height=\"6\" patternUnits=\"userSpaceOnUse\">\
             <path d=\"M0 6L6 0\" stroke=\"#888\"/></pattern></defs>\n\
             <rect width=\"100%\" height=\"100%\" fill=\"#fff\"/>\n<text",
        );
        push_attribute(page, "x", MARGIN);
        page.push(" y=\"18\" font-weight=\"bold\">");
        push_verdict(page, shown.trace, shown.marks.verdict);
        page.push("</text>\n");
        Picture::push_band(page, frame, shown);
        Picture::push_instants(page, frame, shown);
        for (row, column) in shown.columns.iter().enumerate() {
            self.push_row(page, frame, row, column);
        }
        page.push("</svg>\n");
    }
}
