//! Pieces of a text: the whole traces at the front of a window.
//!
//! A round is read piece after piece. Reading looks at no name and no verdict of the rounds before,
//! so a round can be read while several workers run another.

ghost use Rattle.std.specs.Prelude.{◌≡◌, ◌<◌, ◌≤◌};

use crate::rounds::Rounds;
use lb_feed::{Feed, LoadError, Window};
use lb_trace::{
    ColumnTable, RoundReader, Stopped, TraceError, first_line, has_line, is_plain, strip_bom,
    whole_traces,
};
use std::alloc::AllocError;

/// Why no more of a text was read into a round.
#[derive(Drop)]
pub(crate) enum Cut {
    /// It could not be read.
    Load(LoadError),
    /// Memory ran out.
    Refused(TraceError),
    /// A record of it, which is kept, is refused behind those of the round.
    Stopped(Vec<u8>),
    /// Its next piece has a quote.
    Quoted,
}

impl From<LoadError> for Cut {
    ghost use Rattle.lb_report.specs.declared.pieces.Cut.TheVariants.{Load};

    ghost from_gives = { λ cause e. e ≡ Load cause };

    fn from(cause: LoadError) -> Cut {
        Cut::Load(cause)
    }
}

impl Rounds<'_, '_> {
    ghost use Rattle.std.specs.Prelude.{false, true, length, take, IfErr, IfOk, OnOk};
    ghost use Rattle.csv.specs.Reading.{strip_bom};
    ghost use Rattle.lb_trace.specs.Chunks.{is_ended};
    ghost use Rattle.lb_trace.specs.Plain.{plain_records};
    ghost use Rattle.lb_trace.specs.Tables.{IsColumnTable};
    ghost use Rattle.lb_feed.specs.Windows.{HasTaken, IsLoadFault, IsWindow, left, text_in};
    ghost use Rattle.lb_report.specs.Pieces.{IsCutAt, IsFilling, IsOpenRound};

    /// Reads until the window begins with whole lines and one of them is not empty, or the feed is
    /// over. Returns how many bytes these lines have, or all bytes of the window where the feed is
    /// over.
    pub(crate) fn first_piece<F: Feed>(
        &self,
        feed: &mut F,
        window: &mut Window,
    ) -> Result<usize, LoadError>
        requires window { IsWindow window.old }
        requires failures { F.failures feed.old < u64.MAX }
        ensures window { OnOk result (IsWindow window.new) }
        ensures taken { OnOk result (HasTaken window.old window.new
            (left (F.coming feed.old) (F.given feed.old) (F.failures feed.old))
            (left (F.coming feed.new) (F.given feed.new) (F.failures feed.new))) }
        ensures within { IfOk result (λ count. count ≤ length (text_in window.new)) }
        ensures whole { IfOk result (λ count.
            window.new.is_over ≡ true → count ≡ length (text_in window.new)) }
        ensures ended { IfOk result (λ count. window.new.is_over ≡ false
            → is_ended (take count (text_in window.new)) ≡ true) }
        ensures line { IfOk result (λ count. window.new.is_over ≡ false
            → 0 < length (plain_records (strip_bom (take count (text_in window.new))))) }
        ensures err { IfErr result (IsLoadFault window.old
            (left (F.coming feed.old) (F.given feed.old) (F.failures feed.old))
            (left (F.coming feed.new) (F.given feed.new) (F.failures feed.new))) }
    {
        window.fill(feed)?;
        'pieces: loop {
            let count = self.next_piece(feed, window)?;
            if window.is_over() || has_line(strip_bom(&window.text()[..count])) {
                return Ok(count);
            }
            window.fill(feed)?;
        }
    }

    /// Reads until the window begins with whole traces, or the feed is over. Returns how many bytes
    /// these traces have, or all bytes of the window where the feed is over.
    fn next_piece<F: Feed>(&self, feed: &mut F, window: &mut Window) -> Result<usize, LoadError>
        requires window { IsWindow window.old }
        requires failures { F.failures feed.old < u64.MAX }
        ensures window { OnOk result (IsWindow window.new) }
        ensures taken { OnOk result (HasTaken window.old window.new
            (left (F.coming feed.old) (F.given feed.old) (F.failures feed.old))
            (left (F.coming feed.new) (F.given feed.new) (F.failures feed.new))) }
        ensures within { IfOk result (λ count. count ≤ length (text_in window.new)) }
        ensures whole { IfOk result (λ count.
            window.new.is_over ≡ true → count ≡ length (text_in window.new)) }
        ensures ended { IfOk result (λ count. window.new.is_over ≡ false
            → is_ended (take count (text_in window.new)) ≡ true) }
        ensures err { IfErr result (IsLoadFault window.old
            (left (F.coming feed.old) (F.given feed.old) (F.failures feed.old))
            (left (F.coming feed.new) (F.given feed.new) (F.failures feed.new))) }
    {
        'pieces: while !window.is_over() {
            let count = whole_traces(window.text());
            if count > 0 {
                return Ok(count);
            }
            window.fill(feed)?;
        }
        Ok(window.text().len())
    }

    /// Adds the next whole traces of a feed to a round, or all that is left of the feed.
    fn read_piece<F: Feed>(
        &self,
        feed: &mut F,
        window: &mut Window,
        table: &ColumnTable,
        round: &mut RoundReader,
    ) -> Result<(), Cut>
        requires window { IsWindow window.old }
        requires failures { F.failures feed.old < u64.MAX }
        requires table { IsColumnTable self.now.signature.now table.now }
        requires round { IsOpenRound self.now.signature.now round.old }
        ensures { IsFilling self.now.signature.now table.now window.old window.new
            (left (F.coming feed.old) (F.given feed.old) (F.failures feed.old))
            (left (F.coming feed.new) (F.given feed.new) (F.failures feed.new))
            round.old round.new result }
    {
        let count = self.next_piece(feed, window)?;
        let text = &window.text()[..count];
        if !is_plain(text) {
            return Err(Cut::Quoted);
        }
        if let Err(stopped) = round.add_lines(self.alloc, table, text) {
            return Err(self.cut_at(stopped));
        }
        window.let_go(count);
        Ok(())
    }

    /// The cut of a reading that stopped at a line.
    fn cut_at(&self, stopped: Stopped<'_>) -> Cut
        ensures { IsCutAt stopped.entry.rest.now result }
    {
        let Stopped { cause, rest } = stopped;
        if cause.number() == 0 {
            return Cut::Refused(cause);
        }
        match first_line(rest).to_vec(self.alloc) {
            Ok(record) => Cut::Stopped(record),
            Err(_) => Cut::Refused(TraceError::Memory(AllocError)),
        }
    }

    /// Adds whole traces of a feed to a round, until it is full or the feed is over.
    pub(crate) fn read_round<F: Feed>(
        &self,
        feed: &mut F,
        window: &mut Window,
        table: &ColumnTable,
        round: &mut RoundReader,
    ) -> Result<(), Cut>
        requires window { IsWindow window.old }
        requires failures { F.failures feed.old < u64.MAX }
        requires table { IsColumnTable self.now.signature.now table.now }
        requires round { IsOpenRound self.now.signature.now round.old }
        ensures { IsFilling self.now.signature.now table.now window.old window.new
            (left (F.coming feed.old) (F.given feed.old) (F.failures feed.old))
            (left (F.coming feed.new) (F.given feed.new) (F.failures feed.new))
            round.old round.new result }
    {
        self.read_piece(feed, window, table, round)?;
        'pieces: while !window.is_done() && !self.is_full(round, self.bytes_beside(window)) {
            self.read_piece(feed, window, table, round)?;
        }
        Ok(())
    }
}
