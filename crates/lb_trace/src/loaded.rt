//! A text that is loaded in chunks, in two rounds.
//!
//! ```text
//! first | a b c | d e f | g h i | j | k | l      two rounds, each of three spans
//! ```
//!
//! Each thread loads and reads a span of chunks, one chunk after the other. While the chunks of the
//! second round are read, the traces of the first round are joined. A chunk is dropped once it has
//! been read, so that the next one takes its room.

ghost use Rattle.std.specs.Prelude.{◌≡◌, ◌≤◌, ◌+◌, ◌*◌, ◌<◌, ◌++◌, ℕ, List, Vec, Some};
ghost use Rattle.std.specs.Prelude.{All, IfOk, IfSome, IsTrue, Ok, length};
ghost use Rattle.std.specs.Global.{Global as Heap};
ghost use Rattle.std.specs.List.{AllZip};
ghost use Rattle.lb_trace.specs.Chunks.{text_of};
ghost use Rattle.lb_trace.specs.Correct.{IsTraceReading};
ghost use Rattle.lb_trace.specs.Loads.{AreRead, AreReadFrom, IsChunk, IsJoined, IsRead};
ghost use Rattle.lb_trace.specs.Loads.{IsRecorder};
ghost use Rattle.lb_trace.specs.Spelling.{Instant, instants};
ghost use Rattle.lb_trace.specs.Tables.{IsColumnTable};

use crate::begun::begin;
use crate::error::TraceError;
use crate::parallel::read_part;
use crate::plain::{is_plain, strip_bom};
use crate::read::MOST_BYTES;
use crate::recorder::Recorder;
use crate::scan::is_ended;
use crate::table::ColumnTable;
use csv::ByteRecord;
use lb_static::Signature;
use lb_traces::TraceSet;
use rayon::prelude::*;
use std::alloc::{AllocError, Global};
use std::thread::{Threads, join};

/// The reader of the chunks of a text: the table that their records follow, the function that
/// loads them, and the number of threads.
#[derive(Drop)]
struct ChunkReader<'t, F> {
    alloc: Global,
    signature: &'t Signature,
    table: &'t ColumnTable,
    load: &'t F,
    /// The most bytes of a chunk.
    most: usize,
    workers: usize,
    ghost some_worker: { 0 < workers },
}

/// The traces of a text that have been joined, and those that were read after them.
#[derive(Drop)]
struct Round {
    all: Recorder,
    read: Vec<Recorder>,
}

// The traces of `begun`, and then those of `parts`; None where they do not join.
fn with_parts(alloc: Global, begun: Recorder, parts: Vec<Recorder>) -> Option<Recorder>
    requires parts { All (IsRecorder begun.rows.signature) parts.items }
    requires begun { IsRecorder begun.rows.signature begun }
    ensures { IfSome result (IsJoined begun.rows.signature begun parts.items) }
{
    let mut all = begun;
    let Ok(()) = all.join_all(alloc, parts) else {
        return None;
    };
    Some(all)
}

// Whether a chunk ends with the end of a line, has no quote, and has at most `most` bytes.
fn is_chunk(text: &[u8], most: usize) -> bool
    ensures { IsTrue result → IsChunk most text.now }
{
    text.len() <= most && is_ended(text) && is_plain(text)
}

impl<F: Fn(usize) -> Option<Vec<u8>> + Sync> ChunkReader<'_, F> {
    // The traces of the chunks with these numbers, one after the other. An error says nothing of
    // the text.
    fn read_span(&self, numbers: &[usize]) -> Result<Recorder, TraceError>
        requires load { F.IsAlwaysCallable self.now.load.now }
        requires table { IsColumnTable self.now.signature.now self.now.table.now }
        ensures { IfOk result (IsRead (λ k chunk. F.post self.now.load.now k (Some chunk))
            self.now.signature.now self.now.table.now self.now.most numbers.now) }
    {
        let Ok(mut recorder) = Recorder::new(self.alloc, self.signature) else {
            return Err(TraceError::Memory(AllocError));
        };
        let mut entry = ByteRecord::new(self.alloc);
        'chunks: for (done, number) in numbers.iter().enumerate() {
            let Some(chunk) = (self.load)(*number) else {
                return Err(TraceError::Memory(AllocError));
            };
            let text = chunk.as_slice();
            if !is_chunk(text, self.most) {
                return Err(TraceError::Memory(AllocError));
            }
            // The chunks that are left take about as much room each as this one.
            recorder.make_room(text.len().saturating_mul(numbers.len() - done));
            recorder.add_lines(self.alloc, self.table, text, &mut entry)?;
        }
        Ok(recorder)
    }

    // The traces of each span of the chunks with these numbers. Threads load and read the spans
    // side by side.
    fn read_spans<R: Threads + Sync>(
        &self,
        rt: &R,
        numbers: &[usize],
    ) -> Result<Result<Vec<Recorder>, TraceError>, AllocError>
        requires load { F.IsAlwaysCallable self.now.load.now }
        requires table { IsColumnTable self.now.signature.now self.now.table.now }
        ensures { IfOk result (λ outer. IfOk outer (λ read.
            AreRead (λ k chunk. F.post self.now.load.now k (Some chunk)) self.now.signature.now
            self.now.table.now self.now.most numbers.now read.items)) }
    {
        let span = (numbers.len() / self.workers).max(1);
        numbers
            .par_chunks(span)
            // A span is worth a thread of its own, however few there are.
            .with_min_len(1)
            .map(
                |some: &[usize]| -> Result<Recorder, TraceError>
                    requires { F.IsAlwaysCallable self.now.load.now
                        × IsColumnTable self.now.signature.now self.now.table.now }
                    ensures { IfOk result (IsRead
                        (λ k chunk. F.post self.entry.now.load.now k (Some chunk))
                        self.entry.now.signature.now self.entry.now.table.now self.entry.now.most
                        some.now) }
                { self.read_span(some) },
            )
            .collect(rt, self.alloc)
    }

    // `read_spans` with None for any error.
    fn read_round<R: Threads + Sync>(&self, rt: &R, numbers: &[usize]) -> Option<Vec<Recorder>>
        requires load { F.IsAlwaysCallable self.now.load.now }
        requires table { IsColumnTable self.now.signature.now self.now.table.now }
        ensures { IfSome result (λ read.
            AreRead (λ k chunk. F.post self.now.load.now k (Some chunk)) self.now.signature.now
            self.now.table.now self.now.most numbers.now read.items) }
    {
        let Ok(Ok(read)) = self.read_spans(rt, numbers) else {
            return None;
        };
        Some(read)
    }

    // One more round: the traces that were read are joined, while more chunks are read.
    fn next_round<R: Threads + Sync>(
        &self,
        rt: &R,
        round: Round,
        numbers: &[usize],
    ) -> Option<Round>
        requires load { F.IsAlwaysCallable self.now.load.now }
        requires table { IsColumnTable self.now.signature.now self.now.table.now }
        requires all { IsRecorder self.now.signature.now round.all }
        requires read { All (IsRecorder self.now.signature.now) round.read.items }
        ensures joined { IfSome result
            (λ next. IsJoined self.now.signature.now round.all round.read.items next.all) }
        ensures read { IfSome result (λ next.
            AreRead (λ k chunk. F.post self.now.load.now k (Some chunk)) self.now.signature.now
            self.now.table.now self.now.most numbers.now next.read.items) }
    {
        let Round { all, read } = round;
        let alloc = self.alloc;
        let signature = self.signature;
        let table = self.table;
        let load = self.load;
        let most = self.most;
        let workers = self.workers;
        let (joined, next) = join(
            rt,
            move || with_parts(alloc, all, read),
            || -> Option<Vec<Recorder>>
                requires { F.IsAlwaysCallable load.now × IsColumnTable signature.now table.now
                    × (0 < workers) }
                ensures { IfSome result (λ read.
                    AreRead (λ k chunk. F.post load.entry.now k (Some chunk)) signature.entry.now
                    table.entry.now most numbers.entry.now read.items) }
            {
                let reader = ChunkReader {
                    alloc,
                    signature,
                    table,
                    load,
                    most,
                    workers,
                };
                reader.read_round(rt, numbers)
            },
        );
        let Some(all) = joined else {
            return None;
        };
        let Some(read) = next else {
            return None;
        };
        Some(Round { all, read })
    }

    // The traces of `begun`, and then those of the chunks with these numbers. Three quarters of the
    // chunks are read in the first round: to join their traces takes about as long as to read the
    // other chunks.
    fn read_rounds<R: Threads + Sync>(
        &self,
        rt: &R,
        begun: Recorder,
        numbers: &[usize],
    ) -> Option<Recorder>
        requires load { F.IsAlwaysCallable self.now.load.now }
        requires table { IsColumnTable self.now.signature.now self.now.table.now }
        requires begun { IsRecorder self.now.signature.now begun }
        ensures { IfSome result (λ all. (more : List Instant)
            × AreReadFrom (λ k chunk. F.post self.now.load.now k (Some chunk))
            self.now.signature.now self.now.table.now self.now.most numbers.now more
            × (instants all.rows.traces ≡ instants begun.rows.traces ++ more)
            × IsRecorder self.now.signature.now all) }
    {
        let (some, others) = numbers.split_at(numbers.len() - numbers.len() / 4);
        let Some(read) = self.read_round(rt, some) else {
            return None;
        };
        let Some(last) = self.next_round(rt, Round { all: begun, read }, others) else {
            return None;
        };
        with_parts(self.alloc, last.all, last.read)
    }
}

// The most bytes of each of `count` chunks behind `first` bytes, within the limit of the text; None
// where `first` is above it.
fn most_of(first: usize, count: usize) -> Option<usize>
    ensures { IfSome result (λ most. first + most * count ≤ 1073741824) }
{
    if first > MOST_BYTES {
        return None;
    }
    let left = MOST_BYTES - first;
    let most = left / count.max(1);
    match most.checked_mul(count) {
        Some(all) if all <= left => Some(most),
        _ => None,
    }
}

/// The traces that a text spells: its bytes are the chunk `first`, and then the chunks that `load`
/// gives for `numbers`. At most `workers` workers read it. None says nothing of the text.
///
/// Each chunk has to end with the end of a line, and the first one has to have the header. None is
/// the answer for a text with quotes, a text that is refused, and where a chunk is not given.
pub fn read_loaded<R: Threads + Sync, F: Fn(usize) -> Option<Vec<u8>> + Sync>(
    rt: &R,
    alloc: Global,
    signature: &Signature,
    first: &[u8],
    load: &F,
    numbers: &[usize],
    workers: usize,
) -> Option<TraceSet>
    requires load { F.IsAlwaysCallable load.now }
    requires workers { 0 < workers }
    ensures { IfSome result (λ set. (chunks : List (Vec ℕ Heap))
        × AllZip (λ k chunk. F.post load.now k (Some chunk)) numbers.now chunks
        × IsTraceReading signature.now (first.now ++ text_of chunks) (Ok set)) }
{
    let body = strip_bom(first);
    if first.len() < 3 || !is_ended(first) || !is_plain(body) {
        return None;
    }
    let Some(most) = most_of(first.len(), numbers.len()) else {
        return None;
    };
    let Ok(Some(begun)) = begin(alloc, signature, body) else {
        return None;
    };
    let Ok(recorder) = read_part(alloc, signature, &begun.table, begun.rest) else {
        return None;
    };
    let reader = ChunkReader {
        alloc,
        signature,
        table: &begun.table,
        load,
        most,
        workers,
    };
    let Some(all) = reader.read_rounds(rt, recorder, numbers) else {
        return None;
    };
    let set = all.rows.into_set();
    let _ = set.signature();
    Some(set)
}
