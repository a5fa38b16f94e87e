//! The tar stream that restored files go into, and its end.
ghost use Rattle.std.specs.Prelude.{◌≡◌, ◌++◌, option_map, IfOk, IfSome, OnErr, OnOk};
ghost use Rattle.std.specs.Io.KnownBytes.{Keeps};
ghost use Rattle.br_fs.specs.Making.{IsFree, MakesFile};
ghost use Rattle.br_sink_tar.specs.Stream.{told};
ghost use Rattle.br_cli_target.specs.TarEnding.{EndsBy, HoldsBy, IsClosed, IsEnded, IsFlushed, IsNewOver, IsShown, StreamHolds};
ghost use Rattle.br_cli_target.specs.TarEnding.{left_out_text, not_flushed, tar_fault_number, tar_status, tar_text, told_inside};
ghost use Rattle.br_cli_target.specs.declared.target_tar.TarEnd.TheVariants.{Cut};

use crate::ending::Ending;
use crate::settling::Settle;
use br_cli_common::REFUSED;
use br_cli_progress::WatchedSink;
use br_engine::push_refused_line;
use br_fs::{DiskFault, FileMaker, HostDisk};
use br_sink::SinkFault;
use br_sink_tar::TarSink;
use br_types::push_number;
use std::alloc::{AllocError, Global};
use std::fs::File;
use std::io::{self, BufWriter, IsTerminal, Printer, Write};
use thiserror::Error;

/// Why there is no file or output to write a tar stream into.
#[derive(Clone, Copy, Debug, Error)]
pub enum TarFault {
    #[error("out of memory")]
    Memory,
    #[error("the file is there or can't be made, or the output is a terminal")]
    NoFile,
}

impl TarFault {
    /// Returns the number of the refusal: 1 out of memory, 81 a file that is there or can't be made,
    /// or an output that is a terminal.
    pub fn number(self) -> u32
        ensures { result ≡ tar_fault_number self }
    {
        match self {
            TarFault::Memory => 1,
            TarFault::NoFile => 81,
        }
    }
}

/// Makes the file at a path, at which nothing may be.
fn new_file<M: FileMaker>(maker: &mut M, path: &str) -> Result<M::New, TarFault>
    ensures free { OnOk result (IsFree (M.nodes maker.old) path.now) }
    ensures made { IfOk result (λ file. MakesFile path.now (M.New.contents file) (M.nodes maker.old) (M.nodes maker.new)) }
    ensures refused { OnErr result (M.nodes maker.new ≡ M.nodes maker.old) }
{
    match maker.make_file(path) {
        Ok(file) => Ok(file),
        Err(DiskFault::Memory) => Err(TarFault::Memory),
        Err(_) => Err(TarFault::NoFile),
    }
}

/// Returns a sink that writes a tar stream to a writer, through a buffer.
pub fn tar_onto<W: Write + Drop>(
    alloc: Global,
    writer: W,
) -> Result<TarSink<BufWriter<W>>, TarFault>
    ensures { IfOk result (IsNewOver (W.contents writer)) }
{
    match BufWriter::new(alloc, writer) {
        Ok(writer) => Ok(TarSink::new(alloc, writer)),
        Err(_) => Err(TarFault::Memory),
    }
}

/// Returns a sink that writes a tar stream into a new file at a path, at which nothing may be.
pub fn tar_into(rt: &HostRuntime, path: &str) -> Result<TarSink<BufWriter<File>>, TarFault> {
    let mut disk = HostDisk::new(rt.alloc(), rt);
    let file = new_file(&mut disk, path)?;
    tar_onto(rt.alloc(), file)
}

/// Returns a sink that writes a tar stream to standard output, unless that is a terminal.
pub fn tar_output(
    rt: &HostRuntime,
) -> Result<TarSink<BufWriter<Printer<'_, HostRuntime>>>, TarFault> {
    if rt.stdout().is_terminal() {
        return Err(TarFault::NoFile);
    }
    tar_onto(rt.alloc(), io::writer(rt))
}

/// The number of restored files that were put into the sink.
#[derive(Clone, Copy)]
pub enum PutExtent {
    All,
    /// No file was put, or those before a stop.
    Part,
}

/// The state of a tar stream after a restore.
#[derive(Clone, Copy)]
pub enum TarEnd {
    /// It is finished. This number of the files has no entry in it.
    Whole(u64),
    /// Not all files were put, so the stream is not finished.
    Cut,
    /// Its end could not be written.
    Refused(SinkFault),
}

/// The result of a restore into a tar stream.
#[derive(Drop)]
pub struct Streamed<A, W> {
    /// What the restore returned.
    pub run: A,
    /// The state of the stream.
    pub end: TarEnd,
    /// The writer of the stream, if there was a sink.
    pub writer: Option<W>,
}

/// Writes the end of a stream.
fn finished<W: Write + Drop>(sink: TarSink<W>) -> (W, TarEnd)
    ensures held { HoldsBy (told sink) result.1 (W.contents result.0) }
    ensures ends { IsClosed sink.left_out result.1 }
{
    let left_out = sink.left_out();
    let (writer, ended) = sink.finish();
    match ended {
        Ok(()) => (writer, TarEnd::Whole(left_out)),
        Err(fault) => (writer, TarEnd::Refused(fault)),
    }
}

/// Returns the state of a stream that could not be flushed or synced.
fn not_flushed(end: TarEnd) -> TarEnd
    ensures { result ≡ not_flushed end }
{
    match end {
        TarEnd::Whole(_) => TarEnd::Refused(SinkFault::Fault),
        TarEnd::Cut => TarEnd::Cut,
        TarEnd::Refused(fault) => TarEnd::Refused(fault),
    }
}

/// Flushes and syncs the writer of a stream, and returns the state of the stream.
#[tactic(auto, using(crate::proofs::TarLaws::shown_anyway))]
fn settled<W: Settle>(writer: &mut W, end: TarEnd) -> TarEnd
    ensures bytes { Keeps (W.contents writer.old) (W.contents writer.new) }
    ensures end { IsFlushed end result }
    ensures shown { IsShown (W.is_flushed writer.new) result }
    ensures settled { IsShown (W.is_settled writer.new) result }
{
    match writer.settle() {
        Ok(()) => end,
        Err(_) => not_flushed(end),
    }
}

/// Writes the end of a stream, and flushes and syncs its writer.
fn closed<W: Settle + Drop>(sink: TarSink<W>) -> (W, TarEnd)
    ensures held { HoldsBy (told sink) result.1 (W.contents result.0) }
    ensures ends { IsClosed sink.left_out result.1 }
    ensures shown { IsShown (W.is_flushed result.0) result.1 }
    ensures settled { IsShown (W.is_settled result.0) result.1 }
{
    let (mut writer, written) = finished(sink);
    let end = settled(&mut writer, written);
    (writer, end)
}

/// Flushes and syncs the writer of a stream that is not finished.
fn cut_off<W: Settle + Drop>(sink: TarSink<W>) -> (W, TarEnd)
    ensures held { HoldsBy (told sink) result.1 (W.contents result.0) }
    ensures ends { result.1 ≡ Cut }
{
    let mut writer = sink.into_writer();
    let end = settled(&mut writer, TarEnd::Cut);
    (writer, end)
}

/// Ends the stream of a sink if all files were put, and flushes and syncs its writer.
fn end_of<W: Settle + Drop>(sink: TarSink<W>, extent: PutExtent) -> (W, TarEnd)
    ensures held { HoldsBy (told sink) result.1 (W.contents result.0) }
    ensures ends { EndsBy extent sink.left_out result.1 }
    ensures ended { IsEnded extent result.1 }
    ensures shown { IsShown (W.is_flushed result.0) result.1 }
    ensures settled { IsShown (W.is_settled result.0) result.1 }
{
    match extent {
        PutExtent::All => closed(sink),
        PutExtent::Part => cut_off(sink),
    }
}

/// Ends the stream of a watched sink, if there is one and all files were put, and flushes and syncs
/// its writer. Returns this writer, and the state of the stream. A failed sync is as a failed
/// write.
pub fn end_stream<W: Settle + Drop>(
    sink: Option<WatchedSink<'_, '_, TarSink<W>>>,
    extent: PutExtent,
) -> (Option<W>, TarEnd)
    ensures held { StreamHolds extent (option_map told_inside sink.entry) result.1 (option_map W.contents result.0) }
    ensures ends { IfSome sink.entry (λ s. EndsBy extent s.inner.left_out result.1) }
    ensures shown { IfSome result.0 (λ w. IsShown (W.is_flushed w) result.1) }
    ensures settled { IfSome result.0 (λ w. IsShown (W.is_settled w) result.1) }
{
    match sink {
        None => (None, TarEnd::Cut),
        Some(sink) => {
            let (writer, end) = end_of(sink.into_inner(), extent);
            (Some(writer), end)
        }
    }
}

/// Appends the line with the number of files without an entry in a stream, if there are any.
fn push_left_out(text: &mut Vec<u8>, count: u64) -> Result<(), AllocError>
    ensures { OnOk result (text.new.items ≡ text.old.items ++ left_out_text count) }
{
    if count == 0 {
        return Ok(());
    }
    text.extend_from_slice(b"left out ")?;
    push_number(text, count)?;
    text.push(b'\n')?;
    Ok(())
}

/// Appends the line about the state of a stream. Another line reports why it was cut.
fn push_end(text: &mut Vec<u8>, end: TarEnd) -> Result<(), AllocError>
    ensures { OnOk result (text.new.items ≡ text.old.items ++ tar_text end) }
{
    match end {
        TarEnd::Whole(count) => push_left_out(text, count),
        TarEnd::Cut => Ok(()),
        TarEnd::Refused(fault) => push_refused_line(text, fault.number()),
    }
}

/// Returns the exit status, given that of the run.
fn status_with(status: u8, end: TarEnd) -> u8
    ensures { result ≡ tar_status status end }
{
    match end {
        TarEnd::Whole(_) | TarEnd::Cut => status,
        TarEnd::Refused(_) => REFUSED,
    }
}

/// Adds the state of a stream to the ending of a run.
pub fn add_tar_end(ending: &mut Ending, end: TarEnd) -> Result<(), AllocError>
    ensures status { OnOk result (ending.new.status ≡ tar_status ending.old.status end) }
    ensures refusal { OnOk result (ending.new.refusal.items ≡ ending.old.refusal.items ++ tar_text end) }
{
    push_end(&mut ending.refusal, end)?;
    ending.status = status_with(ending.status, end);
    Ok(())
}
