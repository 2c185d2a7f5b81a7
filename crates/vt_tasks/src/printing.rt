//! Records as text that several threads make.

ghost use Rattle.std.specs.Prelude.{◌≡◌, ◌*◌, take, drop, OnOk, IfErr, OnErr};
ghost use Rattle.std.specs.Io.KnownBytes.{Appends};
ghost use Rattle.vt_text.specs.promise.Records.{record_lines};
ghost use Rattle.vt_text.specs.promise.Writing.{AppendsBeginning};
ghost use Rattle.vt_tasks.specs.promise.Printed.{printed_lines};
ghost use Rattle.vt_tasks.specs.inside.Shares.{HasLines};

use std::alloc::Global;
use std::io::Write;
use std::thread;
use std::thread::Threads;
use vt_key::Fault;
use vt_model::Record;
use vt_text::{TextBuffer, Version, put_lines, write_bytes};

/// For how many records a thread makes the lines at a time.
const SHARE: usize = 16_384;

/// How many threads make lines at most.
const MOST_THREADS: usize = 16;

/// Writes the lines of records. By itself it takes no memory.
fn print_lines<W: Write>(writer: &mut W, records: &[Record], version: Version) -> Result<(), Fault>
    ensures ok { OnOk result (Appends (W.contents writer.old) (W.contents writer.new) (record_lines version records.now)) }
    ensures err { OnErr result (AppendsBeginning (W.contents writer.old) (W.contents writer.new) (record_lines version records.now)) }
    ensures fault { IfErr result (λ fault. fault ≡ Fault.Output) }
{
    let mut text = TextBuffer::new();
    put_lines(&mut text, writer, records, version)?;
    text.flush(writer)
}

/// A share of the records that are printed at a time, as lines that a thread makes. The lines of the next share take the
/// memory of the last one's.
#[derive(Drop)]
struct Share {
    lines: Vec<u8>,
    // Whether the lines are those of all records. Where memory was refused, they aren't.
    is_whole: bool,
}

impl Share {
    fn new(alloc: Global) -> Share {
        Share {
            lines: Vec::new(alloc),
            is_whole: false,
        }
    }

    /// Makes the lines of these records.
    fn make(&mut self, records: &[Record], version: Version)
        ensures { HasLines version records.now self.new }
    {
        self.lines.clear();
        self.is_whole = print_lines(&mut self.lines, records, version).is_ok();
    }

    /// Writes the lines of these records, which were made already unless memory was refused.
    fn write<W: Write>(
        &self,
        writer: &mut W,
        records: &[Record],
        version: Version,
    ) -> Result<(), Fault>
        requires made { HasLines version records.now self.now }
        ensures ok { OnOk result (Appends (W.contents writer.old) (W.contents writer.new) (record_lines version records.now)) }
        ensures err { OnErr result (AppendsBeginning (W.contents writer.old) (W.contents writer.new) (record_lines version records.now)) }
        ensures fault { IfErr result (λ fault. fault ≡ Fault.Output) }
    {
        if self.is_whole {
            write_bytes(writer, self.lines.as_slice())
        } else {
            print_lines(writer, records, version)
        }
    }
}

/// The records of share `k`, from 0.
fn records_of(records: &[Record], k: usize) -> &[Record]
    ensures { result.now ≡ take SHARE (drop (k * SHARE) records.now) }
{
    let (_, rest) = records.split_at(k.saturating_mul(SHARE).min(records.len()));
    let (own, _) = rest.split_at(SHARE.min(rest.len()));
    own
}

/// Writes the lines of records, which threads make, each of a share of them. What is left after the shares is written by this
/// thread.
fn print_group<R: Threads + Sync, W: Write>(
    rt: &R,
    writer: &mut W,
    records: &[Record],
    version: Version,
    shares: &mut [Share],
) -> Result<(), Fault>
    ensures ok { OnOk result (Appends (W.contents writer.old) (W.contents writer.new) (record_lines version records.now)) }
    ensures err { OnErr result (AppendsBeginning (W.contents writer.old) (W.contents writer.new) (record_lines version records.now)) }
    ensures fault { IfErr result (λ fault. fault ≡ Fault.Output) }
{
    let threads = shares.len().max(1);
    thread::for_each_mut(
        rt,
        shares,
        threads,
        &|k: usize, share: &mut Share|
            ensures { HasLines version (take SHARE (drop (k * SHARE) records.entry.now)) share.exit.now }
        { share.make(records_of(records, k), version) },
    );
    let mut rest = records;
    for share in shares.iter() {
        let (own, more) = rest.split_at(SHARE.min(rest.len()));
        share.write(writer, own, version)?;
        rest = more;
    }
    print_lines(writer, rest, version)
}

/// The memory in which several threads make the lines of records. Later lines take the memory of earlier ones.
#[derive(Drop)]
pub struct Shares {
    shares: Vec<Share>,
}

impl Shares {
    /// Memory for up to `threads` threads, and no more than sixteen; for fewer if memory was refused.
    pub fn new(alloc: Global, threads: usize) -> Shares {
        let mut shares = Vec::new(alloc);
        for _ in 0..threads.clamp(1, MOST_THREADS) {
            let Ok(()) = shares.push(Share::new(alloc)) else {
                break;
            };
        }
        Shares { shares }
    }

    /// Writes the lines of records in a version, as [`put_lines`] does; nothing without one. The threads make them. At a time each has
    /// memory for the lines of 16,384 records; where it is refused, this thread makes those lines alone.
    ///
    /// [`Fault::Output`] where the writer failed: then a beginning of the lines was written.
    pub fn print<R: Threads + Sync, W: Write>(
        &mut self,
        rt: &R,
        writer: &mut W,
        records: &[Record],
        shown: Option<Version>,
    ) -> Result<(), Fault>
        ensures ok { OnOk result (Appends (W.contents writer.old) (W.contents writer.new) (printed_lines shown records.now)) }
        ensures err { OnErr result (AppendsBeginning (W.contents writer.old) (W.contents writer.new) (printed_lines shown records.now)) }
        ensures fault { IfErr result (λ fault. fault ≡ Fault.Output) }
    {
        match shown {
            Some(version) => self.print_groups(rt, writer, records, version),
            None => Ok(()),
        }
    }

    /// Writes the lines of records in a version, group after group.
    fn print_groups<R: Threads + Sync, W: Write>(
        &mut self,
        rt: &R,
        writer: &mut W,
        records: &[Record],
        version: Version,
    ) -> Result<(), Fault>
        ensures ok { OnOk result (Appends (W.contents writer.old) (W.contents writer.new) (record_lines version records.now)) }
        ensures err { OnErr result (AppendsBeginning (W.contents writer.old) (W.contents writer.new) (record_lines version records.now)) }
        ensures fault { IfErr result (λ fault. fault ≡ Fault.Output) }
    {
        for group in records.chunks(SHARE.saturating_mul(self.shares.len().max(1))) {
            print_group(rt, writer, group, version, self.shares.as_mut_slice())?;
        }
        Ok(())
    }
}
