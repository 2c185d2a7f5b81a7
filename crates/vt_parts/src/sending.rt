//! Sends to several processes.

ghost use Rattle.std.specs.Prelude.{◌≡◌, ◌+◌, ◌^◌, ◌<◌, ◌≤◌, [], length, take};
ghost use Rattle.vt_key.specs.promise.Times.{TimeBefore, at, ticks_of};
ghost use Rattle.vt_model.specs.declared.limits.TheConstants.{MAX_SENDS};
ghost use Rattle.vt_model.specs.inside.Sends.{with_requests};
ghost use Rattle.vt_parts.specs.inside.Sending.{entry_sends};
ghost use prog.Memory.{size, align};
ghost use denote.Memory.{lone};

use vt_model::Out;

/// Sends `payload` to each of these entries.
fn send_all<P: Copy>(out: &mut Out<P>, entries: &[u32], delay: u64, priority: u8, payload: P)
    requires some { 1 ≤ out.old.lps }
    requires later { TimeBefore out.old.time (at (ticks_of out.old.time + delay) priority) }
    requires room { out.old.number + length entries.now ≤ out.old.first + MAX_SENDS }
    requires size { size (lone P.row.mir) < 2 ^ 32 }
    requires align { (1 ≤ align (lone P.row.mir)) × (align (lone P.row.mir) ≤ 8) }
    ensures { out.new ≡ with_requests out.old (entry_sends out.old.lps delay priority payload entries.now) [] }
{
    let lps = out.lps();
    'entries: for entry in entries {
        out.send(*entry % lps, delay, priority, payload);
    }
}

/// Sends `payload` to each of the first `n` entries of a table, in its order, to be received `delay` ticks from now, with this
/// priority. An entry names a process; a number that names none is taken modulo the number of processes. A table with fewer entries
/// gets a send for each of them.
///
/// As for [`Out::send`], the time of receipt is later than now, and there must be room: for `n` sends.
pub fn send_to_entries<P: Copy>(
    out: &mut Out<P>,
    table: &[u32],
    n: usize,
    delay: u64,
    priority: u8,
    payload: P,
)
    requires some { 1 ≤ out.old.lps }
    requires later { TimeBefore out.old.time (at (ticks_of out.old.time + delay) priority) }
    requires room { out.old.number + n ≤ out.old.first + MAX_SENDS }
    requires size { size (lone P.row.mir) < 2 ^ 32 }
    requires align { (1 ≤ align (lone P.row.mir)) × (align (lone P.row.mir) ≤ 8) }
    ensures { out.new ≡ with_requests out.old (entry_sends out.old.lps delay priority payload (take n table.now)) [] }
{
    if n < table.len() {
        send_all(out, &table[..n], delay, priority, payload);
    } else {
        send_all(out, table, delay, priority, payload);
    }
}
