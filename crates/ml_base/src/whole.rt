// A source read to its end, and bytes written to the last.
ghost use Rattle.std.specs.Prelude.{◌≡◌, ℕ, ◌+◌, ◌*◌, ◌-◌, ◌^◌, ◌<◌, ◌≤◌, List, length, take, drop, vec_len, IfOk, IfErr, IfSome, OnOk, OnErr, IsErrOf};
ghost use Rattle.std.specs.Io.KnownBytes.{IsAtEnd, append_known, prepend_known};
ghost use Rattle.ml_base.specs.Faults.{Rose};
ghost use Rattle.ml_base.specs.Whole.{Gives, AppendsPart};
ghost use Rattle.ml_base.specs.KnownCounts.{AreFaultsAt, IsGivenCount};

use crate::no_memory::NoMemory;
use crate::sink::Sink;
use crate::source::{Failed, Source};
use std::alloc::Global;
use thiserror::Error;

/// Why a source wasn't read to its end.
#[derive(Clone, Copy, Debug, PartialEq, Eq, Error)]
pub enum ReadRefusal {
    /// The source failed.
    #[error("the source failed")]
    ReadFault,
    /// The source gave more bytes than the limit.
    #[error("the input is too long")]
    TooLong,
    #[error("out of memory")]
    NoMemory,
}

impl From<NoMemory> for ReadRefusal {
    ghost use Rattle.ml_base.specs.declared.whole.ReadRefusal.TheVariants as refusal;

    ghost from_gives = { λ _ e. e ≡ refusal.NoMemory };

    fn from(_: NoMemory) -> ReadRefusal {
        ReadRefusal::NoMemory
    }
}

/// Why bytes weren't written to the last.
#[derive(Clone, Copy, Debug, PartialEq, Eq, Error)]
pub enum WriteRefusal {
    /// The sink failed.
    #[error("the sink failed")]
    WriteFault,
}

const FIRST_ROOM: usize = 8 * 1024;

/// All the bytes that the source gives up to its end, if they are at most `max`.
///
/// No byte past the first one over the limit is read. Of a source that tells nothing of its bytes, the clauses on
/// bytes say nothing.
///
/// # Errors
/// - `ReadFault` where the source failed: only where its count of faults rose in this call, and always where the
///   count is greater after it.
/// - `TooLong` exactly where more than `max` bytes were given.
/// - `NoMemory`.
///
/// Cost: linear in the bytes that are given, each read into its place; room that is left over is given back.
pub fn read_all<S: Source>(alloc: Global, source: &mut S, max: u64) -> Result<Vec<u8>, ReadRefusal>
    requires { max < 2 ^ 63 }

    // The result is what was given, up to the end, and all that was left where the source tells it.
    ensures given { IfOk result (λ bytes.
        S.remaining source.old ≡ prepend_known bytes.items (S.remaining source.new)) }
    ensures end { OnOk result (IsAtEnd (S.remaining source.new)) }
    ensures whole { IfOk result (λ bytes.
        IfSome (S.remaining source.old) (λ left. bytes.items ≡ left)) }
    ensures fits { IfOk result (λ bytes. vec_len bytes ≤ max) }

    // A refusal comes after so many bytes.
    ensures refused { IfErr result (λ refusal.
        Gives (S.remaining source.old) (S.remaining source.new)
        (λ given. IsGivenCount refusal max (length given))) }
    ensures too_long { IsErrOf result ReadRefusal.TooLong →
        IfSome (S.remaining source.old) (λ left. max < length left) }

    // The count of faults.
    ensures calm { OnOk result (S.faults source.new ≡ S.faults source.old) }
    ensures faults { IfErr result (λ refusal.
        AreFaultsAt refusal (S.faults source.old) (S.faults source.new)) }
{
    let end = max as usize + 1;
    let mut bytes = Vec::new(alloc);
    let mut filled = 0;
    while filled < end {
        make_room(&mut bytes, filled, end)?;
        match read_behind(source, &mut bytes, filled) {
            Ok(0) => {
                bytes.truncate(filled);
                bytes.shrink_to_fit();
                return Ok(bytes);
            }
            Ok(count) => filled += count,
            Err(Failed) => return Err(ReadRefusal::ReadFault),
        }
    }
    Err(ReadRefusal::TooLong)
}

// Room behind the bytes that are filled: where there is none, as much again, but no further than `end`.
fn make_room(bytes: &mut Vec<u8>, filled: usize, end: usize) -> Result<(), NoMemory>
    requires filled { filled ≤ vec_len bytes.old }
    requires below { filled < end }
    requires within { vec_len bytes.old ≤ end }
    ensures room { OnOk result (filled < vec_len bytes.new) }
    ensures within { OnOk result (vec_len bytes.new ≤ end) }
    ensures front { OnOk result (take filled bytes.new.items ≡ take filled bytes.old.items) }
{
    if filled < bytes.len() {
        return Ok(());
    }
    let len = bytes.len().saturating_mul(2).max(FIRST_ROOM).min(end);
    bytes.resize(len, 0)?;
    Ok(())
}

// One read behind the bytes that are filled.
fn read_behind<S: Source>(
    source: &mut S,
    bytes: &mut Vec<u8>,
    filled: usize,
) -> Result<usize, Failed>
    requires { filled < vec_len bytes.old }
    ensures len { vec_len bytes.new ≡ vec_len bytes.old }
    ensures front { take filled bytes.new.items ≡ take filled bytes.old.items }
    ensures within { IfOk result (λ count. filled + count ≤ vec_len bytes.old) }
    ensures given { IfOk result (λ count.
        S.remaining source.old ≡ prepend_known (take count (drop filled bytes.new.items)) (S.remaining source.new)) }
    ensures end { IfOk result (λ count. count ≡ 0 → IsAtEnd (S.remaining source.new)) }
    ensures kept { OnErr result (S.remaining source.new ≡ S.remaining source.old) }
    ensures calm { OnOk result (S.faults source.new ≡ S.faults source.old) }
    ensures fault { OnErr result (Rose (S.faults source.old) (S.faults source.new)) }
{
    source.read(&mut bytes[filled..])
}

/// Writes all the bytes, in as many calls as the sink needs. It takes no memory.
///
/// # Errors
/// `WriteFault` where the sink failed: only where its count of faults rose in this call, and always where the count
/// is greater after it. Then a prefix of the bytes was taken, and not all of them.
///
/// Cost: linear in the bytes for a sink that is.
pub fn write_all<K: Sink>(sink: &mut K, bytes: &[u8]) -> Result<(), WriteRefusal>
    ensures appended { OnOk result (K.taken sink.new ≡ append_known (K.taken sink.old) bytes.now) }
    ensures part { OnErr result (AppendsPart (K.taken sink.old) (K.taken sink.new) bytes.now) }

    // The count of faults.
    ensures calm { OnOk result (K.faults sink.new ≡ K.faults sink.old) }
    ensures fault { OnErr result (Rose (K.faults sink.old) (K.faults sink.new)) }
{
    let mut done = 0;
    while done < bytes.len() {
        match sink.write(&bytes[done..]) {
            Ok(count) => done += count,
            Err(Failed) => return Err(WriteRefusal::WriteFault),
        }
    }
    Ok(())
}
