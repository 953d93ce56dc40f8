ghost use Rattle.std.specs.Prelude.{◌≡◌, ◌≢◌, ◌+◌, ◌<◌, ◌↔◌, ◌⊎◌, Err, None, length, IfOk, IfErr, OnOk, OnErr};
ghost use Rattle.std.specs.Io.KnownBytes.{Appends, Keeps};
ghost use Rattle.can_bus.specs.Headline.{Headline};
ghost use Rattle.can_bus.specs.Legal.{IsLegal};
ghost use Rattle.can_session.specs.Lines.{ComesNext, IsWithinLimits, unread};
ghost use Rattle.can_session.specs.Benches.{BenchState};
ghost use Rattle.can_session.specs.Runs.{IsBench, IsRecordOfBench, new_bench, at_start_with, EndsRun, EndsLeaving, EndsOver, LeavesAt, NotesFed, TakesLines, EndsAt, StepsOn, input_fault_of};

use crate::bench_state::Bench;
use crate::ignored_input::IgnoredInput;
use crate::lines::{InputFault, Lines};
use can_bus::{BusConfig, Record};
use can_fault::FaultSource;
use can_frame::Names;
use can_rules::Plan;
use can_wire::Timing;
use std::alloc::Global;
use std::io::{Read, Write};
use thiserror::Error;

/// The reason why a run of the bench ended before the end of its input.
#[derive(Debug, Clone, Copy, PartialEq, Eq, Error)]
pub enum BenchFault {
    /// The configuration is not valid for a bench. Nothing was read or written.
    #[error("bad bus")]
    BadConfig,
    /// The line with this number (counted from 1) is not valid. The lines before it were carried out.
    #[error("line {0}: bad line")]
    BadLine(u32),
    /// The input is larger than 16,777,216 bytes or requires more reads than that. All complete lines that were read were carried
    /// out.
    #[error("input too long")]
    TooLong,
    /// The reader failed. All complete lines that were read were carried out.
    #[error("read fault")]
    Read,
    /// The writer failed.
    #[error("write fault")]
    Write,
    /// Memory was refused.
    #[error("no memory")]
    NoMemory,
}

/// The settings of a new bench.
#[derive(Drop)]
pub struct BenchConfig<F> {
    /// The names of the interfaces. There must be one for each interface of the bus.
    pub names: Names,
    /// The bus.
    pub config: BusConfig,
    /// The source of faults for the attempts.
    pub script: F,
    /// The receive queue capacity of a socket in items, from 1 to 65,536.
    pub rx_capacity: u32,
    /// The bit rates of the bus, if its attempts are to take time. Without bit rates, each attempt happens at the moment that was
    /// set last.
    pub timing: Option<Timing>,
    /// Whether the lines of attempts show the faults and the rules that caused them.
    pub shows_faults: bool,
}

/// Carries out the lines of an input on one bus and writes their output. Returns the record of the bus. The output of each line is
/// written in one call, so a writer that is slow for small writes should be buffered. The writer is flushed before each read, so
/// the source of the input has the replies to all lines so far. At most 8,192 bytes of the input are kept in memory, however long
/// the input is. The running time grows with the number of lines and with the work that they cause on the bus. `NoMemory` can be
/// returned before the first line or in place of a line; the output of the earlier lines was then written. `bench_lines` reports
/// more exactly how far the input was read.
pub fn bench<F: FaultSource + Drop, R: Read + Drop, W: Write>(
    alloc: Global,
    config: BenchConfig<F>,
    input: R,
    out: &mut W,
) -> Result<Record, BenchFault>
    ensures bad { (result ≡ Err BenchFault.BadConfig)
        ↔ (¬ IsBench config.names config.config config.rx_capacity) }
    ensures untouched { result ≡ Err BenchFault.BadConfig → out.new ≡ out.old }
    ensures runs { result ≢ Err BenchFault.BadConfig →
        EndsOver W.contents (F.verdicts config.script) (R.remaining input)
        (new_bench config.shows_faults config.timing config.names config.config config.rx_capacity)
        out.old result out.new }
    ensures good { OnOk result (IsBench config.names config.config config.rx_capacity) }
    ensures config { IfOk result (λ r. r.config ≡ config.config) }
    ensures legal { IfOk result (λ r. IsLegal r.config r.history) }
    ensures headline { IfOk result (λ r. Headline r.config r.history) }
{
    let plan = Plan::new(alloc);
    bench_noting(alloc, config, plan, input, out, &mut IgnoredInput::none())
}

/// Works like `bench`, but also uses a fault plan for the bus in addition to the source of faults. If the run reaches its end,
/// `ignored` shows which sessions had input outside messages.
pub fn bench_noting<F: FaultSource + Drop, R: Read + Drop, W: Write>(
    alloc: Global,
    config: BenchConfig<F>,
    plan: Plan,
    input: R,
    out: &mut W,
    ignored: &mut IgnoredInput,
) -> Result<Record, BenchFault>
    ensures bad { (result ≡ Err BenchFault.BadConfig)
        ↔ (¬ IsBench config.names config.config config.rx_capacity) }
    ensures untouched { result ≡ Err BenchFault.BadConfig → out.new ≡ out.old }
    ensures runs { result ≢ Err BenchFault.BadConfig →
        EndsOver W.contents (F.verdicts config.script) (R.remaining input)
        (at_start_with config.shows_faults plan config.timing config.names config.config
        config.rx_capacity)
        out.old result out.new }
    ensures notes { OnOk result (NotesFed W.contents (F.verdicts config.script) (R.remaining input)
        (at_start_with config.shows_faults plan config.timing config.names config.config
        config.rx_capacity)
        out.old ignored.new out.new) }
    ensures same { OnErr result (ignored.new ≡ ignored.old) }
    ensures good { OnOk result (IsBench config.names config.config config.rx_capacity) }
    ensures config { IfOk result (λ r. r.config ≡ config.config) }
    ensures legal { IfOk result (λ r. IsLegal r.config r.history) }
    ensures headline { IfOk result (λ r. Headline r.config r.history) }
{
    let mut script = config.script;
    let mut state = Bench::new(
        alloc,
        config.names,
        config.config,
        config.rx_capacity,
        config.timing,
        config.shows_faults,
        plan,
    )?;
    let Ok(mut lines) = Lines::new(alloc, input) else {
        return Err(BenchFault::NoMemory);
    };
    run(alloc, &mut state, &mut script, &mut lines, out)?;
    *ignored = state.ignored();
    Ok(state.into_record())
}

/// Works like `bench`, but reads from `lines`, from which nothing has been read before. Afterwards `lines` shows how far the input
/// was read, so a reader that failed can be distinguished from a line that is too long.
pub fn bench_lines<F: FaultSource + Drop, R: Read + Drop, W: Write>(
    alloc: Global,
    config: BenchConfig<F>,
    lines: &mut Lines<R>,
    out: &mut W,
) -> Result<Record, BenchFault>
    requires unread { lines.old ≡ unread lines.old.coming }
    ensures bad { (result ≡ Err BenchFault.BadConfig)
        ↔ (¬ IsBench config.names config.config config.rx_capacity) }
    ensures untouched { result ≡ Err BenchFault.BadConfig →
        (out.new ≡ out.old) × (lines.new ≡ lines.old) }
    ensures runs { result ≢ Err BenchFault.BadConfig →
        EndsRun IsRecordOfBench W.contents (F.verdicts config.script) lines.old.coming
        (new_bench config.shows_faults config.timing config.names config.config config.rx_capacity)
        out.old result lines.new out.new }
    ensures good { OnOk result (IsBench config.names config.config config.rx_capacity) }
    ensures config { IfOk result (λ r. r.config ≡ config.config) }
    ensures legal { IfOk result (λ r. IsLegal r.config r.history) }
    ensures headline { IfOk result (λ r. Headline r.config r.history) }
{
    let mut script = config.script;
    let plan = Plan::new(alloc);
    let mut state = Bench::new(
        alloc,
        config.names,
        config.config,
        config.rx_capacity,
        config.timing,
        config.shows_faults,
        plan,
    )?;
    run(alloc, &mut state, &mut script, lines, out)?;
    Ok(state.into_record())
}

/// Carries out the lines of a text on a bench and appends their output. The bench continues from its state after the previous call.
/// After a fault, the lines before the faulty line were carried out and their output was appended. After `BadLine`, further lines
/// can be carried out. After `NoMemory` or `Write`, a line may be half done. `Write` can also mean a lack of memory, and then
/// output may be missing.
pub fn take_lines<F: FaultSource>(
    alloc: Global,
    state: &mut Bench,
    script: &mut F,
    text: &[u8],
    out: &mut Vec<u8>,
) -> Result<(), BenchFault>
    ensures { TakesLines (F.verdicts script.old) text.now state.old out.old.items result state.new
        out.new.items }
{
    let Ok(mut lines) = Lines::new(alloc, text) else {
        return Err(BenchFault::NoMemory);
    };
    run(alloc, state, script, &mut lines, out)
}

/// Carries out the remaining lines.
fn run<F: FaultSource, R: Read + Drop, W: Write>(
    alloc: Global,
    state: &mut Bench,
    script: &mut F,
    lines: &mut Lines<R>,
    out: &mut W,
) -> Result<(), BenchFault>
    requires { lines.old ≡ unread lines.old.coming }
    ensures { EndsLeaving W.contents (F.verdicts script.old) lines.old.coming state.old out.old
        result lines.new out.new state.new }
{
    let mut said = Vec::new(alloc);
    let mut number = 1;
    loop {
        match go_on(state, script, lines, number, &mut said, out) {
            Ok(true) => number += 1,
            Ok(false) => return Ok(()),
            Err(fault) => return Err(fault),
        }
    }
}

/// Carries out the next line, which has this number. Returns false if there are no more lines.
fn go_on<F: FaultSource, R: Read + Drop, W: Write>(
    state: &mut Bench,
    script: &mut F,
    lines: &mut Lines<R>,
    number: u32,
    said: &mut Vec<u8>,
    out: &mut W,
) -> Result<bool, BenchFault>
    requires { lines.old.fault ≡ None }
    ensures on { IfOk result (λ more. StepsOn W.contents (F.verdicts script.old) more
        lines.old lines.new state.old state.new out.old out.new) }
    ensures stops { IfErr result (λ fault. EndsAt number fault lines.old lines.new state.old
        × ((fault ≡ BenchFault.Write) ⊎ Keeps (W.contents out.old) (W.contents out.new))) }
    ensures leaves { IfErr result (λ fault. LeavesAt fault state.old state.new) }
    ensures keeps { F.verdicts script.new ≡ F.verdicts script.old }
    ensures within { IsWithinLimits lines.new }
{
    if !next_line(lines, number, out)? {
        return Ok(false);
    }
    match state.take_line(script, lines.line(), said) {
        Ok(true) => {}
        Ok(false) => return Err(BenchFault::BadLine(number)),
        Err(_) => return Err(BenchFault::NoMemory),
    }
    put(out, said)?;
    Ok(true)
}

/// Moves to the next line, which has this number. Returns false if there are no more lines. The output is flushed before each read.
fn next_line<R: Read + Drop, W: Write>(
    lines: &mut Lines<R>,
    number: u32,
    out: &mut W,
) -> Result<bool, BenchFault>
    requires { lines.old.fault ≡ None }
    ensures on { IfOk result (λ more. ComesNext more lines.old lines.new) }
    ensures stops { IfErr result (λ fault.
        (b : BenchState) → EndsAt number fault lines.old lines.new b) }
    ensures keeps { result ≢ Err BenchFault.Write →
        Keeps (W.contents out.old) (W.contents out.new) }
    ensures within { IsWithinLimits lines.new }
{
    if lines.take_held() {
        return Ok(true);
    }
    if out.flush().is_err() {
        return Err(BenchFault::Write);
    }
    match lines.next_line() {
        Ok(more) => Ok(more),
        Err(fault) => Err(bench_fault(fault, number)),
    }
}

/// Writes the output of a line, if there is any.
fn put<W: Write>(out: &mut W, said: &[u8]) -> Result<(), BenchFault>
    ensures wrote { OnOk result (Appends (W.contents out.old) (W.contents out.new) said.now) }
    ensures fault { OnErr result (result ≡ Err BenchFault.Write) }
{
    if said.is_empty() {
        return Ok(());
    }
    match out.write_all(said) {
        Ok(()) => Ok(()),
        Err(_) => Err(BenchFault::Write),
    }
}

/// Converts an input fault at the line with this number into a bench fault.
fn bench_fault(fault: InputFault, number: u32) -> BenchFault
    ensures { result ≡ input_fault_of number fault }
{
    match fault {
        InputFault::LineTooLong => BenchFault::BadLine(number),
        InputFault::TooLong => BenchFault::TooLong,
        InputFault::Read => BenchFault::Read,
    }
}
