//! Carries out each exported function on the bench of a handle.
ghost use Rattle.std.specs.Prelude.{◌≡◌, ◌≢◌, IfErr, IfOk, Ok};
ghost use Rattle.can_rules.specs.Plans.{ReadsPlan};
ghost use Rattle.canbusd_c.specs.Codes.{IsUntouched};
ghost use Rattle.canbusd_c.specs.Benching.{IsBenchOf, IsNoBench, IsNoPlan, IsTakeCall, IsTextCall, IsTextOut, bench_log, bench_record};

use crate::codes::{BAD_LINE, NO_MEMORY, OK, bench_code, plan_code};
use crate::local_bench::LocalBench;
use crate::looks::put_front;
use crate::making::{config_in, names_of, timing_in};
use crate::shapes::CConfig;
use can_frame::Names;
use can_logfile::write_tape;
use can_record_text::record_text;
use can_rules::Plan;
use std::alloc::Global;
use std::str;

/// Creates a bench, or returns the code of the error. If a line of the faults is wrong, the line number is written to `line`.
pub fn make_bench(
    alloc: Global,
    names: &[u8],
    config: &CConfig,
    capacity: u32,
    shows_faults: bool,
    faults: &[u8],
    line: &mut usize,
) -> Result<Box<LocalBench>, u32>
    ensures made { IfOk result (λ b.
        IsBenchOf names.now config.now capacity shows_faults faults.now b.value) }
    ensures same { IfOk result (λ b. line.new ≡ line.old) }
    ensures refused { IfErr result (λ code. code ≢ 0) }
    ensures why { IfErr result (λ code.
        IsNoBench names.now config.now capacity faults.now line.old code line.new) }
{
    let names = names_of(alloc, names)?;
    let timing = timing_in(config)?;
    let config = config_in(names.count(), config)?;
    let plan = plan_in(alloc, faults, &names, line)?;
    match LocalBench::new(alloc, names, config, capacity, timing, shows_faults, plan) {
        Ok(bench) => match Box::new(alloc, bench) {
            Ok(bench) => Ok(bench),
            Err(_) => Err(NO_MEMORY),
        },
        Err(fault) => Err(bench_code(fault, line)),
    }
}

/// Returns the faults that a text spells. If a line is wrong, the line number is written to `line`.
fn plan_in(alloc: Global, faults: &[u8], names: &Names, line: &mut usize) -> Result<Plan, u32>
    ensures read { IfOk result (λ plan. ReadsPlan names.now faults.now (Ok plan)) }
    ensures same { IfOk result (λ plan. line.new ≡ line.old) }
    ensures refused { IfErr result (λ code. code ≢ 0) }
    ensures why { IfErr result (λ code.
        IsNoPlan names.now faults.now line.old code line.new) }
{
    let Ok(text) = str::from_utf8(faults) else {
        return Err(BAD_LINE);
    };
    match Plan::read(alloc, text, names) {
        Ok(plan) => Ok(plan),
        Err(fault) => Err(plan_code(fault, line)),
    }
}

/// Carries out lines. Writes their output, as far as it fits into the buffer, and the length of the whole output.
pub fn take(
    bench: &mut LocalBench,
    lines: &[u8],
    to: &mut [u8],
    len: &mut usize,
    line: &mut usize,
) -> u32
    ensures { IsTakeCall lines.now bench.old to.old line.old result len.new line.new to.new
        bench.new }
{
    let outcome = bench.take(lines);
    write_output(bench, to, len);
    match outcome {
        Ok(()) => OK,
        Err(fault) => bench_code(fault, line),
    }
}

/// Writes the output of the last lines, as far as it fits into the buffer, and the length of the whole output.
pub fn write_output(bench: &LocalBench, to: &mut [u8], len: &mut usize)
    ensures { IsTextOut bench.now.output to.old len.new to.new }
{
    *len = bench.output().len();
    put_front(bench.output(), to);
}

/// Writes the text of the record, as far as it fits into the buffer, and the length of the whole text.
pub fn write_record(alloc: Global, bench: &LocalBench, to: &mut [u8], len: &mut usize) -> u32
    ensures written { IsTextCall (bench_record bench.now) to.old result len.new to.new }
    ensures kept { IsUntouched result len.old len.new }
    ensures same_text { IsUntouched result to.old to.new }
{
    let Ok(text) = record_text(alloc, bench.record()) else {
        return NO_MEMORY;
    };
    *len = text.len();
    put_front(&text, to);
    OK
}

/// Writes the log, as far as it fits into the buffer, and the length of the whole log.
pub fn write_log(alloc: Global, bench: &LocalBench, to: &mut [u8], len: &mut usize) -> u32
    ensures written { IsTextCall (bench_log bench.now) to.old result len.new to.new }
    ensures kept { IsUntouched result len.old len.new }
    ensures same_text { IsUntouched result to.old to.new }
{
    let mut text = Vec::new(alloc);
    if write_tape(bench.names(), bench.record(), &mut text).is_err() {
        return NO_MEMORY;
    }
    *len = text.len();
    put_front(&text, to);
    OK
}
