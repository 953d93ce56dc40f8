//! The codes that calls return. 0 means that the call was carried out; the other codes are reasons for a refusal.
ghost use Rattle.std.specs.Prelude.{◌≡◌, Err};
ghost use Rattle.canbusd_c.specs.Codes.{IsTold, IsUntouched, refusal_code, rule_code, run_code};
ghost use Rattle.canbusd_c.specs.Benching.{IsLineTold, plan_code, plan_line};

use crate::local_bus::RunFault;
use can_bus::Refusal;
use can_fault::ScriptError;
use can_rules::{PlanError, RuleRefusal};
use can_session::BenchFault;

pub const OK: u32 = 0;

pub const RECORD_FULL: u32 = 1;

pub const NO_INTERFACE: u32 = 2;

pub const BAD_CAPACITY: u32 = 3;

pub const TOO_MANY_SOCKETS: u32 = 4;

pub const NO_SOCKET: u32 = 5;

pub const FD_OFF: u32 = 6;

pub const BUS_OFF: u32 = 7;

pub const NO_BUFFERS: u32 = 8;

pub const NOT_BUS_OFF: u32 = 9;

pub const NO_MEMORY: u32 = 10;

pub const DOWN: u32 = 11;
/// Nothing waits.
pub const NOTHING: u32 = 12;

pub const BAD_FRAME: u32 = 13;

pub const BAD_MOMENT: u32 = 14;

pub const BAD_OPTION: u32 = 15;

pub const BAD_FILTER: u32 = 16;

pub const TOO_MANY_FILTERS: u32 = 17;

pub const BAD_RULE: u32 = 18;

pub const TOO_MANY_RULES: u32 = 19;

pub const BAD_NAMES: u32 = 20;

pub const BAD_CONFIG: u32 = 21;

pub const BAD_BIT_RATES: u32 = 22;

pub const BAD_RUN: u32 = 23;
// Code 24 is reserved for a null pointer, which canbusd.c detects.
pub const BAD_LINE: u32 = 25;

pub const REPEATED_ATTEMPT: u32 = 26;

pub const TOO_LONG: u32 = 27;

/// Returns the code for a refusal.
pub fn refusal_code(why: Refusal) -> u32
    ensures { result ≡ refusal_code why }
{
    match why {
        Refusal::RecordFull => RECORD_FULL,
        Refusal::NoInterface => NO_INTERFACE,
        Refusal::BadCapacity => BAD_CAPACITY,
        Refusal::TooManySockets => TOO_MANY_SOCKETS,
        Refusal::NoSocket => NO_SOCKET,
        Refusal::FdOff => FD_OFF,
        Refusal::BusOff => BUS_OFF,
        Refusal::NoBuffers => NO_BUFFERS,
        Refusal::NotBusOff => NOT_BUS_OFF,
        Refusal::NoMemory => NO_MEMORY,
        Refusal::Down => DOWN,
    }
}

/// Returns the code for a call that returns nothing else.
pub fn done_code(outcome: Result<(), Refusal>) -> u32
    ensures { IsTold refusal_code outcome result tt }
{
    match outcome {
        Ok(()) => OK,
        Err(why) => refusal_code(why),
    }
}

/// Returns the code for a call that also returns a number. If the call was carried out, the number is written to `number`.
pub fn number_code(outcome: Result<u64, Refusal>, number: &mut u64) -> u32
    ensures told { IsTold refusal_code outcome result number.new }
    ensures kept { IsUntouched result number.old number.new }
{
    match outcome {
        Ok(found) => {
            *number = found;
            OK
        }
        Err(why) => refusal_code(why),
    }
}

/// Returns the code for a call that adds a fault rule.
pub fn rule_code(outcome: Result<(), RuleRefusal>) -> u32
    ensures { IsTold rule_code outcome result tt }
{
    match outcome {
        Ok(()) => OK,
        Err(RuleRefusal::BadRule) => BAD_RULE,
        Err(RuleRefusal::UnknownInterface) => NO_INTERFACE,
        Err(RuleRefusal::TooManyRules) => TOO_MANY_RULES,
        Err(RuleRefusal::NoMemory) => NO_MEMORY,
    }
}

/// Returns the code for a run. If the run was carried out, the number of its attempts is written to `made`.
pub fn run_code(outcome: Result<u64, RunFault>, made: &mut u64) -> u32
    ensures told { IsTold run_code outcome result made.new }
    ensures kept { IsUntouched result made.old made.new }
{
    match outcome {
        Ok(found) => {
            *made = found;
            OK
        }
        Err(RunFault::BadRun) => BAD_RUN,
        Err(RunFault::RecordFull) => RECORD_FULL,
    }
}

/// Returns the code for a bench that could not be created or that stopped at a line. If a line is wrong, the line number is written
/// to `line`.
pub fn bench_code(fault: BenchFault, line: &mut usize) -> u32
    ensures { IsLineTold (Err fault) line.old result line.new }
{
    match fault {
        BenchFault::BadConfig => BAD_CONFIG,
        BenchFault::BadLine(number) => {
            *line = number as usize;
            BAD_LINE
        }
        BenchFault::TooLong | BenchFault::Read => TOO_LONG,
        BenchFault::Write | BenchFault::NoMemory => NO_MEMORY,
    }
}

/// Returns the code for a text that does not spell faults. The number of the wrong line is written to `line`.
pub fn plan_code(fault: PlanError, line: &mut usize) -> u32
    ensures code { result ≡ plan_code fault }
    ensures line { line.new ≡ plan_line line.old fault }
{
    let (code, number) = match fault {
        PlanError::Script(ScriptError::BadLine(number)) => (BAD_LINE, number),
        PlanError::Script(ScriptError::UnknownInterface(number)) => (NO_INTERFACE, number),
        PlanError::Script(ScriptError::RepeatedAttempt(number)) => (REPEATED_ATTEMPT, number),
        PlanError::Script(ScriptError::NoMemory) => (NO_MEMORY, *line),
        PlanError::TooManyRules(number) => (TOO_MANY_RULES, number),
    };
    *line = number;
    code
}
