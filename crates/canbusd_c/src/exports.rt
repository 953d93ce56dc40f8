//! The functions that C calls. Each of them calls a function of `calls`, `looks` or `benching` for the bus or the bench of a
//! handle.
ghost use Rattle.std.specs.Prelude.{◌≡◌};
ghost use Rattle.can_event.specs.declared.event.Event.TheVariants as event;
ghost use Rattle.can_rules.specs.Plans.{without_rules};
ghost use Rattle.canbusd_c.specs.Locals.{local_with_plan};
ghost use Rattle.canbusd_c.specs.Shapes.{frame_of_struct, option_of_numbers, status_out, stats_out};
ghost use Rattle.canbusd_c.specs.Codes.{IsUntouched};
ghost use Rattle.canbusd_c.specs.Making.{IsNewCall};
ghost use Rattle.canbusd_c.specs.Benching.{IsBenchCall, IsTakeCall, IsTextCall, IsTextOut, bench_log, bench_record};
ghost use Rattle.canbusd_c.specs.Calls.{IsOpenCall, IsCloseCall, IsSendCall, IsOptionCall, IsReceiveCall, IsAttemptCall, IsRunCall, IsChangeCall, IsInjectCall, IsCountsCall, IsFiltersCall, IsLoadCall, IsRecordCall, filters_of_structs, iface_counts, socket_counts, iface_of_number, moment_of_micros};

use crate::bench_handle::BenchHandle;
use crate::handle::Handle;
use crate::shapes::{CClosed, CConfig, CFilter, CFrame, CItem, CLoad, CStats, CStatus, CTried};
use crate::{benching, calls, looks, making};
use std::alloc::Global;

/// Makes a bus.
#[unsafe(no_mangle)]
pub extern "C" fn canbusd_c_new(
    alloc: Global,
    names: &[u8],
    config: &CConfig,
    out: &mut *mut u8,
) -> u32
    ensures told { IsNewCall names.now config.now result }
    ensures kept { IsUntouched result out.old out.new }
{
    match making::make(alloc, names, config) {
        Ok(bus) => {
            *out = Box::into_raw(bus).cast::<u8>();
            0
        }
        Err(code) => code,
    }
}

/// Frees a bus.
#[unsafe(no_mangle)]
pub extern "C" fn canbusd_c_free(alloc: Global, handle: Handle) {
    drop(handle.into_parts(alloc).into_box());
}

/// Opens a socket on an interface. The receive queue of the socket holds `capacity` items.
#[unsafe(no_mangle)]
pub extern "C" fn canbusd_c_open(
    handle: &mut Handle,
    iface: u32,
    capacity: u32,
    socket: &mut u32,
) -> u32
    ensures opened { IsOpenCall (iface_of_number iface) capacity handle.old.value result socket.new
        handle.new.value }
    ensures kept { IsUntouched result socket.old socket.new }
{
    calls::open(handle.lend(), iface, capacity, socket)
}

/// Closes a socket.
#[unsafe(no_mangle)]
pub extern "C" fn canbusd_c_close(handle: &mut Handle, socket: u32, left: &mut CClosed) -> u32
    ensures closed { IsCloseCall socket handle.old.value result left.new handle.new.value }
    ensures kept { IsUntouched result left.old left.new }
{
    calls::close(handle.lend(), socket, left)
}

/// Sets the filters of a socket.
#[unsafe(no_mangle)]
pub extern "C" fn canbusd_c_set_filters(
    alloc: Global,
    handle: &mut Handle,
    socket: u32,
    filters: &[CFilter],
) -> u32
    ensures { IsFiltersCall socket (filters_of_structs filters.now) handle.old.value result
        handle.new.value }
{
    looks::set_filters(alloc, handle.lend(), socket, filters)
}

/// Sets an option of a socket.
#[unsafe(no_mangle)]
pub extern "C" fn canbusd_c_set_option(
    handle: &mut Handle,
    socket: u32,
    option: u32,
    value: u32,
) -> u32
    ensures { IsOptionCall socket (option_of_numbers option value) handle.old.value result
        handle.new.value }
{
    calls::set_option(handle.lend(), socket, option, value)
}

/// Puts a frame into the transmit queue of a socket's interface.
#[unsafe(no_mangle)]
pub extern "C" fn canbusd_c_send(
    handle: &mut Handle,
    socket: u32,
    frame: &CFrame,
    number: &mut u64,
) -> u32
    ensures sent { IsSendCall socket (frame_of_struct frame.now) handle.old.value result number.new
        handle.new.value }
    ensures kept { IsUntouched result number.old number.new }
{
    calls::send(handle.lend(), socket, frame, number)
}

/// Takes the oldest item from the receive queue of a socket.
#[unsafe(no_mangle)]
pub extern "C" fn canbusd_c_receive(handle: &mut Handle, socket: u32, item: &mut CItem) -> u32
    ensures received { IsReceiveCall socket handle.old.value result item.new handle.new.value }
    ensures kept { IsUntouched result item.old item.new }
{
    calls::receive(handle.lend(), socket, item)
}

/// Makes an attempt to send a frame at this moment.
#[unsafe(no_mangle)]
pub extern "C" fn canbusd_c_attempt(handle: &mut Handle, moment: u64, tried: &mut CTried) -> u32
    ensures attempted { IsAttemptCall (moment_of_micros moment) handle.old.value result tried.new
        handle.new.value }
    ensures kept { IsUntouched result tried.old tried.new }
{
    calls::attempt(handle.lend(), moment, tried)
}

/// Makes all attempts that are due before this moment.
#[unsafe(no_mangle)]
pub extern "C" fn canbusd_c_run(handle: &mut Handle, moment: u64, made: &mut u64) -> u32
    ensures ran { IsRunCall (moment_of_micros moment) handle.old.value result made.new
        handle.new.value }
    ensures kept { IsUntouched result made.old made.new }
{
    calls::run(handle.lend(), moment, made)
}

/// Restarts an interface that is bus off or down.
#[unsafe(no_mangle)]
pub extern "C" fn canbusd_c_restart(handle: &mut Handle, iface: u32, moment: u64) -> u32
    ensures { IsChangeCall event.Restart (iface_of_number iface) (moment_of_micros moment)
        handle.old.value result handle.new.value }
{
    calls::restart(handle.lend(), iface, moment)
}

/// Takes an interface down.
#[unsafe(no_mangle)]
pub extern "C" fn canbusd_c_down(handle: &mut Handle, iface: u32, moment: u64) -> u32
    ensures { IsChangeCall event.Down (iface_of_number iface) (moment_of_micros moment)
        handle.old.value result handle.new.value }
{
    calls::down(handle.lend(), iface, moment)
}

/// Adds a fault rule to the bus.
#[unsafe(no_mangle)]
pub extern "C" fn canbusd_c_inject(handle: &mut Handle, rule: &[u8]) -> u32
    ensures { IsInjectCall rule.now handle.old.value result handle.new.value }
{
    calls::inject(handle.lend(), rule)
}

/// Ends all rules.
#[unsafe(no_mangle)]
pub extern "C" fn canbusd_c_end_rules(handle: &mut Handle)
    ensures { handle.new.value
        ≡ local_with_plan handle.old.value (without_rules handle.old.value.bus.plan) }
{
    handle.lend().end_rules();
}

/// Writes the counts, the error counters and the state of an interface to `status`.
#[unsafe(no_mangle)]
pub extern "C" fn canbusd_c_status(handle: &mut Handle, iface: u32, status: &mut CStatus) -> u32
    ensures read { IsCountsCall 2 status_out
        (iface_counts handle.old.value (iface_of_number iface)) status.old result status.new }
    ensures same { handle.new.value ≡ handle.old.value }
{
    looks::status(handle.lend(), iface, status)
}

/// Writes the counts of a socket to `stats`.
#[unsafe(no_mangle)]
pub extern "C" fn canbusd_c_stats(handle: &mut Handle, socket: u32, stats: &mut CStats) -> u32
    ensures read { IsCountsCall 5 stats_out (socket_counts handle.old.value socket) stats.old result
        stats.new }
    ensures same { handle.new.value ≡ handle.old.value }
{
    looks::stats(handle.lend(), socket, stats)
}

/// Writes to `load` how busy the wire is at a moment.
#[unsafe(no_mangle)]
pub extern "C" fn canbusd_c_load(handle: &mut Handle, moment: u64, load: &mut CLoad) -> u32
    ensures read { IsLoadCall (moment_of_micros moment) handle.old.value result load.new }
    ensures kept { IsUntouched result load.old load.new }
    ensures same { handle.new.value ≡ handle.old.value }
{
    looks::load(handle.lend(), moment, load)
}

/// Writes the text of the record, as far as it fits into the buffer, and the length of the whole text.
#[unsafe(no_mangle)]
pub extern "C" fn canbusd_c_record(
    alloc: Global,
    handle: &mut Handle,
    to: &mut [u8],
    len: &mut usize,
) -> u32
    ensures written { IsRecordCall handle.old.value to.old result len.new to.new }
    ensures kept { IsUntouched result len.old len.new }
    ensures same_text { IsUntouched result to.old to.new }
    ensures same { handle.new.value ≡ handle.old.value }
{
    looks::write_record(alloc, handle.lend(), to, len)
}

/// Makes a bench.
#[unsafe(no_mangle)]
pub extern "C" fn canbusd_c_bench_new(
    alloc: Global,
    names: &[u8],
    config: &CConfig,
    capacity: u32,
    shows_faults: u32,
    faults: &[u8],
    line: &mut usize,
    out: &mut *mut u8,
) -> u32
    ensures told { IsBenchCall names.now config.now capacity shows_faults faults.now line.old
        result line.new }
    ensures kept { IsUntouched result out.old out.new }
{
    match benching::make_bench(
        alloc,
        names,
        config,
        capacity,
        shows_faults != 0,
        faults,
        line,
    ) {
        Ok(bench) => {
            *out = Box::into_raw(bench).cast::<u8>();
            0
        }
        Err(code) => code,
    }
}

/// Frees a bench.
#[unsafe(no_mangle)]
pub extern "C" fn canbusd_c_bench_free(alloc: Global, handle: BenchHandle) {
    drop(handle.into_parts(alloc).into_box());
}

/// Carries out lines. Writes their output, as far as it fits into the buffer, and the length of the whole output.
#[unsafe(no_mangle)]
pub extern "C" fn canbusd_c_bench_take(
    handle: &mut BenchHandle,
    lines: &[u8],
    to: &mut [u8],
    len: &mut usize,
    line: &mut usize,
) -> u32
    ensures { IsTakeCall lines.now handle.old.value to.old line.old result len.new line.new to.new
        handle.new.value }
{
    benching::take(handle.lend(), lines, to, len, line)
}

/// Writes the output of the last lines, as far as it fits into the buffer, and the length of the whole output.
#[unsafe(no_mangle)]
pub extern "C" fn canbusd_c_bench_output(handle: &mut BenchHandle, to: &mut [u8], len: &mut usize)
    ensures written { IsTextOut handle.old.value.output to.old len.new to.new }
    ensures same { handle.new.value ≡ handle.old.value }
{
    benching::write_output(handle.lend(), to, len);
}

/// Writes the text of the record, as far as it fits into the buffer, and the length of the whole text.
#[unsafe(no_mangle)]
pub extern "C" fn canbusd_c_bench_record(
    alloc: Global,
    handle: &mut BenchHandle,
    to: &mut [u8],
    len: &mut usize,
) -> u32
    ensures written { IsTextCall (bench_record handle.old.value) to.old result len.new to.new }
    ensures kept { IsUntouched result len.old len.new }
    ensures same_text { IsUntouched result to.old to.new }
    ensures same { handle.new.value ≡ handle.old.value }
{
    benching::write_record(alloc, handle.lend(), to, len)
}

/// Writes the log, as far as it fits into the buffer, and the length of the whole log.
#[unsafe(no_mangle)]
pub extern "C" fn canbusd_c_bench_log(
    alloc: Global,
    handle: &mut BenchHandle,
    to: &mut [u8],
    len: &mut usize,
) -> u32
    ensures written { IsTextCall (bench_log handle.old.value) to.old result len.new to.new }
    ensures kept { IsUntouched result len.old len.new }
    ensures same_text { IsUntouched result to.old to.new }
    ensures same { handle.new.value ≡ handle.old.value }
{
    benching::write_log(alloc, handle.lend(), to, len)
}
