ghost use Rattle.std.specs.Prelude.{◌≡◌, false, length, IfErr, IfOk, IsTrue, OnOk};
ghost use Rattle.can_event.specs.Events.{IsConfig};
ghost use Rattle.can_hub.specs.Benches.{NamedFrom};
ghost use Rattle.can_hub.specs.HubBuses.{IsOfLongRuns};
ghost use Rattle.canbusd_io.specs.declared.program_error.ProgramError.TheVariants as fault;
ghost use Rattle.canbusd_io.specs.Files.{Took};
ghost use Rattle.canbusd_options.specs.Options.{timing_at};
ghost use Rattle.can_hub.specs.Settling.{AreNewScrolls};
ghost use Rattle.canbusd_serve.specs.LongRuns.{AllGivenFirst, AreBegun, HasFiles, HasNewScrolls, IsRunOf, ServesFiles};
ghost use Rattle.canbusd_serve.specs.Served.{AreAllBenches, AreBusesTimed, AreDescribed, AreEnds, IsBenchOf, IsDescribedHub, IsHeardAt, IsListening, IsOfBus, IsOfHub, IsOfServer, IsOfServing, IsServed, Serves, journals, listening_line};

use crate::buses_notes::buses_note;
use crate::ends::put_ends;
use crate::file_keeper::{FileKeeper, KeptFiles};
use crate::host::{Host, Start};
use crate::listening::{Listening, leave, listen, listen_failure};
use crate::live_files::{LiveFiles, finish_all, open_all};
use crate::lock_file::LockFile;
use crate::notices::first_name_at;
use crate::serve_files::{
    drafts_of, lock_folder, look_at_folder, open_failure, save_all, set_all_aside,
};
use can_bus::{BusFault, LongEnd, Record, TAIL_SIZE};
use can_fault::Perfect;
use can_meter::MeterName;
use can_roll::RollName;
use can_server::{Acceptor, Bench, Hub, Keeper, Leaves, Scribe, ScrollKeeper, serve_with};
use can_station::{Blanks, BusName, Open, Pass, Scroll, Settled};
use canbusd_io::{
    INPUT, LiveFaults, OUTPUT, ProgramError, Report, Reporter, bus_config, fixed_note, read_names,
    read_plan, write_failure,
};
use canbusd_options::{BusWord, Recording, ServeOptions};
use std::alloc::{AllocError, Global};
use std::fs::{File, OpenFile};
use std::io::{ErrorKind, Read, Write};
use std::marker::Brand;
use std::net::{Net, Shutdown, TcpListener, TcpStream};
use std::os::unix::net::UnixStream;
use std::rt::Files;
use std::slice::IterMut;
use std::sync::atomic::{AtomicBool, Ordering};
use std::sync::{Mutex, OnceLock, Wait};
use std::thread::Threads;
use std::time::{Clock, Duration};
use std::{mem, thread};

/// The parts of the system that a server uses: files, clocks, threads and sockets.
pub trait ServerRuntime: Files<File = File>
    + Clock
    + Threads
    + Wait
    + Net<Listener = TcpListener, Stream = TcpStream>
    + Sync {}

impl<
    R: Files<File = File>
        + Clock
        + Threads
        + Wait
        + Net<Listener = TcpListener, Stream = TcpStream>
        + Sync,
> ServerRuntime for R {}

/// An input that a separate thread can read.
trait Input: Read + Drop + Send + 'static {}

impl<R: Read + Drop + Send + 'static> Input for R {}

/// Serves the buses in the options until all their sessions have ended or, if the options request it, until the end of the input.
/// It writes its address to the output, and at the end the number of entries of each bus's record. Then it writes the records and
/// logs. Returns whether all of this was written and each bus kept its driver. Each fault, and each bus whose record is full, is
/// reported to `errors`. The names and the script of each bus are checked first, and then the limits of the buses. After that the
/// server listens. A folder in which files cannot be written is reported before any client can connect. The input is read only if
/// the options request that the server stops at its end.
pub fn run_serve<'a, H: ServerRuntime, R: Read + Drop + Send + 'static, W: Write, E: Write + Send>(
    rt: &H,
    alloc: Global,
    options: &ServeOptions<'a>,
    input: R,
    output: &mut W,
    errors: &mut E,
) -> Result<bool, Report<'a>>
    ensures served { IfOk result (λ whole. IsTrue whole →
        IsServed W.contents options.now output.old output.new) }
    ensures fault { IfErr result (λ failure. IsOfServer options.now failure.error) }
{
    let run = ServerRun {
        rt,
        alloc,
        options,
        has_lost: AtomicBool::new(false),
        lock: OnceLock::new(),
        faults: Mutex::new(Vec::new(alloc)),
    };
    let outcome = run.serve_buses(input, output, errors);
    run.free_folder();
    outcome
}

// The results of serving: the passes, the files and the scroll of each bus.
#[derive(Drop)]
struct Run<N: RollName> {
    passes: Vec<Vec<Pass<N>>>,
    files: Vec<LiveFiles<File>>,
    scrolls: Vec<Scroll<N>>,
}

// The values that a run of the server uses.
#[derive(Drop)]
struct ServerRun<'r, 'a, H: ServerRuntime> {
    rt: &'r H,
    alloc: Global,
    options: &'r ServeOptions<'a>,
    // Whether a bus has lost its driver. The loss was already reported.
    has_lost: AtomicBool,
    // The lock of the folder, which is held until the last file is written.
    lock: OnceLock<LockFile>,
    // The faults of each bus, if its record is wanted. While the bus is served, its keeper holds them.
    faults: Mutex<Vec<LiveFaults>>,
}

impl<'r, 'a, H: ServerRuntime> ServerRun<'r, 'a, H> {
    // Serves the buses and writes the files.
    fn serve_buses<R: Input, W: Write, E: Write + Send>(
        &self,
        input: R,
        output: &mut W,
        errors: &mut E,
    ) -> Result<bool, Report<'a>>
        ensures served { IfOk result (λ whole. IsTrue whole →
            IsServed W.contents self.now.options.now output.old output.new) }
        ensures fault { IfErr result (λ failure. IsOfServer self.now.options.now failure.error) }
    {
        let benches = self.read_benches()?;
        let has_reported = match self.options.recording {
            Recording::AtEnd => self.run_whole::<Brand, _, _, _>(benches, input, output, errors)?,
            Recording::Live | Recording::Never => {
                self.run_live::<Brand, _, _, _>(benches, input, output, errors)?
                    .0
            }
        };
        Ok(!has_reported && !self.has_lost.load(Ordering::SeqCst))
    }

    // Removes the lock file of the folder.
    fn free_folder(&self) {
        if let Some(lock) = self.lock.get() {
            lock.remove(self.rt);
        }
    }

    // Returns the parts of all buses that the options describe.
    fn read_benches(&self) -> Result<Vec<Bench<Perfect, Open>>, Report<'a>>
        ensures made { IfOk result (λ benches. AreAllBenches self.now.options.now benches.items) }
        ensures timed { IfOk result (λ benches. AreBusesTimed self.now.options.now benches.items) }
        ensures fault { IfErr result (λ failure. IsOfServer self.now.options.now failure.error) }
    {
        let mut benches = Vec::new(self.alloc);
        for (place, bus) in self.options.buses.iter().enumerate() {
            let bench = self.read_bench(place, *bus)?;
            let Ok(()) = benches.push(bench) else {
                return Err(Report::new(self.alloc, ProgramError::NoMemory));
            };
        }
        Ok(benches)
    }

    // Returns the parts of the bus at index `place`, which this BUS argument describes.
    fn read_bench(&self, place: usize, bus: BusWord<'a>) -> Result<Bench<Perfect, Open>, Report<'a>>
        ensures made { IfOk result (λ bench. IsBenchOf self.now.options.now bus.entry bench) }
        ensures timed { IfOk result (λ bench.
            bench.timing ≡ timing_at self.now.options.now.timings.items place) }
        ensures fault { IfErr result (λ failure. IsOfBus bus.entry failure.error) }
    {
        let names = read_names(self.alloc, bus.names)?;
        let (plan, script) = read_plan(self.rt, self.alloc, bus, &names)?;
        let Ok(()) = self.add_faults(&bus, script) else {
            return Err(Report::new(self.alloc, ProgramError::NoMemory));
        };
        let Ok(blanks) = Blanks::new(self.alloc, usize::from(names.count())) else {
            return Err(Report::new(self.alloc, ProgramError::NoMemory));
        };
        Ok(Bench {
            config: bus_config(self.options.settings, &names),
            names,
            blanks,
            source: Perfect,
            plan,
            gate: Open,
            timing: self.options.timing_at(place),
            pace_ms: self.options.pace_ms,
            rx_capacity: self.options.settings.rx_capacity,
        })
    }

    // Adds the file for a bus's faults. The faults begin with this script.
    fn add_faults(&self, bus: &BusWord<'_>, script: String) -> Result<(), AllocError> {
        let folder = match self.options.recording {
            Recording::AtEnd | Recording::Live => self.options.folder,
            Recording::Never => None,
        };
        let Some(folder) = folder else {
            return Ok(());
        };
        let Ok(drafts) = drafts_of(self.rt, self.alloc, folder, bus) else {
            return Err(AllocError);
        };
        let faults = LiveFaults::new(drafts.faults, script, self.options.is_synced)?;
        self.faults.lock(self.rt).push(faults)?;
        Ok(())
    }

    // Creates the files of faults that are written while the server runs, if there are any.
    fn begin_faults(&self) -> Result<(), Report<'a>>
        ensures { IfErr result (λ failure. IsOfServing failure.error) }
    {
        let (Some(folder), Recording::Live) = (self.options.folder, self.options.recording) else {
            return Ok(());
        };
        let begun = self.begin_all(folder);
        if begun.is_err() {
            self.remove_faults();
        }
        begun
    }

    fn begin_all(&self, folder: &'a str) -> Result<(), Report<'a>>
        ensures { IfErr result (λ failure. IsOfServing failure.error) }
    {
        for faults in self.faults.lock(self.rt).iter_mut() {
            if let Err(error) = faults.begin(self.rt, self.alloc) {
                return Err(open_failure(self.alloc, folder, faults.path(), &error));
            }
        }
        Ok(())
    }

    fn remove_faults(&self) {
        for faults in self.faults.lock(self.rt).iter() {
            faults.remove(self.rt);
        }
    }

    // Serves the buses that consist of these parts, and writes their records and logs. Returns whether an error was reported.
    fn run_whole<N: RollName + MeterName + Send + Sync, R: Input, W: Write, E: Write + Send>(
        &self,
        benches: Vec<Bench<Perfect, Open>>,
        input: R,
        output: &mut W,
        errors: &mut E,
    ) -> Result<bool, Report<'a>>
        requires named { NamedFrom N.roll N.meter 0 benches.items }
        requires each { length benches.items ≡ length self.now.options.now.buses.items }
        requires made { AreDescribed self.now.options.now benches.items }
        ensures served { IfOk result (λ reported. reported ≡ false
            → Serves W.contents self.now.options.now benches.items output.old output.new) }
        ensures fault { IfErr result (λ failure. IsOfHub IsConfig benches.items failure.error) }
    {
        let (settled, _) = self.settle::<N, Record, R, W, E>(benches, input, output, errors)?;
        let buses = &self.options.buses;
        let mut reporter = Reporter::new(errors);
        reporter.report(put_ends(self.alloc, buses, &settled, output));
        let faults = self.take_faults();
        if let Some(folder) = self.options.folder {
            save_all(
                self.rt,
                self.alloc,
                folder,
                buses,
                &settled,
                &faults,
                &mut reporter,
            );
        }
        let is_whole = are_whole(&faults);
        Ok(reporter.has_reported() || !is_whole)
    }

    // Serves the buses of long runs that consist of these parts, and completes their files. Returns whether an error was reported,
    // and the files.
    fn run_live<N: RollName + MeterName + Send + Sync, R: Input, W: Write, E: Write + Send>(
        &self,
        benches: Vec<Bench<Perfect, Open>>,
        input: R,
        output: &mut W,
        errors: &mut E,
    ) -> Result<(bool, Vec<LiveFiles<File>>), Report<'a>>
        requires named { NamedFrom N.roll N.meter 0 benches.items }
        requires each { length benches.items ≡ length self.now.options.now.buses.items }
        requires made { AreDescribed self.now.options.now benches.items }
        ensures served { IfOk result (λ end. end.0 ≡ false
            → ServesFiles W.contents ⟦<File as Write>⟧.contents self.now.options.now benches.items
            output.old output.new end.1.items) }
        ensures fault { IfErr result (λ failure. IsOfHub IsOfLongRuns benches.items failure.error) }
    {
        let (settled, mut files) = self.settle::<N, LongEnd, R, W, E>(
            benches, input, output, errors,
        )?;
        let buses = &self.options.buses;
        let mut reporter = Reporter::new(errors);
        reporter.report(put_ends(self.alloc, buses, &settled, output));
        let faults = self.take_faults();
        let are_there = finish_all(
            self.rt,
            self.alloc,
            self.options,
            buses,
            &mut files,
            &faults,
            &settled,
            &mut reporter,
        );
        let has_fault = reporter.has_reported() || !are_there;
        Ok((has_fault || !are_whole(&faults), files))
    }

    // Takes the faults of all buses out of `self`.
    fn take_faults(&self) -> Vec<LiveFaults> {
        mem::replace(&mut *self.faults.lock(self.rt), Vec::new(self.alloc))
    }

    // Serves the buses that consist of these parts, and settles them. Returns the final state of each bus, and the files that were
    // written while the server ran.
    fn settle<N: BusName + Send + Sync, L: Leaves, R: Input, W: Write, E: Write + Send>(
        &self,
        benches: Vec<Bench<Perfect, Open>>,
        input: R,
        output: &mut W,
        errors: &mut E,
    ) -> Result<(Vec<Settled<L>>, Vec<LiveFiles<File>>), Report<'a>>
        requires named { NamedFrom N.roll N.meter 0 benches.items }
        requires made { AreDescribed self.now.options.now benches.items }
        ensures ends { IfOk result (λ end.
            AreEnds benches.items (journals L.journal end.0.items)) }
        ensures handed { IfOk result (λ end.
            AllGivenFirst ⟦<File as Write>⟧.contents L.handed end.1.items end.0.items) }
        ensures listening { OnOk result
            (IsListening W.contents self.now.options.now.address.now output.old output.new) }
        ensures fault { IfErr result (λ failure. IsOfHub L.limits benches.items failure.error) }
    {
        let made = Hub::<N, Perfect, Open, L>::make(self.alloc, benches, TAIL_SIZE);
        let (hub, scrolls) = match made {
            Ok(hub) => hub,
            Err(fault) => return Err(self.hub_failure(fault)),
        };
        let Run {
            passes,
            files,
            scrolls,
        } = self.serve_hub(&hub, scrolls, input, output, errors)?;
        match hub.settle_scrolls(self.rt, self.alloc, passes, scrolls) {
            Ok(settled) => Ok((settled, files)),
            Err(fault) => Err(self.wrong_station(fault.bus)),
        }
    }

    fn hub_failure(&self, found: BusFault) -> Report<'a>
        ensures { result.error ≡ fault.Buses found }
    {
        let notes = match found {
            BusFault::BadConfig => buses_note(self.alloc, self.options),
            BusFault::NoMemory => fixed_note(self.alloc, memory_note(self.options.recording)),
        };
        Report::with(self.alloc, ProgramError::Buses(found), notes)
    }

    fn wrong_station(&self, bus: usize) -> Report<'a>
        ensures { IsOfServing result.error }
    {
        let name = first_name_at(&self.options.buses, bus);
        Report::new(self.alloc, ProgramError::WrongStation(name))
    }

    // Listens at the address and serves the buses of a hub.
    fn serve_hub<N: BusName + Send + Sync, L: Leaves, R: Input, W: Write, E: Write + Send>(
        &self,
        hub: &Hub<N, Perfect, Open, L>,
        scrolls: Vec<Scroll<N>>,
        input: R,
        output: &mut W,
        errors: &mut E,
    ) -> Result<Run<N>, Report<'a>>
        requires each { length hub.now ≡ length self.now.options.now.buses.items }
        requires made { IsDescribedHub self.now.options.now hub.now }
        requires scrolls { HasNewScrolls hub.now scrolls.items }
        ensures run { IfOk result (IsRunOf ⟦<File as Write>⟧.contents hub.now) }
        ensures listening { OnOk result
            (IsListening W.contents self.now.options.now.address.now output.old output.new) }
        ensures fault { IfErr result (λ failure. IsOfServing failure.error) }
    {
        let address = self.options.address;
        let sessions = self.options.sessions;
        let listening = listen(self.rt, self.alloc, address, sessions)?;
        let Listening {
            acceptors,
            heard,
            file,
        } = listening;
        let served = self.serve_acceptors(hub, scrolls, &acceptors, &heard, input, output, errors);
        leave(self.rt, file);
        served
    }

    // Checks everything else that the server needs, writes its address to the output, and serves.
    fn serve_acceptors<N: BusName + Send + Sync, L: Leaves, R: Input, W: Write, E: Write + Send>(
        &self,
        hub: &Hub<N, Perfect, Open, L>,
        scrolls: Vec<Scroll<N>>,
        acceptors: &[Acceptor],
        heard: &str,
        input: R,
        output: &mut W,
        errors: &mut E,
    ) -> Result<Run<N>, Report<'a>>
        requires each { length hub.now ≡ length self.now.options.now.buses.items }
        requires made { IsDescribedHub self.now.options.now hub.now }
        requires scrolls { HasNewScrolls hub.now scrolls.items }
        requires heard { IsHeardAt self.now.options.now.address.now heard.now }
        ensures run { IfOk result (IsRunOf ⟦<File as Write>⟧.contents hub.now) }
        ensures listening { OnOk result
            (IsListening W.contents self.now.options.now.address.now output.old output.new) }
        ensures fault { IfErr result (λ failure. IsOfServing failure.error) }
    {
        let until = if self.options.is_until_eof {
            Some(self.end_of(input)?)
        } else {
            None
        };
        self.take_folder(errors)?;
        self.begin_faults()?;
        let files = match open_all(self.rt, self.alloc, self.options) {
            Ok(files) => files,
            Err(failure) => {
                self.remove_faults();
                return Err(failure);
            }
        };
        put_listening(self.alloc, heard, output)?;
        self.serve_until(hub, scrolls, files, acceptors, until, errors)
    }

    // Locks the folder, checks whether the files can be created in it, and sets aside incomplete records of earlier runs. Nothing
    // else in the folder has been changed before this call.
    fn take_folder<E: Write>(&self, errors: &mut E) -> Result<(), Report<'a>>
        ensures { IfErr result (λ failure. IsOfServing failure.error) }
    {
        let Some(folder) = self.options.folder else {
            return Ok(());
        };
        if let Some(lock) = lock_folder(self.rt, self.alloc, folder)? {
            let _ = self.lock.set(self.rt, lock);
        }
        look_at_folder(self.rt, self.alloc, folder, self.options)?;
        match self.options.recording {
            Recording::Never => Ok(()),
            Recording::AtEnd | Recording::Live => {
                set_all_aside(self.rt, self.alloc, folder, &self.options.buses, errors)
            }
        }
    }

    fn serve_until<N: BusName + Send + Sync, L: Leaves, E: Write + Send>(
        &self,
        hub: &Hub<N, Perfect, Open, L>,
        scrolls: Vec<Scroll<N>>,
        files: Vec<LiveFiles<File>>,
        acceptors: &[Acceptor],
        until: Option<UnixStream>,
        errors: &mut E,
    ) -> Result<Run<N>, Report<'a>>
        requires scrolls { HasNewScrolls hub.now scrolls.items }
        requires files { HasFiles ⟦<File as Write>⟧.contents hub.now files.items }
        ensures run { IfOk result (IsRunOf ⟦<File as Write>⟧.contents hub.now) }
        ensures fault { IfErr result (λ failure. IsOfServing failure.error) }
    {
        let host = Host {
            rt: self.rt,
            alloc: self.alloc,
            options: self.options,
            errors: Mutex::new(errors),
            has_lost: &self.has_lost,
            start: self.start(),
        };
        match self.serve_kept(hub, scrolls, files, acceptors, &host, until) {
            Ok(run) => Ok(run),
            Err(_) => Err(Report::new(self.alloc, ProgramError::NoMemory)),
        }
    }

    // Returns the time at which the clock of the buses starts, if any bus has bit rates.
    fn start(&self) -> Option<Start> {
        if self.options.has_timings() {
            Start::now(self.rt)
        } else {
            None
        }
    }

    // Serves the buses. In long runs, each bus has a scribe that writes its files.
    fn serve_kept<N: BusName + Send + Sync, L: Leaves, E: Write + Send>(
        &self,
        hub: &Hub<N, Perfect, Open, L>,
        scrolls: Vec<Scroll<N>>,
        files: Vec<LiveFiles<File>>,
        acceptors: &[Acceptor],
        host: &Host<'_, 'a, '_, H, E>,
        until: Option<UnixStream>,
    ) -> Result<Run<N>, AllocError>
        requires scrolls { HasNewScrolls hub.now scrolls.items }
        requires files { HasFiles ⟦<File as Write>⟧.contents hub.now files.items }
        ensures { IfOk result (IsRunOf ⟦<File as Write>⟧.contents hub.now) }
    {
        let mut run = Run {
            passes: Vec::new(self.alloc),
            files: Vec::with_capacity(self.alloc, hub.count())?,
            scrolls: Vec::with_capacity(self.alloc, hub.count())?,
        };
        // Reserves memory for the faults that the keepers return at the end.
        let room = Vec::with_capacity(self.alloc, hub.count())?;
        let faults = mem::replace(&mut *self.faults.lock(self.rt), room);
        if faults.is_empty() {
            self.keep_no_changes(hub);
        }
        let mut kept = keepers_of(self.alloc, host, files, faults, scrolls)?;
        // The iterator is stored in a variable, so it lends each keeper for as long as the scribes exist.
        let each = kept.iter_mut();
        let scribes = scribes_of(self.alloc, self.options, each)?;
        let until = until.as_ref();
        run.passes = serve_with(self.rt, self.alloc, hub, acceptors, host, until, scribes)?;
        for kept in kept {
            let (keeper, scroll) = kept.into_parts();
            let FileKeeper {
                kept,
                bus,
                faults,
                ..
            } = keeper;
            self.keep_rest(hub, host, bus, faults);
            run.files.push_reserved(kept.into_files());
            run.scrolls.push_reserved(scroll);
        }
        Ok(run)
    }

    // Discards changes of the buses' rules, because no file of faults is written.
    fn keep_no_changes<N: BusName, L: Leaves>(&self, hub: &Hub<N, Perfect, Open, L>) {
        let buses = hub.buses();
        for bus in 0..buses.count() {
            buses.station(bus).keep_no_changes(self.rt);
        }
    }

    // After the last call, writes the remaining lines about changes of a bus's rules.
    fn keep_rest<N: BusName + Send + Sync, L: Leaves, E: Write + Send>(
        &self,
        hub: &Hub<N, Perfect, Open, L>,
        host: &Host<'_, 'a, '_, H, E>,
        bus: usize,
        faults: Option<LiveFaults>,
    ) {
        let buses = hub.buses();
        let Some(mut faults) = faults else {
            return;
        };
        if bus >= buses.count() {
            return;
        }
        let kept = match buses.station(bus).take_changes(self.rt) {
            Ok(lines) => faults.keep_all(self.rt, self.alloc, &lines),
            Err(_) => {
                faults.give_up();
                Err(Report::new(self.alloc, ProgramError::NoMemory))
            }
        };
        host.report(kept);
        let _ = self.faults.lock(self.rt).push(faults);
    }

    // Returns a stream that ends when the input ends. The thread that reads the input is never joined, because a read may take
    // longer than the run.
    fn end_of<R: Input>(&self, input: R) -> Result<UnixStream, Report<'a>>
        ensures { IfErr result (λ failure. IsOfServing failure.error) }
    {
        let (ours, theirs) = match UnixStream::pair(self.rt) {
            Ok(pair) => pair,
            Err(error) => return Err(listen_failure(self.alloc, INPUT, &error)),
        };
        match thread::spawn(self.rt, move || end_with(input, &theirs)) {
            Ok(_) => Ok(ours),
            Err(_) => Err(Report::new(self.alloc, ProgramError::NoMemory)),
        }
    }
}

// Returns keepers for these files. Each keeper holds the scroll of its bus.
fn keepers_of<'o, 'h, 'a, 'l, N: BusName, F: Write + OpenFile + Drop, H: Wait + Clock, E: Write>(
    alloc: Global,
    host: &'o Host<'h, 'a, 'l, H, E>,
    files: Vec<LiveFiles<F>>,
    faults: Vec<LiveFaults>,
    scrolls: Vec<Scroll<N>>,
) -> Result<Vec<ScrollKeeper<N, FileKeeper<'o, 'h, 'a, 'l, F, H, E>>>, AllocError>
    requires begun { AreBegun F.contents files.items }
    requires scrolls { AreNewScrolls 0 scrolls.items }
    requires each { length files.items ≡ length scrolls.items }
    ensures { IfOk result (λ kept. length kept.items ≡ length scrolls.items) }
{
    let mut kept = Vec::new(alloc);
    let mut files = files.into_iter();
    let mut faults = faults.into_iter();
    for scroll in scrolls {
        let Some(files) = files.next() else {
            unreachable!()
        };
        let keeper = FileKeeper {
            host,
            bus: kept.len(),
            kept: KeptFiles::new(files),
            faults: faults.next(),
            reported: None,
        };
        kept.push(ScrollKeeper::new(keeper, scroll))?;
    }
    Ok(kept)
}

// Returns whether no lines of these faults were lost.
fn are_whole(faults: &[LiveFaults]) -> bool {
    faults.iter().all(|own| own.is_whole())
}

// Returns the scribes of a long run, one for each keeper.
fn scribes_of<'k, N: BusName, K: Keeper + Drop>(
    alloc: Global,
    options: &ServeOptions<'_>,
    kept: IterMut<'k, ScrollKeeper<N, K>>,
) -> Result<Option<Vec<Scribe<'k, N, K>>>, AllocError> {
    if options.recording == Recording::AtEnd {
        return Ok(None);
    }
    let patience = Duration::from_millis(u64::from(options.flush_ms));
    let mut scribes = Vec::new(alloc);
    for kept in kept {
        let scribe = Scribe::new(alloc, TAIL_SIZE, patience, kept)?;
        let Ok(()) = scribes.push(scribe) else {
            return Err(AllocError);
        };
    }
    Ok(Some(scribes))
}

// Reads an input to its end and then shuts down a stream, which stops the server. `--until-eof` uses this function.
fn end_with<R: Read + Drop>(mut input: R, stream: &UnixStream) {
    let mut piece = [0; 4096];
    for _ in 0..u64::MAX {
        match input.read(&mut piece) {
            Ok(0) => break,
            Ok(_) => {}
            Err(error) if error.kind() == ErrorKind::Interrupted => {}
            Err(_) => break,
        }
    }
    let _ = stream.shutdown(Shutdown::Both);
}

// Returns a note on how much memory a bus uses.
fn memory_note(recording: Recording) -> &'static str {
    match recording {
        Recording::AtEnd => "each bus reserves 108 bytes of memory for each event of --limit",
        Recording::Live | Recording::Never => "each bus reserves 57 megabytes of memory",
    }
}

// Writes the server's address to the output and flushes it, so that other programs can read it at once.
fn put_listening<'a, W: Write>(alloc: Global, heard: &str, output: &mut W) -> Result<(), Report<'a>>
    ensures put { OnOk result (Took W.contents output.old output.new (listening_line heard.now)) }
    ensures fault { IfErr result (λ failure. failure.error ≡ fault.Write) }
{
    if let Err(error) = writeln!(output, "listening {heard}") {
        return Err(write_failure(alloc, OUTPUT, &error));
    }
    output
        .flush()
        .map_err(|error| write_failure(alloc, OUTPUT, &error))
}
