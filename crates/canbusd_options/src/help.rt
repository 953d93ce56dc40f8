//! The texts that `--help` adds after the options.

pub const PROGRAM_HELP: &str =
    "`canbusd help bench` has the options of bench, the lines that it reads, and an example to copy; `canbusd help serve`
the options of serve, and how clients connect. `man canbusd` has all of it, the statuses and the texts of faults.

Statuses: 0 done; 1 a fault, reported as `canbusd: TEXT`; 2 a fault of the command line. A line `note: ..` is no fault.

Example, with what it writes:
  $ printf '%s\\n' 'session 1' 'feed 1 < open can0 >< rawmode >< send 123 2 AB CD >' attempt | canbusd bench can0,can1
  1 < hi >
  1 < ok >< ok >
  tried can0 0 done can1 -";

pub const BENCH_HELP: &str = "Lines of standard input, carried out one after the other:
  at SECONDS.MICROS  Set the moment, at first 0.000000: 1 to 10 digits, a point, 6 digits
  session S          Start session S, 1 to 64
  feed S BYTES       Feed session S bytes of its client: messages, in one piece or cut anywhere
  drain S            Write the items that the socket of session S received
  end S              End session S
  attempt            Put the frame that wins arbitration on the bus, and write the result
  fault RULE         Add a rule of faults, as in a script, from here on
  down NAME          Take this interface down, at the moment set
  up NAME            Bring this interface up, or back from bus off, at the moment set
  run SECONDS.MICROS With --bitrate: make attempts while there is work and one begins before this moment, then set it
Empty lines and lines that begin with # do nothing. A line has at most 4096 bytes, and all lines 16777216.

Messages of a session (socketcand's raw mode), in the order of a first run:
  < open NAME >              Take an interface of the bus
  < rawmode >                Get a socket there; the messages below need one
  < send ID LEN BYTE .. >    Send a frame: ID of 1 to 3 hexadecimal digits for 11 bits, of 8 for 29 bits
  < sendrtr ID LEN >         Send a remote frame
  < sendfd ID LEN BYTE .. >  Send an FD frame of 0 to 8, 12, 16, 20, 24, 32, 48 or 64 bytes; needs < fdframes 1 >
  < sendfdx FLAGS ID LEN BYTE .. >
                             The same with flags: 1 is BRS, the bit rate switch, 2 is ESI, 3 both
  < filter N ID MASK .. >    Receive frames that match one of N filters, in words of linux/can.h; at first all frames
  < join 0|1 >               Receive only frames that match all filters (1), or one of them (0)
  < loopback 0|1 >           Give frames to other sockets of the interface too (1)
  < recvown 0|1 >            Receive own frames too (0)
  < fdframes 0|1 >           Send and receive FD frames too (0)
  < errmask HEX >            Receive error message frames of these classes (0)
  < errdata 0|1 >            Write error message frames with their data (0)
  < ack 0|1 >                Write < ack NUMBER > for each accepted send (0)
  < origin 0|1 >             End frames with `same NUMBER` if their sender has this interface, or `other NUMBER` (0)
  < stats >                  Write < stats QUEUED DROPPED TAKEN SENT DONE WAITING LOST REFUSED >
  < status >                 Write < status STATE TEC REC >, from the error counters of the interface
  < load >                   Write < load PERMILLE MICROS BITRATE DBITRATE >: how busy a bus of a server was in the last
                             whole second and in microseconds since its start, and its --bitrate and --dbitrate; else 0
  < restart >                Restart an interface that is bus off (before --auto-restart does) or down
  < down >                   Take the interface down: until < restart > it takes no part
  < close >                  Close the socket, and write < closed UNREAD DROPPED >
Once an interface is taken, with a socket or without:
  < fault RULE >             Add a rule of faults to its bus, as in a script
  < faults >                 Write < faults LEFT >: how many rules are left
  < nofaults >               End all rules of its bus
A command that was carried out gets < ok >, an accepted send nothing unless ack is on, a refusal < error TEXT >.
< echo > always gets < echo >, and < interfaces > gets < interfaces NAME .. >, with the names of all buses.

What is received: < frame ID MOMENT DATA >, < remote ID MOMENT LEN >, < fdframe ID MOMENT DATA >, with flags
< fdframex FLAGS ID MOMENT DATA >, and < error CLASS MOMENT > or with DATA.
What an attempt writes: tried NAME NUMBER CLASS ACCEPTED OFF, or idle, or record full. NUMBER counts the frames of
NAME from 0; CLASS is done, or lastbit, destroyed or noack, and then the frame is sent again; ACCEPTED and OFF are
the interfaces that accepted it and that went bus off, or -. Where --auto-restart brought interfaces back, restarted and
their names follow. With --bitrate an attempt begins at the moment set, or later, once the wire is free; its line ends in
at MOMENT, its end of frame, and the moment set is then the one from which on the next attempt may begin. With --show-faults
the line of an attempt that tried a frame ends in `; fault VERDICT`, as a script has it, unless that is good, and then in
`; rule N` where a rule gave the verdict: the bus took it as its rule number N, from 1.

Lines of a script: NUMBER VERDICT, for the attempt of that number, from 0. VERDICT is good, lastbit,
global bit, global form, local stuff NAMES, local crc NAMES or local form NAMES. Or a RULE, in this order:
  next N | always  [from NAMES]  [id ID | id ID:MASK]  [skip K]  VERDICT
for the next N attempts, or all, which one of NAMES wins, with a frame of this identifier; the first K of them it leaves to the
rules after it. As `next 32 from can0 global bit`, which takes can0 to bus off. A line with a NUMBER goes before rules, an
earlier rule before those after it, and at most 64 are kept. Other attempts are good.

Example, with what it writes:
  $ printf '%s\\n' 'session 1' 'feed 1 < open can0 >< rawmode >' 'session 2' 'feed 2 < open can1 >< rawmode >' \\
      'feed 1 < send 123 2 AB CD >' attempt 'drain 2' | canbusd bench can0,can1
  1 < hi >
  1 < ok >< ok >
  2 < hi >
  2 < ok >< ok >
  tried can0 0 done can1 -
  2 < frame 123 0.000000 ABCD >";

pub const SERVE_HELP: &str =
    "Clients connect to ADDR and speak socketcand's raw mode: `canbusd help bench` has its messages. Each opens
an interface by its name. On each bus the frame that wins arbitration goes out at once where one waits, and MS
milliseconds later the next attempt may follow. Moments are microseconds since 1970. With --bitrate an attempt takes
the time of its bits, the moment of a frame is its end, and no client gets it before. --bitrate and --dbitrate are of all
buses, or with NAME= of the bus that has this interface, each once: --bitrate 500000 --bitrate body0=125000 can0 body0,body1.

It prints `listening ADDR`, with the port that it got where the port given is 0. Once N sessions have come and ended,
or with --until-eof standard input has ended, it prints for each bus, by its first name, `bus NAME entries N`, and
writes DIR/NAME.log, which candump's readers take, and DIR/NAME.rec, which `canbusd audit` checks. DIR must exist.
With --verbose standard error has a line for each client that comes, opens an interface or goes, and for each bus off.

--record live writes both while the server runs, at most MS milliseconds of --flush after each call, and none only the
logs. A run can then go on for weeks, and one that is killed leaves what it did: DIR/NAME.rec.new, which is DIR/NAME.rec once
it is whole, and at the next start DIR/NAME.rec.cut, for `canbusd audit --cut`. A bus has 4294967294 entries at most, and few in
memory. Where a file can't be written, standard error says so at once, and the bus goes on. (bench --record names a file.)

--limit is for each bus, and it is how long a run with --record end can be. Each send, each attempt and each receive of a session is an
entry, and takes 32 bytes of memory, 108 with an FD frame. 1000 frames a second to 4 sessions fill 1000000 entries in
less than 3 minutes. Once a bus is full each of its calls returns `record full`, and standard error says so once. With
--auto-restart attempts go on, MS milliseconds apart, while an interface waits for its restart, and each is an entry.
With --bitrate each of them takes 11 bits: --auto-restart 128 is the recovery after 128 times 11 recessive bits.

Example, with a client in Python (the package canbusd, and python3-can):
  $ canbusd serve --out . can0,can1@faults.script &
  listening 127.0.0.1:29536
  $ python3
  >>> import can
  >>> bus = can.Bus(interface=\"canbusd\", channel=\"can0\")
  >>> bus.send(can.Message(arbitration_id=0x123, data=[1, 2], is_extended_id=False))";

pub const AUDIT_HELP: &str =
    "Prints `ok N entries` where each reply in the record is the one that the entries before it allow.
Else it reports the first line that no record may have, or the first entry (from 0) whose reply is wrong,
with the reply that would be legal.

Several FILEs are read as one text. With --cut the text may end before its last line, as a run leaves it that was
killed: then it prints `ok N entries, then cut off` where the N entries that are there are right. A torn last line is
no entry; a note on standard error says how many bytes it has.

With --events it prints, in place of `ok N entries`, each entry with what it brought about: error counts, lost frames, and
for each socket what was queued and how much found no room. The last line is `end N`, or `cut N` of a record that is cut
off. Before a fault it prints the entries before it. docs/RECORD.md has the grammar.

With --bitrate the line of each attempt that tried a frame ends in `; wire FRAME BUSY NOMINAL FAST`: the nanoseconds from
its start to the frame's end and until the next attempt may begin, and how many bits of the frame go at --bitrate and
at --dbitrate. A record has no names of interfaces: NAME=N is taken where NAME is one of those of --faults.

With --faults NAMES@FILE, the word that the run had for its bus, the line of each attempt whose verdict is that of a rule
ends in `; rule N`: which rule of FILE it was, from 1. For what came while the run went on FILE may also have lines
`at N RULE`, a rule that was given before attempt N, and `at N nofaults`, all rules were ended before it: attempts that tried
a frame, from 0, and N does not decrease. Rules without `at` come first.

Example, with what it writes:
  $ printf '%s\\n' 'session 1' 'feed 1 < open can0 >< rawmode >< send 123 2 AB CD >' attempt | canbusd bench --record run.rec can0
  1 < hi >
  1 < ok >< ok >
  tried can0 0 done - -
  $ canbusd audit run.rec
  ok 3 entries
  $ canbusd audit --events --bitrate 500000 run.rec
  canbus events 1
  bus 1 always 0000 10 1000000
  open 0 256 = socket 0
  send 0 123#ABCD = number 0
  attempt 0.000000 good = tried 0 0 123#ABCD done 0000 0000; wire 124000 130000 62 0
  end 3";

pub const BITS_HELP: &str =
    "Prints the bits of a frame as they are on a bus that acknowledges it: a line for each field, with stuff bits in parentheses, and
then how many bits there are to the end of intermission, and how many of them go at the bit rate for data. 0 is dominant.
With --bitrate it prints the nanoseconds from the frame's start to end of frame; with --dbitrate an FD frame with BRS switches.

For each OTHER that loses arbitration to the frame it prints `silent FIELD bit N, OTHER`: its sender falls silent in bit N
of the frame, counted from 0 with stuff bits. For one that does not lose it prints `not silent OTHER`.

Example, with what it writes:
  $ canbusd bits 123#11 124#
  SOF            0
  identifier     00100100011
  RTR            0
  IDE            0
  reserved       0
  DLC            00(1)01
  data           00010001
  CRC            000100001101001
  CRC delimiter  1
  ACK slot       0
  ACK delimiter  1
  EOF            1111111
  intermission   111
  total          56 bits, 1 of them stuff bits, 0 at the data bit rate
  silent         identifier     bit 9, 124#";
