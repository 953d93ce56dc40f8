//! The options for bit rates, which several commands share.
ghost use Rattle.std.specs.Prelude.{◌≡◌, false, map, not, IfErr, IfOk, OnOk, Some};
ghost use Rattle.std.specs.List.{find};
ghost use Rattle.clap.specs.Words.{app_of, kind_of, rule_of};
ghost use Rattle.clap.specs.declared.error.kind.ErrorKind.TheVariants.{ValueValidation};
ghost use Rattle.canbusd_options.specs.BusWords.{names_part};
ghost use Rattle.canbusd_options.specs.Help.{IsNoMemory, RefusesValue};
ghost use Rattle.canbusd_options.specs.Options.{AreNumbersOf, AreRateWords, AreRatesWithin, GiveRatesOf, GiveTiming, GiveTimingOf, GoTogether, HasRatesOf, IsTimed, IsTimingOf, rows_in, word_in};
ghost use Rattle.canbusd_options.specs.Program.{several_rule, with_rate_rules};
ghost use Rattle.canbusd_options.specs.RateWords.{GoWithBuses, is_once as is_once_for, is_for as is_word_for, is_known as is_known_to, name_in, number_for as number_of, number_in_word};

use crate::bus_options::{Subcommand, free_option, text_within, words_given};
use crate::bus_word::{BusWord, has_name};
use can_wire::Timing;
use clap::{Arg, ArgAction, ArgMatches, Command, Error};
use std::alloc::{AllocError, Global};

pub const BITRATE: &str = "bitrate";

pub const DBITRATE: &str = "dbitrate";

pub const DBITRATE_HELP: &str =
    "Bits a second of the data phase of FD frames, to 20000000; needs --bitrate [default: as that]";

const LEAST_BITRATE: u32 = 5_000;

const MOST_BITRATE: u32 = 1_000_000;

const MOST_DBITRATE: u32 = 20_000_000;

/// A value of an option for bit rates. `N` applies to all buses that have no value of their own, and `NAME=N` to the bus that has
/// an interface with this name.
#[derive(Debug, Clone, Copy)]
struct RateWord<'a> {
    name: Option<&'a str>,
    number: &'a str,
}

impl<'a> RateWord<'a> {
    fn read(word: &'a str) -> RateWord<'a>
        ensures name { word_in result.name ≡ name_in word.now }
        ensures number { result.number.now ≡ number_in_word word.now }
    {
        match word.split_once('=') {
            Some((name, number)) => RateWord {
                name: Some(name),
                number,
            },
            None => RateWord {
                name: None,
                number: word,
            },
        }
    }
}

// Returns whether a value is for the bus with these names or, if no names are given, for all buses.
fn is_for(word: &str, bus: Option<&str>) -> bool
    ensures { result ≡ is_word_for (word_in bus.entry) word.now }
{
    match (bus, RateWord::read(word).name) {
        (None, None) => true,
        (Some(names), Some(name)) => has_name(names, name),
        _ => false,
    }
}

// Returns whether a value is for all buses or for one of these buses, which are given as BUS arguments.
fn is_known(buses: &[&str], word: &str) -> bool
    ensures { result ≡ is_known_to (map (λ bus. bus.now) buses.now) word.now }
{
    is_for(word, None)
        || buses
            .iter()
            .any(|bus| is_for(word, Some(BusWord::read(bus).names)))
}

/// An option for bit rates with the values that were given for it.
#[derive(Debug, Clone, Copy)]
struct RateOption<'m, 'a> {
    verb: Subcommand,
    name: &'static str,
    words: &'m [&'a str],
}

impl<'m, 'a> RateOption<'m, 'a> {
    // Returns the number that the option gives a bus: the value for this bus if there is one, otherwise the value for all buses.
    fn number_for(&self, bus: Option<&str>) -> Option<&'a str>
        ensures { word_in result
            ≡ number_of (word_in bus.entry) (map (λ word. word.now) self.now.words.now) }
    {
        let word = self.word_for(bus).or(self.word_for(None))?;
        Some(RateWord::read(word).number)
    }

    fn word_for(&self, bus: Option<&str>) -> Option<&'a str>
        ensures { word_in result ≡ find (is_word_for (word_in bus.entry))
            (map (λ word. word.now) self.now.words.now) }
    {
        self.words.iter().copied().find(|word| is_for(word, bus))
    }

    // Returns whether at most one value of the option is for this bus.
    fn is_once(&self, bus: Option<&str>) -> bool
        ensures { result ≡ is_once_for (map (λ word. word.now) self.now.words.now)
            (word_in bus.entry) }
    {
        self.words.iter().filter(|word| is_for(word, bus)).count() <= 1
    }

    // Returns a value that is for none of these buses, which are given as BUS arguments.
    fn unknown_word(&self, buses: &[&str]) -> Option<&'a str>
        ensures { word_in result
            ≡ find (λ word. not (is_known_to (map (λ bus. bus.now) buses.now) word))
            (map (λ word. word.now) self.now.words.now) }
    {
        self.words
            .iter()
            .copied()
            .find(|word| !is_known(buses, word))
    }

    // Returns one of these buses, which are given as BUS arguments, that has two values.
    fn bus_with_two<'b>(&self, buses: &[&'b str]) -> Option<&'b str>
        ensures { word_in result ≡ find (λ bus. not (is_once_for
            (map (λ word. word.now) self.now.words.now) (Some (names_part bus))))
            (map (λ bus. bus.now) buses.now) }
    {
        buses
            .iter()
            .copied()
            .find(|bus| !self.is_once(Some(BusWord::read(bus).names)))
    }

    // Refuses values that do not match these buses, which are given as BUS arguments. A value must be for at least one bus, and a
    // bus may have only one value.
    fn check_buses(&self, alloc: Global, buses: &[&str]) -> Result<(), Error>
        ensures given { OnOk result (GoWithBuses (map (λ bus. bus.now) buses.now)
            (map (λ word. word.now) self.now.words.now)) }
        ensures taken { IfErr result (λ e. GoWithBuses (map (λ bus. bus.now) buses.now)
            (map (λ word. word.now) self.now.words.now) → IsNoMemory e) }
        ensures refused { IfErr result RefusesValue }
    {
        if let Some(word) = self.unknown_word(buses) {
            return Err(self.unknown_error(alloc, word)?);
        }
        if !self.is_once(None) {
            return Err(self.twice_error(alloc, "all buses")?);
        }
        match self.bus_with_two(buses) {
            Some(bus) => Err(self.twice_error(alloc, BusWord::read(bus).names)?),
            None => Ok(()),
        }
    }

    // Refuses a value whose number is not valid or is out of range.
    fn check_numbers(&self, alloc: Global, most: u32) -> Result<(), Error>
        ensures given { OnOk result (AreRatesWithin most
            (map (λ word. word.now) self.now.words.now)) }
        ensures taken { IfErr result (λ e. AreRatesWithin most
            (map (λ word. word.now) self.now.words.now) → IsNoMemory e) }
        ensures refused { IfErr result RefusesValue }
    {
        for word in self.words {
            let number = RateWord::read(word).number;
            text_within(alloc, self.verb, self.name, number, LEAST_BITRATE, most)?;
        }
        Ok(())
    }

    // Returns the error for a value with a name that no interface has.
    fn unknown_error(&self, alloc: Global, word: &str) -> Result<Error, AllocError>
        ensures { IfOk result (λ e. kind_of e ≡ ValueValidation) }
    {
        let reason = match self.verb {
            Subcommand::Bench | Subcommand::Serve => "no interface has this name",
            Subcommand::Audit => "NAMES of '--faults NAMES@FILE' do not have this name",
            Subcommand::Bits => "bits has no interfaces",
        };
        let name = self.name;
        let message = format!(in alloc; "invalid value '{word}' for '--{name}': {reason}")?;
        self.verb.error(alloc, &message)
    }

    // Returns the error for two values for the same bus, or for all buses.
    fn twice_error(&self, alloc: Global, bus: &str) -> Result<Error, AllocError>
        ensures { IfOk result (λ e. kind_of e ≡ ValueValidation) }
    {
        let name = self.name;
        let message = format!(in alloc; "'--{name}' gives two values for {bus}")?;
        self.verb.error(alloc, &message)
    }
}

/// The options for bit rates on a command line.
#[derive(Debug, Clone, Copy)]
pub struct GivenRates<'m, 'a> {
    bitrate: RateOption<'m, 'a>,
    dbitrate: RateOption<'m, 'a>,
}

impl<'m, 'a> GivenRates<'m, 'a> {
    /// Reads these options. Their values must match these buses, which are given as BUS arguments.
    pub fn read(
        alloc: Global,
        verb: Subcommand,
        matches: &'m ArgMatches<'a>,
        buses: &[&str],
    ) -> Result<GivenRates<'m, 'a>, Error>
        ensures words { IfOk result (λ rates. AreRateWords (rows_in matches.now) rates) }
        ensures given { IfOk result (λ rates.
            GoTogether (rows_in matches.now) (map (λ bus. bus.now) buses.now)) }
        ensures taken { IfErr result (λ e.
            GoTogether (rows_in matches.now) (map (λ bus. bus.now) buses.now) → IsNoMemory e) }
        ensures refused { IfErr result RefusesValue }
    {
        let bitrate = RateOption {
            verb,
            name: BITRATE,
            words: words_given(matches, BITRATE),
        };
        let dbitrate = RateOption {
            verb,
            name: DBITRATE,
            words: words_given(matches, DBITRATE),
        };
        bitrate.check_buses(alloc, buses)?;
        dbitrate.check_buses(alloc, buses)?;
        Ok(GivenRates { bitrate, dbitrate })
    }

    /// Returns the bit rates of the bus with these names, if they are given. `bus` is `None` if the names of the bus are not known.
    /// The data bit rate is at least the nominal bit rate.
    pub fn timing(&self, alloc: Global, bus: Option<&str>) -> Result<Option<Timing>, Error>
        ensures given { IfOk result (λ timing. HasRatesOf self.now (word_in bus.entry) timing) }
        ensures taken { IfErr result (λ e.
            GiveRatesOf self.now (word_in bus.entry) → IsNoMemory e) }
        ensures refused { IfErr result RefusesValue }
    {
        let verb = self.bitrate.verb;
        match (self.bitrate.number_for(bus), self.dbitrate.number_for(bus)) {
            (Some(bitrate), dbitrate) => Ok(Some(timing_of(alloc, verb, bitrate, dbitrate)?)),
            (None, None) => Ok(None),
            (None, Some(_)) => Err(self.lone_error(alloc, bus)?),
        }
    }

    /// Refuses all numbers that are out of range, even if no bus uses them.
    pub fn check_numbers(&self, alloc: Global) -> Result<(), Error>
        ensures given { OnOk result (AreNumbersOf self.now) }
        ensures taken { IfErr result (λ e. AreNumbersOf self.now → IsNoMemory e) }
        ensures refused { IfErr result RefusesValue }
    {
        self.bitrate.check_numbers(alloc, MOST_BITRATE)?;
        self.dbitrate.check_numbers(alloc, MOST_DBITRATE)
    }

    // Returns the error for a data bit rate without a nominal bit rate.
    fn lone_error(&self, alloc: Global, bus: Option<&str>) -> Result<Error, AllocError>
        ensures { IfOk result (λ e. kind_of e ≡ ValueValidation) }
    {
        let verb = self.bitrate.verb;
        match bus {
            Some(names) if !self.bitrate.words.is_empty() => {
                let message = format!(in alloc; "'--dbitrate' needs '--bitrate' for {names} too")?;
                verb.error(alloc, &message)
            }
            _ => verb.error(alloc, "'--dbitrate' needs '--bitrate'"),
        }
    }
}

/// Returns the bit rates of a bus, if they are given. `buses` are the BUS arguments, and `bus` is `None` if the names of the bus
/// are not known.
pub fn timing_given(
    alloc: Global,
    verb: Subcommand,
    matches: &ArgMatches<'_>,
    buses: &[&str],
    bus: Option<&str>,
) -> Result<Option<Timing>, Error>
    ensures given { IfOk result (λ timing. IsTimed (rows_in matches.now)
        (map (λ bus. bus.now) buses.now) (word_in bus.entry) timing) }
    ensures taken { IfErr result (λ e. GiveTiming (rows_in matches.now)
        (map (λ bus. bus.now) buses.now) (word_in bus.entry) → IsNoMemory e) }
    ensures refused { IfErr result RefusesValue }
{
    let rates = GivenRates::read(alloc, verb, matches, buses)?;
    let timing = rates.timing(alloc, bus)?;
    rates.check_numbers(alloc)?;
    Ok(timing)
}

// Returns the bit rates that these texts spell. If the second text is missing, FD frames do not switch to a faster bit rate.
fn timing_of(
    alloc: Global,
    verb: Subcommand,
    bitrate: &str,
    dbitrate: Option<&str>,
) -> Result<Timing, Error>
    ensures given { IfOk result (λ timing. IsTimingOf bitrate.now (word_in dbitrate.entry) timing) }
    ensures taken { IfErr result (λ e.
        GiveTimingOf bitrate.now (word_in dbitrate.entry) → IsNoMemory e) }
    ensures refused { IfErr result RefusesValue }
{
    let nominal = text_within(alloc, verb, BITRATE, bitrate, LEAST_BITRATE, MOST_BITRATE)?;
    let Some(dbitrate) = dbitrate else {
        return Ok(Timing::new(nominal, None).unwrap());
    };
    let fast = text_within(alloc, verb, DBITRATE, dbitrate, nominal, MOST_DBITRATE)?;
    Ok(Timing::new(nominal, Some(fast)).unwrap())
}

/// Adds the options for bit rates to a command. `help` describes the first option.
pub fn with_bit_rates<'a>(
    alloc: Global,
    command: Command<'a>,
    help: &'a str,
) -> Result<Command<'a>, AllocError>
    ensures { IfOk result (λ c. app_of c ≡ with_rate_rules (app_of command.entry)) }
{
    command
        .arg(rate_option(alloc, BITRATE, "[NAME=]N", help))?
        .arg(rate_option(alloc, DBITRATE, "[NAME=]M", DBITRATE_HELP))
}

// Returns an option that may be given once for each bus.
fn rate_option<'a>(alloc: Global, name: &'a str, value: &'a str, help: &'a str) -> Arg<'a>
    ensures rule { rule_of result ≡ several_rule name.entry.now }
    ensures local { result.global ≡ false }
{
    free_option(alloc, name, value, help).action(ArgAction::Append)
}
