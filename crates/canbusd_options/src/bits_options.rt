//! The options and arguments of `canbusd bits`.
ghost use Rattle.std.specs.Prelude.{◌≡◌, codes, false, map, IfErr, IfNone, IfOk, IfSome};
ghost use Rattle.can_frame.specs.Frames.{CanFrame};
ghost use Rattle.clap.specs.Words.{app_of, kind_of, rule_of};
ghost use Rattle.clap.specs.declared.error.kind.ErrorKind.TheVariants.{ValueValidation};
ghost use Rattle.canbusd_options.specs.BitsOptions.{AreBitsOptions, AreFramesOf, GiveBitsOptions, GiveFrame, GiveFrames, IsFrameOf};
ghost use Rattle.canbusd_options.specs.Help.{IsNoMemory, RefusesValue};
ghost use Rattle.canbusd_options.specs.Options.{rows_in};
ghost use Rattle.canbusd_options.specs.Program.{bits_app, some_words_rule, word_rule};

use crate::bit_rates::{BITRATE, DBITRATE, DBITRATE_HELP, timing_given};
use crate::bus_options::{Subcommand, free_option, words_given};
use crate::help::BITS_HELP;
use can_frame::{Frame, Item, read_flagged_frame_text};
use can_wire::Timing;
use clap::{Arg, ArgMatches, Command, Error};
use std::alloc::{AllocError, Global};

const FRAME: &str = "FRAME";

const OTHER: &str = "OTHER";

/// The command line of `canbusd bits`.
#[derive(Debug, Drop)]
pub struct BitsOptions {
    /// The frame whose bits are written.
    pub frame: Frame,
    /// The frames that compete with `frame` in arbitration.
    pub others: Vec<Frame>,
    /// The bit rates of the bus, if they are given.
    pub timing: Option<Timing>,
}

#[tactic(auto, using(crate::proofs::Rules::text_in_rows))]
pub fn bits_options(alloc: Global, bits: &ArgMatches<'_>) -> Result<BitsOptions, Error>
    ensures given { IfOk result (λ options. AreBitsOptions (rows_in bits.now) options) }
    ensures taken { IfErr result (λ e. GiveBitsOptions (rows_in bits.now) → IsNoMemory e) }
    ensures refused { IfErr result RefusesValue }
{
    Ok(BitsOptions {
        frame: read_frame(alloc, bits.get_str(FRAME).unwrap_or(""))?,
        others: read_frames(alloc, words_given(bits, OTHER))?,
        timing: timing_given(alloc, Subcommand::Bits, bits, &[], None)?,
    })
}

// Returns the frames that these texts spell.
fn read_frames(alloc: Global, words: &[&str]) -> Result<Vec<Frame>, Error>
    ensures given { IfOk result (λ frames.
        AreFramesOf frames.items (map (λ word. word.now) words.now)) }
    ensures taken { IfErr result (λ e.
        GiveFrames (map (λ word. word.now) words.now) → IsNoMemory e) }
    ensures refused { IfErr result RefusesValue }
{
    let mut frames = Vec::new(alloc);
    for word in words {
        frames.push(read_frame(alloc, word)?)?;
    }
    Ok(frames)
}

// Returns the frame that a text spells.
fn read_frame(alloc: Global, word: &str) -> Result<Frame, Error>
    ensures given { IfOk result (λ frame. IsFrameOf frame word.now) }
    ensures taken { IfErr result (λ e. GiveFrame word.now → IsNoMemory e) }
    ensures refused { IfErr result RefusesValue }
{
    match frame_in(word) {
        Some(frame) => Ok(frame),
        None => Err(frame_error(alloc, word)?),
    }
}

// Returns the frame that a text spells. Returns `None` if the text is not valid or spells an error message frame.
fn frame_in(word: &str) -> Option<Frame>
    ensures some { IfSome result (λ frame. IsFrameOf frame word.now) }
    ensures none { IfNone result ((frame : CanFrame) → IsFrameOf frame word.now → ⊥) }
{
    let item = read_flagged_frame_text(word).ok()?;
    match &item {
        Item::Data(frame) => Some(*frame),
        Item::Error(_) => None,
    }
}

// Returns the error for a text that does not spell a frame.
fn frame_error(alloc: Global, word: &str) -> Result<Error, AllocError>
    ensures { IfOk result (λ e. kind_of e ≡ ValueValidation) }
{
    let message = format!(in alloc;
        "invalid value '{word}' for a frame: as candump logs it, such as 123#1122, 12345678#, 123#R4 or 123##1AABB"
    )?;
    Subcommand::Bits.error(alloc, &message)
}

pub fn bits_command<'a>(alloc: Global) -> Result<Command<'a>, AllocError>
    ensures { IfOk result (λ c. app_of c ≡ bits_app) }
{
    let bitrate_help = "Bits a second, 5000 to 1000000: write how long the frame is on the wire";
    Command::new(alloc, "bits")
        .about("Write the bits of a frame on the wire")
        .after_help(BITS_HELP)
        .arg(free_option(alloc, BITRATE, "N", bitrate_help))?
        .arg(free_option(alloc, DBITRATE, "M", DBITRATE_HELP))?
        .arg(frame_argument(alloc))?
        .arg(others_argument(alloc))
}

fn frame_argument<'a>(alloc: Global) -> Arg<'a>
    ensures rule { rule_of result ≡ word_rule (codes "FRAME") }
    ensures local { result.global ≡ false }
{
    Arg::new(alloc, FRAME).required(true).help(
        "The frame, as candump logs it: 123#1122, 12345678#, 123#R4 or 123##1AABB, with the flags of FD",
    )
}

fn others_argument<'a>(alloc: Global) -> Arg<'a>
    ensures rule { rule_of result ≡ some_words_rule (codes "OTHER") }
    ensures local { result.global ≡ false }
{
    Arg::new(alloc, OTHER).num_args(0..).help(
        "Frames that compete with it: write where their senders fall silent",
    )
}
