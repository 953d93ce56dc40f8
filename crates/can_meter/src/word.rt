ghost use Rattle.std.specs.Prelude.{◌≡◌};
ghost use Rattle.can_meter.specs.Words.{status_word, meant, Fits};

use crate::status::Status;
use can_confine::Counters;

/// The number of values of the bit that marks an interface as down.
const DOWN_VALUES: u64 = 2;

/// The number of values of the receive error count in the word.
const REC_VALUES: u64 = 256;

/// The number of values of the transmit error count in the word.
const TEC_VALUES: u64 = 512;

/// Encodes a publication as a word.
pub(crate) fn word(publication: Status) -> u64
    ensures word { result ≡ status_word publication }
    ensures fits { Fits publication }
{
    let tec = publication.counters.tec();
    let rec = publication.counters.rec();
    let counts = (u64::from(publication.at) * TEC_VALUES + u64::from(tec)) * REC_VALUES
        + u64::from(rec);
    counts * DOWN_VALUES + u64::from(publication.counters.is_down())
}

/// Decodes the publication in a word.
pub(crate) fn read_word(word: u64) -> Status
    requires { Fits (meant word) }
    ensures { result ≡ meant word }
{
    let counts = word / DOWN_VALUES;
    let at = (counts / REC_VALUES / TEC_VALUES) as u32;
    let tec = (counts / REC_VALUES % TEC_VALUES) as u16;
    let rec = (counts % REC_VALUES) as u16;
    let Some(counters) = Counters::new(tec, rec) else {
        unreachable!()
    };
    let counters = if word % DOWN_VALUES == 1 {
        counters.take_down()
    } else {
        counters
    };
    Status { at, counters }
}
