//! What `--help` and `--version` print.
use crate::verb::Verb;

/// What `--version` prints.
pub const VERSION: &str = "rothveam 0.1.0\n";

/// What `--help` prints.
pub const HELP: &str =
    "Rothveam reads recordings (reels) of a FLO mobile broadcast, the format of ARIB STD-B48.

  rothveam catalogue REEL [OPTIONS]     every packet and every loss, superframe by superframe, totals, what is missing
  rothveam extract REEL DIR [OPTIONS]   each packet as a file in DIR, with a manifest of packets and losses
  rothveam map REEL -o FILE.svg         a picture of the reel: a row a superframe, a cell a frame
  rothveam verify REEL                  is the reel lawful? How much it holds, or its first fault
  rothveam frames REEL                  every superframe and frame, with its fragments
  rothveam header HEX                   what the sync header says that a packet, given in hex digits, begins with
  rothveam play [SCRIPT]                runs a script of flows; without a file, from standard input
  rothveam COMMAND --help               more on one command
  rothveam --help, rothveam --version   this text; the version

The exit status is 1 where a reel is not lawful, a file cannot be read or written or the arguments are wrong,
and 0 otherwise: what is lost or damaged is a finding and no failure.
";

/// The options that say how a reel is to be read.
const CATALOGUE: &str =
    "rothveam catalogue REEL [--fasb on|off] [--checksum none|crc16] [--service plain|sync] [--json] [--progress]

Reads the whole reel and shows, for each superframe, every packet with its length, its verdict and what its sync header
says, and every frame that was lost or is torn, with the bytes that were dropped for it; then totals, and in one sentence
what is missing. A fault in the reel's own layout is told after all that stands before it, and makes the exit status 1.

  --fasb on|off          may packets cross superframes? (off)
  --checksum none|crc16  the checksum behind each packet (crc16)
  --service plain|sync   what the packets are: any bytes, or bytes behind a sync header (sync)
  --json                 the same facts as JSON
  --progress             shows on standard error how far the work is

Nothing on a reel says how it is to be read. Where every packet is damaged, try --checksum none; where every packet
is foreign, try --service plain.
";

const EXTRACT: &str =
    "rothveam extract REEL DIR [--fasb on|off] [--checksum none|crc16] [--service plain|sync] [--progress]

Writes each packet into a file of its own in DIR, which is made where it is not there. A name shows the packet's order,
its verdict, and its kind or the number of the question that refuses it: 000123-sound-video.bin, 000124-foreign-31.bin.
DIR/manifest.tsv lists every packet with its length and the CRC-16 of its bytes, and every loss. A directory that has
a manifest already is left alone. The options are those of catalogue.
";

const MAP: &str =
    "rothveam map REEL -o FILE.svg [--fasb on|off] [--checksum none|crc16] [--service plain|sync] [--progress]

Draws the reel: a row a superframe, a cell a frame, coloured by what the frame is: whole, padding only, lost or torn.
Long reels go on in a further column of rows. The options are those of catalogue; --fasb and --checksum decide which
frames are torn.
";

const VERIFY: &str = "rothveam verify REEL

Says whether the reel is lawful, and how many superframes, frames and gaps it has. Where it is not lawful, says which
block is at fault and why, and how much stands before it; the exit status is then 1.
";

const FRAMES: &str = "rothveam frames REEL [--progress]

Shows every superframe, every frame with its fragments, every gap and every torn frame, and then what verify says.
";

const HEADER: &str = "rothveam header HEX

Says what the sync header tells that a packet begins with. HEX is the packet in hex digits, two a byte.
";

const PLAY: &str = "rothveam play [SCRIPT]

Runs a script, a command a line, from a file or from standard input, and prints what each command answers. docs/SCRIPTS.md
has the language. The exit status is 1 only where the script cannot be read.
";

/// What `--help` prints of one command.
pub fn help_of(verb: Verb) -> &'static str {
    match verb {
        Verb::Catalogue => CATALOGUE,
        Verb::Extract => EXTRACT,
        Verb::Map => MAP,
        Verb::Verify => VERIFY,
        Verb::Frames => FRAMES,
        Verb::Header => HEADER,
        Verb::Play => PLAY,
    }
}
