use crate::About;
use std::fmt;

/// The version of this program. Its package, its manual page and a release take it from here.
pub const VERSION: &str = "1.0.0";

/// The kit that it is proved and built with.
pub const KIT: &str = "rattle-kit-13f";

/// The commands, each with what it does.
const COMMANDS: &str = "\
usage: gts_switch COMMAND, in a folder with directory.toml
  init               makes an empty journal
  replay             works through capture.gts
  serve [N]          works on the lines of the circuits, over N connections each
  serve always       works on them without an end, as a service
  show               reports what the switch stands at
  compact            makes the journal as small as what is needed
  generate N         works through a day of N messages in memory
  migrate            takes the journal over from directory.old.toml
  migrate drop       the same, and drops what waits on closed circuits
  migrate check      tells what would change then, and changes nothing
  unpack cc          takes a file of bulletins in on circuit cc
  pack               makes a file of bulletins of a stream of frames
  gaps DDHHMM        names missing numbers, and asks for them
  ship               writes the journal for a standby
  ship since N SEAL  writes what comes behind N bytes that end with this seal
  follow             takes in what was shipped
  count              works through capture.gts, and tells the traffic
  check              tells what is odd of directory.toml
  check HEADING [cc] tells where such a bulletin goes, come in on circuit cc
  --version          this program's version
  --help             these lines
The manual page gts_switch(1) has the rest.";

impl fmt::Display for About {
    fn fmt<W: fmt::Write>(&self, f: &mut fmt::Formatter<W>) -> fmt::Result {
        match self {
            About::Version => write!(
                f,
                "gts_switch {VERSION}\njournals: version 2 written, version 1 taken over by migrate\nkit: {KIT}"
            ),
            About::Help => write!(f, "{COMMANDS}"),
        }
    }
}
