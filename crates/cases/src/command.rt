// A line of the vectors as a command: what it sets, or which call it makes.
ghost use Rattle.std.specs.Prelude.{◌≤◌, OnOk, length};
ghost use Rattle.cases.specs.declared.command.TheConstants.{MOST};

use std::str;
use std::str::FromStr;

// The most numbers of a line, and so of a part.
pub const MOST: usize = 2048;

// The numbers of a line: the first `count` of the places, which serve every line.
#[derive(Drop)]
pub struct Numbers {
    places: [usize; MOST],
    count: usize,
    ghost fits: { count ≤ MOST },
}

// A part that a line sets.
#[derive(Clone, Copy)]
pub enum Part {
    Radices,
    Weights,
    Tables,
    Products,
    Digits,
    Row,
    Store,
    Beta,
    Full,
    Steps,
}

// What a line asks for. A call's numbers stand with it; those of a part are lent.
#[derive(Clone, Copy)]
pub enum Command<'a> {
    Plan {
        p: usize,
        s: usize,
        n: usize,
        m: usize,
        t: usize,
    },
    Set(Part, &'a Numbers),
    CheckPlan,
    RowOf(usize),
    TestStore,
    File {
        entry: usize,
        value: usize,
    },
    ReadOff,
    Settle(usize),
    CheckWriting,
    WriteInto,
    Write,
    Run,
    WorstNorm,
    ReadSteps,
    ReadListing,
    PrintText {
        room: usize,
    },
    ToHalf,
    ToFull,
    General,
}

// Why a line gives no command.
#[derive(Clone, Copy)]
pub enum Fault {
    Malformed,
}

impl FromStr for Part {
    type Err = Fault;

    fn from_str(name: &str) -> Result<Part, Fault> {
        match name {
            "radices" => Ok(Part::Radices),
            "weights" => Ok(Part::Weights),
            "tables" => Ok(Part::Tables),
            "d" => Ok(Part::Products),
            "digits" => Ok(Part::Digits),
            "row" => Ok(Part::Row),
            "store" => Ok(Part::Store),
            "beta" => Ok(Part::Beta),
            "full" => Ok(Part::Full),
            "steps" => Ok(Part::Steps),
            _ => Err(Fault::Malformed),
        }
    }
}

// How often a number counts, and the number: 20 and 2 for `20*2`. A number above 2^64 - 1 stays there.
fn number(word: &[u8]) -> Result<(usize, usize), Fault> {
    let mut times: usize = 1;
    let mut value: usize = 0;
    for byte in word {
        match *byte {
            b'*' => {
                times = value;
                value = 0;
            }
            digit @ b'0'..=b'9' => {
                value = value
                    .saturating_mul(10)
                    .saturating_add((digit - b'0') as usize);
            }
            _ => return Err(Fault::Malformed),
        }
    }
    Ok((times, value))
}

impl Numbers {
    // No number.
    pub fn new() -> Numbers {
        Numbers {
            places: [0; MOST],
            count: 0,
        }
    }

    // The numbers.
    pub fn as_slice(&self) -> &[usize]
        ensures { length result.now ≤ MOST }
    {
        &self.places[..self.count]
    }

    // Takes every number away; the places stay as they are.
    fn clear(&mut self) {
        self.count = 0;
    }

    // Adds a number as often as it counts. With more numbers than fit a line is malformed.
    fn add(&mut self, times: usize, value: usize) -> Result<(), Fault> {
        if times > MOST - self.count {
            return Err(Fault::Malformed);
        }
        let end = self.count + times;
        self.places[self.count..end].fill(value);
        self.count = end;
        Ok(())
    }

    // Reads the numbers of a line, from its words behind the first.
    fn read(&mut self, words: &str) -> Result<(), Fault>
        ensures { OnOk result (self.new.count ≤ MOST) }
    {
        self.clear();
        for word in words.as_bytes().split(|byte| *byte == b' ') {
            let (times, value) = number(word)?;
            self.add(times, value)?;
        }
        Ok(())
    }
}

impl<'a> Command<'a> {
    // The command of a line. Each number has a space or the line's end behind it: one that the input breaks off does not count.
    pub fn parse(line: &[u8], numbers: &'a mut Numbers) -> Result<Command<'a>, Fault> {
        let Ok(line) = str::from_utf8(line) else {
            return Err(Fault::Malformed);
        };
        let (ended, broken_off) = match line.strip_suffix('\n') {
            Some(ended) => (ended, ""),
            None => line.rsplit_once(' ').unwrap_or((line, "")),
        };
        number(broken_off.as_bytes())?;
        match ended.split_once(' ') {
            Some((name, words)) => {
                numbers.read(words)?;
                Command::of(name, numbers)
            }
            None => {
                numbers.clear();
                Command::of(ended, numbers)
            }
        }
    }

    // The command of this name with these numbers.
    fn of(name: &str, numbers: &'a Numbers) -> Result<Command<'a>, Fault> {
        if let Ok(part) = name.parse::<Part>() {
            return Ok(Command::Set(part, numbers));
        }
        match (name, numbers.as_slice()) {
            ("plan", [p, s, n, m, t]) => Ok(Command::Plan {
                p: *p,
                s: *s,
                n: *n,
                m: *m,
                t: *t,
            }),
            ("plan::check", []) => Ok(Command::CheckPlan),
            ("plan::row", [entry]) => Ok(Command::RowOf(*entry)),
            ("store::test", []) => Ok(Command::TestStore),
            ("store::file", [entry, value]) => Ok(Command::File {
                entry: *entry,
                value: *value,
            }),
            ("store::coefficients", []) => Ok(Command::ReadOff),
            ("store::settle", [entry]) => Ok(Command::Settle(*entry)),
            ("program::check_writing", []) => Ok(Command::CheckWriting),
            ("program::write_into", []) => Ok(Command::WriteInto),
            ("program::write", []) => Ok(Command::Write),
            ("program::run", []) => Ok(Command::Run),
            ("listing::worst_norm", []) => Ok(Command::WorstNorm),
            ("readback::read_steps", []) => Ok(Command::ReadSteps),
            ("readback::read_listing", []) => Ok(Command::ReadListing),
            ("text::print_text", [room]) => Ok(Command::PrintText { room: *room }),
            ("moves::to_half", []) => Ok(Command::ToHalf),
            ("moves::to_full", []) => Ok(Command::ToFull),
            ("general::general", []) => Ok(Command::General),
            _ => Err(Fault::Malformed),
        }
    }
}
