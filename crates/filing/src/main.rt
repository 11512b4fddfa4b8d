// The filing program: a plan text on standard input, the program's listing or a refusal on standard output.
//
// Here bytes are only moved, `text` judges and prints (`start`, `feed`, `finish`). `run` reads from any reader and writes to any writer; `main`
// hands it the standard streams, and buffers. Nothing is written before the text has ended, and where the input cannot be read to its end, only
// standard error is written to. `run` promises this of what the reader gave, of the buffer that is printed and of what the writer holds
// (specs/Input.antt), where a reader or a writer says which bytes those are; that the system's calls delivered the one and took the other no
// contract can say, and rust/celerycrag/tests/streams.rs looks. Stands on `text`. Renders 01, "The filing program"; docs/FORMAT.md explains it
// to users.
#![tactic(auto)]

ghost use Rattle.std.specs.Prelude.{◌≡◌, ◌≤◌, ◌<◌, length, OnOk};
ghost use Rattle.std.specs.Io.KnownBytes.{Appends};
ghost use Rattle.lists.specs.Places.{placed};
ghost use Rattle.text.specs.Meaning.{meaning};
ghost use Rattle.text.specs.Held.{state_of};
ghost use Rattle.text.specs.Sound.{SoundState};
ghost use Rattle.text.specs.Streaming as streaming;
ghost use Rattle.filing.specs.Input.{Reads, Printed, WritesMeaning};
ghost use Rattle.filing.specs.declared.Failure.TheVariants.{Input};

use std::io;
use std::io::{Cursor, ErrorKind, Read, Write};
use text::{Buffers, LINE, OUTPUT, PRODUCTS, RADICES, Room, STORE, State, TABLES, WEIGHTS, buffer};

// Why an input was not read to its end: it has 2^62 bytes or more, or a read failed.
#[derive(Clone, Copy)]
enum Stop {
    TooLong,
    Failed(io::Error),
}

// Why nothing was printed, or not all: the input was not read to its end, or a write failed.
#[derive(Clone, Copy)]
enum Failure {
    Input(Stop),
    Output(io::Error),
}

impl From<Stop> for Failure {
    ghost from_gives = { λ stop failure. failure ≡ Input stop };

    fn from(stop: Stop) -> Failure {
        Failure::Input(stop)
    }
}

// The bytes that one read brings at most.
const CHUNK: usize = 65536;

// Reads an input to its end: the state of its text, and whether the end was reached. A proved loop has to end, so it stops at 2^62 bytes, more
// than any input has. A read that a signal cuts short counts as one that failed.
fn read_all<R: Read>(
    from: &mut R,
    chunk: &mut [u8],
    buffers: &mut Buffers,
) -> (State, Result<(), Stop>)
    requires { (0 < length chunk.old) × (length chunk.old ≤ 65536) }
    ensures { Reads (R.remaining from.old) (R.remaining from.new) (state_of result.0 buffers.new) result.1 }
{
    let mut state = text::start();
    let mut count: usize = 0;
    // A while: it counts the bytes that the reads bring, which no iterator knows before.
    while count < 4611686018427387904 {
        let n = match from.read(chunk) {
            Ok(0) => return (state, Ok(())),
            Ok(n) => n,
            Err(e) => return (state, Err(Stop::Failed(e))),
        };
        state = text::feed(state, &chunk[..n], buffers);
        count += n;
    }
    (state, Err(Stop::TooLong))
}

// Prints what a text that has ended gives: the front of the room's `out`, which it is put into, is written.
fn print_end<W: Write>(
    to: &mut W,
    state: State,
    buffers: &Buffers,
    room: &mut Room,
) -> io::Result<()>
    requires sound_state { SoundState (state_of state buffers.now) }
    ensures out_after { room.new.out.now ≡ placed room.old.out.now 0 (streaming.finish (state_of state buffers.now)) }
    ensures written { OnOk result (Appends (W.contents to.old) (W.contents to.new) (streaming.finish (state_of state buffers.now))) }
{
    let end = text::finish(state, &buffers.share(), room);
    // By `&mut`: of a part lent as `&` from the struct itself, a proof does not know that it stayed as it was.
    to.write_all(&mut room.out[..end])
}

// The whole run, over lent buffers.
fn run<R: Read, W: Write>(
    from: &mut R,
    to: &mut W,
    chunk: &mut [u8],
    buffers: &mut Buffers,
    room: &mut Room,
) -> Result<(), Failure>
    requires chunk_room { (0 < length chunk.old) × (length chunk.old ≤ 65536) }
    ensures printed { Printed (R.remaining from.old) (R.remaining from.new) (W.contents to.old) (W.contents to.new) result room.old.out.now room.new.out.now }
    ensures known { WritesMeaning (R.remaining from.old) result (W.contents to.old) (W.contents to.new) }
{
    let (state, read) = read_all(from, chunk, buffers);
    read?;
    print_end(to, state, buffers, room).map_err(Failure::Output)
}

// A text without the number in parentheses at its end, and the space before it.
fn before_number(text: &[u8]) -> &[u8] {
    match text.iter().rposition(|b| *b == b'(') {
        Some(at) if at > 0 => &text[..at - 1],
        _ => text,
    }
}

// Writes a line to standard error: which stream failed, a colon and the system's text for why, of at most 96 bytes.
fn fail<W: Write>(to: &mut W, what: &[u8], error: io::Error) {
    let mut reason = Cursor::new([0; 96]);
    let _ = write!(reason, "{error}");
    let len = reason.position().min(96) as usize;
    let _ = to.write_all(what);
    let _ = to.write_all(b": ");
    let _ = to.write_all(before_number(&reason.get_ref()[..len]));
    let _ = to.write_all(b"\n");
}

fn main(rt: HostRuntime) {
    let mut from = rt.stdin();
    let mut to = rt.stdout();
    let mut chunk = buffer::<CHUNK>();
    let mut line = buffer::<LINE>();
    let mut radices = buffer::<RADICES>();
    let mut weights = buffer::<WEIGHTS>();
    let mut tables = buffer::<TABLES>();
    let mut products = buffer::<PRODUCTS>();
    let mut store = buffer::<STORE>();
    let mut steps = text::steps_buffer();
    let mut out = buffer::<OUTPUT>();
    let mut buffers = Buffers {
        line: &mut line,
        radices: &mut radices,
        weights: &mut weights,
        tables: &mut tables,
        products: &mut products,
        store: &mut store,
    };
    let mut room = Room {
        steps: &mut steps,
        out: &mut out,
    };
    let ran = run(&mut from, &mut to, &mut chunk, &mut buffers, &mut room);
    let mut errors = rt.stderr();
    match ran {
        Ok(()) => {}
        Err(Failure::Input(Stop::TooLong)) => fail(
            &mut errors,
            b"standard input",
            ErrorKind::FileTooLarge.into(),
        ),
        Err(Failure::Input(Stop::Failed(error))) => fail(&mut errors, b"standard input", error),
        Err(Failure::Output(error)) => fail(&mut errors, b"standard output", error),
    }
}
