// The walk program: reads a go line and a chart and prints the listing or the path, or a chart alone and prints a run; or
// the refusal. What an input prints is the contract of `program::respond_to` and `program::respond_search_to`, and what
// arguments ask that of `program::command`; no contract can speak of what the system reads and writes.
#![tactic(auto)]

ghost use Rattle.std.specs.Prelude.{◌≤◌, length};

use semantics::{Command, View};
use std::env::{Env, FillError};
use std::io;
use std::io::{IsTerminal, Read, Stderr, Stdin, Stdout, Write};

// Linux hands over no longer argument: MAX_ARG_STRLEN, which counts the 0 at its end.
const LONGEST_ARGUMENT: usize = 131072;

// The longest text that the system has of a failure, with room to spare.
const REASON: usize = 256;

// What the program reads from and writes to.
#[derive(Drop)]
struct Streams {
    input: Stdin,
    output: Stdout,
    errors: Stderr,
}

// What cannot be said there cannot be said at all.
fn say(errors: &mut Stderr, bytes: &[u8]) {
    streams::write_all(errors, bytes);
}

// The text ends before its first 0.
fn text_length(text: &[u8]) -> usize
    ensures { result ≤ length text.now }
{
    text.iter().position(|b| *b == 0).unwrap_or(text.len())
}

// The system's text of a failure, before the number that std puts behind it in brackets.
fn reason_length(text: &[u8]) -> usize
    ensures { result ≤ length text.now }
{
    match text.iter().rposition(|b| *b == b'(') {
        Some(bracket) => bracket.saturating_sub(1),
        None => text_length(text),
    }
}

// Says what failed, and why.
fn fail(errors: &mut Stderr, what: &[u8], error: io::Error) {
    say(errors, what);
    let mut text = [0u8; REASON];
    let mut rest: &mut [u8] = &mut text;
    let _ = write!(rest, "{error}");
    let end = reason_length(&text);
    say(errors, b": ");
    say(errors, &text[..end]);
    say(errors, b"\n");
}

// Writes it to standard output, or says why not. A program has no exit status to say so.
fn print(streams: &mut Streams, bytes: &[u8]) {
    let written = streams::write_all(&mut streams.output, bytes);
    if let Err(error) = written.last {
        fail(&mut streams.errors, b"walk: standard output", error);
    } else if written.count < bytes.len() {
        say(
            &mut streams.errors,
            b"walk: standard output takes no more\n",
        );
    }
}

// How many bytes were read. On a terminal it first says what it waits for. A failed read is no end of the input: there is
// then no answer.
fn read_input(
    streams: &mut Streams,
    awaited: &[u8],
    input: &mut [u8; program::INPUT],
) -> Option<usize> {
    if streams.input.is_terminal() {
        say(&mut streams.errors, b"walk: type ");
        say(&mut streams.errors, awaited);
        say(
            &mut streams.errors,
            b", then Ctrl-D on a line of its own; `walk help` has an example\n",
        );
    }
    let read = streams::read_all(&mut streams.input, input);
    if let Err(error) = read.last {
        fail(&mut streams.errors, b"walk: standard input", error);
        return None;
    }
    Some(read.count)
}

// Reads the input and prints what is answered to it: the bytes at the front of those lent, and how many they are.
fn answer<F>(streams: &mut Streams, awaited: &[u8], respond: F)
where
    F: FnOnce(&[u8; program::INPUT], usize, &mut [u8; semantics::LISTING_BYTES]) -> usize,
    requires callable { F.IsAlwaysCallable respond }
    requires fits { (input : _) (count : _) (out : _) (n : _) (after : _) → F.post respond input count out n after → n ≤ length after.now }
{
    let mut input = [0u8; program::INPUT];
    let Some(count) = read_input(streams, awaited, &mut input) else {
        return;
    };
    let mut out = [0u8; semantics::LISTING_BYTES];
    let length = respond(&input, count, &mut out);
    print(streams, &out[..length]);
}

fn show(streams: &mut Streams, view: View) {
    answer(
        streams,
        b"a go line and a chart",
        |input, count, out|
            ensures { result ≤ length out.new }
        { program::respond_to(view, input, count, out) },
    );
}

// The second argument is the count of moves, which is judged before the chart, but after both were read.
fn search(rt: &HostRuntime, streams: &mut Streams) {
    let mut argument = [0u8; LONGEST_ARGUMENT];
    let end = argument_in(rt, 2, &mut argument);
    let k = &argument[..end];
    answer(
        streams,
        b"a chart without a go line",
        |input, count, out|
            ensures { result ≤ length out.new }
        { program::respond_search_to(k, input, count, out) },
    );
}

// The argument's bytes at the start of the buffer, and how many there are: 0 where it is missing or does not fit.
fn argument_in(rt: &HostRuntime, i: usize, buf: &mut [u8]) -> usize
    ensures { result ≤ length buf.old }
{
    rt.arg(i, buf).unwrap_or(0)
}

// How many arguments follow the program's name.
fn arguments_given(rt: &HostRuntime) -> usize {
    let mut first = [0u8; 1];
    (1..usize::MAX)
        .position(|i| matches!(rt.arg(i, &mut first), Err(FillError::NotPresent)))
        .unwrap_or(usize::MAX - 1)
}

// Its example is tried by tests/program/tests/arguments.rs.
fn help(streams: &mut Streams) {
    print(
        streams,
        b"walk            reads a go line and a chart, and prints every entry that is reached\n\
          walk path       reads the same, and prints the path to the alarm\n\
          walk search K   reads a chart without a go line, and prints a shortest run of at most K moves (0 to 8) into a bad location or an overrun\n\
          walk help       prints this\n\
          \n\
          Fields are parted by tabs, and each line ends with a line end.\n\
          \n\
          go  merge (sep, join)  stop (sep, join)  order (old, new)  room (1 to 256)  allowance (0 to 60000)\n\
          V   name  low  high  initial value (* for any)           a variable, $0 the first\n\
          L   name  kind (o ordinary, e bad)                       a location, the first is the start\n\
          E   from  to  set, add, sub, in, if or skip, and fields  an edge\n\
          \n\
          For example, an axis that moves on by 20, and once too often:\n\
          \n\
          printf 'go\\tsep\\tsep\\told\\t16\\t100\\nV\\taxis\\t0\\t90\\t60\\nL\\tfeeder\\to\\nE\\t0\\t0\\tadd\\t$0\\t$0\\t20\\n' | walk path\n\
          \n\
          path\tsep\t1\n\
          0\t0\tfeeder\t60\t-\n\
          1\t1\tfeeder\t80\tw\n\
          \n\
          README.md says how to write charts, how to read what is printed, and what a refusal's number means.\n",
    );
}

// The first argument is the program's name.
fn main(rt: HostRuntime) {
    let mut streams = Streams {
        input: rt.stdin(),
        output: rt.stdout(),
        errors: rt.stderr(),
    };
    let mut first = [0u8; program::ARGUMENT];
    let length = argument_in(&rt, 1, &mut first);
    let given = arguments_given(&rt);
    match program::command(given, &first, length) {
        Command::Show(view) => show(&mut streams, view),
        Command::Search => search(&rt, &mut streams),
        Command::Help => help(&mut streams),
        Command::Unknown => {
            say(
                &mut streams.errors,
                b"walk: no such command; `walk help` says what there is\n",
            );
        }
    }
}
