// Two builds on new chips over memory of their own: both verdicts, a place of each chip, and the first call that was refused.
#![tactic(auto)]

use arrays::CellArray;
use compare::answers::{FirstRefusal, count_answers, first_refusal};
use compare::builds::{Build, compare_builds};
use records::call::Call;
use records::writer::write_trace;
use refusals::Refusal;
use rules::control::Opening;
use rules::part::Part;
use std::io;

// one block of a K9F2808
const WORDS: usize = 32 * 528;

const COUNTS: usize = 32;

const OPENING: Opening = Opening {
    part: Part::K9F2808,
    device: 0x73,
    limit: 3,
};

// Programs a word at the first place of row 0.
fn program(word: u16) -> [Call; 7] {
    [
        Call::Command(0x80),
        Call::Address(0),
        Call::Address(0),
        Call::Address(0),
        Call::Write(word),
        Call::Command(0x10),
        Call::Settle,
    ]
}

// Programs two words, one after the other, at one place. In an array, so that there is nothing to allocate.
fn two_words(first: u16, second: u16) -> [Call; 14] {
    let [a, b, c, d, e, f, g] = program(first);
    let [h, i, j, k, l, m, n] = program(second);
    [a, b, c, d, e, f, g, h, i, j, k, l, m, n]
}

// Programs a word, with a settle too early: nothing is under way then.
fn settled_early(word: u16) -> [Call; 8] {
    [
        Call::Command(0x80),
        Call::Address(0),
        Call::Address(0),
        Call::Address(0),
        Call::Write(word),
        Call::Settle,
        Call::Command(0x10),
        Call::Settle,
    ]
}

fn side(rt: &HostRuntime, name: &str, answers: &[Result<u16, Refusal>]) -> io::Result<()> {
    let tally = count_answers(answers);
    match first_refusal(answers) {
        None => {
            let taken = tally.taken;
            println!(rt; "  {name}: {taken} calls taken, none refused")
        }
        Some(FirstRefusal { call, why }) => {
            println!(rt; "  {name}: {tally}, the first is call {call}: {why}")
        }
    }
}

// The memory of each side is lent for a time of its own.
fn show(
    rt: &HostRuntime,
    words: &mut [u8],
    counts: &mut [u8],
    trace: &[u8],
    other_words: &mut [u8],
    other_counts: &mut [u8],
    other_trace: &[u8],
) -> io::Result<()> {
    let one = Build::new(words, counts, trace);
    let other = Build::new(other_words, other_counts, other_trace);
    match compare_builds(rt.alloc(), OPENING, one, other) {
        Err(error) => match error.refusal() {
            None => println!(rt; "  no memory"),
            Some(why) => {
                let number = why.number();
                println!(rt; "  not compared: refused with {number}, {why}")
            }
        },
        Ok(builds) => {
            side(rt, "one", &builds.comparison.answers)?;
            side(rt, "other", &builds.comparison.other_answers)?;
            let answers = builds.comparison.answers_equal;
            let cells = builds.comparison.cells_equal;
            println!(rt; "  answers equal: {answers}, cells equal: {cells}")?;
            let code = builds.one.array().code(0, 0);
            let other_code = builds.other.array().code(0, 0);
            println!(rt; "  the first place reads {code:02X} and {other_code:02X}")
        }
    }
}

fn compare_traces(
    rt: &HostRuntime,
    title: &str,
    trace: &[u8],
    other_trace: &[u8],
) -> io::Result<()> {
    let heap = rt.alloc();
    let mut words = vec![in heap; 0u8; WORDS]?;
    let mut counts = vec![in heap; 0u8; COUNTS]?;
    let mut other_words = vec![in heap; 0u8; WORDS]?;
    let mut other_counts = vec![in heap; 0u8; COUNTS]?;
    println!(rt; "{title}")?;
    show(
        rt,
        &mut words,
        &mut counts,
        trace,
        &mut other_words,
        &mut other_counts,
        other_trace,
    )
}

fn compare_calls(
    rt: &HostRuntime,
    title: &str,
    calls: &[Call],
    other_calls: &[Call],
) -> io::Result<()> {
    let mut bytes = [0u8; 64];
    let mut other_bytes = [0u8; 64];
    let (_, size) = write_trace(calls, &mut bytes);
    let (_, other_size) = write_trace(other_calls, &mut other_bytes);
    match (bytes.get(0..size), other_bytes.get(0..other_size)) {
        (Some(trace), Some(other_trace)) => compare_traces(rt, title, trace, other_trace),
        _ => println!(rt; "more bytes than there are"),
    }
}

fn main(rt: HostRuntime) -> io::Result<()> {
    let build = two_words(0x0F, 0x3C);
    compare_calls(
        &rt,
        "two words at one place, in both orders",
        &build,
        &two_words(0x3C, 0x0F),
    )?;
    compare_calls(&rt, "another word", &build, &two_words(0x0F, 0x3D))?;
    compare_calls(
        &rt,
        "a settle too early",
        &settled_early(0x0F),
        &two_words(0x0F, 0xFF),
    )?;
    compare_traces(&rt, "a record that is cut off", b"STCM", b"ST")
}
