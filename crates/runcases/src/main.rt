// Plays traces from the standard input, each on a new chip of two blocks, and says what each comes to.
// A line is a part, a limit, the room for result bytes, and the trace: `.CM` stands for the two letters, `80` for a byte.
// A line that begins with # is printed as it is.
#![tactic(auto)]

use rules::control::Opening;
use rules::part::Part;
use runner::job::run_on_memory;
use std::alloc::{AllocError, Global};
use std::io;
use words::Word;

// memory for two blocks of any part: the counts are for two
const WORDS: usize = 33792;

const COUNTS: usize = 64;
// what stands in the results before a run
const BLANK: u8 = 0xEE;

#[derive(Drop)]
struct Case {
    opening: Opening,
    room: usize,
    trace: Vec<u8>,
}

// What a run answers: two numbers beside the bytes, which is a rule of the project.
#[derive(Drop)]
struct Played {
    used: usize,
    written: usize,
    results: Vec<u8>,
}

// Adds a mark as it is, or the byte of two digits.
fn add_word(trace: &mut Vec<u8>, word: &str) -> Option<()> {
    match word.strip_prefix(".") {
        Some(mark) => trace.extend_from_slice(mark.as_bytes()).ok(),
        None => trace.push(u8::from_str_radix(word, 16).ok()?).ok(),
    }
}

fn case_of(heap: Global, line: &str) -> Option<Case> {
    let mut words = line.split_whitespace();
    let part = words.next()?.parse::<Part>().ok()?;
    let limit = words.next()?.parse::<u8>().ok()?;
    let room = words.next()?.parse::<u16>().ok()?;
    let mut trace = Vec::new(heap);
    for word in words {
        add_word(&mut trace, word)?;
    }
    let opening = Opening {
        part,
        device: 0x76,
        limit,
    };
    Some(Case {
        opening,
        room: usize::from(room),
        trace,
    })
}

fn play_case<W: Word + Clone>(heap: Global, case: &Case) -> Result<Played, AllocError> {
    let mut words = vec![in heap; W::erased(); WORDS]?;
    let mut counts = vec![in heap; 0u8; COUNTS]?;
    let mut results = vec![in heap; BLANK; case.room]?;
    let (used, written) = run_on_memory(
        case.opening,
        &mut words,
        &mut counts,
        &case.trace,
        &mut results,
    );
    Ok(Played {
        used,
        written,
        results,
    })
}

// The part says at run time which type its words are of, so a match and not a type parameter chooses.
fn play_on_part(heap: Global, case: &Case) -> Result<Played, AllocError> {
    match case.opening.part {
        Part::K9K1216 => play_case::<u16>(heap, case),
        _ => play_case::<u8>(heap, case),
    }
}

fn show(rt: &HostRuntime, outcome: &Played) -> io::Result<()> {
    let used = outcome.used;
    let written = outcome.written;
    print!(rt; "{used} {written}:")?;
    for result in outcome.results.chunks(4) {
        match result {
            [b'o', b'k', low, high] => {
                let value = u16::from_le_bytes([*low, *high]);
                print!(rt; " ok{value:02X}")?
            }
            [b'n', b'o', number, 0] => print!(rt; " no{number}")?,
            [BLANK, BLANK, BLANK, BLANK] => print!(rt; " ..")?,
            _ => print!(rt; " {result:?}")?,
        }
    }
    println!(rt; "")
}

fn main(rt: HostRuntime) -> io::Result<()> {
    let heap = rt.alloc();
    for line in rt.lines(heap) {
        let line = line?;
        if line.as_str().starts_with("#") {
            println!(rt; "{line}")?;
            continue;
        }
        match case_of(heap, line.as_str()) {
            Some(case) => show(&rt, &play_on_part(heap, &case)?)?,
            None => println!(rt; "unreadable: {line}")?,
        }
    }
    Ok(())
}
