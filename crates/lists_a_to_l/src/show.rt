// A run, and its answer in words.
use records::events;
use records::events::Event;
use records::kinds::EventKind;
use run::{Answer, Settings};
use std::io;

fn print_kind(rt: &impl Print, kind: u32) -> io::Result<()> {
    match EventKind::try_from(kind) {
        Ok(name) => print!(rt; "  {name}"),
        Err(_) => print!(rt; "  kind {kind}"),
    }
}

fn print_event(rt: &impl Print, e: Event) -> io::Result<()> {
    print_kind(rt, e.kind)?;
    print!(rt; " {}-{}", e.start, e.end)?;
    if e.number != 0 {
        print!(rt; " number {}", e.number)?;
    }
    println!(rt;)
}

fn print_answer(rt: &impl Print, answer: Answer, events: &[u8]) -> io::Result<()> {
    println!(rt;
        "  number {}, count {}, place {}",
        answer.number, answer.count, answer.place
    )?;
    for i in 0..answer.count as usize {
        print_event(rt, events::event_at(events, i))?;
    }
    Ok(())
}

// Work memory for sixteen tokens is more than any list here needs.
pub fn run(
    rt: &impl Print,
    title: &str,
    tokens: &[u8],
    text: &[u8],
    s: Settings,
    events: &mut [u8],
) -> io::Result<()> {
    let mut states = [0u8; 128];
    let mut anchors = [0u8; 192];
    let mut handles = [0u8; 256];
    let answer = run::run(
        tokens,
        text,
        s,
        events,
        &mut states,
        &mut anchors,
        &mut handles,
    );
    println!(rt; "{title}")?;
    print_answer(rt, answer, events)
}
