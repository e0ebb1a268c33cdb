// Collects rows by one generic function over each kind of exchange, in both rings, and prints what came.
#![tactic(auto)]

use curve::refusal::Refusal;
use exchange::board::Board;
use exchange::curtain::Curtain;
use exchange::lines::Lines;
use exchange::{Exchange, collect_row};
use ring::{Number, Ring};
use std::alloc::{AllocError, Global};
use std::io;

fn main(rt: HostRuntime) -> io::Result<()> {
    let heap = rt.alloc();
    let words = ([24576, 96, 108, 0], [7, 0, 0, 1]);
    let mut row = [[0; 4]; 2];
    trial(&rt, "lines w4", Lines::new(places(heap)?), words, &mut row)?;
    trial(&rt, "board w4", Board::new(places(heap)?), words, &mut row)?;
    let bytes = (0x57, 0x82);
    let mut row = [0u8; 2];
    trial(
        &rt,
        "curtain-lines b8",
        Curtain::new(Lines::new(places(heap)?)),
        bytes,
        &mut row,
    )?;
    trial(
        &rt,
        "curtain-board b8",
        Curtain::new(Board::new(places(heap)?)),
        bytes,
        &mut row,
    )
}

// A table of four empty places, enough for two seats.
fn places<R: Ring>(heap: Global) -> Result<Vec<Option<R>>, AllocError> {
    vec![in heap; None; 4]
}

// Two seats place a word each, and seat 2 collects its row before, between and after.
fn trial<R: Ring, X: Exchange<R> + Drop>(
    rt: &HostRuntime,
    name: &str,
    mut exchange: X,
    words: (R, R),
    row: &mut [R],
) -> io::Result<()> {
    let say = |step: &str, answer: Result<(), Refusal>| match answer {
        Ok(()) => println!(rt; "{name}: {step}: ok"),
        Err(refusal) => {
            let number = refusal.number().unwrap_or(0);
            println!(rt; "{name}: {step}: refused {number}")
        }
    };
    say("two seats", exchange.set_seats(2))?;
    say("row of an empty sheet", collect_row(&exchange, 2, row))?;
    say("word of seat 1", exchange.place_for_all(1, words.0))?;
    say("row with a word missing", collect_row(&exchange, 2, row))?;
    say("word of seat 2", exchange.place_for_all(2, words.1))?;
    say("row of seat 3", collect_row(&exchange, 3, row))?;
    say("row of seat 2", collect_row(&exchange, 2, row))?;
    show(rt, name, row)
}

// The lowest two coordinates of each word.
fn show<R: Ring>(rt: &HostRuntime, name: &str, row: &[R]) -> io::Result<()> {
    for word in row {
        let a = word.coordinate(0).wide();
        let b = word.coordinate(1).wide();
        println!(rt; "{name}: {a} {b}")?;
    }
    Ok(())
}
