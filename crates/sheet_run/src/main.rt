// Runs the edges of the sheet that document 01 marks "run only", and the order of its refusals: a line for each case.
// The lines of `stdout` are worked out by hand from document 01; the reason of each stands above its case here.
#![tactic(auto)]

ghost use Rattle.std.specs.Prelude.{◌≤◌, ◌<◌};

use meaning::{Fault, Mode, Refusal};
use sheet::Record;
use std::io;

// The rest of a line: `refused` with number and place, or `fills` with the count.
fn say(rt: &impl Print, judged: Result<usize, Refusal>) -> io::Result<()> {
    match judged {
        Ok(count) => println!(rt; ": fills {count}"),
        Err(refusal) => println!(rt; ": {refusal}"),
    }
}

fn case(rt: &impl Print, label: &str, numbers: &[u32], terms: usize) -> io::Result<()> {
    print!(rt; "{label}")?;
    say(rt, sheet::judge(numbers, terms))
}

// `count` for the number of queries, then 65 queries of 6 numbers each: mode 0, k = 1, budget 100, one pair of term 0 and weight 3.
// Query i stands at number 1 + 6i; one number is left over.
fn full(count: u32) -> [u32; 392] {
    let mut s = [0u32; 392];
    s[0] = count;
    for i in 0..65 {
        let at = 6 * i + 1;
        s[at..at + 6].copy_from_slice(&[0, 1, 100, 1, 0, 3]);
    }
    s
}

// The first n numbers of such a sheet.
fn cut(rt: &impl Print, label: &str, s: [u32; 392], n: usize) -> io::Result<()>
    requires { n ≤ 392 }
{
    case(rt, label, &s[..n], 1)
}

// A sheet of 64 with one number of query i changed: 0 its mode, 1 k, 2 the budget, 3 the number of terms, 4 the term, 5 the weight.
fn changed(rt: &impl Print, label: &str, i: usize, which: usize, value: u32) -> io::Result<()>
    requires { (i < 64) × (which < 6) }
{
    let mut s = full(64);
    s[6 * i + 1 + which] = value;
    cut(rt, label, s, 385)
}

// The same fault at the first query and at the last: its number at 0, and at 63.
fn both(rt: &impl Print, label: &str, which: usize, value: u32) -> io::Result<()>
    requires { which < 6 }
{
    changed(rt, label, 0, which, value)?;
    changed(rt, label, 63, which, value)
}

// A record on a line: its mode, k, budget, number of terms, and the number at which its pairs stand.
fn show(rt: &impl Print, record: Record) -> io::Result<()> {
    let mode = record.mode;
    let name = match mode {
        Mode::Plain => "plain",
        Mode::Pruned => "pruned",
        Mode::All => "all terms",
    };
    println!(rt;
        "{name}, k = {}, budget {}, terms {} at {}",
        record.k, record.budget, record.q, record.pairs
    )
}

// Each query's record of an accepted sheet.
fn records(rt: &impl Print, numbers: &[u32], terms: usize) -> io::Result<()> {
    let Ok(_) = sheet::judge(numbers, terms) else {
        return Ok(());
    };
    let mut at: usize = 1;
    for _ in 0..numbers[0] {
        let record = sheet::read(numbers, at);
        show(rt, record)?;
        at = record.pairs + 2 * record.q;
    }
    Ok(())
}

// "queries (1 to 64)": else 9 at 0, and so for a sheet that has no first number.
fn counts(rt: &impl Print) -> io::Result<()> {
    cut(rt, "an empty sheet", full(0), 0)?;
    cut(rt, "0 queries", full(0), 1)?;
    cut(rt, "65 queries", full(65), 391)?;
    // each of the 64 fills 3 + 2 * 1 numbers
    cut(rt, "64 queries", full(64), 385)?;
    // query 2 of 3 has no number; queries count from 0
    cut(rt, "3 queries, numbers for 2", full(3), 13)
}

// One query: its ranges, and a term that is mentioned twice.
fn one_query(rt: &impl Print) -> io::Result<()> {
    // 3 + 2 * 64
    let rows = [1, 0, 64, 4294967295, 1, 0, 3];
    case(rt, "k = 64, the largest budget", &rows, 1)?;
    let mut many = [1u32; 39];
    many[1] = 0;
    many[4] = 17;
    // 12, though all 17 pairs are there
    case(rt, "17 terms", &many, 2)?;
    many[4] = 16;
    // 3 + 2 * 1
    case(rt, "16 terms", &many[..37], 2)?;
    let one = [1, 0, 1, 100, 1, 0, 3];
    // no term is below 0: 13; but 9 to 12 come first
    case(rt, "T = 0", &one, 0)?;
    many[4] = 17;
    case(rt, "T = 0, 17 terms", &many, 0)?;
    // a term may be repeated: 3 + 2 * 2
    let again = [1, 1, 2, 100, 2, 0, 3, 0, 5];
    case(rt, "a repeated term", &again, 1)
}

// The three modes, each next query after the pairs of the one before: 1 + 4 = 5, 5 + 2 * 2 + 4 = 13, 13 + 2 * 1 + 4 = 19.
fn three_modes(rt: &impl Print) -> io::Result<()> {
    let modes = [
        3, 1, 2, 100, 2, 0, 3, 0, 5, 0, 64, 4294967295, 1, 0, 3, 2, 1, 0, 1, 0, 255,
    ];
    records(rt, &modes, 1)
}

// Each refusal at the first and at the last query of a sheet of 64.
fn first_and_last(rt: &impl Print) -> io::Result<()> {
    // 10: mode above 2
    both(rt, "mode 3", 0, 3)?;
    // 11: k not 1 to 64
    both(rt, "k = 0", 1, 0)?;
    both(rt, "k = 65", 1, 65)?;
    // 12: q not 1 to 16
    both(rt, "no terms", 3, 0)?;
    both(rt, "17 terms", 3, 17)?;
    // 13: term T or above, T being 1
    both(rt, "term T", 4, 1)?;
    // 14: weight not 1 to 255
    both(rt, "weight 0", 5, 0)?;
    both(rt, "weight 256", 5, 256)?;
    // 9: numbers missing; query 0 stands at numbers 1 to 6, query 63 at 379 to 384
    cut(rt, "the number of terms missing", full(64), 4)?;
    cut(rt, "the number of terms missing", full(64), 382)?;
    cut(rt, "the weight missing", full(64), 6)?;
    cut(rt, "the weight missing", full(64), 384)?;
    // 9: numbers left over, after all queries; the place is the number of queries
    cut(rt, "a number left over", full(64), 386)
}

// "a query's four numbers (9 if any is missing), 10, 11, 12, its pairs (9 if any number is missing), then pair by pair 13 before 14".
fn in_order(rt: &impl Print) -> io::Result<()> {
    let short = [1, 3];
    case(rt, "9 before 10", &short, 1)?;
    let mode = [1, 3, 0, 100, 0];
    case(rt, "10 before 11", &mode, 1)?;
    let k = [1, 0, 0, 100, 0];
    case(rt, "11 before 12", &k, 1)?;
    let q = [1, 0, 1, 100, 17];
    case(rt, "12 before the pairs' 9", &q, 1)?;
    let missing = [1, 0, 1, 100, 2, 1, 0, 0];
    case(rt, "the pairs' 9 before 13", &missing, 1)?;
    let term = [1, 0, 1, 100, 1, 1, 0];
    case(rt, "13 before 14", &term, 1)?;
    let weight = [1, 0, 1, 100, 2, 0, 0, 1, 3];
    case(rt, "pair by pair", &weight, 1)?;
    let over = [1, 3, 1, 100, 1, 0, 3, 0];
    case(rt, "10 before numbers left over", &over, 1)
}

// 15 comes last, at the numbers needed.
fn rooms(rt: &impl Print) -> io::Result<()> {
    print!(rt; "64 queries, a row of 320")?;
    say(rt, sheet::room(Ok(320), 320))?;
    print!(rt; "64 queries, a row of 319")?;
    say(rt, sheet::room(Ok(320), 319))?;
    print!(rt; "k = 65, an empty row")?;
    let refusal = Refusal {
        fault: Fault::Rows,
        place: 0,
    };
    say(rt, sheet::room(Err(refusal), 0))
}

fn main(rt: HostRuntime) -> io::Result<()> {
    counts(&rt)?;
    one_query(&rt)?;
    three_modes(&rt)?;
    first_and_last(&rt)?;
    in_order(&rt)?;
    rooms(&rt)
}
