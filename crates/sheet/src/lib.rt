// A sheet of 32-bit numbers: judged by refusals 9 to 15 in reading order, and a query's record read from it
// (document 01, "The sheet and the answer row").
#![tactic(auto)]

ghost use Rattle.std.specs.Prelude.{◌≡◌, ℕ, ◌+◌, ◌*◌, ◌/◌, ◌≤◌, length, take, drop, IfOk, slice_index};
ghost use Rattle.meaning.specs.Sheet.{query_at, queries_at, sheet_of};
ghost use Rattle.meaning.specs.Refusals.{told, told_at};
ghost use Rattle.sheet.specs.Verdict.{needed_of, Roomed};
ghost use Rattle.sheet.specs.Numbers.{asked_at, four_at, fair, HasPairs};
ghost use Rattle.sheet.specs.Record.{Readable, IsRecord};

use meaning::{Fault, Mode, Refusal};

// A query's record: the mode as one of three named kinds, and where its q pairs stand.
#[derive(Clone, Copy)]
pub struct Record {
    pub mode: Mode,
    pub k: usize,
    pub budget: u32,
    pub q: usize,
    pub pairs: usize,
}

impl Record {
    // The record as it is put, with its pairs lent from the sheet that it was read from.
    pub fn question(self, sheet: &[u32]) -> Question<'_>
        requires { self.pairs + 2 * self.q ≤ length sheet.now }
        ensures mode { result.mode ≡ self.mode }
        ensures k { result.k ≡ self.k }
        ensures budget { result.budget ≡ self.budget }
        ensures pairs { result.pairs.now ≡ take (2 * self.q) (drop self.pairs sheet.now) }
    {
        Question {
            mode: self.mode,
            k: self.k,
            budget: self.budget,
            pairs: &sheet[self.pairs..self.pairs + 2 * self.q],
        }
    }
}

// A query as it is put: its pairs are lent, a term and a weight each.
#[derive(Clone, Copy)]
pub struct Question<'a> {
    pub mode: Mode,
    pub k: usize,
    pub budget: u32,
    pub pairs: &'a [u32],
}

impl Question<'_> {
    // How many terms q it has.
    pub fn terms(self) -> usize
        ensures { result ≡ length self.entry.pairs.now / 2 }
    {
        self.pairs.len() / 2
    }
}

// The query that begins these numbers, its pairs not judged: "9 if any is missing", 10, 11, 12, and 9 where its pairs are not all there.
#[tactic(auto, unfolding(crate::specs::Numbers::four_at))]
fn four(numbers: &[u32]) -> Result<Question<'_>, Fault>
    ensures says { (i : ℕ) → asked_at i result ≡ four_at numbers.now i }
    ensures pairs { HasPairs numbers.now result }
    ensures small { IfOk result (λ r. (r.k ≤ 64) × (4 + length r.pairs.now ≤ length numbers.now)) }
{
    let [mode, k, budget, q, rest @ ..] = numbers else {
        return Err(Fault::Numbers);
    };
    let Ok(mode) = Mode::try_from(*mode) else {
        return Err(Fault::Mode);
    };
    if !(1..=64).contains(k) {
        return Err(Fault::Rows);
    }
    if !(1..=16).contains(q) {
        return Err(Fault::Mentions);
    }
    let Some(pairs) = rest.get(..2 * *q as usize) else {
        return Err(Fault::Numbers);
    };
    Ok(Question {
        mode,
        k: *k as usize,
        budget: *budget,
        pairs,
    })
}

// A query's pairs: "pair by pair 13 before 14".
fn pairs(pairs: &[u32], terms: usize) -> Result<(), Fault>
    ensures { (i : ℕ) → told_at i result ≡ fair pairs.now terms i }
{
    for [term, weight] in pairs.as_chunks::<2>().0 {
        if terms <= *term as usize {
            return Err(Fault::Term);
        }
        if !(1..=255).contains(weight) {
            return Err(Fault::Weight);
        }
    }
    Ok(())
}

// The query that begins these numbers, whole.
#[tactic(auto, using(crate::proofs::Laws::four_off, crate::proofs::Laws::pairs_fine))]
fn query(numbers: &[u32], terms: usize) -> Result<Question<'_>, Fault>
    ensures says { (i : ℕ) → asked_at i result ≡ query_at numbers.now terms i 0 }
    ensures pairs { HasPairs numbers.now result }
    ensures small { IfOk result (λ r. (r.k ≤ 64) × (4 + length r.pairs.now ≤ length numbers.now)) }
{
    let query = four(numbers)?;
    pairs(query.pairs, terms)?;
    Ok(query)
}

// The n queries of a sheet; "numbers left over come after all queries".
#[tactic(auto, using(crate::proofs::Laws::needed_zero, crate::proofs::Laws::sheet_ends, crate::proofs::Laws::left_over))]
fn queries(numbers: &[u32], terms: usize, n: usize) -> Result<usize, Refusal>
    requires { n ≤ 64 }
    ensures { told result ≡ needed_of (queries_at numbers.now terms 0 0 n) }
{
    let mut rest = numbers;
    let mut needed = 0;
    for i in 0..n {
        let query = query(rest, terms).map_err(|fault| Refusal { fault, place: i })?;
        rest = &rest[4 + query.pairs.len()..];
        needed += 3 + 2 * query.k;
    }
    if rest.is_empty() {
        Ok(needed)
    } else {
        Err(Refusal {
            fault: Fault::Numbers,
            place: n,
        })
    }
}

// A whole sheet for an image of `terms` terms: its first fault, or how many numbers its answers fill.
#[tactic(auto, unfolding(crate::specs::Verdict::needed_of, meaning::specs::Sheet::sheet_of))]
pub fn judge(sheet: &[u32], terms: usize) -> Result<usize, Refusal>
    ensures { told result ≡ needed_of (sheet_of sheet.now terms) }
{
    match sheet {
        [n, rest @ ..] if (1..=64).contains(n) => queries(rest, terms, *n as usize),
        _ => Err(Refusal {
            fault: Fault::Numbers,
            place: 0,
        }),
    }
}

// Refusal 15, the last of all: the count where the answer row has room for it. A refusal that is handed in is given back, whichever it is.
pub fn room<E: From<Refusal>>(judged: Result<usize, E>, row_len: usize) -> Result<usize, E>
    ensures { Roomed E.from_gives judged row_len result }
{
    let count = judged?;
    if row_len < count {
        return Err(E::from(Refusal {
            fault: Fault::Room,
            place: count,
        }));
    }
    Ok(count)
}

// The record of the query at number `at` of an accepted sheet. The next query stands at `pairs + 2 * q`.
#[tactic(auto, using(crate::proofs::Laws::readable_at))]
pub fn read(sheet: &[u32], at: usize) -> Record
    requires { Readable sheet.now at }
    ensures { IsRecord sheet.now at result }
{
    let query = four(&sheet[at..]).unwrap();
    Record {
        mode: query.mode,
        k: query.k,
        budget: query.budget,
        q: query.terms(),
        pairs: at + 4,
    }
}
