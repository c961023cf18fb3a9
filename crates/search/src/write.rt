// A query's stretch of the answer row: "Each query fills exactly 3 + 2k numbers: place, rows found, postings scored, then document and score
// for each row, then zeros up to k rows."
ghost use Rattle.std.specs.Prelude.{◌≡◌, ◌∷◌, ◌+◌, ◌*◌, length};
ghost use Rattle.meaning.specs.Answer.{filled};
ghost use Rattle.ranking.specs.Rows.{rows_of};

// What the walk has found, into the stretch that the query is lent.
pub fn write(found: &super::Found, out: &mut [u32])
    requires { length out.old ≡ 3 + 2 * found.now.table.k }
    ensures { out.new ≡ found.now.place ∷ length (rows_of found.now.table) ∷ found.now.scored
        ∷ filled found.now.table.k (rows_of found.now.table) }
{
    let rows = found.table.rows();
    let n = rows.len();
    out[0] = found.place;
    out[1] = n as u32;
    out[2] = found.scored;
    for (i, row) in rows.iter().enumerate() {
        let at = 3 + 2 * i;
        out[at] = row.doc;
        out[at + 1] = row.score;
    }
    out[3 + 2 * n..].fill(0);
}
