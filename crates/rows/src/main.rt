// The five thresholds as five rows of five numbers, one row for each f, held against the group's own.
#![tactic(auto)]

use std::io;
use terms::Group;

// Commit list, abort list, commit proof, abort proof, proof from logs: 01's table, written out.
const ROWS: [[usize; 5]; 5] = [
    [4, 2, 6, 4, 5],
    [7, 3, 11, 7, 9],
    [10, 4, 16, 10, 13],
    [13, 5, 21, 13, 17],
    [16, 6, 26, 16, 21],
];

// How many of a row's five are the group's.
fn agreeing(row: [usize; 5], g: Group) -> usize {
    let own = [
        g.commit_list(),
        g.abort_list(),
        g.commit_proof(),
        g.abort_proof(),
        g.log_proof(),
    ];
    row.iter().zip(&own).filter(|(a, b)| a == b).count()
}

// One line: f, n, the row, and how many of the five agree.
fn show(rt: &impl Print, f: u64, row: [usize; 5], g: Group) -> io::Result<()> {
    let [a, b, c, d, e] = row;
    println!(rt;
        "{f}: n {}, thresholds {a} {b} {c} {d} {e}, agreeing {}",
        g.n(),
        agreeing(row, g)
    )
}

// The row of f, or the refusal's number.
fn row_of(rt: &impl Print, f: u64) -> io::Result<()> {
    match Group::of(f) {
        Ok(g) => {
            if (1..=5).contains(&f) {
                let i = (f - 1) as usize;
                let row = ROWS[i];
                show(rt, f, row, g)?;
            }
            Ok(())
        }
        Err(r) => println!(rt; "{f}: refused {}", r.number()),
    }
}

fn main(rt: HostRuntime) -> io::Result<()> {
    for f in 0..=6 {
        row_of(&rt, f)?;
    }
    Ok(())
}
