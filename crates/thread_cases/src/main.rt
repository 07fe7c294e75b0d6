// Draws bundles by lot, runs each on threads, and judges what is written: `thread_cases`, or `thread_cases COUNT SEED`, of so many
// bundles of up to 32 users from that seed on.
#![tactic(auto)]

mod counts;
mod dawdling;
mod drawing;
mod judging;
mod lots;
mod runs;

use anyhow::{Context, Result};
use counts::Counts;
use judging::judge;
use std::env;
use std::process::ExitCode;
use std::sync::Wait;
use std::thread::Threads;

/// How many bundles are drawn where no word says, and the most users of each.
const SOME: Plan = Plan {
    count: 20,
    seed: 1,
    most_users: 6,
};

/// How many bundles are drawn, from which seed on, and the most users of each.
#[derive(Clone, Copy, Debug)]
struct Plan {
    count: u64,
    seed: u64,
    most_users: u64,
}

fn number_in(word: &str) -> Result<u64> {
    word.parse().ok().context("no number")
}

// What the words of the process say.
fn plan_of(rt: &HostRuntime) -> Result<Option<Plan>> {
    let mut words = env::args(rt)?;
    let _name = words.next();
    match (words.next(), words.next()) {
        (Some(count), Some(seed)) => Ok(Some(Plan {
            count: number_in(count.as_str())?,
            seed: number_in(seed.as_str())?,
            most_users: 32,
        })),
        _ => Ok(None),
    }
}

/// What came of bundles: how many differ, how many have another output than their replay, and what their entries came to.
#[derive(Clone, Copy, Debug)]
struct Sum {
    differ: u64,
    other: u64,
    counts: Counts,
}

// Judges so many bundles. A line is printed for each that differs.
fn judge_all<R: Threads + Wait + Sync>(rt: &HostRuntime, threads: &R, plan: Plan) -> Result<Sum> {
    let mut sum = Sum {
        differ: 0,
        other: 0,
        counts: Counts::new(),
    };
    for at in 0..plan.count {
        let seed = plan.seed.wrapping_add(at);
        let judged = judge(threads, rt.alloc(), seed, plan.most_users)?;
        if judged.differs {
            sum.differ = sum.differ.saturating_add(1);
            println!(rt; "seed {seed}: differs")?;
        }
        if judged.is_other {
            sum.other = sum.other.saturating_add(1);
        }
        sum.counts.add(judged.counts);
    }
    Ok(sum)
}

// What entries came to, with their numbers where these are asked for or one of them is 0: they are others in each run.
fn print_counts(rt: &HostRuntime, counts: Counts, is_asked: bool) -> Result<()> {
    if counts.have_all() && !is_asked {
        println!(rt;
            "some replies, accesses that were held, that were abandoned, and offers that were matched again"
        )?;
        return Ok(());
    }
    let Counts {
        replies,
        held,
        abandoned,
        matched,
    } = counts;
    println!(rt;
        "{replies} replies, {held} accesses that were held, {abandoned} that were abandoned, {matched} acts that matched others again"
    )?;
    Ok(())
}

fn judged<R: Threads + Wait + Sync>(rt: &HostRuntime, threads: &R) -> Result<ExitCode> {
    let asked = plan_of(rt)?;
    let plan = asked.unwrap_or(SOME);
    let count = plan.count;
    let Sum {
        differ,
        other,
        counts,
    } = judge_all(rt, threads, plan)?;
    println!(rt; "{count} bundles on threads, of which {differ} differ")?;
    if asked.is_some() {
        println!(rt; "{other} have another output than their replay")?;
    }
    print_counts(rt, counts, asked.is_some())?;
    Ok(if differ == 0 && counts.have_all() {
        ExitCode::SUCCESS
    } else {
        ExitCode::FAILURE
    })
}

fn main(rt: HostRuntime) -> Result<ExitCode> {
    judged(&rt, &rt)
}
