// Documents that are made and run.
use crate::calls::{call, outcome, writes};
use node_core::Entry;
use settle_core::Network;
use std::alloc::Global;
use std::test::Fail;
use svc_value::ServiceId;

#[test]
fn a_small_load_is_summed_up(rt: HostRuntime) -> Result<(), Fail> {
    let line = "load services=3 changes=5 settles=1 faults=0 sum=2226\n";
    assert!(rt; writes(rt.alloc(), "load 3 5 1", "", 0, line)?);
    Ok(())
}

// How many values of a settled text are faults, and the sum of the others, which are whole numbers.
fn summed(settled: &str) -> (u64, i128) {
    let mut faults = 0u64;
    let mut sum = 0i128;
    for line in settled.lines() {
        let Some((name, value)) = line.split_once(' ') else {
            continue;
        };
        if name == "settle" {
            continue;
        }
        match value.parse::<i64>() {
            Ok(number) => sum = sum.wrapping_add(i128::from(number)),
            Err(_) => faults = faults.wrapping_add(1),
        }
    }
    (faults, sum)
}

// The line of a load that begins so, by the central evaluation of the document.
fn line_of(alloc: Global, front: &str, document: &str) -> Result<String, Fail> {
    let settled = call(alloc, "central", document)?;
    let (faults, sum) = summed(settled.text());
    Ok(format!(in alloc; "load {front} settles=1 faults={faults} sum={sum}\n")?)
}

fn central_line(alloc: Global, make: &str, front: &str) -> Result<String, Fail> {
    let made = call(alloc, make, "")?;
    line_of(alloc, front, made.text())
}

// Whether a load writes the line that the central evaluation of the same document gives, at each of two runs.
fn is_summed_up(alloc: Global, make: &str, load: &str, front: &str) -> Result<bool, Fail> {
    let line = central_line(alloc, make, front)?;
    writes_twice(alloc, load, line.as_str())
}

fn writes_twice(alloc: Global, words: &str, text: &str) -> Result<bool, Fail> {
    Ok(writes(alloc, words, "", 0, text)? && writes(alloc, words, "", 0, text)?)
}

#[test]
fn loads_are_summed_up_alike(rt: HostRuntime) -> Result<(), Fail> {
    let rows = [
        ("make 3 5 1", "load 3 5 1", "services=3 changes=5"),
        ("make 2 2 0", "load 2 2 0", "services=2 changes=2"),
        ("make 16 200 5", "load 16 200 5", "services=16 changes=200"),
        (
            "make 64 1024 7",
            "load 64 1024 7",
            "services=64 changes=1024",
        ),
    ];
    for (make, load, front) in rows {
        assert!(rt; is_summed_up(rt.alloc(), make, load, front)?, "{load}");
    }
    Ok(())
}

fn computations(log: &[Entry]) -> usize {
    let mut count = 0usize;
    for entry in log {
        if matches!(entry, Entry::Computed(_)) {
            count = count.wrapping_add(1);
        }
    }
    count
}

// The most computations that a log of the network has.
fn most_computations(network: &Network) -> usize {
    let mut most = 0;
    for number in 0..network.book().len() {
        most = most.max(computations(network.node(ServiceId(number as u16)).log()));
    }
    most
}

// The number of services of a load, and the most computations of a log.
fn load_counts(alloc: Global) -> Result<(usize, usize), Fail> {
    match outcome(alloc, "load 64 1024 7")?.network {
        Some(network) => Ok((network.book().len(), most_computations(&network))),
        None => Err("there is no network".into()),
    }
}

#[test]
fn logs_of_loads_have_few_computations(rt: HostRuntime) -> Result<(), Fail> {
    let (services, most) = load_counts(rt.alloc())?;
    assert_eq!(rt; services, 64);
    assert!(rt; most > 0 && most <= 1024, "{most}");
    Ok(())
}
