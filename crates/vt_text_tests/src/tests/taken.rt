//! Options of a model whose names are taken.

use std::process::Abort;
use std::test::Fail;
use vt_options::{OwnOption, taken_name};

fn option_named(name: &'static str) -> OwnOption {
    OwnOption {
        name,
        least: 0,
        most: 9,
        default: 0,
        help: "",
    }
}

/// The name that is taken in a table of three.
fn taken_among(names: [&'static str; 3]) -> &'static str {
    let own = [
        option_named(names[0]),
        option_named(names[1]),
        option_named(names[2]),
    ];
    taken_name(&own).unwrap_or("")
}

fn expect(rt: &impl Abort, names: [&'static str; 3], wanted: &str) {
    let taken = taken_among(names);
    assert!(rt; taken == wanted, "{wanted}: {taken}");
}

/// The options of every model are those of `run` and `replay`, and help.
#[test]
fn general_names_are_taken(rt: HostRuntime) -> Result<(), Fail> {
    for name in [
        "synch", "workers", "lps", "end", "seed", "turns", "serial", "text", "help",
    ] {
        expect(&rt, ["gap", name, "link"], name);
        expect(&rt, ["gap", "link", name], name);
    }
    Ok(())
}

#[test]
fn names_of_the_table_are_taken(rt: HostRuntime) -> Result<(), Fail> {
    expect(&rt, ["gap", "link", "gap"], "gap");
    expect(&rt, ["gap", "link", "link"], "link");
    expect(&rt, ["link", "seed", "seed"], "seed");
    expect(&rt, ["gap", "link", "service"], "");
    expect(&rt, ["model", "seeds", "hel"], "");
    Ok(())
}
