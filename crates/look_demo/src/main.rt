//! Looks at the first hundred events of three desks: each is undone and executed again.
#![tactic(auto)]

use vt_desk::Desks;
use vt_lookup::look;
use vt_model::Config;

fn main(rt: HostRuntime) -> Result<(), anyhow::Error> {
    let config = Config::new(3, 1, 400, 1)?;
    let looked = look(rt.alloc(), &Desks, config, 100)?;
    println!(rt; "{looked} events can be undone")?;
    Ok(())
}
