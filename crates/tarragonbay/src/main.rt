// Prints the lines of the journal on standard input. As yet no layer reads journals, so the closing
// line stands alone, as for a journal with no record in it.
#![tactic(auto)]

use std::io::Read;

// The bytes of standard input that are read; what follows them is not.
const JOURNAL_BYTES: u64 = 65536;

fn run(rt: &HostRuntime) -> anyhow::Result<()> {
    let mut journal = Vec::new(rt.alloc());
    rt.stdin().take(JOURNAL_BYTES).read_to_end(&mut journal)?;
    println!(rt; "accepted 0 out 0 waiting 0")?;
    Ok(())
}

fn main(rt: HostRuntime) -> anyhow::Result<()> {
    run(&rt)
}
