//! Lists what each step of a walk does to the triangles of a surface. The case comes on standard input.
#![tactic(auto)]

use std::io::Read;
use walk_trace::trace::trace;

fn main(rt: HostRuntime) -> anyhow::Result<()> {
    let mut file = Vec::new(rt.alloc());
    rt.stdin().read_to_end(&mut file)?;
    let text = trace(rt.alloc(), file.as_slice())?;
    print!(rt; "{text}")?;
    Ok(())
}
