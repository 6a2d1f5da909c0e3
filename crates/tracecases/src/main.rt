// Small traces, read and written: each line says what came out, for the gate to compare.
#![tactic(auto)]

mod reads;
mod writes;

use std::io;

fn main(rt: HostRuntime) -> io::Result<()> {
    reads::whole_records(&rt)?;
    reads::bad_records(&rt)?;
    reads::broken_example(&rt)?;
    writes::rooms(&rt)?;
    writes::rows(&rt)?;
    writes::worked_example(&rt)
}
