// Arrays of every make: flat arrays over memory of many lengths, defect arrays and stacks.
#![tactic(auto)]

mod flat_cases;
mod stack_cases;

use std::io;

fn main(rt: HostRuntime) -> io::Result<()> {
    flat_cases::run(&rt)?;
    stack_cases::run(&rt)
}
